//! Laws of the operations and of the profile, each the contract of a function that does nothing.

ghost use Rattle.qpu_encode.specs.Laws.{AddGivesWord, MulGivesWord, UnpackGivesWord, SmallIsWord, FormInRange};

/// What the operations give of words, and what stands for an operand, is a word.
pub fn law_words()
    ensures add { AddGivesWord }
    ensures mul { MulGivesWord }
    ensures unpack { UnpackGivesWord }
    ensures small { SmallIsWord }
{}

/// The fields of a form in the profile fit their bits.
pub fn law_fields()
    ensures { FormInRange }
{}
