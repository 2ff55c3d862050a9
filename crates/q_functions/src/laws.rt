//! A law of the functions, as the contract of a function that does nothing.

ghost use Rattle.q_functions.specs.Laws.{GivesWord};

pub fn law_words()
    ensures { GivesWord }
{}
