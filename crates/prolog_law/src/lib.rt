//! The values that a prolog defines are the ids of each lane's item.
#![tactic(auto)]

ghost use Rattle.prolog_law.specs.Laws.{PrologsRight, PrologsAreShort};
ghost use Rattle.prolog_law.specs.Numbers.{WordsDivide};

/// A word's remainder and quotient are those of numbers.
pub fn law_words_divide()
    ensures { WordsDivide }
{}

/// A prolog always ends, and its values are the ids of the items.
pub fn law_prolog()
    ensures { PrologsRight }
{}

/// A prolog takes at most 8,133 operations.
pub fn law_steps()
    ensures { PrologsAreShort }
{}
