//! What holds of proper trees and their tokens, as the contracts of calls that do nothing.

ghost use Rattle.clc_tree.specs.SourceText.{HasOneTree, IsSpelledFlat};

/// Two proper trees with the same tokens are the same tree.
pub fn law_one_tree()
    ensures { HasOneTree }
{}

/// The grammar spells a proper tree with the tokens that `flat` gives.
pub fn law_spelling()
    ensures { IsSpelledFlat }
{}
