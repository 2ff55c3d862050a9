//! Laws, each the contract of a function that does nothing.

ghost use Rattle.clc_front.specs.Laws.{SourcesAreJudgedOnce};

/// A source has one first violation at most for a kernel's name, or else one typed tree and one kernel in it, and not both.
pub fn law_judged_once()
    ensures { SourcesAreJudgedOnce }
{}
