//! Laws, each the contract of a function that does nothing.

ghost use Rattle.promise.specs.Laws.{MeaningsAreOne};
ghost use Rattle.clc_meanings.specs.Meanings.{opencl_meanings};

/// A source has one meaning of a kernel's name at most, or else one first violation at most, and not both.
pub fn law_meanings()
    ensures { MeaningsAreOne opencl_meanings }
{}
