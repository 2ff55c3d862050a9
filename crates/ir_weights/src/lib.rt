//! How much the form of one item may weigh further down. Definitions, and the law that the weight of a text is a sum.
#![tactic(auto)]

ghost use Rattle.ir_weights.specs.Weights.{TextsAreSummed};

/// The text of one list behind another weighs what both do.
pub fn law_joined()
    ensures { TextsAreSummed }
{}
