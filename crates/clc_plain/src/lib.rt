//! What the typing rules give has an expression or a declaration first in each `for`. A law alone.
#![tactic(auto)]

ghost use Rattle.clc_plain.specs.ArePlain.{TypedTreesArePlain};

/// The typed tree of each program has an expression or a declaration first in each `for`.
pub fn law_plain()
    ensures { TypedTreesArePlain }
{}
