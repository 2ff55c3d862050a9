//! What the typing rules give is a well-typed tree. No code stands here.
#![tactic(auto)]

mod laws;

pub use laws::law_well_typed;
