//! The form of a batch of sixteen work-items, in which each value is a word for each lane.
#![tactic(auto)]

mod form;
mod ir;
mod laws;
mod recipe;

pub use form::LaneStmt;
pub use ir::LaneIr;
pub use recipe::{Act, Source, Step, defined, put_defining, put_steps, with_temporaries};
