//! The ids of a batch's lanes, and which lanes have an item.
#![tactic(auto)]

mod form;
mod pass;
mod steps;
mod uses;

pub use form::LaneProlog;
pub use pass::{Memory, map_ids};
