//! From the structured form of one item to the form of a batch, by masks.
#![tactic(auto)]

mod branching;
mod heights;
mod leaving;
mod pass;
mod place;
mod put;
mod works;
mod writing;

pub use pass::{Memory, mask};
