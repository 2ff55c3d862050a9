//! From operations one after the other to pairs of them, each in one word.
#![tactic(auto)]

mod block;
mod bundles;
mod choose;
mod item;
mod last;

pub use bundles::{Memory, pack};
