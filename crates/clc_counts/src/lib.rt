//! How many nodes a kernel has and how many elements its private arrays have, and the limits of both.
#![tactic(auto)]

mod count;
mod limits;
mod tally;

pub use limits::{LimitFault, kernel_tally};
pub use tally::Tally;
