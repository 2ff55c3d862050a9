//! Quotients and remainders by shifts, comparisons, sums and differences.
#![tactic(auto)]

mod divide;
mod laws;
mod pass;
mod walk;

pub use pass::{Memory, expand};
