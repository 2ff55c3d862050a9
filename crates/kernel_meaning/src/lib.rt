//! What a launch of a kernel does, as a verdict.
#![tactic(auto)]

mod items;
mod verdicts;

pub use launch_meaning::{Bytes, Verdict};
pub use verdicts::judge;
