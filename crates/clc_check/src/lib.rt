//! A program's typed tree, or the first typing rule that it violates; the number of a kernel.
#![tactic(auto)]

mod programs;

pub use programs::{check, kernel};
