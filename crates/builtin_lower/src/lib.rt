//! Compares, narrowing and built-in functions by plain operations.
#![tactic(auto)]

mod bits;
mod compare;
mod function;
mod laws;
mod narrow;
mod ones;
mod order;
mod pass;
mod product;
mod saturate;
mod steps;
mod walk;

pub use pass::{Memory, lower};
