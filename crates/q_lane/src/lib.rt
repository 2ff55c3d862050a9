//! What a word is, and what an operation on words and on vectors of words gives.
//!
//! The machine, the source language and every form between them mean these operations by these definitions.
#![tactic(auto)]

mod kinds;
mod lanes;
mod laws;
mod operations;
mod words;

pub use kinds::{Kind, Scalar};
pub use lanes::{Lanes, Mask16};
pub use laws::{law_choice, law_length, law_narrow, law_order, law_rotations, law_words};
pub use operations::{BinOp, UnOp};
pub use words::{apply, apply_one};
