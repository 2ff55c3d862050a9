//! What the kernels of sources mean to those who judge launches of them. Definitions and a law.
#![tactic(auto)]

pub use crate::laws::law_meanings;

mod laws;
