//! What a typed program does for one work-item, as a definition.
#![tactic(auto)]

pub mod rows;
mod values;

pub use values::{Flow, Place, Value};
