//! From a kernel's body to the structured form of one work-item.
#![tactic(auto)]

mod code;
mod functions;
mod operators;
mod pass;
mod pieces;
mod places;
mod scopes;
mod types;

pub use pass::build;
pub use pieces::Memory;
