//! The tokens of a tree in order, whether it is proper or not.
#![tactic(auto)]

mod program_tokens;
mod statement_tokens;
mod tokens;

pub use program_tokens::flat;
pub use tokens::Memory;
