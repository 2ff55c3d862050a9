//! What holds of the grammar: its readers are exact, a proper tree is spelled with its own tokens, and a list of tokens
//! has one tree at most.
#![tactic(auto)]

mod laws;

pub use laws::{law_one_tree, law_spelling};
