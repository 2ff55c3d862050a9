//! Tokens and trees of a program as text, for rows of data that say how a source is read.
#![tactic(auto)]

mod spelling;
mod trees;

pub use spelling::{put_token, text_of};
pub use trees::program_text;
