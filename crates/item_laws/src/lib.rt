//! What the meaning of one item's form depends on, what it leaves alone, and what it gives for small pieces of code. Laws alone.
#![tactic(auto)]

mod laws;

pub use laws::{law_local, law_overlaid, law_rows};
