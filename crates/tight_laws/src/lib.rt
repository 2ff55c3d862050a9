//! That the tests of tight code speak of words as the machine's restrictions do. Laws alone.
#![tactic(auto)]

mod laws;

pub use laws::{law_accesses, law_clashes, law_kinds};
