//! Which restriction of the processor a word breaks.
#![tactic(auto)]

mod access;
mod laws;
mod recent;
mod registers;
mod rules;

pub use access::{access_of, goes_out};
pub use laws::{law_accs, law_early};
pub use recent::{Recent, Written, written_by};
pub use registers::{Target, branches, ends, target_of_add, target_of_mul, turns};
pub use rules::first_broken;
pub use vpm_words::{Access, Owner, Rule, Seen};
