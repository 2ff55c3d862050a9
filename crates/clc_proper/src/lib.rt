//! Which trees are proper: those that the grammar spells.
#![tactic(auto)]

mod checks;
mod program_checks;
mod statement_checks;

pub use program_checks::proper;
