//! The verdict on a launch, whatever its work-items are.
#![tactic(auto)]

mod run;

pub use run::judge;
