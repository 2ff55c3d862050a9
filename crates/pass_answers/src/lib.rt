//! What the passes make of a kernel, run by the machine and compared with what the kernel's source means.
#![tactic(auto)]

pub use crate::rows::PassRows;
pub use crate::shares::Shares;
pub use crate::trial::{Finding, Outcome, Trial, attempt};
pub use command_answers::RowFault;

mod judged;
mod launches;
mod report;
mod rows;
mod shares;
mod trial;
