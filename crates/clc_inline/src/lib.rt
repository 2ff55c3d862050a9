//! A kernel with each call of a function replaced by the function's body.
#![tactic(auto)]

mod body;
mod kernel;
mod named;
mod number;
mod scopes;
mod setting;
mod whole;

pub use body::{Node, TExpr, TStmt};
pub use clc_counts::LimitFault;
pub use kernel::inline;
pub use whole::Body;
