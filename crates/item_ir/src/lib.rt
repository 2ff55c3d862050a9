//! The structured form of one work-item: values, variables, private arrays and accesses to memory, with branches, loops and scopes.
#![tactic(auto)]

mod form;
mod ir;
mod meant;

pub use form::{Def, Stmt, Val};
pub use ir::Ir;
pub use meant::definitions;
