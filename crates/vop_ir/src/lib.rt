//! Operations over numbered registers in labelled blocks, as one QPU does them alone.
#![tactic(auto)]

mod form;
mod ir;
mod operations;

pub use form::{Dst, Exit, Op, Src, Turn, Vop, VopBlock};
pub use ir::VopIr;
pub use operations::{copy, flagged, plain, where_set, where_zero};
