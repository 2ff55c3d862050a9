//! Operations over the files and accumulators of a QPU, alone and in pairs.
#![tactic(auto)]

mod form;
mod place;
mod whole;

pub use form::{BundleBlock, PDst, PSrc, Pair, PhysBlock, Pop};
pub use place::{Acc, RegA, RegB};
pub use whole::{Bundles, PhysIr};
