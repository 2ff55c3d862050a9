//! The front end as one call: from a source and the name of a kernel to the typed tree and the kinds of the kernel's parameters, or the first
//! rule that is violated.
#![tactic(auto)]

pub use crate::laws::law_judged_once;
pub use crate::wanted::{WantedKernel, front};

mod kinds;
mod laws;
mod sources;
mod wanted;
