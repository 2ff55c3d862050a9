//! Which bytes of numbered buffers are read and which are written, and the first byte at which two of these conflict.
#![tactic(auto)]

mod conflicts;
mod laws;
mod marks;
mod order;
mod reach;

pub use conflicts::conflict;
pub use laws::law_conflicts;
pub use marks::{Footprint, Mark, Memory, Use};
