//! The promise between those who compile and those who run: how a module's machine is opened, what kernels mean, when a module is faithful
//! to a kernel of a source, and what a compiler has to keep. Beside it what a judge has to keep, who says what a launch of a kernel does by
//! what its source means. Which sources are in the profile, what they mean, and when one violates a rule is a language's to
//! say. Only the names of the rules stand here, those of OpenCL C (`SourceRule`), since the program prints them.
#![tactic(auto)]

pub use crate::compiler::Compiler;
pub use crate::judged::JudgedKernel;
pub use crate::laws::{law_idle_launches, law_openings, law_settings};
pub use crate::refusal::{Refusal, SourceRule};

mod compiler;
mod judged;
mod laws;
mod refusal;
