//! The compiler as one call: from a source and the name of a kernel to a module that is faithful to it.
//! For now that kernel has no parameters and its body no statements; the source's other functions are checked alone.
#![tactic(auto)]

pub use crate::compiling::compile;
pub use crate::laws::{law_finishes, law_kernels, law_violations, law_wrong_modules};
pub use promise::{Refusal, SourceRule};

mod compiling;
mod laws;
mod words;
