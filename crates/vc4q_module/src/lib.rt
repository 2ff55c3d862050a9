//! Module files, whole: a program's words with the scratch rows and the kinds of the parameters that it needs.
//!
//! Numbers are little-endian.
//!
//! | From | Bytes | What |
//! |---|---|---|
//! | 0 | 4 | `VC4Q` |
//! | 4 | 4 | the version, 1 |
//! | 8 | 4 | the rows of scratch, at most 262,144 |
//! | 12 | 4 | the number of words, 1 to 16,777,216 |
//! | 16 | 4 | the number of parameters, at most 16 |
//! | 20 | 16 | the kinds of the parameters, and 255 in the bytes that are left |
//! | 36 | 4 | 0 |
//! | 40 | 8 a word | the words |
#![tactic(auto)]

mod fault;
mod laws;
mod module;
mod reading;
mod writing;

pub use fault::ModFault;
pub use laws::{law_bytes, law_limits, law_spelling};
pub use module::{Memory, Module};
pub use q_lane::{Kind, Scalar};
pub use reading::read;
pub use writing::write;
