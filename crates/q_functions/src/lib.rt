//! What the built-in functions give, in the source and in the forms between it and the words.
#![tactic(auto)]

mod functions;
mod laws;
mod numbers;
mod work;

pub use functions::{NumberFunction, WorkFunction};
pub use laws::law_words;
pub use numbers::{bytes_of, is_signed, number_function};
pub use work::{Work, work_function, work_of};
