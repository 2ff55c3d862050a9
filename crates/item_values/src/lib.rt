//! Values of expressions and the state of a work-item that runs, with what operators, reads and writes make of them.
#![tactic(auto)]

mod builtins;
mod operators;
mod places;
mod rows;
mod running;
mod stop;
mod types;

pub use builtins::builtin;
pub use operators::{combined, converted, operator_in, prefixed, stepped, truth};
pub use places::{index_place, read, write};
pub use rows::Arrays;
pub use running::{Frame, Running};
pub use stop::{Stop, memory};
pub use types::{scalar_of, type_after};
