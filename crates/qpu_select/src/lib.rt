//! A batch's statements as operations over registers, and the loop over the batches of a QPU.
#![tactic(auto)]

mod blocks;
mod body;
mod clears;
mod emitted;
mod lets;
mod naming;
mod namings;
mod registers;
mod shape;
mod walk;
mod whole;

pub use registers::Memory;
pub use whole::select;
