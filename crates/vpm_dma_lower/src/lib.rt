//! The code of each access of a batch: loads, stores and private arrays.
#![tactic(auto)]

mod access;
mod blocks;
mod elements;
mod list;
mod names;
mod operations;
mod parts;
mod walk;

pub use access::Access;
pub use list::AccessList;
pub use walk::{Memory, accesses};
