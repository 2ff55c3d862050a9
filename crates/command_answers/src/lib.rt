//! What the commands answer to the lines of the files of rows. These functions stand in a library, so that they are proved once and not with each run of
//! the program that reads the files.
#![tactic(auto)]

pub use crate::fault::RowFault;
pub use crate::rows::Rows;
pub use crate::value::{Names, bytes_of};

mod answers;
mod case;
mod fault;
mod longer;
mod rows;
mod value;
