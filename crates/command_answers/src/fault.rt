//! Why a line isn't taken.

use hex::FromHexError;
use std::alloc::{AllocError, AllocFailed};
use std::num::ParseIntError;

#[derive(Debug, Drop)]
pub enum RowFault {
    /// The line has no form.
    NoRow,
    /// Memory was wanting.
    Memory,
}

impl From<AllocError> for RowFault {
    fn from(_error: AllocError) -> RowFault {
        RowFault::Memory
    }
}

impl<T: Drop> From<AllocFailed<T>> for RowFault {
    fn from(_error: AllocFailed<T>) -> RowFault {
        RowFault::Memory
    }
}

impl From<ParseIntError> for RowFault {
    fn from(_error: ParseIntError) -> RowFault {
        RowFault::NoRow
    }
}

impl From<FromHexError> for RowFault {
    fn from(error: FromHexError) -> RowFault {
        match error {
            FromHexError::OutOfMemory => RowFault::Memory,
            _ => RowFault::NoRow,
        }
    }
}
