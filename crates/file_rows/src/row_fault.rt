//! Why a row has no answer.

use hex::FromHexError;
use std::alloc::{AllocError, AllocFailed};

#[derive(Clone, Copy)]
pub enum RowFault {
    /// The text is no call of its file's kind.
    NoRow,
    /// There was no memory.
    Memory,
}

impl From<AllocError> for RowFault {
    fn from(_error: AllocError) -> RowFault {
        RowFault::Memory
    }
}

impl<T: Drop> From<AllocFailed<T>> for RowFault {
    fn from(_error: AllocFailed<T>) -> RowFault {
        RowFault::Memory
    }
}

impl From<FromHexError> for RowFault {
    fn from(error: FromHexError) -> RowFault {
        match error {
            FromHexError::OutOfMemory => RowFault::Memory,
            _ => RowFault::NoRow,
        }
    }
}
