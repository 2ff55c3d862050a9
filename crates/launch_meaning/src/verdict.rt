//! What is said of a launch.

use crate::buffers::Bytes;

/// A byte of a buffer that one of two work-items writes and the other reads or writes. The items go by their flat ids.
#[derive(Clone, Copy, Debug, PartialEq, Eq)]
pub struct Clash {
    pub buffer: u32,
    pub byte: u32,
    pub first: u32,
    pub second: u32,
}

/// The verdict on a launch.
#[derive(Drop)]
pub enum Verdict {
    /// Each item came to its end, and no two of them race: all turns together, and the last buffers.
    Safe {
        turns: u64,
        buffers: Vec<Bytes>,
    },
    /// The least race: the least byte of the least buffer, and at it the least pair of items.
    Race {
        buffer: u32,
        byte: u32,
        first: u32,
        second: u32,
    },
    /// This item is the first that doesn't come to its end. Its first access out of bounds begins at this byte of the
    /// source, counted from 0.
    Bounds {
        item: u32,
        at: u32,
    },
    /// This item is the first that doesn't come to its end. It needs more turns.
    Spent {
        item: u32,
    },
}
