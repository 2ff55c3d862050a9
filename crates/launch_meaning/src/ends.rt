//! How a work-item ends.

use crate::buffers::Buffers;
use footprint::Mark;
use sqlite_items::Items;

/// What an item leaves that comes to its end: the buffers, the bytes that it read and wrote, and how many turns it took.
#[derive(Drop)]
pub struct Ended {
    pub buffers: Buffers,
    pub marks: Items<Mark>,
    pub turns: u32,
}

/// How a work-item ends.
#[derive(Drop)]
pub enum ItemEnd {
    /// It comes to its end.
    Ends(Ended),
    /// Its first access out of bounds begins at this byte of the source, counted from 0.
    Bounds { at: u32 },
    /// It needs more turns than it is given.
    Spent,
}
