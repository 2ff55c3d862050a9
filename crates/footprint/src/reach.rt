//! How far marks reach.

ghost use Rattle.std.specs.Prelude.{◌≡◌};

use crate::marks::{Mark, Use};

/// How far the reads and the writes reach of marks that were passed in their order, in the last buffer that has one.
#[derive(Clone, Copy)]
pub struct Reach {
    pub buffer: u32,
    pub read_to: u32,
    pub write_to: u32,
}

impl Reach {
    ghost use Rattle.footprint.specs.Reaches.{reach_with, meets};

    /// No mark was passed.
    pub(crate) fn none() -> Reach
        ensures { result ≡ record { buffer = 0; read_to = 0; write_to = 0 } }
    {
        Reach {
            buffer: 0,
            read_to: 0,
            write_to: 0,
        }
    }

    /// One mark more was passed.
    pub(crate) fn with_mark(self, mark: &Mark) -> Reach
        ensures { result ≡ reach_with self mark.now }
    {
        let mut reach = self;
        if reach.buffer != mark.buffer {
            reach = Reach {
                buffer: mark.buffer,
                read_to: 0,
                write_to: 0,
            };
        }
        match mark.how {
            Use::Read => reach.read_to = reach.read_to.max(mark.to),
            Use::Write => reach.write_to = reach.write_to.max(mark.to),
        }
        reach
    }

    /// Whether one of them conflicts with the next mark at its first byte.
    pub(crate) fn meets(self, mark: &Mark) -> bool
        ensures { result ≡ meets self mark.now }
    {
        if self.buffer != mark.buffer {
            return false;
        }
        match mark.how {
            Use::Read => mark.from < self.write_to,
            Use::Write => mark.from < self.write_to || mark.from < self.read_to,
        }
    }
}
