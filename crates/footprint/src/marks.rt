//! The bytes that are read and the bytes that are written, kept as marked ranges.

ghost use Rattle.std.specs.Prelude.{◌≡◌, ℕ, ◌<◌, ◌≤◌, OnOk, OnErr, IsOk, [], length, IsTrue, ◌↔◌};

use crate::order::place_of;
use std::alloc::{AllocError, Global};
use std::marker::Model;

/// What is answered where memory is wanting.
pub type Memory = AllocError;

/// What is done with a byte.
#[derive(Clone, Copy, Debug, PartialEq, Eq)]
pub enum Use {
    Read,
    Write,
}

/// The bytes of a buffer from `from` up to `to`, without `to`, and what is done with them.
#[derive(Clone, Copy)]
pub struct Mark {
    pub how: Use,
    pub buffer: u32,
    pub from: u32,
    pub to: u32,
}

impl Mark {
    ghost use Rattle.footprint.specs.Order.{IsNoLater};

    /// Whether it begins in a lesser buffer, or in the same one at no later byte.
    pub(crate) fn is_no_later(&self, other: &Mark) -> bool
        ensures { IsTrue result ↔ IsNoLater self.now other.now }
    {
        self.buffer < other.buffer || self.buffer == other.buffer && self.from <= other.from
    }
}

/// The bytes of numbered buffers that are read and those that are written, by a work-item or a QPU.
///
/// The bytes of a buffer count from 0. The order of the calls and what they add twice make no difference. The marks are
/// kept in the order of their buffers and their first bytes.
#[derive(Drop)]
pub struct Footprint {
    pub(crate) marks: Vec<Mark>,
}

impl Model for Footprint {
    ghost use Rattle.std.specs.Prelude.{List};
    ghost use Rattle.footprint.specs.declared.marks.Mark.{Mark};

    ghost Value = { List Mark };

    ghost view = { λ f. f.marks.items };

    ghost use Rattle.footprint.specs.Order.{IsOrdered};

    ghost invariant = { λ f. IsOrdered f.marks.items };
}

impl Footprint {
    ghost use Rattle.footprint.specs.Marks.{Adds};

    /// No byte is read or written. Takes no memory; later calls take it from `alloc`.
    pub fn new(alloc: Global) -> Footprint
        ensures { result ≡ [] }
    {
        Footprint {
            marks: Vec::new(alloc),
        }
    }

    /// Adds reads of the bytes of a buffer from `from` up to `to`, without `to`. Refused, it changes nothing. Where
    /// `to` isn't above `from` there are no such bytes, and no memory is taken.
    pub fn read(&mut self, buffer: u32, from: u32, to: u32) -> Result<(), Memory>
        ensures ok { OnOk result (Adds Use.Read buffer from to self.old self.new) }
        ensures err { OnErr result (self.new ≡ self.old) }
        ensures no_bytes { to ≤ from → IsOk result × (self.new ≡ self.old) }
    {
        self.add(Use::Read, buffer, from, to)
    }

    /// Adds writes of the bytes of a buffer from `from` up to `to`, without `to`. Refused, it changes nothing. Where
    /// `to` isn't above `from` there are no such bytes, and no memory is taken.
    pub fn write(&mut self, buffer: u32, from: u32, to: u32) -> Result<(), Memory>
        ensures ok { OnOk result (Adds Use.Write buffer from to self.old self.new) }
        ensures err { OnErr result (self.new ≡ self.old) }
        ensures no_bytes { to ≤ from → IsOk result × (self.new ≡ self.old) }
    {
        self.add(Use::Write, buffer, from, to)
    }

    fn add(&mut self, how: Use, buffer: u32, from: u32, to: u32) -> Result<(), Memory>
        ensures ok { OnOk result (Adds how buffer from to self.old self.new) }
        ensures err { OnErr result (self.new ≡ self.old) }
        ensures no_bytes { to ≤ from → IsOk result × (self.new ≡ self.old) }
    {
        if from < to {
            let mark = Mark {
                how,
                buffer,
                from,
                to,
            };
            let at = place_of(&self.marks, &mark);
            self.marks.insert(at, mark)?;
        }
        Ok(())
    }
}
