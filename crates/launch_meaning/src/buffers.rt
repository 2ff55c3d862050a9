//! The bytes of a launch's buffers.

ghost use Rattle.std.specs.Prelude.{◌≡◌, ◌<◌, ◌^◌, [], ◌∷◌, ◌++◌, length, slice_index_or, slice_set, OnOk, OnErr};

use sqlite_items::Items;
use std::alloc::{AllocError, Global};
use std::marker::Model;

/// The bytes of a buffer.
pub type Bytes = Items<u8>;

/// The bytes of each buffer of a launch, by the numbers of the buffers. Each buffer has fewer than 2^32.
#[derive(Drop)]
pub struct Buffers {
    rows: Vec<Bytes>,
}

impl Model for Buffers {
    ghost use Rattle.std.specs.Prelude.{ℕ, List};

    ghost Value = { List (List ℕ) };

    ghost use Rattle.launch_meaning.specs.Small.{AreSmall};

    ghost view = { λ b. b.rows.items };

    ghost invariant = { λ b. AreSmall b.rows.items };
}

impl Buffers {
    /// No buffers.
    pub fn new(alloc: Global) -> Buffers
        ensures { result ≡ [] }
    {
        Buffers {
            rows: Vec::new(alloc),
        }
    }

    /// Adds a buffer, which gets the next number.
    pub fn push(&mut self, bytes: Bytes) -> Result<(), AllocError>
        requires { length bytes < 2 ^ 32 }
        ensures ok { OnOk result (self.new ≡ self.old ++ bytes ∷ []) }
        ensures err { OnErr result (self.new ≡ self.old) }
    {
        self.rows.push(bytes)?;
        Ok(())
    }

    /// The buffers in the order of their numbers.
    pub fn into_vec(self) -> Vec<Bytes>
        ensures { result.items ≡ self }
    {
        let Buffers { rows } = self;
        rows
    }

    /// The bytes of a buffer, or none where there is no buffer of this number.
    pub fn row(&self, buffer: u32) -> &[u8]
        ensures bytes { result.now ≡ slice_index_or self.now buffer [] }
        ensures small { length result.now < 2 ^ 32 }
    {
        match self.rows.get(buffer as usize) {
            Some(row) => row.as_slice(),
            None => &[],
        }
    }

    /// Stores a byte at this place of a buffer.
    pub fn set(&mut self, buffer: u32, at: u32, byte: u8)
        requires { at < length (slice_index_or self.old buffer []) }
        ensures { self.new ≡ slice_set self.old buffer (slice_set (slice_index_or self.old buffer []) at byte) }
    {
        let k = buffer as usize;
        if k < self.rows.len() {
            self.rows[k].set(at as usize, byte);
        }
    }
}
