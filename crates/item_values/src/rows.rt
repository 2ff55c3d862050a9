//! The bytes of buffers, and the elements of arrays.

ghost use Rattle.std.specs.Prelude.{◌≡◌, ◌+◌, ◌<◌, ◌≤◌, ◌^◌, [], OnOk, IfOk, length, replicate, slice_set};
ghost use Rattle.q_functions.specs.NumberFunctions.{bytes_of as bytes_of_type};
ghost use Rattle.item_meaning.specs.Places.{number_at, buffer_of, array_of, with_bytes};

use launch_meaning::Buffers;
use q_lane::Scalar;
use sqlite_items::Items;
use std::alloc::{AllocError, Global};
use std::marker::Model;

/// Stores the lowest `count` bytes of a word from byte `from` of a buffer on, the lowest first.
pub(crate) fn store_bytes(buffers: &mut Buffers, buffer: u32, from: u32, count: u32, word: u32)
    requires within { from + count ≤ length (buffer_of buffers.old buffer) }
    requires small { from + count < 2 ^ 32 }
    ensures { buffers.new ≡ with_bytes count buffers.old buffer from word }
{
    if count > 0 {
        buffers.set(buffer, from, (word % 0x100) as u8);
        store_bytes(buffers, buffer, from + 1, count - 1, word / 0x100);
    }
}

/// The elements of array variables, by the numbers of the variables. One that is no array has none.
#[derive(Drop)]
pub struct Arrays {
    rows: Vec<Items<u32>>,
}

impl Model for Arrays {
    ghost use Rattle.std.specs.Prelude.{ℕ, List};

    ghost Value = { List (List ℕ) };

    ghost view = { λ a. a.rows.items };
}

impl Arrays {
    /// `count` variables without elements.
    pub fn new(alloc: Global, count: usize) -> Result<Arrays, AllocError>
        ensures { IfOk result (λ a. a ≡ replicate count []) }
    {
        let mut rows = Vec::new(alloc);
        for i in 0..count {
            rows.push(Items::new(alloc))?;
        }
        Ok(Arrays { rows })
    }

    /// The elements of a variable.
    pub fn row(&self, var: u32) -> &[u32]
        ensures { result.now ≡ array_of self.now var }
    {
        match self.rows.get(var as usize) {
            Some(row) => row.as_slice(),
            None => &[],
        }
    }

    /// Writes an element.
    pub fn set(&mut self, var: u32, at: u32, word: u32)
        requires { at < length (array_of self.old var) }
        ensures { self.new ≡ slice_set self.old var (slice_set (array_of self.old var) at word) }
    {
        let k = var as usize;
        if k < self.rows.len() {
            self.rows[k].set(at as usize, word);
        }
    }

    /// Gives a variable `count` elements that are 0.
    pub fn clear(&mut self, alloc: Global, var: u32, count: u32) -> Result<(), AllocError>
        ensures { OnOk result (self.new ≡ slice_set self.old var (replicate count 0)) }
    {
        let zeros = Items::from_vec(vec![in alloc; 0; count as usize]?);
        let k = var as usize;
        if k < self.rows.len() {
            self.rows[k] = zeros;
        }
        Ok(())
    }
}

/// The word of an element's bytes, the lowest first.
pub(crate) fn word_at(bytes: &[u8], from: usize, scalar: Scalar) -> u32
    requires { from + bytes_of_type scalar ≤ length bytes.now }
    ensures { result ≡ number_at (bytes_of_type scalar) bytes.now from }
{
    match scalar {
        Scalar::Char | Scalar::Uchar => u32::from(bytes[from]),
        Scalar::Short | Scalar::Ushort => u32::from(bytes[from])
            + 0x100 * u32::from(bytes[from + 1]),
        Scalar::Int | Scalar::Uint => u32::from(bytes[from])
            + 0x100
                * (u32::from(bytes[from + 1])
                    + 0x100 * (u32::from(bytes[from + 2]) + 0x100 * u32::from(bytes[from + 3]))),
    }
}
