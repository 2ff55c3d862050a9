//! What was done with the bytes of one buffer.

ghost use Rattle.std.specs.Prelude.{◌≡◌, ℕ, ◌<◌, ◌≤◌, ◌^◌, [], length, vec_len, OnOk};
ghost use Rattle.touches.specs.Touched.{part_touched, byte_in};
ghost use Rattle.touches.specs.First.{IsFirstInRow};

use crate::touch::Touch;
use footprint::Mark;
use std::alloc::{AllocError, Global};
use std::marker::Model;

/// A byte of a buffer at which two items race, and the two.
#[derive(Clone, Copy)]
pub struct RowRace {
    pub byte: u32,
    pub first: u32,
    pub second: u32,
}

/// What was done with each byte of a buffer, up to the last that was touched.
#[derive(Drop)]
pub struct Row {
    bytes: Vec<Touch>,
}

impl Model for Row {
    ghost use Rattle.std.specs.Prelude.{List, ◌<◌, ◌^◌, vec_len};
    ghost use Rattle.touches.specs.declared.touch.Touch.{Touch};

    ghost Value = { List Touch };

    ghost view = { λ row. row.bytes.items };

    ghost invariant = { λ row. vec_len row.bytes < 2 ^ 32 };
}

impl Row {
    /// No byte is touched.
    pub fn new(alloc: Global) -> Row
        ensures { result ≡ [] }
    {
        Row {
            bytes: Vec::new(alloc),
        }
    }

    /// An item, the last so far, reads or writes the bytes of a mark, of which there are some.
    pub fn touch(&mut self, item: u32, mark: &Mark) -> Result<(), AllocError>
        requires { mark.now.from < mark.now.to }
        ensures { OnOk result ((byte : ℕ) → byte_in self.new byte
            ≡ part_touched mark.now.from mark.now.to item mark.now.how byte (byte_in self.old byte)) }
    {
        grow(&mut self.bytes, mark.to)?;
        touch_each(&mut self.bytes, item, mark);
        Ok(())
    }

    /// The first byte at which two items race.
    pub fn first_race(&self) -> Option<RowRace>
        ensures { IsFirstInRow self.now result }
    {
        first_race_in(&self.bytes)
    }
}

/// Adds bytes that nothing touched, until there are at least so many.
fn grow(bytes: &mut Vec<Touch>, len: u32) -> Result<(), AllocError>
    requires { vec_len bytes.old < 2 ^ 32 }
    ensures small { vec_len bytes.new < 2 ^ 32 }
    ensures same { (byte : ℕ) → byte_in bytes.new.items byte ≡ byte_in bytes.old.items byte }
    ensures within { OnOk result (len ≤ vec_len bytes.new) }
{
    let count = len as usize;
    while bytes.len() < count {
        bytes.push(Touch::Untouched)?;
    }
    Ok(())
}

fn touch_each(bytes: &mut Vec<Touch>, item: u32, mark: &Mark)
    requires some { mark.now.from < mark.now.to }
    requires within { mark.now.to ≤ vec_len bytes.old }
    ensures len { vec_len bytes.new ≡ vec_len bytes.old }
    ensures touched { (byte : ℕ) → byte_in bytes.new.items byte
        ≡ part_touched mark.now.from mark.now.to item mark.now.how byte (byte_in bytes.old.items byte) }
{
    for at in mark.from as usize..mark.to as usize {
        let touch = bytes[at];
        bytes[at] = touch.touched(item, mark.how);
    }
}

fn first_race_in(bytes: &[Touch]) -> Option<RowRace>
    requires { length bytes.now < 2 ^ 32 }
    ensures { IsFirstInRow bytes.now result }
{
    for (at, touch) in bytes.iter().enumerate() {
        if let Touch::Raced { first, second } = *touch {
            return Some(RowRace {
                byte: at as u32,
                first,
                second,
            });
        }
    }
    None
}
