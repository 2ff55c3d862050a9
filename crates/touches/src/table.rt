//! What was done with the bytes of each buffer.

ghost use Rattle.std.specs.Prelude.{◌≡◌, ℕ, ◌<◌, ◌≤◌, ◌^◌, length, vec_len, OnOk};
ghost use Rattle.touches.specs.Touched.{after_mark, after_marks, byte_of};
ghost use Rattle.touches.specs.First.{IsFirstInTable};

use crate::row::Row;
use footprint::Mark;
use launch_meaning::Clash;
use std::alloc::{AllocError, Global};

/// An item, the last so far, reads or writes the bytes of these marks.
pub(crate) fn touch_all(
    rows: &mut Vec<Row>,
    alloc: Global,
    item: u32,
    marks: &[Mark],
) -> Result<(), AllocError>
    requires { vec_len rows.old ≤ 2 ^ 32 }
    ensures few { OnOk result (vec_len rows.new ≤ 2 ^ 32) }
    ensures touched { OnOk result ((buffer byte : ℕ) → byte_of rows.new.items buffer byte ≡ after_marks marks.now item buffer byte (byte_of rows.old.items buffer byte)) }
{
    for mark in marks {
        touch_mark(rows, alloc, item, mark)?;
    }
    Ok(())
}

fn touch_mark(rows: &mut Vec<Row>, alloc: Global, item: u32, mark: &Mark) -> Result<(), AllocError>
    requires { vec_len rows.old ≤ 2 ^ 32 }
    ensures few { OnOk result (vec_len rows.new ≤ 2 ^ 32) }
    ensures touched { OnOk result ((buffer byte : ℕ) → byte_of rows.new.items buffer byte ≡ after_mark mark.now item buffer byte (byte_of rows.old.items buffer byte)) }
{
    if mark.from < mark.to {
        add_rows(rows, alloc, mark.buffer)?;
        touch_row(rows, item, mark)
    } else {
        Ok(())
    }
}

/// Adds rows in which nothing is touched, until this buffer has one.
fn add_rows(rows: &mut Vec<Row>, alloc: Global, buffer: u32) -> Result<(), AllocError>
    requires { vec_len rows.old ≤ 2 ^ 32 }
    ensures few { OnOk result (vec_len rows.new ≤ 2 ^ 32) }
    ensures same { OnOk result ((other byte : ℕ) → byte_of rows.new.items other byte ≡ byte_of rows.old.items other byte) }
    ensures within { OnOk result (buffer < vec_len rows.new) }
{
    let index = buffer as usize;
    while rows.len() <= index {
        rows.push(Row::new(alloc))?;
    }
    Ok(())
}

fn touch_row(rows: &mut Vec<Row>, item: u32, mark: &Mark) -> Result<(), AllocError>
    requires some { mark.now.from < mark.now.to }
    requires within { mark.now.buffer < vec_len rows.old }
    ensures len { OnOk result (vec_len rows.new ≡ vec_len rows.old) }
    ensures touched { OnOk result ((buffer byte : ℕ) → byte_of rows.new.items buffer byte ≡ after_mark mark.now item buffer byte (byte_of rows.old.items buffer byte)) }
{
    let row = &mut rows[mark.buffer as usize];
    row.touch(item, mark)
}

/// The first byte, by its buffer and then by its place in it, at which two items race.
pub(crate) fn first_race(rows: &[Row]) -> Option<Clash>
    requires { length rows.now ≤ 2 ^ 32 }
    ensures { IsFirstInTable rows.now result }
{
    for (at, row) in rows.iter().enumerate() {
        if let Some(race) = row.first_race() {
            return Some(Clash {
                buffer: at as u32,
                byte: race.byte,
                first: race.first,
                second: race.second,
            });
        }
    }
    None
}
