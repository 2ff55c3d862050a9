//! Pairs of footprints, and the first byte at which they conflict.

use crate::rows::{Fault, Line, Rows, agree};
use crate::texts::word;
use footprint::{Footprint, Memory, conflict};
use std::alloc::Global;

/// Reads `footprints.txt`.
#[derive(Clone, Copy)]
pub struct Footprints;

impl Rows for Footprints {
    fn judge(&mut self, alloc: Global, line: &str) -> Result<Line, Fault> {
        let (pair, wanted) = line.split_once(" => ").ok_or(Fault::NoRow)?;
        let (one, other) = pair.split_once(" with ").ok_or(Fault::NoRow)?;
        let one = made(alloc, one)?;
        let other = made(alloc, other)?;
        let wanted = place(wanted).ok_or(Fault::NoRow)?;
        agree(alloc, &conflict(&one, &other), Some(wanted))?;
        agree(alloc, &conflict(&other, &one), Some(wanted))
    }
}

/// What is done with the bytes of a buffer from one number up to another.
#[derive(Clone, Copy)]
struct Added {
    writes: bool,
    buffer: u32,
    from: u32,
    to: u32,
}

/// `write 0 4..8`.
fn read_added(text: &str) -> Option<Added> {
    let (how, rest) = text.split_once(' ')?;
    let writes = match how {
        "write" => true,
        "read" => false,
        _ => return None,
    };
    let (buffer, range) = rest.split_once(' ')?;
    let (from, to) = range.split_once("..")?;
    Some(Added {
        writes,
        buffer: word(buffer)?,
        from: word(from)?,
        to: word(to)?,
    })
}

fn add(footprint: &mut Footprint, what: &Added) -> Result<(), Memory> {
    if what.writes {
        footprint.write(what.buffer, what.from, what.to)
    } else {
        footprint.read(what.buffer, what.from, what.to)
    }
}

fn made(alloc: Global, text: &str) -> Result<Footprint, Fault> {
    let mut footprint = Footprint::new(alloc);
    if text == "nothing" {
        return Ok(footprint);
    }
    for part in text.split(", ") {
        let what = read_added(part).ok_or(Fault::NoRow)?;
        add(&mut footprint, &what)?;
    }
    Ok(footprint)
}

/// A buffer and a byte of it, or none.
fn place(text: &str) -> Option<Option<(u32, u32)>> {
    if text == "none" {
        return Some(None);
    }
    let (buffer, byte) = text.split_once(" byte ")?;
    Some(Some((word(buffer.strip_prefix("buffer ")?)?, word(byte)?)))
}
