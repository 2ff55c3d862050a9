//! Files of rows, and what is told of them.

use std::alloc::{AllocError, Global};
use std::fmt::Debug;
use std::rt::Files;
use std::{fs, io};

/// What a line that is in order was: a row that holds, or a part of what the rows after it speak of.
#[derive(Clone, Copy)]
pub enum Line {
    Held,
    Taken,
}

/// What a line that isn't in order was: no row, or a row that is answered by this text instead. Or memory is wanting.
#[derive(Drop)]
pub enum Fault {
    NoRow,
    Differs(String),
    Memory(AllocError),
}

impl From<AllocError> for Fault {
    fn from(error: AllocError) -> Fault {
        Fault::Memory(error)
    }
}

/// What reads the lines of a file, one after the other.
pub trait Rows {
    fn judge(&mut self, alloc: Global, line: &str) -> Result<Line, Fault>;
}

/// A row's answer beside the one that it wants, which is none where the row's text is no answer.
pub fn agree<T: PartialEq + Debug + Drop>(
    alloc: Global,
    got: &T,
    wanted: Option<T>,
) -> Result<Line, Fault> {
    let Some(wanted) = wanted else {
        return Err(Fault::NoRow);
    };
    if *got == wanted {
        Ok(Line::Held)
    } else {
        Err(Fault::Differs(format!(in alloc; "{got:?}")?))
    }
}

/// Tells of each line of a file that isn't in order, and how many rows hold.
pub fn tell<R: Files + Print + AllocGlobal, J: Rows>(
    rt: &R,
    file: &str,
    rows: &mut J,
) -> io::Result<()> {
    let text = fs::read_to_string(rt, file)?;
    let mut held = 0u64;
    for (i, line) in text.lines().enumerate() {
        if line.is_empty() || line.starts_with('#') {
            continue;
        }
        let number = i.saturating_add(1);
        match rows.judge(rt.alloc(), line) {
            Ok(Line::Taken) => {}
            Ok(Line::Held) => held = held.saturating_add(1),
            Err(Fault::NoRow) => println!(rt; "{file} {number}: no row: {line}")?,
            Err(Fault::Differs(got)) => println!(rt; "{file} {number}: {line}, not {got}")?,
            Err(Fault::Memory(error)) => return Err(error.into()),
        }
    }
    println!(rt; "{file}: {held} rows hold")
}
