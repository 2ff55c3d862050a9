//! Runs the commands of the files of rows over files and output in memory, and tells which of them answer otherwise than their rows say.
//!
//! `names.txt` says what a line may be.
#![tactic(auto)]

use command_answers::{RowFault, Rows};
use std::alloc::AllocError;
use std::rt::Files;
use std::{fs, io};

/// The files of rows. The names of the first hold in all of them.
const ROW_FILES: [&str; 12] = [
    "names.txt",
    "words.txt",
    "runs.txt",
    "sources.txt",
    "launches.txt",
    "modules.txt",
    "judge.txt",
    "turns.txt",
    "values.txt",
    "verdicts.txt",
    "listings.txt",
    "faults.txt",
];

/// Takes one line, and tells which of its rows don't hold.
fn tell_line<R: Print>(
    rt: &R,
    rows: &mut Rows,
    file: &str,
    number: usize,
    line: &str,
) -> io::Result<()> {
    match rows.take_line(line) {
        Ok(()) => {}
        Err(RowFault::NoRow) => println!(rt; "{file}:{number}: no row: {line}")?,
        Err(RowFault::Memory) => return Err(io::Error::from(AllocError)),
    }
    for difference in rows.differences() {
        println!(rt; "{file}:{number}: {difference}")?;
    }
    Ok(())
}

/// Takes a file of rows.
fn tell_file<R: Files + Print + AllocGlobal>(
    rt: &R,
    rows: &mut Rows,
    file: &str,
) -> io::Result<()> {
    let text = fs::read_to_string(rt, file)?;
    rows.begin_file();
    for (at, line) in text.lines().enumerate() {
        tell_line(rt, rows, file, at.saturating_add(1), line)?;
    }
    let held = rows.held();
    println!(rt; "{file}: {held} rows hold")
}

fn main(rt: HostRuntime) -> io::Result<()> {
    let mut rows = Rows::new(rt.alloc());
    for file in ROW_FILES {
        tell_file(&rt, &mut rows, file)?;
    }
    Ok(())
}
