//! Compiles the kernels of files of rows by the passes, runs them, and tells which of them leave other buffers than their sources mean, or are otherwise not
//! what their rows say.
//!
//! With three words, SOURCE KERNEL LAUNCH, it does so for one launch of a kernel, of which these are files. `names.txt` says what a line of rows may be.
#![tactic(auto)]

mod one;

use one::tell_one;
use pass_answers::{PassRows, RowFault};
use std::alloc::AllocError;
use std::rt::Files;
use std::{env, fs, io};

/// The files of rows. The names of the first hold in all of them.
const ROW_FILES: [&str; 6] = [
    "names.txt",
    "launches.txt",
    "operators.txt",
    "functions.txt",
    "control.txt",
    "memory.txt",
];

/// Takes one line, and tells which of its rows don't hold.
fn tell_line<R: Print>(
    rt: &R,
    rows: &mut PassRows,
    file: &str,
    number: usize,
    line: &str,
) -> io::Result<()> {
    match rows.take_line(line) {
        Ok(()) => {}
        Err(RowFault::NoRow) => println!(rt; "{file}:{number}: no row: {line}")?,
        Err(RowFault::Memory) => return Err(io::Error::from(AllocError)),
    }
    for difference in rows.differences() {
        println!(rt; "{file}:{number}: {difference}")?;
    }
    Ok(())
}

/// Takes a file of rows.
fn tell_file<R: Files + Print + AllocGlobal>(
    rt: &R,
    rows: &mut PassRows,
    file: &str,
) -> io::Result<()> {
    let text = fs::read_to_string(rt, file)?;
    rows.begin_file();
    for (at, line) in text.lines().enumerate() {
        tell_line(rt, rows, file, at.saturating_add(1), line)?;
    }
    let held = rows.held();
    println!(rt; "{file}: {held} rows hold")
}

fn tell_files<R: Files + Print + AllocGlobal>(rt: &R, alloc: std::alloc::Global) -> io::Result<()> {
    let mut rows = PassRows::new(alloc);
    for file in ROW_FILES {
        tell_file(rt, &mut rows, file)?;
    }
    Ok(())
}

fn main(rt: HostRuntime) -> io::Result<()> {
    let mut words = Vec::new(rt.alloc());
    for word in env::args(&rt)?.skip(1) {
        words.push(word)?;
    }
    match words.as_slice() {
        [source, kernel, launch] => tell_one(&rt, rt.alloc(), source, kernel, launch),
        _ => tell_files(&rt, rt.alloc()),
    }
}
