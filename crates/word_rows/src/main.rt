//! Reads the rows of the files below, and tells which calls answer otherwise than their row says.
//!
//! A row is a call with its arguments, then ` => ` and what it gives. Lines that begin with `#` are notes, and the first ones say what the
//! rows of the file are.
#![tactic(auto)]

mod accesses;
mod forms;
mod lanes;
mod laws;
mod lines;
mod moves;
mod parts;
mod queues;
mod regions;
mod rules;
mod setups;
mod texts;
mod uses;
mod values;
mod vectors;
mod words;

use parts::{Fault, Parts};
use std::alloc::{AllocError, Global};
use std::{fs, io};

/// A file of rows of one kind.
#[derive(Clone, Copy)]
enum File {
    Lanes,
    Vectors,
    Words,
    Fields,
    Lines,
    Values,
    Setups,
    Regions,
    Accesses,
    Queues,
    Moves,
    Rules,
    Uses,
}

const FILES: [File; 13] = [
    File::Lanes,
    File::Vectors,
    File::Words,
    File::Fields,
    File::Lines,
    File::Values,
    File::Setups,
    File::Regions,
    File::Accesses,
    File::Queues,
    File::Moves,
    File::Rules,
    File::Uses,
];

impl File {
    fn name(self) -> &'static str {
        match self {
            File::Lanes => "lanes.txt",
            File::Vectors => "vectors.txt",
            File::Words => "words.txt",
            File::Fields => "fields.txt",
            File::Lines => "lines.txt",
            File::Values => "values.txt",
            File::Setups => "setups.txt",
            File::Regions => "regions.txt",
            File::Accesses => "accesses.txt",
            File::Queues => "queues.txt",
            File::Moves => "moves.txt",
            File::Rules => "rules.txt",
            File::Uses => "uses.txt",
        }
    }

    /// What a call of this file gives.
    fn answer(self, alloc: Global, parts: &mut Parts<'_>) -> Result<String, Fault> {
        match self {
            File::Lanes => lanes::answer(alloc, parts),
            File::Vectors => vectors::answer(alloc, parts),
            File::Words => words::answer(alloc, parts),
            File::Fields => words::answer_of_field(alloc, parts),
            File::Lines => lines::answer(alloc, parts),
            File::Values => values::answer(alloc, parts),
            File::Setups => setups::answer(alloc, parts),
            File::Regions => regions::answer(alloc, parts),
            File::Accesses => accesses::answer(alloc, parts),
            File::Queues => queues::answer(alloc, parts),
            File::Moves => moves::answer(alloc, parts),
            File::Rules => rules::answer(alloc, parts),
            File::Uses => uses::answer(alloc, parts),
        }
    }
}

/// What a call gives that is whole, with nothing after its arguments.
fn answer(alloc: Global, file: File, call: &str) -> Result<String, Fault> {
    let mut parts = Parts::new(call);
    let text = file.answer(alloc, &mut parts)?;
    parts.end()?;
    Ok(text)
}

/// What a call gives, where it isn't what is wanted.
fn difference(
    alloc: Global,
    file: File,
    call: &str,
    wanted: &str,
) -> Result<Option<String>, Fault> {
    let got = answer(alloc, file, call)?;
    if got.as_str() == wanted {
        Ok(None)
    } else {
        Ok(Some(format!(in alloc; "not {got}")?))
    }
}

/// What is wrong with a row.
fn complaint(alloc: Global, file: File, row: &str) -> Result<Option<String>, AllocError> {
    let answer = match row.split_once(" => ") {
        Some((call, wanted)) => difference(alloc, file, call, wanted),
        None => Err(Fault::NoRow),
    };
    match answer {
        Ok(difference) => Ok(difference),
        Err(Fault::NoRow) => Ok(Some(String::from_str(alloc, "no row")?)),
        Err(Fault::Memory) => Err(AllocError),
    }
}

fn compare(rt: &impl Print, alloc: Global, file: File, rows: &str) -> io::Result<()> {
    let name = file.name();
    let mut line = 0_u64;
    let mut held = 0_u64;
    for row in rows.lines() {
        line = line.saturating_add(1);
        if row.starts_with('#') {
            continue;
        }
        match complaint(alloc, file, row)? {
            None => held = held.saturating_add(1),
            Some(complaint) => println!(rt; "{name} {line}: {row}: {complaint}")?,
        }
    }
    println!(rt; "{name}: {held} rows hold")
}

fn main(rt: HostRuntime) -> io::Result<()> {
    laws::call_each();
    for file in FILES {
        let rows = fs::read_to_string(&rt, file.name())?;
        compare(&rt, rt.alloc(), file, rows.as_str())?;
    }
    Ok(())
}
