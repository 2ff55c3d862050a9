//! Answers each row of files of rows on sources: their tokens, their trees, and what the compiler makes of them; and tells which rows are answered
//! otherwise than they say.
//!
//! A row is a text, ` => ` and the wanted answer. Lines that begin with `#` are notes, which say at the head of each file what its rows hold.
#![tactic(auto)]

mod compiled;

use compiled::{first_violation, module_of};
use source_answers::{Kind, answer};
use std::alloc::{AllocError, Global};
use std::rt::Files;
use std::{fs, io};

/// What the rows of a file ask for.
#[derive(Clone, Copy)]
enum Asked {
    /// What is read of a text.
    Text(Kind),
    /// The first rule on bytes, of the grammar or of types that a source violates.
    Violation,
    /// The module of a kernel of a source.
    Module,
}

/// The files of rows.
const ROW_FILES: [(&str, Asked); 7] = [
    ("tokens.txt", Asked::Text(Kind::Tokens)),
    ("calls.txt", Asked::Text(Kind::Call)),
    ("grammar.txt", Asked::Text(Kind::Grammar)),
    ("trees.txt", Asked::Text(Kind::Tree)),
    ("made.txt", Asked::Text(Kind::Made)),
    ("sources.txt", Asked::Violation),
    ("modules.txt", Asked::Module),
];

fn answer_to(alloc: Global, asked: Asked, text: &str) -> Result<String, AllocError> {
    match asked {
        Asked::Text(kind) => answer(alloc, kind, text),
        Asked::Violation => first_violation(alloc, text),
        Asked::Module => module_of(alloc, text),
    }
}

/// What is wrong with a row, none where it holds.
fn fault_of(alloc: Global, asked: Asked, row: &str) -> Result<Option<String>, AllocError> {
    let Some((text, wanted)) = row.split_once(" => ") else {
        return Ok(Some(format!(in alloc; "no row: {row}")?));
    };
    let got = answer_to(alloc, asked, text)?;
    if got.as_str() == wanted {
        return Ok(None);
    }
    Ok(Some(format!(in alloc; "{row}, not {got}")?))
}

/// Tells the rows of a file that don't hold, and how many do.
fn compare(
    rt: &(impl Alloc + Files + Print),
    alloc: Global,
    file: &str,
    asked: Asked,
) -> io::Result<()> {
    let rows = fs::read_to_string(rt, file)?;
    let mut held = 0u64;
    for (number, row) in (1u64..).zip(rows.lines()) {
        if row.starts_with('#') {
            continue;
        }
        match fault_of(alloc, asked, row)? {
            None => held = held.saturating_add(1),
            Some(fault) => println!(rt; "{file} {number}: {fault}")?,
        }
    }
    println!(rt; "{file}: {held} rows hold")
}

fn main(rt: HostRuntime) -> io::Result<()> {
    for (file, asked) in ROW_FILES {
        compare(&rt, rt.alloc(), file, asked)?;
    }
    Ok(())
}
