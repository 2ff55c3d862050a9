//! Compares rows of data with what modules, launch files, and files and sinks in memory answer, and tells which rows differ.
//!
//! A row is a call, ` => ` and the answer that is wanted. Lines that begin with `#` are notes. Each file of data has one kind of row.
#![tactic(auto)]

mod fault_texts;
mod files;
mod fits;
mod launches;
mod laws;
mod made;
mod modules;
mod names;
mod places;
mod row_fault;
mod scripts;
mod sinks;
mod spelling;
mod tables;

use row_fault::RowFault;
use std::alloc::{AllocError, Global};
use std::{fs, io, rt};
use tables::{TABLES, Table, answer};

/// How a row came out.
#[derive(Drop)]
enum Outcome {
    Holds,
    Differs(String),
    NoRow,
}

fn judge<R: rt::Files + Print>(
    rt: &R,
    alloc: Global,
    table: Table,
    row: &str,
) -> Result<Outcome, AllocError> {
    let Some((call, wanted)) = row.split_once(" => ") else {
        return Ok(Outcome::NoRow);
    };
    match answer(rt, alloc, table, call) {
        Ok(got) => {
            if got.as_str() == wanted {
                return Ok(Outcome::Holds);
            }
            Ok(Outcome::Differs(got))
        }
        Err(RowFault::NoRow) => Ok(Outcome::NoRow),
        Err(RowFault::Memory) => Err(AllocError),
    }
}

fn compare<R: rt::Files + Print + AllocGlobal>(rt: &R, table: Table) -> io::Result<()> {
    let file = table.file();
    let rows = fs::read_to_string(rt, file)?;
    let mut held = 0u64;
    let mut number = 0u64;
    for row in rows.lines() {
        number = number.saturating_add(1);
        if row.starts_with('#') {
            continue;
        }
        match judge(rt, rt.alloc(), table, row)? {
            Outcome::Holds => held = held.saturating_add(1),
            Outcome::Differs(got) => println!(rt; "{file}:{number}: {row}, not {got}")?,
            Outcome::NoRow => println!(rt; "{file}:{number}: no row: {row}")?,
        }
    }
    println!(rt; "{file}: {held} rows hold")
}

fn main(rt: HostRuntime) -> io::Result<()> {
    laws::call_each();
    for table in TABLES {
        compare(&rt, table)?;
    }
    Ok(())
}
