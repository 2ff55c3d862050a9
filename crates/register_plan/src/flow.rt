//! What each place holds where a block begins: what it holds at the end of each block that leads there.
//!
//! A table has a number for each place: a register's number and 1, or 0 where it isn't known.

use crate::home::{Home, PLACES};
use std::alloc::{AllocError, Global};
use vop_ir::{Dst, Exit, VopBlock};

/// How often the blocks are walked over at most. Where that isn't enough, the proposal is refused.
const ROUNDS: u32 = 100;

/// What is known of a block's start.
#[derive(Drop)]
struct Start {
    is_reached: bool,
    is_new: bool,
    holds: Vec<u32>,
}

/// A table where nothing is known.
pub fn no_facts(alloc: Global) -> Result<Vec<u32>, AllocError> {
    vec![in alloc; 0u32; PLACES as usize]
}

/// A place holds a register.
pub fn note(table: &mut [u32], place: u32, r: u32) {
    let place = place as usize;
    if place < table.len() {
        table[place] = r.wrapping_add(1);
    }
}

fn pass_block(table: &mut [u32], homes: &[Home], block: &VopBlock) {
    for op in &block.ops {
        if let Dst::Reg(r) = op.dst {
            if let Some(Home::Place(place)) = homes.get(r as usize).copied() {
                note(table, place, r);
            }
        }
    }
}

// Only what both tables say stays in the first; whether something went.
fn meet(table: &mut [u32], other: &[u32]) -> bool {
    let mut went = false;
    for (place, fact) in table.iter_mut().enumerate() {
        if *fact != 0 && *fact != other.get(place).copied().unwrap_or(0) {
            *fact = 0;
            went = true;
        }
    }
    went
}

fn copy_table(to: &mut [u32], from: &[u32]) {
    for (place, fact) in to.iter_mut().enumerate() {
        *fact = from.get(place).copied().unwrap_or(0);
    }
}

fn arrive(start: &mut Start, table: &[u32]) {
    if start.is_reached {
        if meet(&mut start.holds, table) {
            start.is_new = true;
        }
    } else {
        start.is_reached = true;
        start.is_new = true;
        copy_table(&mut start.holds, table);
    }
}

fn arrive_at(starts: &mut [Start], block: u32, table: &[u32]) {
    let block = block as usize;
    if block < starts.len() {
        arrive(&mut starts[block], table);
    }
}

fn leave(starts: &mut [Start], exit: Exit, table: &[u32]) {
    match exit {
        Exit::Jump(to) => arrive_at(starts, to, table),
        Exit::Branch { cond: _, yes, no } => {
            arrive_at(starts, yes, table);
            arrive_at(starts, no, table);
        }
        Exit::Stop => {}
    }
}

// The blocks with something new are walked over once; whether there were any.
fn pass_all(starts: &mut [Start], homes: &[Home], blocks: &[VopBlock], table: &mut [u32]) -> bool {
    let mut any = false;
    for (number, block) in blocks.iter().enumerate() {
        if number < starts.len() && starts[number].is_new {
            any = true;
            starts[number].is_new = false;
            copy_table(table, &starts[number].holds);
            pass_block(table, homes, block);
            leave(starts, block.exit, table);
        }
    }
    any
}

fn unreached(alloc: Global, count: usize) -> Result<Vec<Start>, AllocError> {
    let mut starts = Vec::new(alloc);
    for _ in 0..count {
        starts.push(Start {
            is_reached: false,
            is_new: false,
            holds: no_facts(alloc)?,
        })?;
    }
    Ok(starts)
}

fn tables_of(alloc: Global, starts: Vec<Start>) -> Result<Vec<Vec<u32>>, AllocError> {
    let mut tables = Vec::new(alloc);
    for start in starts {
        tables.push(start.holds)?;
    }
    Ok(tables)
}

/// What is known where each block begins, where the program begins with these facts.
pub fn opens_of(
    alloc: Global,
    homes: &[Home],
    blocks: &[VopBlock],
    opening: &[u32],
) -> Result<Vec<Vec<u32>>, AllocError> {
    let mut starts = unreached(alloc, blocks.len())?;
    arrive_at(&mut starts, 0, opening);
    let mut table = no_facts(alloc)?;
    for _ in 0..ROUNDS {
        if !pass_all(&mut starts, homes, blocks, &mut table) {
            break;
        }
    }
    tables_of(alloc, starts)
}
