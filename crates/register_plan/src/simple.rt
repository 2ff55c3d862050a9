//! The proposal that is always right: the pool in file A, each register in a place of its own, and all others in rows.

use crate::flow::{no_facts, note};
use crate::home::{Home, is_in_pool, number_rows};
use crate::proposal::Plan;
use std::alloc::{AllocError, Global};
use vop_ir::{Dst, Src, Vop, VopBlock, VopIr};

/// How many places take what rows hold: as many as a section may name registers.
const TEMPS: u32 = 16;

fn give_home(homes: &mut [Home], scratch: u32, r: u32) {
    let index = r as usize;
    if index < homes.len() {
        homes[index] = if is_in_pool(scratch, r) {
            Home::Place(r.wrapping_sub(scratch))
        } else {
            Home::Row(0)
        };
    }
}

fn give_source(homes: &mut [Home], scratch: u32, x: Src) {
    if let Src::Reg(r) = x {
        give_home(homes, scratch, r);
    }
}

fn give_operation(homes: &mut [Home], scratch: u32, op: Vop) {
    give_source(homes, scratch, op.a);
    give_source(homes, scratch, op.b);
    if let Dst::Reg(r) = op.dst {
        give_home(homes, scratch, r);
    }
}

fn give_block(homes: &mut [Home], scratch: u32, block: &VopBlock) {
    for op in &block.ops {
        give_operation(homes, scratch, *op);
    }
}

fn homes_of(alloc: Global, ir: &VopIr) -> Result<Vec<Home>, AllocError> {
    let mut homes = vec![in alloc; Home::Nowhere; ir.regs as usize]?;
    for block in &ir.blocks {
        give_block(&mut homes, ir.scratch, block);
    }
    Ok(homes)
}

fn note_homes(table: &mut [u32], homes: &[Home]) {
    let mut r = 0u32;
    for home in homes {
        if let Home::Place(place) = *home {
            note(table, place, r);
        }
        r = r.wrapping_add(1);
    }
}

// The same is known where each block begins.
fn opens_of(alloc: Global, homes: &[Home], count: usize) -> Result<Vec<Vec<u32>>, AllocError> {
    let mut opens = Vec::new(alloc);
    for _ in 0..count {
        let mut table = no_facts(alloc)?;
        note_homes(&mut table, homes);
        opens.push(table)?;
    }
    Ok(opens)
}

fn temps_in_b(alloc: Global) -> Result<Vec<u32>, AllocError> {
    let mut temps = Vec::new(alloc);
    for number in 0..TEMPS {
        temps.push(32 + number)?;
    }
    Ok(temps)
}

/// The proposal that is always right.
pub fn simple_plan(alloc: Global, ir: &VopIr) -> Result<Plan, AllocError> {
    let mut homes = homes_of(alloc, ir)?;
    let rows = number_rows(&mut homes);
    let opens = opens_of(alloc, &homes, ir.blocks.len())?;
    Ok(Plan {
        homes,
        rows,
        temps: temps_in_b(alloc)?,
        spare: 31,
        opens,
    })
}
