//! Homes of registers, and what is known where each block begins.

use crate::arrivals::arrivals;
use crate::flow::{no_facts, note, opens_of};
use crate::home::{Home, POOL, number_rows};
use crate::lives::{Life, keep_always, lives_of, starts_of, widen_all};
use crate::loops::loops_of;
use crate::seats::{Guests, empty_seats, seat_all};
use crate::sections::{unpacks, widest};
use std::alloc::{AllocError, Global};
use vop_ir::VopIr;

/// The place of file A for an operand that is unpacked, where a program has such.
const UNPACKED: u32 = 31;

/// A proposal: homes, how many rows they use, which places take what rows hold, where an operand goes that is unpacked,
/// and for each block a table of what places hold where it begins.
#[derive(Drop)]
pub struct Plan {
    pub homes: Vec<Home>,
    pub rows: u32,
    pub temps: Vec<u32>,
    pub spare: u32,
    pub opens: Vec<Vec<u32>>,
}

// Places at the upper ends of both files in turn.
fn temps_of(alloc: Global, count: usize) -> Result<Vec<u32>, AllocError> {
    let mut temps = Vec::new(alloc);
    let mut a = UNPACKED.wrapping_sub(1);
    let mut b = 63u32;
    for number in 0..count {
        if number % 2 == 0 {
            temps.push(a)?;
            a = a.saturating_sub(1);
        } else {
            temps.push(b)?;
            b = b.saturating_sub(1);
        }
    }
    Ok(temps)
}

// Those that were missed where a proposal was followed, and the scratch, keep their places.
fn keep_pool(lives: &mut [Life], scratch: u32, missed: &[bool]) {
    keep_always(lives, scratch);
    let mut r = scratch;
    for _ in 0..POOL {
        if missed.get(r as usize).copied().unwrap_or(false) {
            keep_always(lives, r);
        }
        r = r.wrapping_add(1);
    }
}

fn homes_by(
    alloc: Global,
    ir: &VopIr,
    lives: &[Life],
    missed: &[bool],
    reserved: &[u32],
) -> Result<Vec<Home>, AllocError> {
    let order = arrivals(alloc, lives)?;
    let mut seats = empty_seats(alloc, reserved)?;
    let mut homes = vec![in alloc; Home::Nowhere; ir.regs as usize]?;
    let guests = Guests {
        lives,
        scratch: ir.scratch,
    };
    seat_all(&mut seats, &mut homes, guests, &order, missed);
    Ok(homes)
}

// What places hold where the program begins: of each the register that needs it from there on.
fn opening_of(alloc: Global, homes: &[Home], lives: &[Life]) -> Result<Vec<u32>, AllocError> {
    let mut table = no_facts(alloc)?;
    let mut r = 0u32;
    for home in homes {
        let from = lives
            .get(r as usize)
            .copied()
            .unwrap_or(Life::unnamed())
            .from;
        if let Home::Place(place) = *home {
            if from == 0 {
                note(&mut table, place, r);
            }
        }
        r = r.wrapping_add(1);
    }
    Ok(table)
}

fn lives_in(alloc: Global, ir: &VopIr, missed: &[bool]) -> Result<Vec<Life>, AllocError> {
    let loops = loops_of(alloc, &ir.blocks)?;
    let starts = starts_of(alloc, &ir.blocks)?;
    let mut lives = lives_of(alloc, ir, &loops, &starts)?;
    widen_all(&mut lives, &loops, &starts);
    keep_pool(&mut lives, ir.scratch, missed);
    Ok(lives)
}

fn planned(
    alloc: Global,
    ir: &VopIr,
    lives: &[Life],
    missed: &[bool],
    temps: Vec<u32>,
) -> Result<Plan, AllocError> {
    let mut reserved = Vec::new(alloc);
    reserved.extend_from_slice(&temps)?;
    let has_unpacks = unpacks(&ir.blocks);
    if has_unpacks {
        reserved.push(UNPACKED)?;
    }
    let mut homes = homes_by(alloc, ir, lives, missed, &reserved)?;
    let rows = number_rows(&mut homes);
    let opening = opening_of(alloc, &homes, lives)?;
    let opens = opens_of(alloc, &homes, &ir.blocks, &opening)?;
    Ok(Plan {
        homes,
        rows,
        temps,
        spare: if has_unpacks { UNPACKED } else { 64 },
        opens,
    })
}

/// A proposal in which the registers that were missed before have rows, or, where they are in the pool, places of their own.
pub fn propose(alloc: Global, ir: &VopIr, missed: &[bool]) -> Result<Plan, AllocError> {
    let lives = lives_in(alloc, ir, missed)?;
    let plan = planned(alloc, ir, &lives, missed, Vec::new(alloc))?;
    if plan.rows == 0 {
        return Ok(plan);
    }
    let temps = temps_of(alloc, widest(alloc, ir)?)?;
    planned(alloc, ir, &lives, missed, temps)
}
