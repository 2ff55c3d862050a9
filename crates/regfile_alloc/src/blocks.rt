//! Blocks over the places of a proposal, with what rows hold brought in before it is named and put away after it is written.

ghost use Rattle.std.specs.Prelude.{◌≡◌, ◌<◌, map, IfOk};
ghost use Rattle.phys_ir.specs.Leads.{exit_of};
ghost use Rattle.regfile_alloc.specs.Outcome.{exit_from};

use crate::emit::item;
use crate::facts::{also, are_among, forget, is_at_home, is_tellable};
use crate::known::Known;
use crate::picks::{SECOND_COPY, place_of, within};
use crate::rows::{put_bring, put_put_away};
use crate::spilled::{Spilled, group_of, spilled_of};
use phys_ir::{PhysBlock, Pop};
use register_plan::Plan;
use std::alloc::{AllocError, Global};
use vop_ir::{Exit, Vop, VopBlock};

/// A proposal, the register of the scratch, and the first row of the scratch that is added.
#[derive(Clone, Copy)]
pub struct Ground<'a> {
    pub plan: &'a Plan,
    pub scratch: u32,
    pub first_row: u32,
}

fn offset_of(ground: Ground, row: u32) -> Result<u32, AllocError> {
    let number = ground.first_row.checked_add(row).ok_or(AllocError)?;
    number.checked_mul(64).ok_or(AllocError)
}

// The place of the scratch's register, which must be known there.
fn base_of(known: &mut Known, scratch: u32) -> u32
    ensures { result < 68 }
{
    known.need(scratch);
    let base = place_of(&known.places, scratch);
    if base == SECOND_COPY {
        known.is_right = false;
    }
    base
}

fn bring_one(
    out: &mut Vec<Pop>,
    known: &mut Known,
    ground: Ground,
    spilled: Spilled,
) -> Result<(), AllocError> {
    let base = base_of(known, ground.scratch);
    let place = place_of(&known.places, spilled.register);
    put_bring(out, base, place, offset_of(ground, spilled.row)?)?;
    forget(&mut known.holds, SECOND_COPY as usize);
    if is_tellable(&known.holds, place as usize, spilled.register) {
        also(&mut known.holds, place as usize, spilled.register);
    }
    Ok(())
}

fn put_one(
    out: &mut Vec<Pop>,
    known: &mut Known,
    ground: Ground,
    spilled: Spilled,
) -> Result<(), AllocError> {
    let base = base_of(known, ground.scratch);
    known.need(spilled.register);
    let place = place_of(&known.places, spilled.register);
    if place == SECOND_COPY {
        known.is_right = false;
    }
    put_put_away(out, base, place, offset_of(ground, spilled.row)?)?;
    forget(&mut known.holds, SECOND_COPY as usize);
    Ok(())
}

// What isn't known any more where it was last has no place.
fn turn_out(known: &mut Known, list: &[Spilled]) {
    for spilled in list {
        if !is_at_home(&known.holds, &known.places, spilled.register) {
            known.move_to(spilled.register, SECOND_COPY);
        }
    }
}

fn is_used(known: &Known, list: &[Spilled], place: u32) -> bool {
    for spilled in list {
        if place_of(&known.places, spilled.register) == place {
            return true;
        }
    }
    false
}

fn after(number: usize, count: usize) -> usize {
    let next = number.saturating_add(1);
    if next < count { next } else { 0 }
}

// A place for what a row holds that none of these has; that which was given longest ago, as far as it goes.
fn free_temp(known: &mut Known, temps: &[u32], list: &[Spilled]) -> Option<u32> {
    for _ in 0..temps.len() {
        known.last_temp = after(known.last_temp, temps.len());
        let place = within(temps.get(known.last_temp).copied().unwrap_or(0));
        if !is_used(known, list, place) {
            return Some(place);
        }
    }
    None
}

// A register of a row gets a place, and what the row holds if that is looked at.
fn receive(
    out: &mut Vec<Pop>,
    known: &mut Known,
    ground: Ground,
    list: &[Spilled],
    spilled: Spilled,
) -> Result<(), AllocError> {
    if place_of(&known.places, spilled.register) != SECOND_COPY {
        return Ok(());
    }
    match free_temp(known, &ground.plan.temps, list) {
        Some(place) => known.move_to(spilled.register, place),
        None => known.is_right = false,
    }
    if spilled.is_read {
        bring_one(out, known, ground, spilled)?;
    }
    Ok(())
}

fn bring_all(
    out: &mut Vec<Pop>,
    known: &mut Known,
    ground: Ground,
    list: &[Spilled],
) -> Result<(), AllocError> {
    turn_out(known, list);
    for spilled in list {
        receive(out, known, ground, list, *spilled)?;
    }
    Ok(())
}

fn put_written(
    out: &mut Vec<Pop>,
    known: &mut Known,
    ground: Ground,
    list: &[Spilled],
) -> Result<(), AllocError> {
    for spilled in list {
        if spilled.is_written {
            put_one(out, known, ground, *spilled)?;
        }
    }
    Ok(())
}

// Operations outside sections one by one, and sections as a whole.
fn ops_over(
    alloc: Global,
    known: &mut Known,
    ground: Ground,
    ops: &[Vop],
) -> Result<Vec<Pop>, AllocError> {
    let spare = within(ground.plan.spare);
    let mut out: Vec<Pop> = Vec::new(alloc);
    let mut list: Vec<Spilled> = Vec::new(alloc);
    let mut left = 0usize;
    for (index, op) in ops.iter().enumerate() {
        if left == 0 {
            let group = group_of(&ops[index..]);
            left = group.len();
            list = spilled_of(alloc, &ground.plan.homes, group)?;
            bring_all(&mut out, known, ground, &list)?;
        }
        item(&mut out, &known.places, spare, *op)?;
        known.follow(spare, *op);
        left = left.saturating_sub(1);
        if left == 0 {
            put_written(&mut out, known, ground, &list)?;
        }
    }
    Ok(out)
}

// What is known at an exit has what the block it leads to begins with.
fn lead(known: &mut Known, plan: &Plan, to: u32) {
    match plan.opens.get(to as usize) {
        Some(facts) if are_among(facts, &known.holds) => {}
        _ => known.is_right = false,
    }
}

fn leads(known: &mut Known, plan: &Plan, exit: Exit) {
    match exit {
        Exit::Jump(to) => lead(known, plan, to),
        Exit::Branch { cond: _, yes, no } => {
            lead(known, plan, yes);
            lead(known, plan, no);
        }
        Exit::Stop => {}
    }
}

fn open(known: &mut Known, plan: &Plan, number: usize) -> Result<(), AllocError> {
    match plan.opens.get(number) {
        Some(facts) => known.open(facts),
        None => {
            known.is_right = false;
            Ok(())
        }
    }
}

fn block_by(
    alloc: Global,
    known: &mut Known,
    ground: Ground,
    number: usize,
    block: &VopBlock,
) -> Result<PhysBlock, AllocError>
    ensures { IfOk result (λ p. p.exit ≡ block.now.exit) }
{
    open(known, ground.plan, number)?;
    let ops = ops_over(alloc, known, ground, &block.ops)?;
    leads(known, ground.plan, block.exit);
    Ok(PhysBlock {
        ops,
        exit: block.exit,
    })
}

/// The blocks over the places of a proposal. What was looked at and not known is told by `known`.
pub fn blocks_by(
    alloc: Global,
    known: &mut Known,
    ground: Ground,
    blocks: &[VopBlock],
) -> Result<Vec<PhysBlock>, AllocError>
    ensures { IfOk result (λ v. map exit_of v.items ≡ map exit_from blocks.now) }
{
    known.begin(ground.plan)?;
    let mut out = Vec::new(alloc);
    for (number, block) in blocks.iter().enumerate() {
        out.push(block_by(alloc, known, ground, number, block)?)?;
    }
    Ok(out)
}
