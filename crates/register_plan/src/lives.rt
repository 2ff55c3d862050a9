//! Where registers are named, and where each must keep what it holds.

use crate::loops::Loops;
use qpu_encode::Cond;
use std::alloc::{AllocError, Global};
use vop_ir::{Dst, Src, Vop, VopBlock, VopIr};

/// A place in the text: its block, and how many half operations stand before it. What stands in loops weighs more.
#[derive(Clone, Copy, Debug, PartialEq, Eq)]
struct Spot {
    block: usize,
    at: usize,
    weight: u64,
}

/// How a program names a register: from where to where, and beside what.
#[derive(Clone, Copy, Debug, PartialEq, Eq)]
pub struct Life {
    pub is_named: bool,
    /// Whether what it holds before its first naming is looked at there.
    pub is_exposed: bool,
    pub from: usize,
    pub to: usize,
    pub first_block: usize,
    pub last_block: usize,
    pub weight: u64,
    /// How often it stands beside what file A alone gives, and what file B alone gives.
    pub beside_a: u64,
    pub beside_b: u64,
    pub partner: Option<u32>,
}

impl Life {
    /// That of a register that isn't named.
    pub fn unnamed() -> Life {
        Life {
            is_named: false,
            is_exposed: false,
            from: 0,
            to: 0,
            first_block: 0,
            last_block: 0,
            weight: 0,
            beside_a: 0,
            beside_b: 0,
            partner: None,
        }
    }

    fn name(self, spot: Spot, is_looked_at: bool) -> Life {
        let mut life = self;
        if !self.is_named {
            life.is_named = true;
            life.is_exposed = is_looked_at;
            life.from = spot.at;
            life.first_block = spot.block;
        }
        life.to = spot.at;
        life.last_block = spot.block;
        life.weight = self.weight.saturating_add(spot.weight);
        life
    }

    fn stand_beside(self, other: Src) -> Life {
        let mut life = self;
        match other {
            Src::Reg(r) => life.partner = Some(r),
            Src::Elem => life.beside_a = self.beside_a.saturating_add(1),
            Src::Small(_) => life.beside_b = self.beside_b.saturating_add(1),
            Src::Qpu => life.beside_b = self.beside_b.saturating_add(1),
            Src::Word(_) => {}
            Src::Uniform => {}
            Src::Vpm => {}
        }
        life
    }
}

fn name_register(lives: &mut [Life], r: u32, spot: Spot, is_looked_at: bool) {
    let r = r as usize;
    if r < lives.len() {
        let life = lives[r];
        lives[r] = life.name(spot, is_looked_at);
    }
}

fn stand(lives: &mut [Life], r: u32, other: Src) {
    let r = r as usize;
    if r < lives.len() {
        let life = lives[r];
        lives[r] = life.stand_beside(other);
    }
}

fn name_source(lives: &mut [Life], x: Src, other: Src, spot: Spot) {
    if let Src::Reg(r) = x {
        name_register(lives, r, spot, true);
        if x != other {
            stand(lives, r, other);
        }
    }
}

fn name_operation(lives: &mut [Life], op: Vop, spot: Spot) {
    name_source(lives, op.a, op.b, spot);
    name_source(lives, op.b, op.a, spot);
    if let Dst::Reg(r) = op.dst {
        if !matches!(op.cond, Cond::Always) {
            name_register(lives, r, spot, true);
        }
        let written = Spot {
            at: spot.at.wrapping_add(1),
            ..spot
        };
        name_register(lives, r, written, false);
    }
}

fn name_block(lives: &mut [Life], block: &VopBlock, number: usize, start: usize, weight: u64) {
    let mut at = start;
    for op in &block.ops {
        let spot = Spot {
            block: number,
            at,
            weight,
        };
        name_operation(lives, *op, spot);
        at = at.wrapping_add(2);
    }
}

fn weight_at(depth: u32) -> u64 {
    match depth {
        0 => 1,
        1 => 8,
        2 => 64,
        3 => 512,
        _ => 4096,
    }
}

/// How many half operations stand before each block, and in all.
pub fn starts_of(alloc: Global, blocks: &[VopBlock]) -> Result<Vec<usize>, AllocError> {
    let mut starts = Vec::new(alloc);
    let mut at = 0usize;
    for block in blocks {
        starts.push(at)?;
        at = at.wrapping_add(block.ops.len().wrapping_mul(2));
    }
    starts.push(at)?;
    Ok(starts)
}

fn start_of(starts: &[usize], block: usize) -> usize {
    starts.get(block).copied().unwrap_or(0)
}

/// How each register is named.
pub fn lives_of(
    alloc: Global,
    ir: &VopIr,
    loops: &Loops,
    starts: &[usize],
) -> Result<Vec<Life>, AllocError> {
    let mut lives = vec![in alloc; Life::unnamed(); ir.regs as usize]?;
    for (number, block) in ir.blocks.iter().enumerate() {
        let start = start_of(starts, number);
        let weight = weight_at(loops.depth_at(number));
        name_block(&mut lives, block, number, start, weight);
    }
    Ok(lives)
}

// What is looked at before it is written is kept from the program's start; what crosses a loop's border is kept all round it.
fn widened(life: Life, loops: &Loops, starts: &[usize]) -> Life {
    let mut wide = life;
    if wide.is_exposed {
        wide.from = 0;
        wide.first_block = 0;
    }
    if let Some(around) = loops.around_end(wide.first_block, wide.last_block) {
        wide.to = start_of(starts, around.last.wrapping_add(1)).saturating_sub(1);
        wide.last_block = around.last;
    }
    if let Some(around) = loops.around_start(wide.first_block, wide.last_block) {
        wide.from = start_of(starts, around.first);
        wide.first_block = around.first;
    }
    wide
}

/// Lives as long as each register must keep what it holds.
pub fn widen_all(lives: &mut [Life], loops: &Loops, starts: &[usize]) {
    for life in lives.iter_mut() {
        *life = widened(*life, loops, starts);
    }
}

/// The register keeps its place all the time.
pub fn keep_always(lives: &mut [Life], r: u32) {
    let r = r as usize;
    if r < lives.len() && lives[r].is_named {
        lives[r].from = 0;
        lives[r].to = usize::MAX;
    }
}
