//! The passes of the compiler one after another, from a typed tree to a module.
#![tactic(auto)]

ghost use Rattle.std.specs.Prelude.{◌<◌, length};

use arith_expand::expand;
use builtin_lower::lower;
use clc_inline::{Body, LimitFault, inline};
use clc_types::Typed;
use delay_slots::place;
use dual_issue::pack;
use ir_build::build;
use lane_ir::LaneIr;
use lane_mapper::map_ids;
use mask_flow::mask;
use q_lane::Kind;
use qpu_encode::{Instr, encode};
use qpu_select::select;
use regfile_alloc::allocate;
use std::alloc::{AllocError, Global};
use vc4q_module::Module;
use vop_ir::VopIr;
use vpm_dma_lower::accesses;

const MOST_ROWS: u32 = 262_144;

const MOST_WORDS: usize = 16_777_216;

const MOST_KINDS: usize = 16;

/// A batch of sixteen items, in operations that the processor has.
fn batch_of(alloc: Global, body: &Body) -> Result<LaneIr, AllocError> {
    let item = build(alloc, body)?;
    let prolog = map_ids(alloc, &item)?;
    let masked = mask(alloc, &item, &prolog)?;
    let expanded = expand(alloc, &masked)?;
    lower(alloc, &expanded)
}

/// What one processor does for all its batches.
fn operations_of(alloc: Global, batch: &LaneIr) -> Result<VopIr, AllocError> {
    let list = accesses(alloc, batch)?;
    select(alloc, batch, &list)
}

fn words_of(alloc: Global, instrs: &[Instr]) -> Result<Vec<u64>, AllocError> {
    let mut words = Vec::with_capacity(alloc, instrs.len())?;
    for instr in instrs {
        words.push(encode(instr))?;
    }
    Ok(words)
}

/// A module of these parts, where they are within the limits of one. The passes keep to them, so `Memory` is never answered for that.
fn module_of(rows: u32, kinds: Vec<Kind>, words: Vec<u64>) -> Result<Module, AllocError> {
    let is_module = rows <= MOST_ROWS
        && kinds.len() <= MOST_KINDS
        && !words.is_empty()
        && words.len() <= MOST_WORDS;
    if !is_module {
        return Err(AllocError);
    }
    Ok(Module { rows, kinds, words })
}

/// The module of a body without calls, whose parameters are of these kinds.
pub fn module_for(alloc: Global, body: &Body, kinds: Vec<Kind>) -> Result<Module, AllocError> {
    let batch = batch_of(alloc, body)?;
    let operations = operations_of(alloc, &batch)?;
    let placed = allocate(alloc, &operations)?;
    let bundles = pack(alloc, &placed)?;
    let instrs = place(alloc, &bundles)?;
    let words = words_of(alloc, &instrs)?;
    module_of(placed.rows, kinds, words)
}

/// The same of a body that isn't needed further.
fn module_from(alloc: Global, body: Body, kinds: Vec<Kind>) -> Result<Module, LimitFault> {
    let module = module_for(alloc, &body, kinds);
    // Dropped by a call, so that no proof here looks at each form of a tree.
    drop(body);
    match module {
        Ok(module) => Ok(module),
        Err(_) => Err(LimitFault::Memory),
    }
}

/// The module of the kernel of this number, whose parameters are of these kinds, or the limit that it passes.
pub fn chain(
    alloc: Global,
    typed: &Typed,
    kernel: u32,
    kinds: Vec<Kind>,
) -> Result<Module, LimitFault> {
    match inline(alloc, typed, kernel) {
        Ok(body) => module_from(alloc, body, kinds),
        Err(fault) => Err(fault),
    }
}
