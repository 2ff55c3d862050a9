//! What sections name, and whether a program unpacks.

use crate::home::is_in_pool;
use std::alloc::{AllocError, Global};
use vop_ir::{Dst, Op, Src, Vop, VopBlock, VopIr};

fn is_unpacked(block: &VopBlock) -> bool {
    for op in &block.ops {
        if op.unpack != 0 {
            return true;
        }
    }
    false
}

/// Whether some operation takes a part of its operand.
pub fn unpacks(blocks: &[VopBlock]) -> bool {
    for block in blocks {
        if is_unpacked(block) {
            return true;
        }
    }
    false
}

fn name(names: &mut Vec<u32>, scratch: u32, r: u32) -> Result<(), AllocError> {
    if !is_in_pool(scratch, r) && !names.contains(&r) {
        names.push(r)?;
    }
    Ok(())
}

fn name_source(names: &mut Vec<u32>, scratch: u32, x: Src) -> Result<(), AllocError> {
    match x {
        Src::Reg(r) => name(names, scratch, r),
        _ => Ok(()),
    }
}

fn name_operation(names: &mut Vec<u32>, scratch: u32, op: Vop) -> Result<(), AllocError> {
    name_source(names, scratch, op.a)?;
    name_source(names, scratch, op.b)?;
    match op.dst {
        Dst::Reg(r) => name(names, scratch, r),
        _ => Ok(()),
    }
}

// How many registers outside the pool a section of the block names, at most, or `least`.
fn widest_in(
    alloc: Global,
    scratch: u32,
    block: &VopBlock,
    least: usize,
) -> Result<usize, AllocError> {
    let mut widest = least;
    let mut is_open = false;
    let mut names = Vec::new(alloc);
    for op in &block.ops {
        if matches!(op.op, Op::Lock) {
            is_open = true;
            names.clear();
        }
        if is_open {
            name_operation(&mut names, scratch, *op)?;
            widest = widest.max(names.len());
        }
        if matches!(op.dst, Dst::Unlock) {
            is_open = false;
        }
    }
    Ok(widest)
}

/// How many registers outside the pool an operation or a section may name.
pub fn widest(alloc: Global, ir: &VopIr) -> Result<usize, AllocError> {
    let mut widest = 3;
    for block in &ir.blocks {
        widest = widest_in(alloc, ir.scratch, block, widest)?;
    }
    Ok(widest)
}
