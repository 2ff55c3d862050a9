//! Blocks that are closed.

ghost use Rattle.std.specs.Prelude.{◌≡◌, ◌+◌, ◌<◌, ◌++◌, ◌∷◌, [], IfOk, OnOk, map, length, slice_get, slice_set};
ghost use Rattle.vop_ir.specs.Runs.{block_from};
ghost use Rattle.vop_ir.specs.declared.form.Exit.TheVariants.{Jump, Branch, Stop};
ghost use Rattle.vpm_dma_lower.specs.Code.{shifted, shifted_exit as shifted_exit_of};
ghost use Rattle.vpm_dma_lower.specs.Accesses.{code_from};
ghost use Rattle.qpu_select.specs.Code.{enters, blocks_of};
ghost use Rattle.qpu_select.specs.Emitting.{start_of, Adds};

use crate::emitted::Emitted;
use crate::registers::{Memory, number, sum};
use qpu_encode::BraCond;
use std::alloc::{AllocError, Global};
use vop_ir::{Exit, Vop, VopBlock};
use vpm_dma_lower::Access;

/// Closes the open block with this exit.
pub fn close(alloc: Global, out: &mut Emitted, exit: Exit) -> Result<(), Memory>
    ensures closed { IfOk result (λ _. map block_from out.new.closed.items ≡ map block_from out.old.closed.items ++ record { ops = out.old.ops.items; exit = exit } ∷ []) }
    ensures ops { IfOk result (λ _. out.new.ops.items ≡ []) }
    ensures next { IfOk result (λ _. out.new.next ≡ out.old.next) }
{
    let ops = std::mem::replace(&mut out.ops, Vec::new(alloc));
    out.closed.push(VopBlock { ops, exit })?;
    Ok(())
}

/// Closes the open block with a jump to the next, whose number it is.
pub fn open(alloc: Global, out: &mut Emitted) -> Result<u32, Memory>
    ensures number { IfOk result (λ e. e ≡ length out.old.closed.items + 1) }
    ensures closed { IfOk result (λ e. map block_from out.new.closed.items ≡ map block_from out.old.closed.items ++ record { ops = out.old.ops.items; exit = Jump e } ∷ []) }
    ensures ops { IfOk result (λ _. out.new.ops.items ≡ []) }
    ensures next { IfOk result (λ _. out.new.next ≡ out.old.next) }
{
    let e = sum(number(out.closed.len())?, 1)?;
    close(alloc, out, Exit::Jump(e))?;
    Ok(e)
}

/// The exit of code that stands from block `e` on.
fn shifted_exit(e: u32, exit: Exit) -> Result<Exit, Memory>
    ensures { IfOk result (λ x. x ≡ shifted_exit_of e exit) }
{
    match exit {
        Exit::Jump(b) => Ok(Exit::Jump(sum(e, b)?)),
        Exit::Branch { cond, yes, no } => Ok(Exit::Branch {
            cond,
            yes: sum(e, yes)?,
            no: sum(e, no)?,
        }),
        Exit::Stop => Ok(Exit::Stop),
    }
}

/// The same block of code that stands from block `e` on.
fn moved(alloc: Global, e: u32, block: &VopBlock) -> Result<VopBlock, Memory>
    ensures { IfOk result (λ b. block_from b ≡ shifted e (block_from block.now)) }
{
    let ops = Vec::from_slice(alloc, &block.ops)?;
    let exit = shifted_exit(e, block.exit)?;
    Ok(VopBlock { ops, exit })
}

/// Adds the blocks of code that stands from block `e` on.
fn put_moved(
    alloc: Global,
    closed: &mut Vec<VopBlock>,
    e: u32,
    blocks: &[VopBlock],
) -> Result<(), Memory>
    ensures { IfOk result (λ _. map block_from closed.new.items ≡ map block_from closed.old.items ++ map (shifted e) (map block_from blocks.now)) }
{
    for block in blocks {
        closed.push(moved(alloc, e, block)?)?;
    }
    Ok(())
}

/// Adds the blocks of access `next`, where there is one.
fn put_blocks(
    alloc: Global,
    closed: &mut Vec<VopBlock>,
    e: u32,
    list: &[Access],
    next: usize,
) -> Result<(), Memory>
    ensures { IfOk result (λ _. map block_from closed.new.items ≡ map block_from closed.old.items ++ map (shifted e) (blocks_of (slice_get (map code_from list.now) next))) }
{
    match list.get(next) {
        Some(access) => put_moved(alloc, closed, e, &access.blocks),
        None => Ok(()),
    }
}

/// Adds the code of the next access.
pub fn put_access(alloc: Global, out: &mut Emitted, list: &[Access]) -> Result<(), Memory>
    ensures { IfOk result (λ _. Adds (enters (map code_from list.now) (start_of out.old)) out.old out.new) }
{
    let e = open(alloc, out)?;
    put_blocks(alloc, &mut out.closed, e, list, out.next)?;
    match out.next.checked_add(1) {
        Some(next) => out.next = next,
        None => return Err(AllocError),
    }
    Ok(())
}

/// Takes the operations of the open block and a test after them aside, and keeps a place for their block.
pub fn set_aside(alloc: Global, out: &mut Emitted, test: Vop) -> Result<Vec<Vop>, Memory>
    ensures aside { IfOk result (λ ops. ops.items ≡ out.old.ops.items ++ test ∷ []) }
    ensures closed { IfOk result (λ _. map block_from out.new.closed.items ≡ map block_from out.old.closed.items ++ record { ops = []; exit = Stop } ∷ []) }
    ensures ops { IfOk result (λ _. out.new.ops.items ≡ []) }
    ensures next { IfOk result (λ _. out.new.next ≡ out.old.next) }
{
    let mut ops = std::mem::replace(&mut out.ops, Vec::new(alloc));
    ops.push(test)?;
    close(alloc, out, Exit::Stop)?;
    Ok(ops)
}

/// Another block in place `at`, where there is such a place.
fn put_at(blocks: &mut Vec<VopBlock>, at: usize, block: VopBlock)
    ensures { blocks.new.items ≡ slice_set blocks.old.items at block }
{
    if at < blocks.len() {
        blocks[at] = block;
    }
}

/// Closes the body of a loop, whose head is block `head`, and puts the test that was set aside into place `at`.
pub fn put_back(
    alloc: Global,
    out: &mut Emitted,
    head: u32,
    at: usize,
    ops: Vec<Vop>,
    holds: BraCond,
) -> Result<(), Memory>
    ensures closed { IfOk result (λ _. map block_from out.new.closed.items ≡ slice_set (map block_from out.old.closed.items ++ record { ops = out.old.ops.items; exit = Jump head } ∷ []) at (record { ops = ops.items; exit = Branch holds (at + 1) (length out.old.closed.items + 1) })) }
    ensures ops { IfOk result (λ _. out.new.ops.items ≡ []) }
    ensures next { IfOk result (λ _. out.new.next ≡ out.old.next) }
{
    close(alloc, out, Exit::Jump(head))?;
    let yes = sum(number(at)?, 1)?;
    let no = number(out.closed.len())?;
    let exit = Exit::Branch {
        cond: holds,
        yes,
        no,
    };
    put_at(&mut out.closed, at, VopBlock { ops, exit });
    Ok(())
}
