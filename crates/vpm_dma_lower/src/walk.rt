//! The walk over the statements of a batch.

ghost use Rattle.std.specs.Prelude.{◌≡◌, ◌+◌, ◌*◌, ◌<◌, ◌^◌, ◌++◌, ◌∷◌, [], IfOk, map, get_or};
ghost use Rattle.vop_ir.specs.Runs.{block_from};
ghost use Rattle.vpm_dma_lower.specs.Accesses.{code_from, code_over, first_row as first_row_of, codes, codes_all};

use crate::access::Access;
use crate::blocks::{clear_blocks, get_blocks, load_blocks, put_blocks, store_blocks};
use crate::list::AccessList;
use lane_ir::{LaneIr, LaneStmt};
use std::alloc::{AllocError, Global};
use vop_ir::VopBlock;

/// Memory is wanting.
pub type Memory = AllocError;

/// The row of the scratch in which an array begins.
fn first_row(lens: &[u32], array: u32) -> Result<u32, Memory>
    ensures value { IfOk result (λ row. row ≡ first_row_of lens.now array) }
    ensures room { IfOk result (λ row. 64 * row < 2 ^ 32) }
{
    let before = lens.len().min(array as usize);
    let mut row = 0u32;
    for len in &lens[..before] {
        match row.checked_add(*len) {
            Some(next) => row = next,
            None => return Err(AllocError),
        }
    }
    if row > u32::MAX / 64 {
        return Err(AllocError);
    }
    Ok(row)
}

/// How many elements an array has.
fn length(lens: &[u32], array: u32) -> u32
    ensures { result ≡ get_or lens.now array 0 }
{
    lens.get(array as usize).copied().unwrap_or(0)
}

/// Adds the code of an access.
fn put(list: &mut Vec<Access>, vals: u32, blocks: Vec<VopBlock>) -> Result<(), Memory>
    requires { vals + 8 < 2 ^ 32 }
    ensures { IfOk result (λ _. map code_from list.new.items ≡ map code_from list.old.items ++ code_over vals (map block_from blocks.items) ∷ []) }
{
    list.push(Access {
        regs: vals + 8,
        blocks,
    })?;
    Ok(())
}

/// Adds the code of the accesses of a statement.
#[cycle(walk)]
fn put_statement(
    alloc: Global,
    list: &mut Vec<Access>,
    vals: u32,
    lens: &[u32],
    stmt: &LaneStmt,
) -> Result<(), Memory>
    requires { vals + 8 < 2 ^ 32 }
    ensures { IfOk result (λ _. map code_from list.new.items ≡ map code_from list.old.items ++ codes vals lens.now stmt.now) }
{
    match stmt {
        LaneStmt::Let(_, _) => Ok(()),
        LaneStmt::Put { .. } => Ok(()),
        LaneStmt::Load {
            elem,
            dst,
            addr,
            mask,
        } => {
            let blocks = load_blocks(alloc, vals, *elem, dst.0, addr.0, mask.0)?;
            put(list, vals, blocks)
        }
        LaneStmt::Store {
            elem,
            addr,
            value,
            mask,
        } => {
            let blocks = store_blocks(alloc, vals, *elem, addr.0, value.0, mask.0)?;
            put(list, vals, blocks)
        }
        LaneStmt::GetElement {
            array,
            dst,
            index,
            mask,
        } => {
            let row = first_row(lens, *array)?;
            let blocks = get_blocks(alloc, vals, row, dst.0, index.0, mask.0)?;
            put(list, vals, blocks)
        }
        LaneStmt::PutElement {
            array,
            index,
            value,
            mask,
        } => {
            let row = first_row(lens, *array)?;
            let blocks = put_blocks(alloc, vals, row, index.0, value.0, mask.0)?;
            put(list, vals, blocks)
        }
        LaneStmt::Clear { array, mask } => {
            let row = first_row(lens, *array)?;
            let blocks = clear_blocks(alloc, vals, row, length(lens, *array), mask.0)?;
            put(list, vals, blocks)
        }
        LaneStmt::WhileAny { head, body, .. } => {
            put_all(alloc, list, vals, lens, head.as_slice())?;
            put_all(alloc, list, vals, lens, body.as_slice())
        }
    }
}

/// Adds the code of the accesses of statements.
#[cycle(walk)]
fn put_all(
    alloc: Global,
    list: &mut Vec<Access>,
    vals: u32,
    lens: &[u32],
    body: &[LaneStmt],
) -> Result<(), Memory>
    requires { vals + 8 < 2 ^ 32 }
    ensures { IfOk result (λ _. map code_from list.new.items ≡ map code_from list.old.items ++ codes_all vals lens.now body.now) }
{
    for stmt in body {
        put_statement(alloc, list, vals, lens, stmt)?;
    }
    Ok(())
}

/// The code of each access of a batch, in the order of the text.
///
/// # Errors
///
/// Where memory or the numbers of registers run out.
pub fn accesses(alloc: Global, ir: &LaneIr) -> Result<AccessList, Memory>
    ensures { IfOk result (λ r. map code_from r.list.items ≡ codes_all ir.now.vals ir.now.arrays.items ir.now.body.items) }
{
    let vals = ir.vals;
    match vals.checked_add(8) {
        Some(_) => {}
        None => return Err(AllocError),
    }
    let mut list = Vec::new(alloc);
    put_all(alloc, &mut list, vals, &ir.arrays, &ir.body)?;
    Ok(AccessList { list })
}
