//! Operations over registers as operations over their places.

ghost use Rattle.std.specs.Prelude.{◌≡◌, ℕ, ◌<◌, ◌≤◌, length, get_or, map, IfOk, ◌++◌, ◌∷◌, []};
ghost use Rattle.vop_ir.specs.Runs.{block_from};
ghost use Rattle.phys_ir.specs.Places.{vop_of, block_of};
ghost use Rattle.regfile_alloc.specs.Code.{code_of, copied, read_from};
ghost use Rattle.regfile_alloc.specs.Picks.{if_needed, loc_of, item_code, items_in, block_in, IsSrcPlace, KeepsRun};
ghost use Rattle.phys_ir.specs.Leads.{exit_of};
ghost use Rattle.regfile_alloc.specs.Outcome.{exit_from};

use crate::picks::{
    FIRST_COPY, SECOND_COPY, copy_place, copy_to, dst_in, is_private, is_same, needs_copy,
    needs_first, needs_second, src_in,
};
use crate::pops::put;
use phys_ir::{PhysBlock, PhysIr, Pop};
use std::alloc::{AllocError, Global};
use vop_ir::{Src, Vop, VopBlock, VopIr};

/// What is read in place of an operand: the copy, if one is needed.
#[tactic(auto, unfolding(crate::specs::Picks::feed))]
fn fed(out: &mut Vec<Pop>, needed: bool, place: u32, x: Src) -> Result<Src, AllocError>
    requires place { place < 68 }
    requires x { IsSrcPlace x }
    ensures read { IfOk result (λ y. (y ≡ read_from (if_needed needed place x) x) × IsSrcPlace y) }
    ensures pushed { IfOk result (λ y. map vop_of out.new.items ≡ map vop_of out.old.items ++ copied (if_needed needed place x) x) }
{
    if needed && is_private(x) {
        put(out, copy_to(place, x))?;
        Ok(Src::Reg(place))
    } else {
        Ok(x)
    }
}

/// An operation with the copies of its operands before it.
#[tactic(auto, unfolding(crate::specs::Picks::picks_of))]
pub fn item(out: &mut Vec<Pop>, places: &[u32], spare: u32, o: Vop) -> Result<(), AllocError>
    requires spare { spare < 68 }
    ensures { IfOk result (λ _. map vop_of out.new.items ≡ map vop_of out.old.items ++ item_code (loc_of places.now) spare o) }
{
    let a = src_in(places, o.a);
    let b = src_in(places, o.b);
    let dst = dst_in(places, o.dst);
    if is_same(o.a, o.b) {
        let from = fed(out, needs_copy(o, a), copy_place(spare, o), a)?;
        put(
            out,
            Vop {
                dst,
                a: from,
                b: from,
                ..o
            },
        )
    } else {
        let first = fed(out, needs_first(o, a), FIRST_COPY, a)?;
        let second = fed(out, needs_second(o, a, b), SECOND_COPY, b)?;
        put(
            out,
            Vop {
                dst,
                a: first,
                b: second,
                ..o
            },
        )
    }
}

fn ops_in(alloc: Global, places: &[u32], spare: u32, ops: &[Vop]) -> Result<Vec<Pop>, AllocError>
    requires spare { spare < 68 }
    ensures { IfOk result (λ v. map vop_of v.items ≡ code_of (items_in (loc_of places.now) spare ops.now)) }
{
    let mut out: Vec<Pop> = Vec::new(alloc);
    for op in ops {
        item(&mut out, places, spare, *op)?;
    }
    Ok(out)
}

fn block_over(
    alloc: Global,
    places: &[u32],
    spare: u32,
    block: &VopBlock,
) -> Result<PhysBlock, AllocError>
    requires spare { spare < 68 }
    ensures code { IfOk result (λ p. block_of p ≡ block_in (loc_of places.now) spare (block_from block.now)) }
    ensures exit { IfOk result (λ p. p.exit ≡ block.now.exit) }
{
    Ok(PhysBlock {
        ops: ops_in(alloc, places, spare, &block.ops)?,
        exit: block.exit,
    })
}

fn blocks_over(
    alloc: Global,
    places: &[u32],
    spare: u32,
    blocks: &[VopBlock],
) -> Result<Vec<PhysBlock>, AllocError>
    requires spare { spare < 68 }
    ensures code { IfOk result (λ v. map block_of v.items ≡ map (block_in (loc_of places.now) spare) (map block_from blocks.now)) }
    ensures exits { IfOk result (λ v. map exit_of v.items ≡ map exit_from blocks.now) }
{
    let mut out: Vec<PhysBlock> = Vec::new(alloc);
    for block in blocks {
        out.push(block_over(alloc, places, spare, block)?)?;
    }
    Ok(out)
}

fn first_places(alloc: Global, count: u32) -> Result<Vec<u32>, AllocError>
    ensures many { IfOk result (λ v. length v.items ≡ count) }
    ensures each { IfOk result (λ v. (r : ℕ) → r < count → get_or v.items r 0 ≡ r) }
{
    let mut places = Vec::new(alloc);
    for r in 0..count {
        places.push(r)?;
    }
    Ok(places)
}

/// Register r is register r of file A: nothing goes to a row of the scratch.
pub fn in_file(alloc: Global, ir: &VopIr) -> Result<PhysIr, AllocError>
    requires { ir.now.regs ≤ 32 }
    ensures rows { IfOk result (λ p. p.rows ≡ ir.now.rows) }
    ensures exits { IfOk result (λ p. map exit_of p.blocks.items ≡ map exit_from ir.now.blocks.items) }
    ensures same { IfOk result (λ p. KeepsRun (map block_from ir.now.blocks.items) p.blocks.items) }
{
    let places = first_places(alloc, ir.regs)?;
    Ok(PhysIr {
        rows: ir.rows,
        blocks: blocks_over(alloc, &places, FIRST_COPY, &ir.blocks)?,
    })
}
