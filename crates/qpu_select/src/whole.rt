//! The whole: the opening, and the loop over batches.

ghost use Rattle.std.specs.Prelude.{◌≡◌, ◌+◌, ◌++◌, true, IfOk, map, sum as sum_of};
ghost use Rattle.vop_ir.specs.Runs.{block_from};
ghost use Rattle.vpm_dma_lower.specs.Accesses.{code_from, codes_all};
ghost use Rattle.qpu_select.specs.Code.{HasRoom, all_regs, shape_of};
ghost use Rattle.qpu_select.specs.Whole.{takes as takes_of, work_regs, uniform_regs, more_batches as more_batches_of, next_batch as next_batch_of, batch as batch_of, program};
ghost use Rattle.qpu_select.specs.Emitting.{start_of, Adds};

use crate::blocks::{close, open, put_back, set_aside};
use crate::body::put_body;
use crate::emitted::Emitted;
use crate::lets::put;
use crate::registers::{
    Memory, all, batch, batches, dims, global, items, local, params, rows, shape, step,
};
use crate::shape::Shape;
use lane_ir::{LaneIr, LaneStmt};
use qpu_encode::{AddOp, BraCond};
use std::alloc::Global;
use vop_ir::{Dst, Exit, Op, Src, Vop, VopBlock, VopIr, copy, flagged, plain};
use vpm_dma_lower::{Access, AccessList};

/// A register takes the next uniform.
fn takes(r: u32) -> Vop
    ensures { result ≡ takes_of r }
{
    copy(Dst::Reg(r), Src::Uniform)
}

/// The uniforms of every kernel.
fn put_work(ops: &mut Vec<Vop>, h: Shape) -> Result<(), Memory>
    requires { HasRoom h }
    ensures { IfOk result (λ _. ops.new.items ≡ ops.old.items ++ map takes_of (work_regs h)) }
{
    let (global, local) = (global(h), local(h));
    put(
        ops,
        &[
            takes(h.vals),
            takes(batch(h)),
            takes(step(h)),
            takes(batches(h)),
            takes(items(h)),
            takes(dims(h)),
            takes(global),
            takes(global + 1),
            takes(global + 2),
            takes(local),
            takes(local + 1),
            takes(local + 2),
        ],
    )
}

/// All uniforms, in their order.
fn put_uniforms(ops: &mut Vec<Vop>, h: Shape) -> Result<(), Memory>
    requires { HasRoom h }
    ensures { IfOk result (λ _. ops.new.items ≡ ops.old.items ++ map takes_of (uniform_regs h)) }
{
    put_work(ops, h)?;
    let first = params(h);
    for p in 0..h.params {
        ops.push(takes(first + p))?;
    }
    Ok(())
}

/// N stands while the batch's number is below how many there are.
fn more_batches(h: Shape) -> Vop
    requires { HasRoom h }
    ensures { result ≡ more_batches_of h }
{
    flagged(
        Op::Add(AddOp::Sub),
        Dst::Nowhere,
        Src::Reg(batch(h)),
        Src::Reg(batches(h)),
    )
}

fn next_batch(h: Shape) -> Vop
    requires { HasRoom h }
    ensures { result ≡ next_batch_of h }
{
    plain(
        Op::Add(AddOp::Add),
        Dst::Reg(batch(h)),
        Src::Reg(batch(h)),
        Src::Reg(step(h)),
    )
}

/// A batch, and then the number of the next.
fn put_batch(
    alloc: Global,
    out: &mut Emitted,
    h: Shape,
    list: &[Access],
    body: &[LaneStmt],
) -> Result<(), Memory>
    requires { HasRoom h }
    ensures { IfOk result (λ _. Adds (batch_of h (map code_from list.now) body.now (start_of out.old)) out.old out.new) }
{
    put_body(alloc, out, h, list, body)?;
    put(&mut out.ops, &[next_batch(h)])
}

/// The opening, the loop over batches, and the end.
fn put_program(
    alloc: Global,
    h: Shape,
    list: &[Access],
    body: &[LaneStmt],
) -> Result<Vec<VopBlock>, Memory>
    requires { HasRoom h }
    ensures { IfOk result (λ r. map block_from r.items ≡ program h (map code_from list.now) body.now) }
{
    let mut out = Emitted {
        closed: Vec::new(alloc),
        ops: Vec::new(alloc),
        next: 0,
    };
    put_uniforms(&mut out.ops, h)?;
    let first = open(alloc, &mut out)?;
    let at = out.closed.len();
    let test = set_aside(alloc, &mut out, more_batches(h))?;
    put_batch(alloc, &mut out, h, list, body)?;
    put_back(alloc, &mut out, first, at, test, BraCond::AnyN)?;
    close(alloc, &mut out, Exit::Stop)?;
    let Emitted { closed, .. } = out;
    Ok(closed)
}

/// The program of a batch's statements, done for each batch of a QPU, where `accesses` has the code of that batch's accesses.
/// A definition for which the processor has no operation, as a quotient, gets none here: `lower` leaves no such definition.
///
/// # Errors
///
/// Where memory or the numbers of registers or blocks run out.
pub fn select(alloc: Global, ir: &LaneIr, accesses: &AccessList) -> Result<VopIr, Memory>
    requires { map code_from accesses.now.list.items ≡ codes_all ir.now.vals ir.now.arrays.items ir.now.body.items }
    ensures regs { IfOk result (λ r. r.regs ≡ all_regs (shape_of ir.now)) }
    ensures rows { IfOk result (λ r. r.rows ≡ sum_of ir.now.arrays.items) }
    ensures scratch { IfOk result (λ r. r.scratch ≡ ir.now.vals) }
    ensures blocks { IfOk result (λ r. map block_from r.blocks.items ≡ program (shape_of ir.now) (map code_from accesses.now.list.items) ir.now.body.items) }
{
    let h = shape(ir)?;
    let rows = rows(&ir.arrays)?;
    let blocks = put_program(alloc, h, &accesses.list, &ir.body)?;
    Ok(VopIr {
        regs: all(h),
        rows,
        scratch: h.vals,
        blocks,
    })
}
