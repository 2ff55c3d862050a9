//! The walk over the statements of a batch.

ghost use Rattle.std.specs.Prelude.{◌≡◌, IfOk, map};
ghost use Rattle.vpm_dma_lower.specs.Accesses.{code_from};
ghost use Rattle.qpu_select.specs.Code.{HasRoom, emit, emit_all};
ghost use Rattle.qpu_select.specs.Emitting.{start_of, Adds};

use crate::blocks::{open, put_access, put_back, set_aside};
use crate::emitted::Emitted;
use crate::lets::{asks, put_let, put_put};
use crate::registers::Memory;
use crate::shape::Shape;
use lane_ir::LaneStmt;
use qpu_encode::BraCond;
use std::alloc::Global;
use vpm_dma_lower::Access;

/// Adds the code of a statement.
#[cycle(walk)]
pub fn put_statement(
    alloc: Global,
    out: &mut Emitted,
    h: Shape,
    list: &[Access],
    stmt: &LaneStmt,
) -> Result<(), Memory>
    requires { HasRoom h }
    ensures { IfOk result (λ _. Adds (emit h (map code_from list.now) stmt.now (start_of out.old)) out.old out.new) }
{
    match stmt {
        LaneStmt::Let(v, def) => put_let(&mut out.ops, h, v.0, def),
        LaneStmt::Put { var, value, mask } => put_put(&mut out.ops, h, *var, value.0, mask.0),
        LaneStmt::Load { .. } => put_access(alloc, out, list),
        LaneStmt::Store { .. } => put_access(alloc, out, list),
        LaneStmt::GetElement { .. } => put_access(alloc, out, list),
        LaneStmt::PutElement { .. } => put_access(alloc, out, list),
        LaneStmt::Clear { .. } => put_access(alloc, out, list),
        LaneStmt::WhileAny { head, mask, body } => {
            let first = open(alloc, out)?;
            put_all(alloc, out, h, list, head.as_slice())?;
            let at = out.closed.len();
            let test = set_aside(alloc, out, asks(mask.0))?;
            put_all(alloc, out, h, list, body.as_slice())?;
            put_back(alloc, out, first, at, test, BraCond::AnyNz)?;
            Ok(())
        }
    }
}

/// Adds the code of statements.
#[cycle(walk)]
fn put_all(
    alloc: Global,
    out: &mut Emitted,
    h: Shape,
    list: &[Access],
    body: &[LaneStmt],
) -> Result<(), Memory>
    requires { HasRoom h }
    ensures { IfOk result (λ _. Adds (emit_all h (map code_from list.now) body.now (start_of out.old)) out.old out.new) }
{
    for stmt in body {
        put_statement(alloc, out, h, list, stmt)?;
    }
    Ok(())
}
