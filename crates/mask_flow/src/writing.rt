//! The walk over a body.

ghost use Rattle.std.specs.Prelude.{◌≡◌, ◌+◌, ◌<◌, ◌^◌, ◌++◌, IfOk};
ghost use Rattle.mask_flow.specs.Masked.{masked, masked_all};

use crate::branching::{put_choice, put_loop, put_other, put_test};
use crate::leaving::{put_leave, put_opening, put_settling};
use crate::place::Place;
use crate::put::{put_clear, put_set, put_set_element, put_store};
use crate::works::put_def;
use item_ir::{Stmt, Val};
use lane_ir::LaneStmt;
use std::alloc::{AllocError, Global};

#[cycle(masking)]
fn put_stmt(
    alloc: Global,
    out: &mut Vec<LaneStmt>,
    ids: &[Val],
    at: Place,
    stmt: &Stmt,
) -> Result<(), AllocError>
    requires values { at.value + 8 < 2 ^ 32 }
    requires vars { at.var + 8 < 2 ^ 32 }
    ensures { IfOk result (λ _. out.new.items ≡ out.old.items ++ masked ids.now at stmt.now) }
{
    match stmt {
        Stmt::Let(value, def) => put_def(alloc, out, ids, at, *value, def),
        Stmt::Set(var, value) => put_set(out, at, *var, *value),
        Stmt::Store { elem, addr, value } => put_store(out, at, *elem, *addr, *value),
        Stmt::SetElement {
            array,
            index,
            value,
        } => put_set_element(out, at, *array, *index, *value),
        Stmt::Clear(array) => put_clear(out, at, *array),
        Stmt::If { cond, yes, no } => {
            let branch = at.branch()?;
            put_choice(out, at, *cond)?;
            put_body(alloc, out, ids, branch, yes.as_slice())?;
            put_other(out, at)?;
            put_body(alloc, out, ids, branch, no.as_slice())?;
            put_settling(out, at)
        }
        Stmt::Loop {
            head,
            cond,
            body,
            step,
        } => {
            let turning = at.turning()?;
            let inside = at.in_round()?;
            put_opening(out, at.value, at.var, at.top)?;
            let mut tested = Vec::new(alloc);
            put_body(alloc, &mut tested, ids, turning, head.as_slice())?;
            put_test(&mut tested, at, *cond)?;
            let mut round = Vec::new(alloc);
            put_opening(&mut round, at.value, at.var + 1, at.var)?;
            put_body(alloc, &mut round, ids, inside, body.as_slice())?;
            put_settling(&mut round, turning)?;
            put_body(alloc, &mut round, ids, turning, step.as_slice())?;
            put_loop(out, at, tested, round)
        }
        Stmt::Scope(body) => {
            let scope = at.scope()?;
            put_opening(out, at.value, at.var, at.top)?;
            put_body(alloc, out, ids, scope, body.as_slice())
        }
        Stmt::Leave => put_leave(out, at, at.in_scope),
        Stmt::Break => put_leave(out, at, at.loop_mask()),
        Stmt::Continue => put_leave(out, at, at.round_mask()),
    }
}

/// The statements of a batch that do what an item's do, in the lanes of the top mask.
#[cycle(masking)]
pub(crate) fn put_body(
    alloc: Global,
    out: &mut Vec<LaneStmt>,
    ids: &[Val],
    at: Place,
    body: &[Stmt],
) -> Result<(), AllocError>
    requires values { at.value + 8 < 2 ^ 32 }
    requires vars { at.var + 8 < 2 ^ 32 }
    ensures { IfOk result (λ _. out.new.items ≡ out.old.items ++ masked_all ids.now at body.now) }
{
    for stmt in body {
        put_stmt(alloc, out, ids, at, stmt)?;
    }
    Ok(())
}
