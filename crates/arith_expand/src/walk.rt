//! The walk over a body.

ghost use Rattle.std.specs.Prelude.{◌≡◌, ◌+◌, ◌<◌, ◌^◌, ◌++◌, ◌∷◌, [], IfOk};
ghost use Rattle.lane_ir.specs.Kept.{rewritten, rewritten_all};
ghost use Rattle.arith_expand.specs.Expand.{expanded, expanded_two, expanded_work};

use crate::divide::{
    DIVIDEND_SIGN, LEFT, QUOTIENT, ZERO, magnitude_steps, put_division, signing_left_steps,
    signing_steps, size_steps, unsigned_steps,
};
use item_ir::{Def, Val};
use lane_ir::{Act, LaneStmt, Source};
use q_functions::WorkFunction;
use q_lane::BinOp;
use sqlite_items::Items;
use std::alloc::{AllocError, Global};

/// Adds what stands for an operation on two values.
fn put_two(
    alloc: Global,
    out: &mut Vec<LaneStmt>,
    first: u32,
    value: Val,
    op: BinOp,
    a: Val,
    b: Val,
) -> Result<(), AllocError>
    requires { first + 256 < 2 ^ 32 }
    ensures { IfOk result (λ _. out.new.items ≡ out.old.items ++ expanded_two first value.0 op a b) }
{
    let args = [a, b];
    match op {
        BinOp::Div(false) => put_division(
            alloc,
            out,
            first,
            &args,
            &unsigned_steps(),
            &[],
            Act::Two(BinOp::Add, QUOTIENT, ZERO),
            value,
        ),
        BinOp::Div(true) => put_division(
            alloc,
            out,
            first,
            &args,
            &magnitude_steps(),
            &signing_steps(),
            Act::Choose(Source::Temp(6), Source::Temp(7), QUOTIENT),
            value,
        ),
        BinOp::Rem(false) => put_division(
            alloc,
            out,
            first,
            &args,
            &unsigned_steps(),
            &[],
            Act::Two(BinOp::Add, LEFT, ZERO),
            value,
        ),
        BinOp::Rem(true) => put_division(
            alloc,
            out,
            first,
            &args,
            &magnitude_steps(),
            &signing_left_steps(),
            Act::Choose(DIVIDEND_SIGN, Source::Temp(7), LEFT),
            value,
        ),
        _ => {
            out.push(LaneStmt::Let(value, Def::Bin(op, a, b)))?;
            Ok(())
        }
    }
}

/// Adds what stands for a number of the work.
fn put_work(
    alloc: Global,
    out: &mut Vec<LaneStmt>,
    first: u32,
    value: Val,
    which: WorkFunction,
    dim: Val,
) -> Result<(), AllocError>
    requires { first + 256 < 2 ^ 32 }
    ensures { IfOk result (λ _. out.new.items ≡ out.old.items ++ expanded_work first value.0 which dim) }
{
    match which {
        WorkFunction::NumGroups => put_division(
            alloc,
            out,
            first,
            &[dim],
            &size_steps(),
            &[],
            Act::Two(BinOp::Add, QUOTIENT, ZERO),
            value,
        ),
        _ => {
            out.push(LaneStmt::Let(value, Def::Work { which, dim }))?;
            Ok(())
        }
    }
}

/// Adds what stands for a definition.
fn put_def(
    alloc: Global,
    out: &mut Vec<LaneStmt>,
    first: u32,
    value: Val,
    def: &Def,
) -> Result<(), AllocError>
    requires { first + 256 < 2 ^ 32 }
    ensures { IfOk result (λ _. out.new.items ≡ out.old.items ++ expanded first value.0 def.now) }
{
    match def {
        Def::Bin(op, a, b) => put_two(alloc, out, first, value, *op, *a, *b),
        Def::Work { which, dim } => put_work(alloc, out, first, value, *which, *dim),
        _ => {
            out.push(LaneStmt::Let(value, def.copied(alloc)?))?;
            Ok(())
        }
    }
}

#[cycle(walk)]
fn put_stmt(
    alloc: Global,
    out: &mut Vec<LaneStmt>,
    first: u32,
    stmt: &LaneStmt,
) -> Result<(), AllocError>
    requires { first + 256 < 2 ^ 32 }
    ensures { IfOk result (λ _. out.new.items ≡ out.old.items ++ rewritten (expanded first) stmt.now) }
{
    match stmt {
        LaneStmt::Let(value, def) => return put_def(alloc, out, first, *value, def),
        LaneStmt::Put { var, value, mask } => out.push(LaneStmt::Put {
            var: *var,
            value: *value,
            mask: *mask,
        })?,
        LaneStmt::Load {
            elem,
            dst,
            addr,
            mask,
        } => out.push(LaneStmt::Load {
            elem: *elem,
            dst: *dst,
            addr: *addr,
            mask: *mask,
        })?,
        LaneStmt::Store {
            elem,
            addr,
            value,
            mask,
        } => out.push(LaneStmt::Store {
            elem: *elem,
            addr: *addr,
            value: *value,
            mask: *mask,
        })?,
        LaneStmt::GetElement {
            array,
            dst,
            index,
            mask,
        } => out.push(LaneStmt::GetElement {
            array: *array,
            dst: *dst,
            index: *index,
            mask: *mask,
        })?,
        LaneStmt::PutElement {
            array,
            index,
            value,
            mask,
        } => out.push(LaneStmt::PutElement {
            array: *array,
            index: *index,
            value: *value,
            mask: *mask,
        })?,
        LaneStmt::Clear { array, mask } => out.push(LaneStmt::Clear {
            array: *array,
            mask: *mask,
        })?,
        LaneStmt::WhileAny { head, mask, body } => {
            let head = walked(alloc, first, head.as_slice())?;
            let body = walked(alloc, first, body.as_slice())?;
            out.push(LaneStmt::WhileAny {
                head: Items::from_vec(head),
                mask: *mask,
                body: Items::from_vec(body),
            })?;
        }
    }
    Ok(())
}

/// The body with other statements in place of each definition.
#[cycle(walk)]
pub fn walked(alloc: Global, first: u32, body: &[LaneStmt]) -> Result<Vec<LaneStmt>, AllocError>
    requires { first + 256 < 2 ^ 32 }
    ensures { IfOk result (λ v. v.items ≡ rewritten_all (expanded first) body.now) }
{
    let mut out = Vec::new(alloc);
    for stmt in body {
        put_stmt(alloc, &mut out, first, stmt)?;
    }
    Ok(out)
}
