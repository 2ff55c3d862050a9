//! The walk over a body.

ghost use Rattle.std.specs.Prelude.{◌≡◌, ◌+◌, ◌<◌, ◌^◌, ◌++◌, ◌∷◌, [], IfOk};
ghost use Rattle.item_ir.specs.declared.form.Def.TheVariants.{One};
ghost use Rattle.lane_ir.specs.Kept.{rewritten, rewritten_all};
ghost use Rattle.builtin_lower.specs.Lower.{by_recipe, one_recipe, lowered};

use crate::compare::put_two;
use crate::function::put_built;
use crate::narrow::put_narrowing;
use crate::ones::put_ones;
use item_ir::{Def, Val};
use lane_ir::{LaneStmt, Source};
use q_lane::UnOp;
use sqlite_items::Items;
use std::alloc::{AllocError, Global};

/// Adds what stands for an operation on one value.
fn put_one(
    out: &mut Vec<LaneStmt>,
    first: u32,
    value: Val,
    op: UnOp,
    a: Val,
) -> Result<(), AllocError>
    requires { first + 256 < 2 ^ 32 }
    ensures { IfOk result (λ _. out.new.items ≡ out.old.items ++ by_recipe first value.0 (One op a) (a ∷ []) (one_recipe op)) }
{
    match op {
        UnOp::Narrow(t) => put_narrowing(out, first, &[a], t, value),
        UnOp::Popcount => put_ones(out, first, &[a], Source::Argument(0), value),
        UnOp::Not | UnOp::Neg | UnOp::Clz => {
            out.push(LaneStmt::Let(value, Def::One(op, a)))?;
            Ok(())
        }
    }
}

/// Adds what stands for a definition.
fn put_def(
    alloc: Global,
    out: &mut Vec<LaneStmt>,
    first: u32,
    value: Val,
    def: &Def,
) -> Result<(), AllocError>
    requires { first + 256 < 2 ^ 32 }
    ensures { IfOk result (λ _. out.new.items ≡ out.old.items ++ lowered first value.0 def.now) }
{
    match def {
        Def::Bin(op, a, b) => put_two(out, first, value, *op, *a, *b),
        Def::One(op, a) => put_one(out, first, value, *op, *a),
        Def::Built { which, work, args } => {
            put_built(out, first, value, *which, *work, args.as_slice())
        }
        _ => {
            out.push(LaneStmt::Let(value, def.copied(alloc)?))?;
            Ok(())
        }
    }
}

#[cycle(walk)]
fn put_stmt(
    alloc: Global,
    out: &mut Vec<LaneStmt>,
    first: u32,
    stmt: &LaneStmt,
) -> Result<(), AllocError>
    requires { first + 256 < 2 ^ 32 }
    ensures { IfOk result (λ _. out.new.items ≡ out.old.items ++ rewritten (lowered first) stmt.now) }
{
    match stmt {
        LaneStmt::Let(value, def) => return put_def(alloc, out, first, *value, def),
        LaneStmt::Put { var, value, mask } => out.push(LaneStmt::Put {
            var: *var,
            value: *value,
            mask: *mask,
        })?,
        LaneStmt::Load {
            elem,
            dst,
            addr,
            mask,
        } => out.push(LaneStmt::Load {
            elem: *elem,
            dst: *dst,
            addr: *addr,
            mask: *mask,
        })?,
        LaneStmt::Store {
            elem,
            addr,
            value,
            mask,
        } => out.push(LaneStmt::Store {
            elem: *elem,
            addr: *addr,
            value: *value,
            mask: *mask,
        })?,
        LaneStmt::GetElement {
            array,
            dst,
            index,
            mask,
        } => out.push(LaneStmt::GetElement {
            array: *array,
            dst: *dst,
            index: *index,
            mask: *mask,
        })?,
        LaneStmt::PutElement {
            array,
            index,
            value,
            mask,
        } => out.push(LaneStmt::PutElement {
            array: *array,
            index: *index,
            value: *value,
            mask: *mask,
        })?,
        LaneStmt::Clear { array, mask } => out.push(LaneStmt::Clear {
            array: *array,
            mask: *mask,
        })?,
        LaneStmt::WhileAny { head, mask, body } => {
            let head = walked(alloc, first, head.as_slice())?;
            let body = walked(alloc, first, body.as_slice())?;
            out.push(LaneStmt::WhileAny {
                head: Items::from_vec(head),
                mask: *mask,
                body: Items::from_vec(body),
            })?;
        }
    }
    Ok(())
}

/// The body with other statements in place of each definition.
#[cycle(walk)]
pub fn walked(alloc: Global, first: u32, body: &[LaneStmt]) -> Result<Vec<LaneStmt>, AllocError>
    requires { first + 256 < 2 ^ 32 }
    ensures { IfOk result (λ v. v.items ≡ rewritten_all (lowered first) body.now) }
{
    let mut out = Vec::new(alloc);
    for stmt in body {
        put_stmt(alloc, &mut out, first, stmt)?;
    }
    Ok(out)
}
