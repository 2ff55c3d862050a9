//! The definitions of a prolog. Each function asks that the values after the first have numbers.

ghost use Rattle.std.specs.Prelude.{◌≡◌, ◌+◌, ◌<◌, ◌^◌, ◌++◌, ◌∷◌, [], IfOk};
ghost use Rattle.lane_ir.specs.declared.form.LaneStmt.TheVariants.{Let};
ghost use Rattle.lane_mapper.specs.Prolog.{val, two, live_part, global_sizes, global_ids, group_sizes, each_id, where_used, ids_part, ids_from};

use crate::uses::Uses;
use item_ir::{Def, Val};
use lane_ir::LaneStmt;
use q_functions::WorkFunction;
use q_lane::BinOp;
use std::alloc::{AllocError, Global};

fn define(out: &mut Vec<LaneStmt>, value: u32, def: Def) -> Result<(), AllocError>
    ensures { IfOk result (λ _. out.new.items ≡ out.old.items ++ Let (val value) def ∷ []) }
{
    out.push(LaneStmt::Let(Val(value), def))?;
    Ok(())
}

fn combine(out: &mut Vec<LaneStmt>, value: u32, op: BinOp, a: u32, b: u32) -> Result<(), AllocError>
    ensures { IfOk result (λ _. out.new.items ≡ out.old.items ++ two value op a b ∷ []) }
{
    define(out, value, Def::Bin(op, Val(a), Val(b)))
}

fn ask(out: &mut Vec<LaneStmt>, value: u32, which: WorkFunction, dim: u32) -> Result<(), AllocError>
    ensures { IfOk result (λ _. out.new.items ≡ out.old.items ++ Let (val value) (Def.Work which (val dim)) ∷ []) }
{
    define(
        out,
        value,
        Def::Work {
            which,
            dim: Val(dim),
        },
    )
}

/// Which lanes have an item.
#[tactic(auto, unfolding(crate::specs::Prolog::live_part))]
pub(crate) fn put_live(out: &mut Vec<LaneStmt>, first: u32) -> Result<(), AllocError>
    requires { first + 32 < 2 ^ 32 }
    ensures { IfOk result (λ _. out.new.items ≡ out.old.items ++ live_part first) }
{
    define(out, first, Def::Flat)?;
    define(out, first + 1, Def::Items)?;
    combine(out, first + 2, BinOp::Less(false), first, first + 1)
}

#[tactic(auto, unfolding(crate::specs::Prolog::global_sizes))]
fn put_global_sizes(out: &mut Vec<LaneStmt>, first: u32) -> Result<(), AllocError>
    requires { first + 32 < 2 ^ 32 }
    ensures { IfOk result (λ _. out.new.items ≡ out.old.items ++ global_sizes first) }
{
    define(out, first + 3, Def::Const(0))?;
    define(out, first + 4, Def::Const(1))?;
    define(out, first + 5, Def::Const(2))?;
    ask(out, first + 6, WorkFunction::GlobalSize, first + 3)?;
    ask(out, first + 7, WorkFunction::GlobalSize, first + 4)
}

#[tactic(auto, unfolding(crate::specs::Prolog::global_ids))]
fn put_global_ids(out: &mut Vec<LaneStmt>, first: u32) -> Result<(), AllocError>
    requires { first + 32 < 2 ^ 32 }
    ensures { IfOk result (λ _. out.new.items ≡ out.old.items ++ global_ids first) }
{
    combine(out, first + 8, BinOp::Rem(false), first, first + 6)?;
    combine(out, first + 9, BinOp::Div(false), first, first + 6)?;
    combine(out, first + 10, BinOp::Rem(false), first + 9, first + 7)?;
    combine(out, first + 11, BinOp::Div(false), first + 9, first + 7)
}

/// The global ids.
fn put_global(out: &mut Vec<LaneStmt>, first: u32, used: bool) -> Result<(), AllocError>
    requires { first + 32 < 2 ^ 32 }
    ensures { IfOk result (λ _. out.new.items ≡ out.old.items ++ where_used used (global_sizes first ++ global_ids first)) }
{
    if !used {
        return Ok(());
    }
    put_global_sizes(out, first)?;
    put_global_ids(out, first)
}

/// The sizes of a group.
#[tactic(auto, unfolding(crate::specs::Prolog::group_sizes))]
fn put_group_sizes(out: &mut Vec<LaneStmt>, first: u32, used: bool) -> Result<(), AllocError>
    requires { first + 32 < 2 ^ 32 }
    ensures { IfOk result (λ _. out.new.items ≡ out.old.items ++ where_used used (group_sizes first)) }
{
    if !used {
        return Ok(());
    }
    ask(out, first + 12, WorkFunction::LocalSize, first + 3)?;
    ask(out, first + 13, WorkFunction::LocalSize, first + 4)?;
    ask(out, first + 14, WorkFunction::LocalSize, first + 5)
}

/// What an operation gives of each global id and the size of a group, from value `to` on.
#[tactic(auto, unfolding(crate::specs::Prolog::each_id))]
fn put_each_id(
    out: &mut Vec<LaneStmt>,
    first: u32,
    op: BinOp,
    to: u32,
    used: bool,
) -> Result<(), AllocError>
    requires values { first + 32 < 2 ^ 32 }
    requires results { to + 2 < 2 ^ 32 }
    ensures { IfOk result (λ _. out.new.items ≡ out.old.items ++ where_used used (each_id op to first)) }
{
    if !used {
        return Ok(());
    }
    combine(out, to, op, first + 8, first + 12)?;
    combine(out, to + 1, op, first + 10, first + 13)?;
    combine(out, to + 2, op, first + 11, first + 14)
}

/// The ids that are asked for.
pub(crate) fn put_ids(out: &mut Vec<LaneStmt>, first: u32, uses: Uses) -> Result<(), AllocError>
    requires { first + 32 < 2 ^ 32 }
    ensures { IfOk result (λ _. out.new.items ≡ out.old.items ++ ids_part first uses) }
{
    put_global(out, first, uses.any())?;
    put_group_sizes(out, first, uses.in_groups())?;
    put_each_id(out, first, BinOp::Rem(false), first + 15, uses.local)?;
    put_each_id(out, first, BinOp::Div(false), first + 18, uses.group)
}

/// The values that are the ids.
pub(crate) fn id_values(alloc: Global, first: u32) -> Result<Vec<Val>, AllocError>
    requires { first + 32 < 2 ^ 32 }
    ensures { IfOk result (λ v. v.items ≡ ids_from first) }
{
    Vec::from_slice(
        alloc,
        &[
            Val(first + 8),
            Val(first + 10),
            Val(first + 11),
            Val(first + 15),
            Val(first + 16),
            Val(first + 17),
            Val(first + 18),
            Val(first + 19),
            Val(first + 20),
        ],
    )
}
