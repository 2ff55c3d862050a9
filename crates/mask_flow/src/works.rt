//! Definitions.

ghost use Rattle.std.specs.Prelude.{◌≡◌, ◌+◌, ◌<◌, ◌≤◌, ◌^◌, ◌++◌, IfOk};
ghost use Rattle.mask_flow.specs.Masked.{id as id_at, small_numbers, picks, asks, defining};

use crate::place::Place;
use crate::put::{define, put_get_element, put_load};
use item_ir::{Def, Val};
use lane_ir::LaneStmt;
use q_functions::WorkFunction;
use q_lane::BinOp;
use std::alloc::{AllocError, Global};

/// The value that is one of the ids.
fn id(ids: &[Val], at: usize) -> Val
    ensures { result ≡ id_at ids.now at }
{
    ids.get(at).copied().unwrap_or(Val(0))
}

#[tactic(auto, unfolding(crate::specs::Masked::small_numbers))]
fn put_small_numbers(out: &mut Vec<LaneStmt>, first: u32) -> Result<(), AllocError>
    requires { first + 8 < 2 ^ 32 }
    ensures { IfOk result (λ _. out.new.items ≡ out.old.items ++ small_numbers first) }
{
    define(out, Val(first), Def::Const(0))?;
    define(out, Val(first + 1), Def::Const(1))?;
    define(out, Val(first + 2), Def::Const(2))
}

/// One of the three ids from `from` on, by the value of a dimension: 0 past the last dimension.
#[tactic(auto, unfolding(crate::specs::Masked::picks))]
fn put_pick(
    out: &mut Vec<LaneStmt>,
    first: u32,
    value: Val,
    dim: Val,
    ids: &[Val],
    from: usize,
) -> Result<(), AllocError>
    requires values { first + 8 < 2 ^ 32 }
    requires ids { from ≤ 6 }
    ensures { IfOk result (λ _. out.new.items ≡ out.old.items ++ picks first value dim ids.now from) }
{
    let (zero, one, two) = (Val(first), Val(first + 1), Val(first + 2));
    let (pick, second) = (Val(first + 3), Val(first + 4));
    put_small_numbers(out, first)?;
    define(out, pick, Def::Bin(BinOp::Equal, dim, two))?;
    define(out, pick, Def::Choose(pick, id(ids, from + 2), zero))?;
    define(out, second, Def::Bin(BinOp::Equal, dim, one))?;
    define(out, pick, Def::Choose(second, id(ids, from + 1), pick))?;
    define(out, value, Def::Choose(dim, pick, id(ids, from)))
}

/// A number of the work.
fn put_work(
    out: &mut Vec<LaneStmt>,
    first: u32,
    value: Val,
    which: WorkFunction,
    dim: Val,
    ids: &[Val],
) -> Result<(), AllocError>
    requires { first + 8 < 2 ^ 32 }
    ensures { IfOk result (λ _. out.new.items ≡ out.old.items ++ asks ids.now first value which dim) }
{
    match which {
        WorkFunction::GlobalId => put_pick(out, first, value, dim, ids, 0),
        WorkFunction::LocalId => put_pick(out, first, value, dim, ids, 3),
        WorkFunction::GroupId => put_pick(out, first, value, dim, ids, 6),
        WorkFunction::WorkDim => define(out, value, Def::Work { which, dim }),
        WorkFunction::GlobalSize => define(out, value, Def::Work { which, dim }),
        WorkFunction::LocalSize => define(out, value, Def::Work { which, dim }),
        WorkFunction::NumGroups => define(out, value, Def::Work { which, dim }),
    }
}

/// The definition of a value, in a batch.
pub(crate) fn put_def(
    alloc: Global,
    out: &mut Vec<LaneStmt>,
    ids: &[Val],
    at: Place,
    value: Val,
    def: &Def,
) -> Result<(), AllocError>
    requires { at.value + 8 < 2 ^ 32 }
    ensures { IfOk result (λ _. out.new.items ≡ out.old.items ++ defining ids.now at value def.now) }
{
    match def {
        Def::Work { which, dim } => put_work(out, at.value, value, *which, *dim, ids),
        Def::Load { elem, addr } => put_load(out, at, *elem, value, *addr),
        Def::Element { array, index } => put_get_element(out, at, *array, value, *index),
        _ => define(out, value, def.copied(alloc)?),
    }
}
