//! Statements that leave, and those by which a mask settles.

ghost use Rattle.std.specs.Prelude.{◌≡◌, ◌+◌, ◌<◌, ◌^◌, ◌++◌, IfOk};
ghost use Rattle.mask_flow.specs.Masked.{leaves_to, settles, opens};

use crate::place::Place;
use crate::put::{assign, define};
use item_ir::{Def, Val};
use lane_ir::LaneStmt;
use std::alloc::AllocError;

/// The lanes of the top mask leave it, and the mask where that ends.
#[tactic(auto, unfolding(crate::specs::Masked::leaves_to))]
pub(crate) fn put_leave(out: &mut Vec<LaneStmt>, at: Place, end: u32) -> Result<(), AllocError>
    requires { at.value + 8 < 2 ^ 32 }
    ensures { IfOk result (λ _. out.new.items ≡ out.old.items ++ leaves_to end at) }
{
    let (mask, zero) = (Val(at.value), Val(at.value + 1));
    define(out, mask, Def::Get(at.top))?;
    define(out, zero, Def::Const(0))?;
    assign(out, end, zero, mask)?;
    assign(out, at.top, zero, mask)
}

/// The top mask falls where the round's, the loop's or the scope's has fallen.
#[tactic(auto, unfolding(crate::specs::Masked::settles))]
pub(crate) fn put_settling(out: &mut Vec<LaneStmt>, at: Place) -> Result<(), AllocError>
    requires { at.value + 8 < 2 ^ 32 }
    ensures { IfOk result (λ _. out.new.items ≡ out.old.items ++ settles at) }
{
    let (round, in_loop, scope) = (Val(at.value), Val(at.value + 1), Val(at.value + 2));
    let (both, all, top) = (Val(at.value + 3), Val(at.value + 4), Val(at.value + 5));
    define(out, round, Def::Get(at.round_mask()))?;
    define(out, in_loop, Def::Get(at.loop_mask()))?;
    define(out, scope, Def::Get(at.in_scope))?;
    define(out, both, Def::Choose(round, in_loop, round))?;
    define(out, all, Def::Choose(both, scope, both))?;
    define(out, top, Def::Get(at.top))?;
    assign(out, at.top, all, top)
}

/// A new mask begins as another.
#[tactic(auto, unfolding(crate::specs::Masked::opens))]
pub(crate) fn put_opening(
    out: &mut Vec<LaneStmt>,
    first: u32,
    var: u32,
    outer: u32,
) -> Result<(), AllocError>
    requires { first + 8 < 2 ^ 32 }
    ensures { IfOk result (λ _. out.new.items ≡ out.old.items ++ opens first var outer) }
{
    let (mask, one) = (Val(first), Val(first + 1));
    define(out, mask, Def::Get(outer))?;
    define(out, one, Def::Const(1))?;
    assign(out, var, mask, one)
}
