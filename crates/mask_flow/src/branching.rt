//! The masks of branches and of a loop's test.

ghost use Rattle.std.specs.Prelude.{◌≡◌, ◌+◌, ◌<◌, ◌^◌, ◌++◌, ◌∷◌, [], IfOk};
ghost use Rattle.lane_ir.specs.declared.form.LaneStmt.TheVariants as lane;
ghost use Rattle.mask_flow.specs.Masked.{val, chooses, tests, settles};

use crate::leaving::put_settling;
use crate::place::Place;
use crate::put::{assign, define, put};
use item_ir::{Def, Val};
use lane_ir::LaneStmt;
use sqlite_items::Items;
use std::alloc::AllocError;

/// The masks of both branches, of which the first one's is on.
#[tactic(auto, unfolding(crate::specs::Masked::chooses))]
pub(crate) fn put_choice(out: &mut Vec<LaneStmt>, at: Place, cond: Val) -> Result<(), AllocError>
    requires { at.value + 8 < 2 ^ 32 }
    ensures { IfOk result (λ _. out.new.items ≡ out.old.items ++ chooses at cond) }
{
    let (mask, zero, one) = (Val(at.value), Val(at.value + 1), Val(at.value + 2));
    let (yes, no) = (Val(at.value + 3), Val(at.value + 4));
    define(out, mask, Def::Get(at.top))?;
    define(out, zero, Def::Const(0))?;
    define(out, one, Def::Const(1))?;
    define(out, yes, Def::Choose(cond, mask, zero))?;
    define(out, no, Def::Choose(cond, zero, mask))?;
    assign(out, at.var, yes, one)
}

/// The mask of the other branch comes in its place.
pub(crate) fn put_other(out: &mut Vec<LaneStmt>, at: Place) -> Result<(), AllocError>
    requires { at.value + 8 < 2 ^ 32 }
    ensures { IfOk result (λ _. out.new.items ≡ out.old.items ++ lane.Put at.var (val (at.value + 4)) (val (at.value + 2)) ∷ []) }
{
    assign(out, at.var, Val(at.value + 4), Val(at.value + 2))
}

/// The loop's mask falls where the condition is 0.
#[tactic(auto, unfolding(crate::specs::Masked::tests))]
pub(crate) fn put_test(out: &mut Vec<LaneStmt>, at: Place, cond: Val) -> Result<(), AllocError>
    requires { at.value + 8 < 2 ^ 32 }
    ensures { IfOk result (λ _. out.new.items ≡ out.old.items ++ tests at cond) }
{
    let (mask, zero, held) = (Val(at.value), Val(at.value + 1), Val(at.value + 2));
    define(out, mask, Def::Get(at.var))?;
    define(out, zero, Def::Const(0))?;
    define(out, held, Def::Choose(cond, mask, zero))?;
    assign(out, at.var, held, mask)
}

/// A loop whose mask the test leaves, and what settles the top mask after it.
pub(crate) fn put_loop(
    out: &mut Vec<LaneStmt>,
    at: Place,
    tested: Vec<LaneStmt>,
    round: Vec<LaneStmt>,
) -> Result<(), AllocError>
    requires { at.value + 8 < 2 ^ 32 }
    ensures { IfOk result (λ _. out.new.items ≡ out.old.items ++ lane.WhileAny tested.items (val (at.value + 2)) round.items ∷ settles at) }
{
    put(
        out,
        LaneStmt::WhileAny {
            head: Items::from_vec(tested),
            mask: Val(at.value + 2),
            body: Items::from_vec(round),
        },
    )?;
    put_settling(out, at)
}
