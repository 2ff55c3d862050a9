//! The statements that count the ones of a word.

ghost use Rattle.std.specs.Prelude.{◌≡◌, ◌+◌, ◌<◌, ◌^◌, ◌++◌, IfOk};
ghost use Rattle.lane_ir.specs.Recipe.{statements, defining};
ghost use Rattle.builtin_lower.specs.Lower.{halvings, ones_of};

use crate::steps::{copy_of, step_to};
use item_ir::Val;
use lane_ir::{Act, LaneStmt, Source, put_defining, put_steps};
use q_lane::BinOp;
use std::alloc::AllocError;

/// What is left of the word by halving, and the word less all its halvings.
const HALF: Source = Source::Temp(4);

const LEFT: Source = Source::Temp(5);

/// Adds the steps that halve so many times, and take each half away.
fn put_halvings(
    out: &mut Vec<LaneStmt>,
    first: u32,
    args: &[Val],
    times: u32,
) -> Result<(), AllocError>
    requires { first + 256 < 2 ^ 32 }
    ensures { IfOk result (λ _. out.new.items ≡ out.old.items ++ statements first args.now (halvings times)) }
{
    let steps = [
        step_to(4, Act::Two(BinOp::Shr, HALF, Source::Temp(6))),
        step_to(5, Act::Two(BinOp::Sub, LEFT, HALF)),
    ];
    for _ in 0..times {
        put_steps(out, first, args, &steps)?;
    }
    Ok(())
}

/// Adds the statements by which `value` becomes the ones of a source.
pub(crate) fn put_ones(
    out: &mut Vec<LaneStmt>,
    first: u32,
    args: &[Val],
    a: Source,
    value: Val,
) -> Result<(), AllocError>
    requires { first + 256 < 2 ^ 32 }
    ensures { IfOk result (λ _. out.new.items ≡ out.old.items ++ defining first args.now (ones_of a).steps (ones_of a).last value.0) }
{
    let opening = [
        step_to(4, copy_of(a)),
        step_to(5, copy_of(a)),
        step_to(6, Act::Const(1)),
    ];
    put_steps(out, first, args, &opening)?;
    put_halvings(out, first, args, 31)?;
    put_defining(out, first, args, &[], copy_of(LEFT), value)?;
    Ok(())
}
