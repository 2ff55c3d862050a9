//! The statements of a built-in function.

ghost use Rattle.std.specs.Prelude.{◌≡◌, ◌+◌, ◌<◌, ◌^◌, ◌++◌, IfOk, length};
ghost use Rattle.lane_ir.specs.Recipe.{statements, defining};
ghost use Rattle.builtin_lower.specs.Lower.{filled, function_recipe, lowered_built};

use crate::bits::{put_clz, put_popcount, put_rotate};
use crate::narrow::put_narrow;
use crate::order::{flipped, put_abs, put_abs_diff, put_clamp, put_max, put_min};
use crate::product::{put_mul_hi, put_mul24};
use crate::saturate::{put_add_sat, put_sub_sat};
use crate::steps::step_to;
use item_ir::Val;
use lane_ir::{Act, LaneStmt, Source, put_steps};
use q_functions::{NumberFunction, is_signed};
use q_lane::Scalar;
use std::alloc::AllocError;

/// Adds the steps by which argument i, read in the type, becomes temporary value i.
fn put_argument(
    out: &mut Vec<LaneStmt>,
    first: u32,
    args: &[Val],
    t: Scalar,
    i: u8,
) -> Result<(), AllocError>
    requires { first + 256 < 2 ^ 32 }
    ensures { IfOk result (λ _. out.new.items ≡ out.old.items ++ statements first args.now (filled t (length args.now) i)) }
{
    if (i as usize) < args.len() {
        put_narrow(out, first, args, t, i, Source::Argument(i))
    } else {
        put_steps(out, first, args, &[step_to(i, Act::Const(0))])
    }
}

/// Adds the statements of a function whose arguments are temporary values.
fn put_function(
    out: &mut Vec<LaneStmt>,
    first: u32,
    args: &[Val],
    which: NumberFunction,
    t: Scalar,
    value: Val,
) -> Result<(), AllocError>
    requires { first + 256 < 2 ^ 32 }
    ensures { IfOk result (λ _. out.new.items ≡ out.old.items ++ defining first args.now (function_recipe which t).steps (function_recipe which t).last value.0) }
{
    match which {
        NumberFunction::Min => put_min(out, first, args, flipped(t), value),
        NumberFunction::Max => put_max(out, first, args, flipped(t), value),
        NumberFunction::Clamp => put_clamp(out, first, args, flipped(t), value),
        NumberFunction::Abs => put_abs(out, first, args, is_signed(t), value),
        NumberFunction::AbsDiff => put_abs_diff(out, first, args, flipped(t), value),
        NumberFunction::Mul24 => put_mul24(out, first, args, is_signed(t), value),
        NumberFunction::MulHi => put_mul_hi(out, first, args, t, value),
        NumberFunction::Rotate => put_rotate(out, first, args, t, value),
        NumberFunction::Clz => put_clz(out, first, args, t, value),
        NumberFunction::Popcount => put_popcount(out, first, args, t, value),
        NumberFunction::AddSat => put_add_sat(out, first, args, t, value),
        NumberFunction::SubSat => put_sub_sat(out, first, args, t, value),
    }
}

/// Adds what stands for a function of numbers.
pub(crate) fn put_built(
    out: &mut Vec<LaneStmt>,
    first: u32,
    value: Val,
    which: NumberFunction,
    work: Scalar,
    args: &[Val],
) -> Result<(), AllocError>
    requires { first + 256 < 2 ^ 32 }
    ensures { IfOk result (λ _. out.new.items ≡ out.old.items ++ lowered_built first value.0 which work args.now) }
{
    put_argument(out, first, args, work, 0)?;
    put_argument(out, first, args, work, 1)?;
    put_argument(out, first, args, work, 2)?;
    put_function(out, first, args, which, work, value)
}
