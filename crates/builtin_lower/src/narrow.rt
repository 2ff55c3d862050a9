//! The statements of a narrowing.

ghost use Rattle.std.specs.Prelude.{◌≡◌, ◌+◌, ◌<◌, ◌^◌, ◌++◌, IfOk};
ghost use Rattle.lane_ir.specs.Recipe.{statements, defining};
ghost use Rattle.builtin_lower.specs.Lower.{narrow_into, narrowing};

use crate::steps::{X, copy_of, step_to};
use item_ir::Val;
use lane_ir::{Act, LaneStmt, Source, put_defining, put_steps};
use q_lane::{BinOp, Scalar};
use std::alloc::AllocError;

/// Adds the steps by which a source becomes, as a word of the type, the temporary value `to`.
pub(crate) fn put_narrow(
    out: &mut Vec<LaneStmt>,
    first: u32,
    args: &[Val],
    t: Scalar,
    to: u8,
    a: Source,
) -> Result<(), AllocError>
    requires { first + 256 < 2 ^ 32 }
    ensures { IfOk result (λ _. out.new.items ≡ out.old.items ++ statements first args.now (narrow_into t to a)) }
{
    let bits = Source::Temp(15);
    match t {
        Scalar::Char => {
            let steps = [
                step_to(15, Act::Const(24)),
                step_to(to, Act::Two(BinOp::Shl, a, bits)),
                step_to(to, Act::Two(BinOp::Sar, Source::Temp(to), bits)),
            ];
            put_steps(out, first, args, &steps)
        }
        Scalar::Short => {
            let steps = [
                step_to(15, Act::Const(16)),
                step_to(to, Act::Two(BinOp::Shl, a, bits)),
                step_to(to, Act::Two(BinOp::Sar, Source::Temp(to), bits)),
            ];
            put_steps(out, first, args, &steps)
        }
        Scalar::Uchar => {
            let steps = [
                step_to(15, Act::Const(255)),
                step_to(to, Act::Two(BinOp::And, a, bits)),
            ];
            put_steps(out, first, args, &steps)
        }
        Scalar::Ushort => {
            let steps = [
                step_to(15, Act::Const(65535)),
                step_to(to, Act::Two(BinOp::And, a, bits)),
            ];
            put_steps(out, first, args, &steps)
        }
        Scalar::Int | Scalar::Uint => put_steps(out, first, args, &[step_to(to, copy_of(a))]),
    }
}

/// Adds the statements by which `value` becomes the first argument as a word of the type.
pub(crate) fn put_narrowing(
    out: &mut Vec<LaneStmt>,
    first: u32,
    args: &[Val],
    t: Scalar,
    value: Val,
) -> Result<(), AllocError>
    requires { first + 256 < 2 ^ 32 }
    ensures { IfOk result (λ _. out.new.items ≡ out.old.items ++ defining first args.now (narrowing t).steps (narrowing t).last value.0) }
{
    put_narrow(out, first, args, t, 0, Source::Argument(0))?;
    put_defining(out, first, args, &[], copy_of(X), value)
}
