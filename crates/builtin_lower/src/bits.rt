//! The statements of functions of bits.

ghost use Rattle.std.specs.Prelude.{◌≡◌, ◌+◌, ◌<◌, ◌≤◌, ◌^◌, ◌++◌, IfOk};
ghost use Rattle.q_lane.specs.Numbers.{width as width_of};
ghost use Rattle.lane_ir.specs.Recipe.{statements, defining};
ghost use Rattle.builtin_lower.specs.Lower.{low_into, rotate_of, clz_of, popcount_of};

use crate::narrow::put_narrow;
use crate::ones::put_ones;
use crate::steps::{X, Y, copy_of, step_to};
use item_ir::Val;
use lane_ir::{Act, LaneStmt, Source, put_defining, put_steps};
use q_lane::{BinOp, Scalar, UnOp};
use std::alloc::AllocError;

const LOW: Source = Source::Temp(4);

fn width(t: Scalar) -> u32
    ensures value { result ≡ width_of t }
    ensures some { 1 ≤ result }
    ensures few { result ≤ 32 }
{
    match t {
        Scalar::Char | Scalar::Uchar => 8,
        Scalar::Short | Scalar::Ushort => 16,
        Scalar::Int | Scalar::Uint => 32,
    }
}

/// Adds the steps by which the type's bits of a source become the temporary value `to`.
fn put_low(
    out: &mut Vec<LaneStmt>,
    first: u32,
    args: &[Val],
    t: Scalar,
    to: u8,
    a: Source,
) -> Result<(), AllocError>
    requires { first + 256 < 2 ^ 32 }
    ensures { IfOk result (λ _. out.new.items ≡ out.old.items ++ statements first args.now (low_into t to a)) }
{
    match t {
        Scalar::Char | Scalar::Uchar => {
            let steps = [
                step_to(15, Act::Const(255)),
                step_to(to, Act::Two(BinOp::And, a, Source::Temp(15))),
            ];
            put_steps(out, first, args, &steps)
        }
        Scalar::Short | Scalar::Ushort => {
            let steps = [
                step_to(15, Act::Const(65535)),
                step_to(to, Act::Two(BinOp::And, a, Source::Temp(15))),
            ];
            put_steps(out, first, args, &steps)
        }
        Scalar::Int | Scalar::Uint => put_steps(out, first, args, &[step_to(to, copy_of(a))]),
    }
}

/// Adds the statements of a turn, whose amount is taken modulo the type's bits. The bits that leave at the top are shifted down in two
/// steps, since a shift by all 32 bits is none.
pub(crate) fn put_rotate(
    out: &mut Vec<LaneStmt>,
    first: u32,
    args: &[Val],
    t: Scalar,
    value: Val,
) -> Result<(), AllocError>
    requires { first + 256 < 2 ^ 32 }
    ensures { IfOk result (λ _. out.new.items ≡ out.old.items ++ defining first args.now (rotate_of t).steps (rotate_of t).last value.0) }
{
    let (most, amount) = (Source::Temp(5), Source::Temp(6));
    let (up, down) = (Source::Temp(7), Source::Temp(8));
    let steps = [
        step_to(5, Act::Const(width(t) - 1)),
        step_to(6, Act::Two(BinOp::And, Y, most)),
        step_to(7, Act::Two(BinOp::Shl, LOW, amount)),
        step_to(8, Act::Two(BinOp::Sub, most, amount)),
        step_to(8, Act::Two(BinOp::Shr, LOW, down)),
        step_to(9, Act::Const(1)),
        step_to(8, Act::Two(BinOp::Shr, down, Source::Temp(9))),
        step_to(7, Act::Two(BinOp::Add, up, down)),
    ];
    put_low(out, first, args, t, 4, X)?;
    put_steps(out, first, args, &steps)?;
    put_narrow(out, first, args, t, 0, up)?;
    put_defining(out, first, args, &[], copy_of(X), value)?;
    Ok(())
}

pub(crate) fn put_clz(
    out: &mut Vec<LaneStmt>,
    first: u32,
    args: &[Val],
    t: Scalar,
    value: Val,
) -> Result<(), AllocError>
    requires { first + 256 < 2 ^ 32 }
    ensures { IfOk result (λ _. out.new.items ≡ out.old.items ++ defining first args.now (clz_of t).steps (clz_of t).last value.0) }
{
    let steps = [
        step_to(5, Act::Const(32 - width(t))),
        step_to(4, Act::One(UnOp::Clz, LOW)),
    ];
    put_low(out, first, args, t, 4, X)?;
    put_defining(
        out,
        first,
        args,
        &steps,
        Act::Two(BinOp::Sub, LOW, Source::Temp(5)),
        value,
    )
}

pub(crate) fn put_popcount(
    out: &mut Vec<LaneStmt>,
    first: u32,
    args: &[Val],
    t: Scalar,
    value: Val,
) -> Result<(), AllocError>
    requires { first + 256 < 2 ^ 32 }
    ensures { IfOk result (λ _. out.new.items ≡ out.old.items ++ defining first args.now (popcount_of t).steps (popcount_of t).last value.0) }
{
    put_low(out, first, args, t, 0, X)?;
    put_ones(out, first, args, X, value)
}
