//! The statements of short products and of upper halves of products.

ghost use Rattle.std.specs.Prelude.{◌≡◌, ◌+◌, ◌<◌, ◌^◌, ◌++◌, IfOk, true};
ghost use Rattle.lane_ir.specs.Recipe.{defining};
ghost use Rattle.builtin_lower.specs.Lower.{mul24_of, narrow_product, mul_hi_of};

use crate::steps::{X, Y, step_to};
use item_ir::Val;
use lane_ir::{Act, LaneStmt, Source, Step, put_defining};
use q_lane::{BinOp, Scalar};
use std::alloc::AllocError;

const BITS: Source = Source::Temp(3);

const ONE_FACTOR: Source = Source::Temp(4);

const OTHER_FACTOR: Source = Source::Temp(5);

/// The low 24 bits of both factors, read as signed.
fn signed_factors() -> [Step; 5]
    ensures { result ≡ (mul24_of true).steps }
{
    [
        step_to(3, Act::Const(8)),
        step_to(4, Act::Two(BinOp::Shl, X, BITS)),
        step_to(4, Act::Two(BinOp::Sar, ONE_FACTOR, BITS)),
        step_to(5, Act::Two(BinOp::Shl, Y, BITS)),
        step_to(5, Act::Two(BinOp::Sar, OTHER_FACTOR, BITS)),
    ]
}

pub(crate) fn put_mul24(
    out: &mut Vec<LaneStmt>,
    first: u32,
    args: &[Val],
    signed: bool,
    value: Val,
) -> Result<(), AllocError>
    requires { first + 256 < 2 ^ 32 }
    ensures { IfOk result (λ _. out.new.items ≡ out.old.items ++ defining first args.now (mul24_of signed).steps (mul24_of signed).last value.0) }
{
    if signed {
        let last = Act::Two(BinOp::Mul, ONE_FACTOR, OTHER_FACTOR);
        put_defining(out, first, args, &signed_factors(), last, value)
    } else {
        put_defining(out, first, args, &[], Act::Two(BinOp::Mul24, X, Y), value)
    }
}

/// The whole product of a narrow type, and the bits by which it is shifted.
fn whole_product(bits: u32) -> [Step; 2]
    ensures { result ≡ narrow_product bits }
{
    [
        step_to(3, Act::Const(bits)),
        step_to(4, Act::Two(BinOp::Mul, X, Y)),
    ]
}

pub(crate) fn put_mul_hi(
    out: &mut Vec<LaneStmt>,
    first: u32,
    args: &[Val],
    t: Scalar,
    value: Val,
) -> Result<(), AllocError>
    requires { first + 256 < 2 ^ 32 }
    ensures { IfOk result (λ _. out.new.items ≡ out.old.items ++ defining first args.now (mul_hi_of t).steps (mul_hi_of t).last value.0) }
{
    let signed_half = Act::Two(BinOp::Sar, Source::Temp(4), BITS);
    let unsigned_half = Act::Two(BinOp::Shr, Source::Temp(4), BITS);
    match t {
        Scalar::Char => put_defining(out, first, args, &whole_product(8), signed_half, value),
        Scalar::Uchar => put_defining(out, first, args, &whole_product(8), unsigned_half, value),
        Scalar::Short => put_defining(out, first, args, &whole_product(16), signed_half, value),
        Scalar::Ushort => put_defining(out, first, args, &whole_product(16), unsigned_half, value),
        Scalar::Int => put_defining(
            out,
            first,
            args,
            &[],
            Act::Two(BinOp::MulHi(true), X, Y),
            value,
        ),
        Scalar::Uint => put_defining(
            out,
            first,
            args,
            &[],
            Act::Two(BinOp::MulHi(false), X, Y),
            value,
        ),
    }
}
