//! The statements of sums and differences that stay within their type.

ghost use Rattle.std.specs.Prelude.{◌≡◌, ◌+◌, ◌<◌, ◌^◌, ◌++◌, IfOk};
ghost use Rattle.lane_ir.specs.Recipe.{defining};
ghost use Rattle.builtin_lower.specs.Lower.{least_word, greatest_word, narrow_sum, add_sat_of, sub_sat_of};
ghost use Rattle.q_lane.specs.declared.kinds.Scalar.TheVariants.{Int, Uint};

use crate::steps::{X, Y, step_to};
use item_ir::Val;
use lane_ir::{Act, LaneStmt, Source, Step, put_defining};
use q_lane::{BinOp, Scalar, UnOp};
use std::alloc::AllocError;

/// The word of the least number of the type.
fn least(t: Scalar) -> u32
    ensures { result ≡ least_word t }
{
    match t {
        Scalar::Char => 0xffff_ff80,
        Scalar::Short => 0xffff_8000,
        Scalar::Int => 0x8000_0000,
        Scalar::Uchar | Scalar::Ushort | Scalar::Uint => 0,
    }
}

/// The word of the greatest number of the type.
fn greatest(t: Scalar) -> u32
    ensures { result ≡ greatest_word t }
{
    match t {
        Scalar::Char => 0x7f,
        Scalar::Uchar => 0xff,
        Scalar::Short => 0x7fff,
        Scalar::Ushort => 0xffff,
        Scalar::Int => 0x7fff_ffff,
        Scalar::Uint => 0xffff_ffff,
    }
}

/// A sum or difference of narrow words, which fits into a word, no less than the least.
fn narrow_steps(t: Scalar, op: BinOp) -> [Step; 4]
    ensures { result ≡ narrow_sum t op }
{
    let (whole, low) = (Source::Temp(3), Source::Temp(4));
    [
        step_to(3, Act::Two(op, X, Y)),
        step_to(4, Act::Const(least(t))),
        step_to(5, Act::Const(greatest(t))),
        step_to(3, Act::Two(BinOp::Max(true), whole, low)),
    ]
}

/// The second operand within what the first leaves below and above.
fn add_int_steps() -> [Step; 9]
    ensures { result ≡ (add_sat_of Int).steps }
{
    let (zero, least, greatest) = (Source::Temp(3), Source::Temp(4), Source::Temp(5));
    let (below, above) = (Source::Temp(6), Source::Temp(7));
    [
        step_to(3, Act::Const(0)),
        step_to(4, Act::Const(0x8000_0000)),
        step_to(5, Act::Const(0x7fff_ffff)),
        step_to(6, Act::Two(BinOp::Min(true), X, zero)),
        step_to(6, Act::Two(BinOp::Sub, least, below)),
        step_to(7, Act::Two(BinOp::Max(true), X, zero)),
        step_to(7, Act::Two(BinOp::Sub, greatest, above)),
        step_to(1, Act::Two(BinOp::Max(true), Y, below)),
        step_to(1, Act::Two(BinOp::Min(true), Y, above)),
    ]
}

/// The second operand, no greater than what the first leaves above.
fn add_uint_steps() -> [Step; 6]
    ensures { result ≡ (add_sat_of Uint).steps }
{
    let (flip, above) = (Source::Temp(3), Source::Temp(4));
    [
        step_to(3, Act::Const(0x8000_0000)),
        step_to(4, Act::One(UnOp::Not, X)),
        step_to(4, Act::Two(BinOp::Add, above, flip)),
        step_to(1, Act::Two(BinOp::Add, Y, flip)),
        step_to(1, Act::Two(BinOp::Min(true), Y, above)),
        step_to(1, Act::Two(BinOp::Add, Y, flip)),
    ]
}

/// The second operand within what may be taken from the first.
fn sub_int_steps() -> [Step; 9]
    ensures { result ≡ (sub_sat_of Int).steps }
{
    let (minus_one, least, greatest) = (Source::Temp(3), Source::Temp(4), Source::Temp(5));
    let (below, above) = (Source::Temp(6), Source::Temp(7));
    [
        step_to(3, Act::Const(0xffff_ffff)),
        step_to(4, Act::Const(0x8000_0000)),
        step_to(5, Act::Const(0x7fff_ffff)),
        step_to(6, Act::Two(BinOp::Max(true), X, minus_one)),
        step_to(6, Act::Two(BinOp::Sub, below, greatest)),
        step_to(7, Act::Two(BinOp::Min(true), X, minus_one)),
        step_to(7, Act::Two(BinOp::Sub, above, least)),
        step_to(1, Act::Two(BinOp::Max(true), Y, below)),
        step_to(1, Act::Two(BinOp::Min(true), Y, above)),
    ]
}

/// The second operand, no greater than the first.
fn sub_uint_steps() -> [Step; 5]
    ensures { result ≡ (sub_sat_of Uint).steps }
{
    let (flip, most) = (Source::Temp(3), Source::Temp(4));
    [
        step_to(3, Act::Const(0x8000_0000)),
        step_to(4, Act::Two(BinOp::Add, X, flip)),
        step_to(1, Act::Two(BinOp::Add, Y, flip)),
        step_to(1, Act::Two(BinOp::Min(true), Y, most)),
        step_to(1, Act::Two(BinOp::Add, Y, flip)),
    ]
}

pub(crate) fn put_add_sat(
    out: &mut Vec<LaneStmt>,
    first: u32,
    args: &[Val],
    t: Scalar,
    value: Val,
) -> Result<(), AllocError>
    requires { first + 256 < 2 ^ 32 }
    ensures { IfOk result (λ _. out.new.items ≡ out.old.items ++ defining first args.now (add_sat_of t).steps (add_sat_of t).last value.0) }
{
    let sum = Act::Two(BinOp::Add, X, Y);
    match t {
        Scalar::Int => put_defining(out, first, args, &add_int_steps(), sum, value),
        Scalar::Uint => put_defining(out, first, args, &add_uint_steps(), sum, value),
        Scalar::Char | Scalar::Uchar | Scalar::Short | Scalar::Ushort => {
            let last = Act::Two(BinOp::Min(true), Source::Temp(3), Source::Temp(5));
            put_defining(out, first, args, &narrow_steps(t, BinOp::Add), last, value)
        }
    }
}

pub(crate) fn put_sub_sat(
    out: &mut Vec<LaneStmt>,
    first: u32,
    args: &[Val],
    t: Scalar,
    value: Val,
) -> Result<(), AllocError>
    requires { first + 256 < 2 ^ 32 }
    ensures { IfOk result (λ _. out.new.items ≡ out.old.items ++ defining first args.now (sub_sat_of t).steps (sub_sat_of t).last value.0) }
{
    let difference = Act::Two(BinOp::Sub, X, Y);
    match t {
        Scalar::Int => put_defining(out, first, args, &sub_int_steps(), difference, value),
        Scalar::Uint => put_defining(out, first, args, &sub_uint_steps(), difference, value),
        Scalar::Char | Scalar::Uchar | Scalar::Short | Scalar::Ushort => {
            let last = Act::Two(BinOp::Min(true), Source::Temp(3), Source::Temp(5));
            put_defining(out, first, args, &narrow_steps(t, BinOp::Sub), last, value)
        }
    }
}
