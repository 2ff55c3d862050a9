//! The statements of functions that hang on the order of numbers.

ghost use Rattle.std.specs.Prelude.{◌≡◌, ◌+◌, ◌<◌, ◌^◌, ◌++◌, IfOk};
ghost use Rattle.lane_ir.specs.Recipe.{defining};
ghost use Rattle.builtin_lower.specs.Lower.{is_flipped, flips, in_order, out_of_order, min_of, max_of, clamp_of, abs_of, abs_diff_of};

use crate::steps::{X, Y, Z, copy_of, step_to};
use item_ir::Val;
use lane_ir::{Act, LaneStmt, Source, Step, put_defining, put_steps};
use q_lane::{BinOp, Scalar, UnOp};
use std::alloc::AllocError;

const FLIP: Source = Source::Temp(3);

const ONE_END: Source = Source::Temp(4);

const OTHER_END: Source = Source::Temp(5);

/// Whether the order of the type's words isn't that of signed words.
pub(crate) fn flipped(t: Scalar) -> bool
    ensures { result ≡ is_flipped t }
{
    match t {
        Scalar::Uint => true,
        Scalar::Char | Scalar::Uchar | Scalar::Short | Scalar::Ushort | Scalar::Int => false,
    }
}

fn flip_steps() -> [Step; 4]
    ensures { result ≡ flips }
{
    [
        step_to(3, Act::Const(0x8000_0000)),
        step_to(0, Act::Two(BinOp::Add, X, FLIP)),
        step_to(1, Act::Two(BinOp::Add, Y, FLIP)),
        step_to(2, Act::Two(BinOp::Add, Z, FLIP)),
    ]
}

/// Adds statements over arguments that are flipped first where they have to be.
fn put_ordered(
    out: &mut Vec<LaneStmt>,
    first: u32,
    args: &[Val],
    flip: bool,
    steps: &[Step],
    last: Act,
    value: Val,
) -> Result<(), AllocError>
    requires { first + 256 < 2 ^ 32 }
    ensures { IfOk result (λ _. out.new.items ≡ out.old.items ++ defining first args.now (in_order flip steps.now) last value.0) }
{
    if flip {
        put_steps(out, first, args, &flip_steps())?;
    }
    put_defining(out, first, args, steps, last, value)
}

/// An end of the order, flipped back.
fn flipped_back(flip: bool, a: Source) -> Act
    ensures { result ≡ out_of_order flip a }
{
    if flip {
        Act::Two(BinOp::Add, a, FLIP)
    } else {
        copy_of(a)
    }
}

pub(crate) fn put_min(
    out: &mut Vec<LaneStmt>,
    first: u32,
    args: &[Val],
    flip: bool,
    value: Val,
) -> Result<(), AllocError>
    requires { first + 256 < 2 ^ 32 }
    ensures { IfOk result (λ _. out.new.items ≡ out.old.items ++ defining first args.now (min_of flip).steps (min_of flip).last value.0) }
{
    let steps = [step_to(4, Act::Two(BinOp::Min(true), X, Y))];
    put_ordered(
        out,
        first,
        args,
        flip,
        &steps,
        flipped_back(flip, ONE_END),
        value,
    )
}

pub(crate) fn put_max(
    out: &mut Vec<LaneStmt>,
    first: u32,
    args: &[Val],
    flip: bool,
    value: Val,
) -> Result<(), AllocError>
    requires { first + 256 < 2 ^ 32 }
    ensures { IfOk result (λ _. out.new.items ≡ out.old.items ++ defining first args.now (max_of flip).steps (max_of flip).last value.0) }
{
    let steps = [step_to(4, Act::Two(BinOp::Max(true), X, Y))];
    put_ordered(
        out,
        first,
        args,
        flip,
        &steps,
        flipped_back(flip, ONE_END),
        value,
    )
}

pub(crate) fn put_clamp(
    out: &mut Vec<LaneStmt>,
    first: u32,
    args: &[Val],
    flip: bool,
    value: Val,
) -> Result<(), AllocError>
    requires { first + 256 < 2 ^ 32 }
    ensures { IfOk result (λ _. out.new.items ≡ out.old.items ++ defining first args.now (clamp_of flip).steps (clamp_of flip).last value.0) }
{
    let steps = [
        step_to(4, Act::Two(BinOp::Max(true), X, Y)),
        step_to(4, Act::Two(BinOp::Min(true), ONE_END, Z)),
    ];
    put_ordered(
        out,
        first,
        args,
        flip,
        &steps,
        flipped_back(flip, ONE_END),
        value,
    )
}

pub(crate) fn put_abs(
    out: &mut Vec<LaneStmt>,
    first: u32,
    args: &[Val],
    signed: bool,
    value: Val,
) -> Result<(), AllocError>
    requires { first + 256 < 2 ^ 32 }
    ensures { IfOk result (λ _. out.new.items ≡ out.old.items ++ defining first args.now (abs_of signed).steps (abs_of signed).last value.0) }
{
    if signed {
        let steps = [step_to(4, Act::One(UnOp::Neg, X))];
        put_defining(
            out,
            first,
            args,
            &steps,
            Act::Two(BinOp::Max(true), X, ONE_END),
            value,
        )
    } else {
        put_defining(out, first, args, &[], copy_of(X), value)
    }
}

pub(crate) fn put_abs_diff(
    out: &mut Vec<LaneStmt>,
    first: u32,
    args: &[Val],
    flip: bool,
    value: Val,
) -> Result<(), AllocError>
    requires { first + 256 < 2 ^ 32 }
    ensures { IfOk result (λ _. out.new.items ≡ out.old.items ++ defining first args.now (abs_diff_of flip).steps (abs_diff_of flip).last value.0) }
{
    let steps = [
        step_to(4, Act::Two(BinOp::Max(true), X, Y)),
        step_to(5, Act::Two(BinOp::Min(true), X, Y)),
    ];
    put_ordered(
        out,
        first,
        args,
        flip,
        &steps,
        Act::Two(BinOp::Sub, ONE_END, OTHER_END),
        value,
    )
}
