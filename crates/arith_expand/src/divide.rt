//! The statements of a division.

ghost use Rattle.std.specs.Prelude.{◌≡◌, ◌+◌, ◌<◌, ◌^◌, ◌++◌, ◌∷◌, [], IfOk};
ghost use Rattle.lane_ir.specs.Recipe.{statements};
ghost use Rattle.lane_ir.specs.declared.form.LaneStmt.TheVariants.{WhileAny};
ghost use Rattle.arith_expand.specs.Expand.{step, unsigned_words, magnitudes, sizes, counting, round, signing, signing_left, division};

use item_ir::Val;
use lane_ir::{Act, LaneStmt, Source, Step, put_defining, put_steps};
use q_functions::WorkFunction;
use q_lane::{BinOp, UnOp};
use sqlite_items::Items;
use std::alloc::{AllocError, Global};

pub(crate) const DIVISOR: Source = Source::Temp(0);

pub(crate) const LEFT: Source = Source::Temp(1);

pub(crate) const QUOTIENT: Source = Source::Temp(2);

pub(crate) const COUNT: Source = Source::Temp(3);

pub(crate) const ONE: Source = Source::Temp(4);

pub(crate) const ZERO: Source = Source::Temp(5);

pub(crate) const DIVIDEND_SIGN: Source = Source::Temp(13);

pub(crate) const DIVISOR_SIGN: Source = Source::Temp(14);

fn step_to(to: u8, act: Act) -> Step
    ensures { result ≡ step to act }
{
    Step { to, act }
}

pub(crate) fn unsigned_steps() -> [Step; 4]
    ensures { result ≡ unsigned_words }
{
    [
        step_to(4, Act::Const(1)),
        step_to(5, Act::Const(0)),
        step_to(0, Act::Two(BinOp::Add, Source::Argument(1), ZERO)),
        step_to(1, Act::Two(BinOp::Add, Source::Argument(0), ZERO)),
    ]
}

pub(crate) fn magnitude_steps() -> [Step; 9]
    ensures { result ≡ magnitudes }
{
    [
        step_to(4, Act::Const(1)),
        step_to(5, Act::Const(0)),
        step_to(6, Act::Const(31)),
        step_to(
            13,
            Act::Two(BinOp::Shr, Source::Argument(0), Source::Temp(6)),
        ),
        step_to(
            14,
            Act::Two(BinOp::Shr, Source::Argument(1), Source::Temp(6)),
        ),
        step_to(7, Act::One(UnOp::Neg, Source::Argument(1))),
        step_to(
            0,
            Act::Choose(DIVISOR_SIGN, Source::Temp(7), Source::Argument(1)),
        ),
        step_to(7, Act::One(UnOp::Neg, Source::Argument(0))),
        step_to(
            1,
            Act::Choose(DIVIDEND_SIGN, Source::Temp(7), Source::Argument(0)),
        ),
    ]
}

pub(crate) fn size_steps() -> [Step; 4]
    ensures { result ≡ sizes }
{
    [
        step_to(4, Act::Const(1)),
        step_to(5, Act::Const(0)),
        step_to(0, Act::Size(WorkFunction::LocalSize, Source::Argument(0))),
        step_to(1, Act::Size(WorkFunction::GlobalSize, Source::Argument(0))),
    ]
}

fn counting_steps() -> [Step; 7]
    ensures { result ≡ counting }
{
    [
        step_to(6, Act::One(UnOp::Clz, DIVISOR)),
        step_to(7, Act::One(UnOp::Clz, LEFT)),
        step_to(6, Act::Two(BinOp::Sub, Source::Temp(6), Source::Temp(7))),
        step_to(6, Act::Two(BinOp::Add, Source::Temp(6), ONE)),
        step_to(6, Act::Two(BinOp::Max(true), Source::Temp(6), ZERO)),
        step_to(3, Act::Choose(DIVISOR, Source::Temp(6), ZERO)),
        step_to(2, Act::Const(0)),
    ]
}

fn round_steps() -> [Step; 10]
    ensures { result ≡ round }
{
    [
        step_to(6, Act::Two(BinOp::Sub, COUNT, ONE)),
        step_to(7, Act::Two(BinOp::Shl, DIVISOR, Source::Temp(6))),
        step_to(8, Act::Two(BinOp::Less(false), LEFT, Source::Temp(7))),
        step_to(9, Act::Two(BinOp::Sub, LEFT, Source::Temp(7))),
        step_to(10, Act::Two(BinOp::Shl, ONE, Source::Temp(6))),
        step_to(11, Act::Two(BinOp::Add, QUOTIENT, Source::Temp(10))),
        step_to(12, Act::Choose(Source::Temp(8), ZERO, COUNT)),
        step_to(1, Act::Choose(Source::Temp(12), Source::Temp(9), LEFT)),
        step_to(2, Act::Choose(Source::Temp(12), Source::Temp(11), QUOTIENT)),
        step_to(3, Act::Choose(COUNT, Source::Temp(6), COUNT)),
    ]
}

pub(crate) fn signing_steps() -> [Step; 2]
    ensures { result ≡ signing }
{
    [
        step_to(6, Act::Two(BinOp::Sub, DIVIDEND_SIGN, DIVISOR_SIGN)),
        step_to(7, Act::One(UnOp::Neg, QUOTIENT)),
    ]
}

pub(crate) fn signing_left_steps() -> [Step; 1]
    ensures { result ≡ signing_left }
{
    [step_to(7, Act::One(UnOp::Neg, LEFT))]
}

/// Adds the statements of a loop over the rounds.
fn put_rounds(
    alloc: Global,
    out: &mut Vec<LaneStmt>,
    first: u32,
    args: &[Val],
) -> Result<(), AllocError>
    requires { first + 256 < 2 ^ 32 }
    ensures { IfOk result (λ _. out.new.items ≡ out.old.items ++ WhileAny [] (record { 0 = first + 3 }) (statements first args.now round) ∷ []) }
{
    let mut body = Vec::new(alloc);
    put_steps(&mut body, first, args, &round_steps())?;
    out.push(LaneStmt::WhileAny {
        head: Items::new(alloc),
        mask: Val(first + 3),
        body: Items::from_vec(body),
    })?;
    Ok(())
}

/// Adds the statements of a division: its opening, the rounds, and its close, whose last act defines `value`.
pub(crate) fn put_division(
    alloc: Global,
    out: &mut Vec<LaneStmt>,
    first: u32,
    args: &[Val],
    opening: &[Step],
    close: &[Step],
    last: Act,
    value: Val,
) -> Result<(), AllocError>
    requires { first + 256 < 2 ^ 32 }
    ensures { IfOk result (λ _. out.new.items ≡ out.old.items ++ division first args.now opening.now close.now last value.0) }
{
    put_steps(out, first, args, opening)?;
    put_steps(out, first, args, &counting_steps())?;
    put_rounds(alloc, out, first, args)?;
    put_defining(out, first, args, close, last, value)?;
    Ok(())
}
