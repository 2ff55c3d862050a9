//! The statements of compares and of unsigned orders.

ghost use Rattle.std.specs.Prelude.{◌≡◌, ◌+◌, ◌<◌, ◌^◌, ◌++◌, ◌∷◌, [], IfOk};
ghost use Rattle.item_ir.specs.declared.form.Def.TheVariants.{Bin};
ghost use Rattle.builtin_lower.specs.Lower.{less_signed, less_unsigned, equal, min_unsigned, max_unsigned, by_recipe, two_recipe};

use crate::steps::step_to;
use item_ir::{Def, Val};
use lane_ir::{Act, LaneStmt, Source, Step, put_defining};
use q_lane::BinOp;
use std::alloc::AllocError;

fn less_signed_steps() -> [Step; 4]
    ensures { result ≡ less_signed.steps }
{
    [
        step_to(
            0,
            Act::Two(BinOp::Min(true), Source::Argument(0), Source::Argument(1)),
        ),
        step_to(
            1,
            Act::Two(BinOp::Sub, Source::Temp(0), Source::Argument(1)),
        ),
        step_to(2, Act::Const(1)),
        step_to(3, Act::Const(0)),
    ]
}

fn less_unsigned_steps() -> [Step; 7]
    ensures { result ≡ less_unsigned.steps }
{
    [
        step_to(0, Act::Const(0x8000_0000)),
        step_to(
            1,
            Act::Two(BinOp::Add, Source::Argument(0), Source::Temp(0)),
        ),
        step_to(
            2,
            Act::Two(BinOp::Add, Source::Argument(1), Source::Temp(0)),
        ),
        step_to(
            3,
            Act::Two(BinOp::Min(true), Source::Temp(1), Source::Temp(2)),
        ),
        step_to(4, Act::Two(BinOp::Sub, Source::Temp(3), Source::Temp(2))),
        step_to(5, Act::Const(1)),
        step_to(6, Act::Const(0)),
    ]
}

fn equal_steps() -> [Step; 3]
    ensures { result ≡ equal.steps }
{
    [
        step_to(
            0,
            Act::Two(BinOp::Sub, Source::Argument(0), Source::Argument(1)),
        ),
        step_to(1, Act::Const(0)),
        step_to(2, Act::Const(1)),
    ]
}

fn min_steps() -> [Step; 4]
    ensures { result ≡ min_unsigned.steps }
{
    [
        step_to(0, Act::Const(0x8000_0000)),
        step_to(
            1,
            Act::Two(BinOp::Add, Source::Argument(0), Source::Temp(0)),
        ),
        step_to(
            2,
            Act::Two(BinOp::Add, Source::Argument(1), Source::Temp(0)),
        ),
        step_to(
            3,
            Act::Two(BinOp::Min(true), Source::Temp(1), Source::Temp(2)),
        ),
    ]
}

fn max_steps() -> [Step; 4]
    ensures { result ≡ max_unsigned.steps }
{
    [
        step_to(0, Act::Const(0x8000_0000)),
        step_to(
            1,
            Act::Two(BinOp::Add, Source::Argument(0), Source::Temp(0)),
        ),
        step_to(
            2,
            Act::Two(BinOp::Add, Source::Argument(1), Source::Temp(0)),
        ),
        step_to(
            3,
            Act::Two(BinOp::Max(true), Source::Temp(1), Source::Temp(2)),
        ),
    ]
}

/// Adds what stands for an operation on two values.
pub(crate) fn put_two(
    out: &mut Vec<LaneStmt>,
    first: u32,
    value: Val,
    op: BinOp,
    a: Val,
    b: Val,
) -> Result<(), AllocError>
    requires { first + 256 < 2 ^ 32 }
    ensures { IfOk result (λ _. out.new.items ≡ out.old.items ++ by_recipe first value.0 (Bin op a b) (a ∷ b ∷ []) (two_recipe op)) }
{
    let args = [a, b];
    match op {
        BinOp::Less(true) => put_defining(
            out,
            first,
            &args,
            &less_signed_steps(),
            Act::Choose(Source::Temp(1), Source::Temp(2), Source::Temp(3)),
            value,
        ),
        BinOp::Less(false) => put_defining(
            out,
            first,
            &args,
            &less_unsigned_steps(),
            Act::Choose(Source::Temp(4), Source::Temp(5), Source::Temp(6)),
            value,
        ),
        BinOp::Equal => put_defining(
            out,
            first,
            &args,
            &equal_steps(),
            Act::Choose(Source::Temp(0), Source::Temp(1), Source::Temp(2)),
            value,
        ),
        BinOp::Min(false) => put_defining(
            out,
            first,
            &args,
            &min_steps(),
            Act::Two(BinOp::Add, Source::Temp(3), Source::Temp(0)),
            value,
        ),
        BinOp::Max(false) => put_defining(
            out,
            first,
            &args,
            &max_steps(),
            Act::Two(BinOp::Add, Source::Temp(3), Source::Temp(0)),
            value,
        ),
        _ => {
            out.push(LaneStmt::Let(value, Def::Bin(op, a, b)))?;
            Ok(())
        }
    }
}
