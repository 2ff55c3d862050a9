//! Recipes: what a definition becomes, as steps over its arguments and over temporary values.

ghost use Rattle.std.specs.Prelude.{◌≡◌, get_or, ◌+◌, ◌<◌, ◌^◌, ◌++◌, ◌∷◌, [], IfOk};
ghost use Rattle.lane_ir.specs.Recipe.{no_val, source, definition, statement, statements, defining};

use crate::form::LaneStmt;
use item_ir::{Def, Val};
use q_functions::WorkFunction;
use q_lane::{BinOp, UnOp};
use std::alloc::AllocError;

/// What a step reads: an argument of the definition that the recipe stands for, or a temporary value.
#[derive(Clone, Copy, Debug, PartialEq, Eq)]
pub enum Source {
    Argument(u8),
    Temp(u8),
}

/// What a step gives.
#[derive(Clone, Copy, Debug, PartialEq, Eq)]
pub enum Act {
    Const(u32),
    Two(BinOp, Source, Source),
    One(UnOp, Source),
    /// The second where the first isn't 0, else the third.
    Choose(Source, Source, Source),
    /// A number of the work that is no id.
    Size(WorkFunction, Source),
    Flat,
    Items,
}

/// A step: what it gives becomes the temporary value `to`.
#[derive(Clone, Copy, Debug, PartialEq, Eq)]
pub struct Step {
    pub to: u8,
    pub act: Act,
}

/// As many values and sixteen temporary ones more, where the numbers last for every temporary value that a step can name.
pub fn with_temporaries(vals: u32) -> Result<u32, AllocError>
    ensures { IfOk result (λ r. (r ≡ vals + 16) × (vals + 256 < 2 ^ 32)) }
{
    match vals.checked_add(256) {
        Some(_) => Ok(vals + 16),
        None => Err(AllocError),
    }
}

/// The value that is read, where temporary value 0 is value `first`.
fn value_read(first: u32, args: &[Val], s: Source) -> Val
    requires { first + 256 < 2 ^ 32 }
    ensures { result ≡ source first args.now s }
{
    match s {
        Source::Argument(i) => argument(args, i as usize),
        Source::Temp(i) => Val(first + i as u32),
    }
}

fn argument(args: &[Val], i: usize) -> Val
    ensures { result ≡ get_or args.now i no_val }
{
    if i < args.len() { args[i] } else { Val(0) }
}

/// What a step gives, as a definition.
pub fn defined(first: u32, args: &[Val], act: Act) -> Def
    requires { first + 256 < 2 ^ 32 }
    ensures { result ≡ definition first args.now act }
{
    match act {
        Act::Const(x) => Def::Const(x),
        Act::Two(op, a, b) => Def::Bin(op, value_read(first, args, a), value_read(first, args, b)),
        Act::One(op, a) => Def::One(op, value_read(first, args, a)),
        Act::Choose(c, a, b) => Def::Choose(
            value_read(first, args, c),
            value_read(first, args, a),
            value_read(first, args, b),
        ),
        Act::Size(which, d) => Def::Work {
            which,
            dim: value_read(first, args, d),
        },
        Act::Flat => Def::Flat,
        Act::Items => Def::Items,
    }
}

/// Adds the statements of a recipe.
pub fn put_steps(
    out: &mut Vec<LaneStmt>,
    first: u32,
    args: &[Val],
    steps: &[Step],
) -> Result<(), AllocError>
    requires { first + 256 < 2 ^ 32 }
    ensures { IfOk result (λ _. out.new.items ≡ out.old.items ++ statements first args.now steps.now) }
{
    for s in steps {
        out.push(LaneStmt::Let(Val(first + s.to as u32), defined(first, args, s.act)))?;
    }
    Ok(())
}

/// Adds the statements of a recipe whose last act defines `value`.
pub fn put_defining(
    out: &mut Vec<LaneStmt>,
    first: u32,
    args: &[Val],
    steps: &[Step],
    last: Act,
    value: Val,
) -> Result<(), AllocError>
    requires { first + 256 < 2 ^ 32 }
    ensures { IfOk result (λ _. out.new.items ≡ out.old.items ++ defining first args.now steps.now last value.0) }
{
    put_steps(out, first, args, steps)?;
    out.push(LaneStmt::Let(value, defined(first, args, last)))?;
    Ok(())
}
