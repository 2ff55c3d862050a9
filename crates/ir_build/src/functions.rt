//! Code of the built-in functions.

ghost use Rattle.std.specs.Prelude.{◌≡◌, IfOk};
ghost use Rattle.item_meaning.specs.NodeMeanings.{function_of};
ghost use Rattle.ir_build.specs.Adds.{Adds};
ghost use Rattle.ir_build.specs.Code.{work_code, one, function_code};
ghost use Rattle.item_ir.specs.declared.form.Def.TheVariants as d;

use crate::pieces::{Memory, Piece, define};
use clc_types::Builtin;
use item_ir::{Def, Stmt, Val};
use q_functions::{NumberFunction, WorkFunction};
use q_lane::Scalar;
use sqlite_items::Items;

/// What is asked about the work. A function without an argument looks at no dimension.
fn work(out: &mut Vec<Stmt>, which: WorkFunction, args: &[Val], k: u32) -> Result<Piece, Memory>
    ensures { IfOk result (λ p. Adds out.old.items out.new.items p (work_code which args.now k)) }
{
    match args {
        [] => {
            let zero = define(out, Def::Const(0), k)?;
            define(
                out,
                Def::Work {
                    which,
                    dim: zero.val,
                },
                zero.next,
            )
        }
        [first, ..] => define(out, Def::Work { which, dim: *first }, k),
    }
}

fn numbers(
    out: &mut Vec<Stmt>,
    which: NumberFunction,
    scalar: Scalar,
    args: Vec<Val>,
    k: u32,
) -> Result<Piece, Memory>
    ensures { IfOk result (λ p. Adds out.old.items out.new.items p (one k (d.Built which scalar args.items))) }
{
    define(
        out,
        Def::Built {
            which,
            work: scalar,
            args: Items::from_vec(args),
        },
        k,
    )
}

/// A built-in function of these values, which works in the type.
pub(crate) fn function(
    out: &mut Vec<Stmt>,
    which: Builtin,
    scalar: Scalar,
    args: Vec<Val>,
    k: u32,
) -> Result<Piece, Memory>
    ensures { IfOk result (λ p. Adds out.old.items out.new.items p (function_code (function_of which) scalar args.items k)) }
{
    match which {
        Builtin::GetWorkDim => work(out, WorkFunction::WorkDim, &args, k),
        Builtin::GetGlobalId => work(out, WorkFunction::GlobalId, &args, k),
        Builtin::GetGlobalSize => work(out, WorkFunction::GlobalSize, &args, k),
        Builtin::GetLocalId => work(out, WorkFunction::LocalId, &args, k),
        Builtin::GetLocalSize => work(out, WorkFunction::LocalSize, &args, k),
        Builtin::GetGroupId => work(out, WorkFunction::GroupId, &args, k),
        Builtin::GetNumGroups => work(out, WorkFunction::NumGroups, &args, k),
        Builtin::Min => numbers(out, NumberFunction::Min, scalar, args, k),
        Builtin::Max => numbers(out, NumberFunction::Max, scalar, args, k),
        Builtin::Clamp => numbers(out, NumberFunction::Clamp, scalar, args, k),
        Builtin::Abs => numbers(out, NumberFunction::Abs, scalar, args, k),
        Builtin::AbsDiff => numbers(out, NumberFunction::AbsDiff, scalar, args, k),
        Builtin::Mul24 => numbers(out, NumberFunction::Mul24, scalar, args, k),
        Builtin::MulHi => numbers(out, NumberFunction::MulHi, scalar, args, k),
        Builtin::Rotate => numbers(out, NumberFunction::Rotate, scalar, args, k),
        Builtin::Clz => numbers(out, NumberFunction::Clz, scalar, args, k),
        Builtin::Popcount => numbers(out, NumberFunction::Popcount, scalar, args, k),
        Builtin::AddSat => numbers(out, NumberFunction::AddSat, scalar, args, k),
        Builtin::SubSat => numbers(out, NumberFunction::SubSat, scalar, args, k),
    }
}
