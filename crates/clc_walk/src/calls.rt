//! Calls: of functions of the source, and of built-in ones.

ghost use Rattle.std.specs.Prelude.{◌≡◌, length, slice_get};
ghost use Rattle.clc_types.specs.Rules.{call_needs as call_needs_of, call_kind as call_kind_of, fits as fits_of, is_highest as is_highest_of, signed_needs, builtin_needs as builtin_needs_of, builtin_params as builtin_params_of, all_are as all_are_of, some_uint as some_uint_of, number_type as number_type_of, work_of as work_of_builtin, unsigned_of as unsigned_of_scalar, gives as gives_of};
ghost use Rattle.clc_types.specs.Typing.{exprs as exprs_of};
ghost use Rattle.clc_types.specs.InternalAnswers.{Walks, Gives, first as first_of};
ghost use Rattle.clc_types.specs.InternalWalk.{by_callee, call_end as call_end_of};
ghost use Rattle.clc_types.specs.declared.forms.Named.TheVariants as named;

use crate::expressions::{broken, memory, plain, skip};
use crate::rules::{kind_of, matches, scalar_of};
use clc_lexer::Token;
use clc_types::{
    Argument, Builtin, Fault, Form, Home, Kind, Named, Node, Shape, Signature, TExpr, TypeFault,
    TypeRule,
};
use q_lane::Scalar;
use sqlite_items::Items;
use std::alloc::Global;

/// Functions of this height and above it may not be called.
const HIGHEST: u32 = 16;

/// A built-in function's parameter, which takes a number of any type.
const NUMBER: Shape = Shape::Value {
    scalar: Scalar::Int,
    fixed: false,
};

fn fault(token: u32, rule: TypeRule) -> Option<Fault>
    ensures { result ≡ Rattle.std.specs.Prelude.Some (record { token = token; rule = rule }) }
{
    Some(Fault { token, rule })
}

fn fits(params: &[Shape], args: &[Argument]) -> Option<Fault>
    requires { length params.now ≡ length args.now }
    ensures { result ≡ first_of (fits_of params.now args.now) }
{
    for (i, param) in params.iter().enumerate() {
        let x = &args[i];
        if !matches(kind_of(0, *param), x.kind) {
            return fault(x.place, TypeRule::S7);
        }
    }
    None
}

fn is_highest(height: Option<u32>) -> bool
    ensures { result ≡ is_highest_of height }
{
    match height {
        None => false,
        Some(height) => height >= HIGHEST,
    }
}

fn height_at(home: &Home, function: u32) -> Option<u32>
    ensures { result ≡ slice_get home.now.heights function }
{
    home.heights.as_slice().get(function as usize).copied()
}

fn signature_needs(
    home: &Home,
    p: u32,
    function: u32,
    signature: &Signature,
    args: &[Argument],
) -> Option<Fault>
    ensures { result ≡ first_of (signed_needs p home.now function (Rattle.std.specs.Prelude.Some signature.now) args.now) }
{
    let itself = function as usize == home.heights.len();
    if signature.params.len() != args.len() {
        fault(p, TypeRule::S6)
    } else if signature.kernel && !itself {
        fault(p, TypeRule::S8)
    } else if itself || is_highest(height_at(home, function)) {
        fault(p, TypeRule::S9)
    } else {
        fits(signature.params.as_slice(), args)
    }
}

fn call_needs(home: &Home, p: u32, function: u32, args: &[Argument]) -> Option<Fault>
    ensures { result ≡ first_of (call_needs_of p home.now function args.now) }
{
    match home.functions.as_slice().get(function as usize) {
        None => None,
        Some(signature) => signature_needs(home, p, function, signature, args),
    }
}

fn call_kind(home: &Home, function: u32) -> Kind
    ensures { result ≡ call_kind_of (slice_get home.now.functions function) }
{
    match home.functions.as_slice().get(function as usize) {
        None => Kind::Void,
        Some(signature) => match signature.result {
            None => Kind::Void,
            Some(scalar) => Kind::Value(scalar),
        },
    }
}

fn exprs(alloc: Global, list: Vec<Argument>) -> Result<Items<TExpr>, TypeFault>
    ensures { Gives result (exprs_of list.items) }
{
    let mut all = Items::new(alloc);
    for x in list {
        let Argument { expr, .. } = x;
        all.push(expr.into_inner()).map_err(memory)?;
    }
    Ok(all)
}

fn builtin_params(which: Builtin) -> &'static [Shape]
    ensures { result.now ≡ builtin_params_of which }
{
    match which {
        Builtin::GetWorkDim => &[],
        Builtin::Clamp => &[NUMBER, NUMBER, NUMBER],
        Builtin::Min
        | Builtin::Max
        | Builtin::AbsDiff
        | Builtin::Mul24
        | Builtin::MulHi
        | Builtin::Rotate
        | Builtin::AddSat
        | Builtin::SubSat => &[NUMBER, NUMBER],
        _ => &[NUMBER],
    }
}

fn builtin_needs(p: u32, which: Builtin, args: &[Argument]) -> Option<Fault>
    ensures { result ≡ first_of (builtin_needs_of p which args.now) }
{
    let params = builtin_params(which);
    if params.len() != args.len() {
        return fault(p, TypeRule::S6);
    }
    fits(params, args)
}

fn all_are(scalar: Scalar, args: &[Argument]) -> bool
    ensures { result ≡ all_are_of scalar args.now }
{
    for x in args {
        if scalar != scalar_of(x.kind) {
            return false;
        }
    }
    true
}

fn some_uint(args: &[Argument]) -> bool
    ensures { result ≡ some_uint_of args.now }
{
    for x in args {
        if scalar_of(x.kind) == Scalar::Uint {
            return true;
        }
    }
    false
}

fn int_or_uint(unsigned: bool) -> Scalar
    ensures { result ≡ Rattle.clc_types.specs.Rules.int_or_uint unsigned }
{
    if unsigned { Scalar::Uint } else { Scalar::Int }
}

fn number_type(args: &[Argument]) -> Scalar
    ensures { result ≡ number_type_of args.now }
{
    match args.first() {
        None => Scalar::Uint,
        Some(x) => {
            let scalar = scalar_of(x.kind);
            if all_are(scalar, &args[1..]) {
                scalar
            } else {
                int_or_uint(some_uint(args))
            }
        }
    }
}

fn work_of(which: Builtin, args: &[Argument]) -> Scalar
    ensures { result ≡ work_of_builtin which args.now }
{
    match which {
        Builtin::GetWorkDim
        | Builtin::GetGlobalId
        | Builtin::GetGlobalSize
        | Builtin::GetLocalId
        | Builtin::GetLocalSize
        | Builtin::GetGroupId
        | Builtin::GetNumGroups => Scalar::Uint,
        Builtin::Mul24 => int_or_uint(some_uint(args)),
        _ => number_type(args),
    }
}

fn unsigned_of(scalar: Scalar) -> Scalar
    ensures { result ≡ unsigned_of_scalar scalar }
{
    match scalar {
        Scalar::Char | Scalar::Uchar => Scalar::Uchar,
        Scalar::Short | Scalar::Ushort => Scalar::Ushort,
        Scalar::Int | Scalar::Uint => Scalar::Uint,
    }
}

fn gives(which: Builtin, work: Scalar) -> Scalar
    ensures { result ≡ gives_of which work }
{
    match which {
        Builtin::Abs | Builtin::AbsDiff => unsigned_of(work),
        _ => work,
    }
}

#[tactic(auto, using(crate::proofs::Steps::guarded_stops, crate::proofs::Steps::guarded_goes))]
fn function_end(
    alloc: Global,
    at: &mut u32,
    home: &Home,
    p: u32,
    name: &Token,
    function: u32,
    list: Vec<Argument>,
) -> Result<Form, TypeFault>
    ensures { Walks (by_callee home.now p name.now (named.Function function) list.items at.old) result at.new }
{
    if let Some(f) = call_needs(home, p, function, list.as_slice()) {
        return Err(broken(f));
    }
    skip(at, 1);
    let kind = call_kind(home, function);
    let args = exprs(alloc, list)?;
    plain(alloc, name.from, kind, Node::Call { function, args })
}

#[tactic(auto, using(crate::proofs::Steps::guarded_stops, crate::proofs::Steps::guarded_goes))]
fn builtin_end(
    alloc: Global,
    at: &mut u32,
    home: &Home,
    p: u32,
    name: &Token,
    which: Builtin,
    list: Vec<Argument>,
) -> Result<Form, TypeFault>
    ensures { Walks (by_callee home.now p name.now (named.Builtin which) list.items at.old) result at.new }
{
    if let Some(f) = builtin_needs(p, which, list.as_slice()) {
        return Err(broken(f));
    }
    skip(at, 1);
    let work = work_of(which, list.as_slice());
    let kind = Kind::Value(gives(which, work));
    let args = exprs(alloc, list)?;
    plain(alloc, name.from, kind, Node::Builtin { which, work, args })
}

/// A call, once its arguments are there.
#[tactic(auto, unfolding(clc_types::specs::InternalWalk::call_end))]
pub fn call_end(
    alloc: Global,
    at: &mut u32,
    home: &Home,
    p: u32,
    name: &Token,
    callee: Named,
    list: Vec<Argument>,
) -> Result<Form, TypeFault>
    ensures { Walks (call_end_of home.now p name.now callee list.items at.old) result at.new }
{
    match callee {
        Named::Function(function) => function_end(alloc, at, home, p, name, function, list),
        Named::Builtin(which) => builtin_end(alloc, at, home, p, name, which, list),
        Named::Variable(_, _) => Err(TypeFault::Rule {
            rule: TypeRule::S1,
            token: p,
        }),
    }
}
