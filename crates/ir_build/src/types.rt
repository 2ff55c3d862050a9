//! Types of variables and of operators.

ghost use Rattle.std.specs.Prelude.{◌≡◌};
ghost use Rattle.clc_types.specs.Rules.{common as common_of, promoted as promoted_of, operator_of};
ghost use Rattle.clc_types.specs.TypeArithmetic.{works_in as works_in_type};
ghost use Rattle.item_meaning.specs.StatementMeanings.{type_of as type_of_var, var_at as var_at_of};

use clc_lexer::Mark;
use clc_types::{Ty, Var};
use q_lane::Scalar;

/// The type of a variable's value; an array has none.
pub(crate) fn type_of(var: Var) -> Ty
    ensures { result ≡ type_of_var var }
{
    match var {
        Var::Value(scalar) => Ty::Value(scalar),
        Var::Pointer { elem, constant } => Ty::Pointer { elem, constant },
        Var::Array { .. } => Ty::Void,
    }
}

/// What a declaration says of the variable of this number.
pub(crate) fn variable_at(vars: &[Var], var: u32) -> Var
    ensures { result ≡ var_at_of vars.now var }
{
    match vars.get(var as usize) {
        Some(var) => *var,
        None => Var::Value(Scalar::Int),
    }
}

fn common(a: Scalar, b: Scalar) -> Scalar
    ensures { result ≡ common_of a b }
{
    match (a, b) {
        (Scalar::Uint, _) | (_, Scalar::Uint) => Scalar::Uint,
        _ => Scalar::Int,
    }
}

fn promoted(a: Scalar) -> Scalar
    ensures { result ≡ promoted_of a }
{
    match a {
        Scalar::Uint => Scalar::Uint,
        _ => Scalar::Int,
    }
}

/// The type in which a binary operator of two numbers works: a shift in that of its left operand.
pub(crate) fn works_in(op: Mark, a: Scalar, b: Scalar) -> Scalar
    ensures { result ≡ works_in_type (operator_of op) a b }
{
    match op {
        Mark::ShiftLeft | Mark::ShiftRight => promoted(a),
        _ => common(a, b),
    }
}
