//! Types of operands and of results.

ghost use Rattle.std.specs.Prelude.{◌≡◌};
ghost use Rattle.clc_types.specs.TypeArithmetic.{common as common_of, promoted as promoted_of, operator_of, works_in as works_in_type};
ghost use Rattle.clc_types.specs.Rules.{sum_kind, scalar_of as scalar_of_kind, ty_of};
ghost use Rattle.clc_types.specs.WellTyped.{kind_of_type};
ghost use Rattle.item_meaning.specs.Operators.{scalar_of as scalar_of_type, type_after as type_after_mark};

use clc_lexer::Mark;
use clc_types::Ty;
use q_lane::Scalar;

/// The type of a number, or of the elements behind a pointer.
pub fn scalar_of(ty: Ty) -> Scalar
    ensures { result ≡ scalar_of_type ty }
{
    match ty {
        Ty::Void => Scalar::Int,
        Ty::Value(scalar) => scalar,
        Ty::Pointer { elem, .. } => elem,
    }
}

fn common(a: Scalar, b: Scalar) -> Scalar
    ensures { result ≡ common_of a b }
{
    match (a, b) {
        (Scalar::Uint, _) | (_, Scalar::Uint) => Scalar::Uint,
        _ => Scalar::Int,
    }
}

fn promoted(a: Scalar) -> Scalar
    ensures { result ≡ promoted_of a }
{
    match a {
        Scalar::Uint => Scalar::Uint,
        _ => Scalar::Int,
    }
}

fn number_type(ty: Ty) -> Scalar
    ensures { result ≡ scalar_of_kind (kind_of_type ty) }
{
    match ty {
        Ty::Value(scalar) => scalar,
        _ => Scalar::Int,
    }
}

fn sum_type(a: Ty, b: Ty) -> Ty
    ensures { result ≡ ty_of (sum_kind (kind_of_type a) (kind_of_type b)) }
{
    match (a, b) {
        (Ty::Pointer { .. }, _) => a,
        (_, Ty::Pointer { .. }) => b,
        _ => Ty::Value(common(number_type(a), number_type(b))),
    }
}

/// The type of a binary operator's result, by the types of its operands.
pub fn type_after(op: Mark, a: Ty, b: Ty) -> Ty
    ensures { result ≡ type_after_mark op a b }
{
    match op {
        Mark::Plus | Mark::Minus => sum_type(a, b),
        Mark::ShiftLeft | Mark::ShiftRight => Ty::Value(promoted(number_type(a))),
        Mark::Less | Mark::Greater | Mark::LessEqual | Mark::GreaterEqual => Ty::Value(Scalar::Int),
        Mark::EqualEqual | Mark::BangEqual | Mark::AndAnd | Mark::OrOr => Ty::Value(Scalar::Int),
        Mark::Comma => b,
        _ => Ty::Value(common(number_type(a), number_type(b))),
    }
}

/// The type in which a binary operator of two numbers works.
pub(crate) fn works_in(op: Mark, a: Scalar, b: Scalar) -> Scalar
    ensures { result ≡ works_in_type (operator_of op) a b }
{
    match op {
        Mark::ShiftLeft | Mark::ShiftRight => promoted(a),
        _ => common(a, b),
    }
}
