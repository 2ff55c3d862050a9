//! The typing rules, by the types of operands and their places. Each test gives its first violated rule.

ghost use Rattle.std.specs.Prelude.{◌≡◌, ◌++◌, Some};
ghost use Rattle.clc_types.specs.InternalAnswers.{first as first_of};
ghost use Rattle.clc_types.specs.Rules.{is_scalar as is_scalar_kind, matches as matches_of, kind_of as kind_of_shape, place_if as place_if_fixed, place_of as place_of_shape, is_locked as is_locked_space, var_of as var_of_shape, ty_of as ty_of_kind, scalar_needed as scalar_needed_of, indexed_needed as indexed_needed_of, pointer_needed as pointer_needed_of, no_array as no_array_of, fit_needed as fit_needed_of, step_needs as step_needs_of, index_needs as index_needs_of, operands_needed as operands_needed_of, operator_needs as operator_needs_of, common as common_of, promoted as promoted_of, scalar_of as scalar_of_kind, result_of as result_of_operator, operator_of as operator_of_mark, prefix_kind as prefix_kind_of, element_kind as element_kind_of, element_place as element_place_of, conditional_needs as conditional_needs_of, assigned_needed as assigned_needed_of, value_needed as value_needed_of, takes_pointer as takes_pointer_mark, assign_needs as assign_needs_of, return_needs as return_needs_of, bare_needs as bare_needs_of, is_size as is_size_number, sum_kind as sum_kind_of};

use clc_lexer::Mark;
use clc_types::{Fault, Form, Kind, Place, Shape, Sofar, Space, Ty, TypeRule, Var};
use q_lane::Scalar;

/// The most elements of an array.
const MOST_ELEMENTS: u32 = 1024;

fn fault(token: u32, rule: TypeRule) -> Option<Fault>
    ensures { result ≡ Some (record { token = token; rule = rule }) }
{
    Some(Fault { token, rule })
}

pub fn is_scalar(kind: Kind) -> bool
    ensures { result ≡ is_scalar_kind kind }
{
    matches!(kind, Kind::Value(_))
}

/// Whether a place of one type takes a value of another.
pub fn matches(place: Kind, value: Kind) -> bool
    ensures { result ≡ matches_of place value }
{
    match (place, value) {
        (Kind::Value(_), Kind::Value(_)) => true,
        (
            Kind::Pointer {
                space,
                constant,
                elem,
            },
            Kind::Pointer {
                space: other_space,
                constant: other_constant,
                elem: other_elem,
            },
        ) => space == other_space && elem == other_elem && (constant || !other_constant),
        _ => false,
    }
}

/// The type of a variable of this number.
pub fn kind_of(var: u32, shape: Shape) -> Kind
    ensures { result ≡ kind_of_shape var shape }
{
    match shape {
        Shape::Value { scalar, .. } => Kind::Value(scalar),
        Shape::Pointer {
            space,
            constant,
            elem,
            ..
        } => Kind::Pointer {
            space,
            constant,
            elem,
        },
        Shape::Array { elem, .. } => Kind::Array { var, elem },
    }
}

fn place_if(fixed: bool) -> Place
    ensures { result ≡ place_if_fixed fixed }
{
    if fixed {
        Place::Constant
    } else {
        Place::Writable
    }
}

/// What may be done with a variable.
pub fn place_of(shape: Shape) -> Place
    ensures { result ≡ place_of_shape shape }
{
    match shape {
        Shape::Value { fixed, .. } | Shape::Pointer { fixed, .. } | Shape::Array { fixed, .. } =>
            place_if(fixed),
    }
}

fn is_locked(space: Space, constant: bool) -> bool
    ensures { result ≡ is_locked_space space constant }
{
    match space {
        Space::Constant => true,
        Space::Global => constant,
    }
}

/// A variable, as the typed tree has it.
pub fn var_of(shape: Shape) -> Var
    ensures { result ≡ var_of_shape shape }
{
    match shape {
        Shape::Value { scalar, .. } => Var::Value(scalar),
        Shape::Pointer {
            space,
            constant,
            elem,
            ..
        } => Var::Pointer {
            elem,
            constant: is_locked(space, constant),
        },
        Shape::Array { elem, len, .. } => Var::Array { elem, len },
    }
}

/// A type, as the typed tree has it.
pub fn ty_of(kind: Kind) -> Ty
    ensures { result ≡ ty_of_kind kind }
{
    match kind {
        Kind::Void | Kind::Array { .. } => Ty::Void,
        Kind::Value(scalar) => Ty::Value(scalar),
        Kind::Pointer {
            space,
            constant,
            elem,
        } => Ty::Pointer {
            elem,
            constant: is_locked(space, constant),
        },
    }
}

/// A number is needed.
pub fn scalar_needed(p: u32, kind: Kind) -> Option<Fault>
    ensures { result ≡ first_of (scalar_needed_of p kind) }
{
    match kind {
        Kind::Void => fault(p, TypeRule::S3),
        Kind::Value(_) => None,
        Kind::Pointer { .. } | Kind::Array { .. } => fault(p, TypeRule::S12),
    }
}

fn indexed_needed(p: u32, kind: Kind) -> Option<Fault>
    ensures { result ≡ first_of (indexed_needed_of p kind) }
{
    match kind {
        Kind::Void => fault(p, TypeRule::S3),
        Kind::Value(_) => fault(p, TypeRule::S12),
        Kind::Pointer { .. } | Kind::Array { .. } => None,
    }
}

/// A pointer is needed.
pub fn pointer_needed(p: u32, kind: Kind) -> Option<Fault>
    ensures { result ≡ first_of (pointer_needed_of p kind) }
{
    match kind {
        Kind::Void => fault(p, TypeRule::S3),
        Kind::Value(_) | Kind::Array { .. } => fault(p, TypeRule::S12),
        Kind::Pointer { .. } => None,
    }
}

/// An array stands before `[` alone.
pub fn no_array(p: u32, kind: Kind) -> Option<Fault>
    ensures { result ≡ first_of (no_array_of p kind) }
{
    match kind {
        Kind::Array { .. } => fault(p, TypeRule::S12),
        _ => None,
    }
}

/// A variable gets a value.
pub fn fit_needed(place: Kind, q: u32, kind: Kind) -> Option<Fault>
    ensures { result ≡ first_of (fit_needed_of place q kind) }
{
    match kind {
        Kind::Void => fault(q, TypeRule::S3),
        _ => {
            if matches(place, kind) {
                None
            } else {
                fault(q, TypeRule::S12)
            }
        }
    }
}

/// The operand of `++` or `--`.
pub fn step_needs(p: u32, x: &Form) -> Option<Fault>
    ensures { result ≡ first_of (step_needs_of p x.now) }
{
    match (x.kind, x.place) {
        (Kind::Void, _) => fault(p, TypeRule::S3),
        (_, Place::Nowhere) => fault(p, TypeRule::S4),
        (_, Place::Constant) => fault(p, TypeRule::S5),
        (Kind::Array { .. }, _) => fault(p, TypeRule::S12),
        _ => None,
    }
}

/// An expression with `[` and `]` after it.
pub fn index_needs(p: u32, x: &Form, q: u32, y: &Form) -> Option<Fault>
    ensures { result ≡ first_of (index_needs_of p x.now q y.now) }
{
    match indexed_needed(p, x.kind) {
        Some(f) => Some(f),
        None => scalar_needed(q, y.kind),
    }
}

fn operands_needed(mark: Mark, p: u32, a: Kind, q: u32, b: Kind) -> Option<Fault>
    ensures { result ≡ first_of (operands_needed_of mark p a q b) }
{
    match (mark, a, b) {
        (Mark::Comma, Kind::Array { .. }, _) => fault(p, TypeRule::S12),
        (Mark::Comma, _, Kind::Array { .. }) => fault(q, TypeRule::S12),
        (Mark::Comma, _, _) => None,
        (_, Kind::Void, _) => fault(p, TypeRule::S3),
        (_, Kind::Array { .. }, _) => fault(p, TypeRule::S12),
        (Mark::Plus | Mark::Minus, Kind::Pointer { .. }, _) => scalar_needed(q, b),
        (_, Kind::Pointer { .. }, _) => fault(p, TypeRule::S12),
        (Mark::Plus, Kind::Value(_), Kind::Pointer { .. }) => None,
        (_, Kind::Value(_), _) => scalar_needed(q, b),
    }
}

/// A binary operator between what stands before it and after it.
pub fn operator_needs(mark: Mark, p: u32, a: &Sofar, q: u32, y: &Form) -> Option<Fault>
    ensures { result ≡ first_of (operator_needs_of mark p a.now q y.now) }
{
    operands_needed(mark, p, a.kind, q, y.kind)
}

/// The common type of two numbers.
pub fn common(a: Scalar, b: Scalar) -> Scalar
    ensures { result ≡ common_of a b }
{
    match (a, b) {
        (Scalar::Uint, _) | (_, Scalar::Uint) => Scalar::Uint,
        _ => Scalar::Int,
    }
}

fn promoted(a: Scalar) -> Scalar
    ensures { result ≡ promoted_of a }
{
    match a {
        Scalar::Uint => Scalar::Uint,
        _ => Scalar::Int,
    }
}

/// The type of a number; of anything else a test has refused before.
pub fn scalar_of(kind: Kind) -> Scalar
    ensures { result ≡ scalar_of_kind kind }
{
    match kind {
        Kind::Value(scalar) => scalar,
        _ => Scalar::Int,
    }
}

fn sum_kind(a: Kind, b: Kind) -> Kind
    ensures { result ≡ sum_kind_of a b }
{
    match (a, b) {
        (Kind::Pointer { .. }, _) => a,
        (_, Kind::Pointer { .. }) => b,
        _ => Kind::Value(common(scalar_of(a), scalar_of(b))),
    }
}

/// The type that a binary operator gives.
pub fn operator_kind(mark: Mark, a: Kind, b: Kind) -> Kind
    ensures { result ≡ result_of_operator (operator_of_mark mark) a b }
{
    match mark {
        Mark::Plus | Mark::Minus => sum_kind(a, b),
        Mark::ShiftLeft | Mark::ShiftRight => Kind::Value(promoted(scalar_of(a))),
        Mark::Less | Mark::Greater | Mark::LessEqual | Mark::GreaterEqual => Kind::Value(
            Scalar::Int,
        ),
        Mark::EqualEqual | Mark::BangEqual | Mark::AndAnd | Mark::OrOr => Kind::Value(Scalar::Int),
        Mark::Comma => b,
        _ => Kind::Value(common(scalar_of(a), scalar_of(b))),
    }
}

/// The type that a prefix operator gives.
pub fn prefix_kind(mark: Mark, a: Kind) -> Kind
    ensures { result ≡ prefix_kind_of mark a }
{
    match mark {
        Mark::Bang => Kind::Value(Scalar::Int),
        _ => Kind::Value(promoted(scalar_of(a))),
    }
}

/// The type of the elements.
pub fn element_kind(kind: Kind) -> Kind
    ensures { result ≡ element_kind_of kind }
{
    match kind {
        Kind::Pointer { elem, .. } | Kind::Array { elem, .. } => Kind::Value(elem),
        _ => Kind::Void,
    }
}

/// What may be done with an element.
pub fn element_place(kind: Kind, place: Place) -> Place
    ensures { result ≡ element_place_of kind place }
{
    match kind {
        Kind::Pointer {
            space,
            constant,
            ..
        } => place_if(is_locked(space, constant)),
        Kind::Array { .. } => place,
        _ => Place::Nowhere,
    }
}

/// The three parts of a conditional.
pub fn conditional_needs(p: u32, x: &Form, q: u32, y: &Form, r: u32, z: &Form) -> Option<Fault>
    ensures { result ≡ first_of (conditional_needs_of p x.now q y.now r z.now) }
{
    match (scalar_needed(p, x.kind), scalar_needed(q, y.kind)) {
        (Some(f), _) | (None, Some(f)) => Some(f),
        _ => scalar_needed(r, z.kind),
    }
}

fn takes_pointer(mark: Mark) -> bool
    ensures { result ≡ takes_pointer_mark mark }
{
    matches!(mark, Mark::Assign | Mark::PlusAssign | Mark::MinusAssign)
}

fn assigned_needed(mark: Mark, p: u32, kind: Kind, place: Place) -> Option<Fault>
    ensures { result ≡ first_of (assigned_needed_of mark p kind place) }
{
    match (kind, place) {
        (Kind::Void, _) => fault(p, TypeRule::S3),
        (_, Place::Nowhere) => fault(p, TypeRule::S4),
        (_, Place::Constant) => fault(p, TypeRule::S5),
        (Kind::Array { .. }, _) => fault(p, TypeRule::S12),
        (Kind::Pointer { .. }, _) if !takes_pointer(mark) => fault(p, TypeRule::S12),
        _ => None,
    }
}

fn value_needed(mark: Mark, a: Kind, q: u32, b: Kind) -> Option<Fault>
    ensures { result ≡ first_of (value_needed_of mark a q b) }
{
    match mark {
        Mark::Assign => fit_needed(a, q, b),
        _ => scalar_needed(q, b),
    }
}

/// An assignment of a value to a place.
pub fn assign_needs(mark: Mark, p: u32, x: &Form, q: u32, y: &Form) -> Option<Fault>
    ensures { result ≡ first_of (assign_needs_of mark p x.now q y.now) }
{
    match assigned_needed(mark, p, x.kind, x.place) {
        Some(f) => Some(f),
        None => value_needed(mark, x.kind, q, y.kind),
    }
}

/// A `return` of a value.
pub fn return_needs(gives: Option<Scalar>, p: u32, kind: Kind) -> Option<Fault>
    ensures { result ≡ first_of (return_needs_of gives p kind) }
{
    match (gives, kind) {
        (Some(_), Kind::Value(_)) => None,
        _ => fault(p, TypeRule::S13),
    }
}

/// A `return` without a value.
pub fn bare_needs(gives: Option<Scalar>, p: u32) -> Option<Fault>
    ensures { result ≡ first_of (bare_needs_of gives p) }
{
    match gives {
        None => None,
        Some(_) => fault(p, TypeRule::S13),
    }
}

/// Whether an array may have so many elements.
pub fn is_size(count: u32) -> bool
    ensures { result ≡ is_size_number count }
{
    count != 0 && count <= MOST_ELEMENTS
}
