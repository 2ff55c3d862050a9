//! What operators and conversions give.

ghost use Rattle.std.specs.Prelude.{◌≡◌, not};
ghost use Rattle.clc_types.specs.Rules.{operator_of};
ghost use Rattle.q_lane.specs.Numbers.{narrowed, is_less as is_less_of};
ghost use Rattle.item_meaning.specs.Operators.{binary as binary_of, prefixed as prefixed_of, operator_in as operator_in_mark, on_word, on_words, truth as truth_of, forward as forward_of, backward as backward_of, moved as moved_of, combined as combined_of, converted as converted_of};
ghost use Rattle.item_meaning.specs.NodeMeanings.{stepped as stepped_of};

use crate::types::works_in;
use clc_lexer::Mark;
use clc_types::Ty;
use item_meaning::Value;
use q_functions::{bytes_of, is_signed};
use q_lane::{BinOp, Scalar, UnOp, apply, apply_one};

/// A word modulo the bits of a type, read in that type.
#[tactic(auto, unfolding(q_lane::specs::Numbers::applied_one))]
pub(crate) fn narrow(scalar: Scalar, word: u32) -> u32
    ensures { result ≡ narrowed scalar word }
{
    apply_one(UnOp::Narrow(scalar), word)
}

#[tactic(auto, unfolding(q_lane::specs::Numbers::applied))]
fn is_less(signed: bool, a: u32, b: u32) -> bool
    ensures { result ≡ is_less_of signed a b }
{
    apply(BinOp::Less(signed), a, b) != 0
}

fn binary(scalar: Scalar, op: Mark, a: u32, b: u32) -> u32
    ensures { result ≡ binary_of scalar op a b }
{
    let signed = is_signed(scalar);
    match op {
        Mark::Plus => apply(BinOp::Add, a, b),
        Mark::Minus => apply(BinOp::Sub, a, b),
        Mark::Star => apply(BinOp::Mul, a, b),
        Mark::Slash => apply(BinOp::Div(signed), a, b),
        Mark::Percent => apply(BinOp::Rem(signed), a, b),
        Mark::Ampersand => apply(BinOp::And, a, b),
        Mark::Bar => apply(BinOp::Or, a, b),
        Mark::Caret => apply(BinOp::Xor, a, b),
        Mark::ShiftLeft => apply(BinOp::Shl, a, b),
        Mark::ShiftRight => apply(if signed { BinOp::Sar } else { BinOp::Shr }, a, b),
        Mark::Less => u32::from(is_less(signed, a, b)),
        Mark::Greater => u32::from(is_less(signed, b, a)),
        Mark::LessEqual => u32::from(!is_less(signed, b, a)),
        Mark::GreaterEqual => u32::from(!is_less(signed, a, b)),
        Mark::EqualEqual => u32::from(a == b),
        Mark::BangEqual => u32::from(a != b),
        _ => 0,
    }
}

/// The operator in a compound assignment.
pub fn operator_in(op: Mark) -> Mark
    ensures { result ≡ operator_in_mark op }
{
    match op {
        Mark::PlusAssign => Mark::Plus,
        Mark::MinusAssign => Mark::Minus,
        Mark::StarAssign => Mark::Star,
        Mark::SlashAssign => Mark::Slash,
        Mark::PercentAssign => Mark::Percent,
        Mark::ShiftLeftAssign => Mark::ShiftLeft,
        Mark::ShiftRightAssign => Mark::ShiftRight,
        Mark::AndAssign => Mark::Ampersand,
        Mark::OrAssign => Mark::Bar,
        Mark::XorAssign => Mark::Caret,
        other => other,
    }
}

fn prefixed_word(op: Mark, a: u32) -> u32
    ensures { result ≡ prefixed_of op a }
{
    match op {
        Mark::Minus => apply_one(UnOp::Neg, a),
        Mark::Tilde => apply_one(UnOp::Not, a),
        Mark::Bang => u32::from(a == 0),
        _ => a,
    }
}

/// `+`, `-`, `~` or `!` of a number.
pub fn prefixed(op: Mark, x: Value) -> Value
    ensures { result ≡ on_word (prefixed_of op) x }
{
    match x {
        Value::Num(a) => Value::Num(prefixed_word(op, a)),
        Value::Null | Value::At { .. } => Value::Null,
    }
}

/// Whether a number isn't 0, as an int.
pub fn truth(x: Value) -> Value
    ensures { result ≡ truth_of x }
{
    match x {
        Value::Num(a) => Value::Num(u32::from(a != 0)),
        Value::Null | Value::At { .. } => Value::Null,
    }
}

fn numbers(scalar: Scalar, op: Mark, x: Value, y: Value) -> Value
    ensures { result ≡ on_words (binary_of scalar op) x y }
{
    match (x, y) {
        (Value::Num(a), Value::Num(b)) => Value::Num(binary(scalar, op, a, b)),
        _ => Value::Null,
    }
}

/// A pointer moved forward by a number of elements of `size` bytes.
pub(crate) fn forward(size: u32, pointer: Value, count: Value) -> Value
    ensures { result ≡ forward_of size pointer count }
{
    match (pointer, count) {
        (Value::At { buffer, offset }, Value::Num(n)) => Value::At {
            buffer,
            offset: offset.wrapping_add(size.wrapping_mul(n)),
        },
        _ => Value::Null,
    }
}

fn backward(size: u32, pointer: Value, count: Value) -> Value
    ensures { result ≡ backward_of size pointer count }
{
    match (pointer, count) {
        (Value::At { buffer, offset }, Value::Num(n)) => Value::At {
            buffer,
            offset: offset.wrapping_sub(size.wrapping_mul(n)),
        },
        _ => Value::Null,
    }
}

fn moved(op: Mark, size: u32, pointer: Value, count: Value) -> Value
    ensures { result ≡ moved_of op size pointer count }
{
    match op {
        Mark::Minus => backward(size, pointer, count),
        _ => forward(size, pointer, count),
    }
}

/// A binary operator between values of these types, but `&&`, `||` and the comma.
pub fn combined(a: Ty, op: Mark, b: Ty, x: Value, y: Value) -> Value
    ensures { result ≡ combined_of a op b x y }
{
    match (a, b) {
        (Ty::Value(s), Ty::Value(t)) => numbers(works_in(op, s, t), op, x, y),
        (Ty::Pointer { elem, .. }, Ty::Value(_)) => moved(op, bytes_of(elem), x, y),
        (Ty::Value(_), Ty::Pointer { elem, .. }) => moved(op, bytes_of(elem), y, x),
        _ => Value::Null,
    }
}

fn narrowed_value(scalar: Scalar, x: Value) -> Value
    ensures { result ≡ on_word (narrowed scalar) x }
{
    match x {
        Value::Num(a) => Value::Num(narrow(scalar, a)),
        Value::Null | Value::At { .. } => Value::Null,
    }
}

/// A value as one of a type.
pub fn converted(ty: Ty, x: Value) -> Value
    ensures { result ≡ converted_of ty x }
{
    match (ty, x) {
        (Ty::Value(scalar), _) => narrowed_value(scalar, x),
        (Ty::Pointer { .. }, Value::At { .. }) => x,
        _ => Value::Null,
    }
}

/// One more where `up` holds, else one less; of a pointer, by one element.
pub fn stepped(ty: Ty, up: bool, x: Value) -> Value
    ensures { result ≡ stepped_of ty up x }
{
    let op = if up { Mark::Plus } else { Mark::Minus };
    combined(ty, op, Ty::Value(Scalar::Int), x, Value::Num(1))
}
