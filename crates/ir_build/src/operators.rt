//! Code of operators and conversions.

ghost use Rattle.std.specs.Prelude.{◌≡◌, IfOk};
ghost use Rattle.ir_build.specs.Adds.{Adds};
ghost use Rattle.ir_build.specs.Code.{right_shift as right_shift_of, way_of as way_of_mark, way_code, prefix_code, moved_code, move_of as move_of_mark, combined_code, converted_code, stepped_code};

use crate::pieces::{Memory, Piece, define, is_zero, other_truth};
use crate::types::works_in;
use clc_lexer::Mark;
use clc_types::Ty;
use item_ir::{Def, Stmt, Val};
use q_functions::{bytes_of, is_signed};
use q_lane::{BinOp, Scalar, UnOp};

/// How an operator of two numbers is done: by an operation, by one with its operands swapped, by the other truth of those, or not at all.
#[derive(Clone, Copy, Debug, PartialEq, Eq)]
pub(crate) enum Way {
    Direct(BinOp),
    Swapped(BinOp),
    NotOf(BinOp),
    NotSwapped(BinOp),
    Nought,
}

fn right_shift(signed: bool) -> BinOp
    ensures { result ≡ right_shift_of signed }
{
    if signed { BinOp::Sar } else { BinOp::Shr }
}

fn way_of(scalar: Scalar, op: Mark) -> Way
    ensures { result ≡ way_of_mark scalar op }
{
    let signed = is_signed(scalar);
    match op {
        Mark::Plus => Way::Direct(BinOp::Add),
        Mark::Minus => Way::Direct(BinOp::Sub),
        Mark::Star => Way::Direct(BinOp::Mul),
        Mark::Slash => Way::Direct(BinOp::Div(signed)),
        Mark::Percent => Way::Direct(BinOp::Rem(signed)),
        Mark::Ampersand => Way::Direct(BinOp::And),
        Mark::Bar => Way::Direct(BinOp::Or),
        Mark::Caret => Way::Direct(BinOp::Xor),
        Mark::ShiftLeft => Way::Direct(BinOp::Shl),
        Mark::ShiftRight => Way::Direct(right_shift(signed)),
        Mark::Less => Way::Direct(BinOp::Less(signed)),
        Mark::Greater => Way::Swapped(BinOp::Less(signed)),
        Mark::LessEqual => Way::NotSwapped(BinOp::Less(signed)),
        Mark::GreaterEqual => Way::NotOf(BinOp::Less(signed)),
        Mark::EqualEqual => Way::Direct(BinOp::Equal),
        Mark::BangEqual => Way::NotOf(BinOp::Equal),
        _ => Way::Nought,
    }
}

/// The other truth of what an operation gives.
fn not_of(out: &mut Vec<Stmt>, op: BinOp, x: Val, y: Val, k: u32) -> Result<Piece, Memory>
    ensures { IfOk result (λ p. Adds out.old.items out.new.items p (way_code (Way.NotOf op) x.0 y.0 k)) }
{
    let truth = define(out, Def::Bin(op, x, y), k)?;
    other_truth(out, truth.val, truth.next)
}

fn done(out: &mut Vec<Stmt>, way: Way, x: Val, y: Val, k: u32) -> Result<Piece, Memory>
    ensures { IfOk result (λ p. Adds out.old.items out.new.items p (way_code way x.0 y.0 k)) }
{
    match way {
        Way::Direct(op) => define(out, Def::Bin(op, x, y), k),
        Way::Swapped(op) => define(out, Def::Bin(op, y, x), k),
        Way::NotOf(op) => not_of(out, op, x, y, k),
        Way::NotSwapped(op) => not_of(out, op, y, x, k),
        Way::Nought => define(out, Def::Const(0), k),
    }
}

/// `+`, `-`, `~` or `!` of a number.
pub(crate) fn prefixed(out: &mut Vec<Stmt>, op: Mark, x: Val, k: u32) -> Result<Piece, Memory>
    ensures { IfOk result (λ p. Adds out.old.items out.new.items p (prefix_code op x.0 k)) }
{
    match op {
        Mark::Minus => define(out, Def::One(UnOp::Neg, x), k),
        Mark::Tilde => define(out, Def::One(UnOp::Not, x), k),
        Mark::Bang => is_zero(out, x, k),
        _ => Ok(Piece { val: x, next: k }),
    }
}

/// A pointer moved by a number of elements of `size` bytes.
pub(crate) fn moved(
    out: &mut Vec<Stmt>,
    op: BinOp,
    size: u32,
    pointer: Val,
    count: Val,
    k: u32,
) -> Result<Piece, Memory>
    ensures { IfOk result (λ p. Adds out.old.items out.new.items p (moved_code op size pointer.0 count.0 k)) }
{
    let size = define(out, Def::Const(size), k)?;
    let bytes = define(out, Def::Bin(BinOp::Mul, size.val, count), size.next)?;
    define(out, Def::Bin(op, pointer, bytes.val), bytes.next)
}

fn move_of(op: Mark) -> BinOp
    ensures { result ≡ move_of_mark op }
{
    match op {
        Mark::Minus => BinOp::Sub,
        _ => BinOp::Add,
    }
}

/// A binary operator between values of these types, but `&&`, `||` and the comma.
pub(crate) fn combined(
    out: &mut Vec<Stmt>,
    a: Ty,
    op: Mark,
    b: Ty,
    x: Val,
    y: Val,
    k: u32,
) -> Result<Piece, Memory>
    ensures { IfOk result (λ p. Adds out.old.items out.new.items p (combined_code a op b x.0 y.0 k)) }
{
    match (a, b) {
        (Ty::Value(s), Ty::Value(t)) => done(out, way_of(works_in(op, s, t), op), x, y, k),
        (Ty::Pointer { elem, .. }, Ty::Value(_)) => {
            moved(out, move_of(op), bytes_of(elem), x, y, k)
        }
        (Ty::Value(_), Ty::Pointer { elem, .. }) => {
            moved(out, move_of(op), bytes_of(elem), y, x, k)
        }
        _ => Ok(Piece { val: x, next: k }),
    }
}

/// One more where `up` holds, else one less; of a pointer, by one element.
pub(crate) fn stepped(
    out: &mut Vec<Stmt>,
    ty: Ty,
    up: bool,
    x: Val,
    k: u32,
) -> Result<Piece, Memory>
    ensures { IfOk result (λ p. Adds out.old.items out.new.items p (stepped_code ty up x.0 k)) }
{
    let op = if up { Mark::Plus } else { Mark::Minus };
    let one = define(out, Def::Const(1), k)?;
    combined(out, ty, op, Ty::Value(Scalar::Int), x, one.val, one.next)
}

/// A value as one of a type. A number is narrowed, to int and uint too, which changes no word.
pub(crate) fn converted(out: &mut Vec<Stmt>, ty: Ty, x: Val, k: u32) -> Result<Piece, Memory>
    ensures { IfOk result (λ p. Adds out.old.items out.new.items p (converted_code ty x.0 k)) }
{
    match ty {
        Ty::Value(scalar) => define(out, Def::One(UnOp::Narrow(scalar), x), k),
        Ty::Pointer { .. } | Ty::Void => Ok(Piece { val: x, next: k }),
    }
}
