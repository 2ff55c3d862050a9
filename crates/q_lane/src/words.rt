//! What an operation on words gives.

ghost use Rattle.std.specs.Prelude.{◌≡◌, ◌<◌, ◌^◌, ◌*ℤ◌, int_div, int_rem};
ghost use Rattle.q_lane.specs.Numbers.{applied, applied_one, signed, word_of, shifted_down, high_product, quotient, remainder, is_less, extended, narrowed};

use crate::kinds::Scalar;
use crate::operations::{BinOp, UnOp};

#[tactic(auto, unfolding(crate::specs::Numbers::high_product))]
fn multiply_high(signed: bool, a: u32, b: u32) -> u32
    ensures { result ≡ high_product signed a b }
{
    if signed {
        multiply_high_signed(a, b)
    } else {
        ((u64::from(a) * u64::from(b)) >> 32) as u32
    }
}

fn multiply_high_signed(a: u32, b: u32) -> u32
    ensures { result ≡ word_of (shifted_down (signed a *ℤ signed b) 32) }
{
    let product = i64::from(a.cast_signed()) * i64::from(b.cast_signed());
    (product.cast_unsigned() >> 32) as u32
}

#[tactic(auto, unfolding(crate::specs::Numbers::quotient))]
fn divide(signed: bool, a: u32, b: u32) -> u32
    ensures { result ≡ quotient signed a b }
{
    if b == 0 {
        return 0;
    }
    if signed { divide_signed(a, b) } else { a / b }
}

fn divide_signed(a: u32, b: u32) -> u32
    requires { 0 < b }
    ensures { result ≡ word_of (int_div (signed a) (signed b)) }
{
    a.cast_signed()
        .wrapping_div(b.cast_signed())
        .cast_unsigned()
}

#[tactic(auto, unfolding(crate::specs::Numbers::remainder))]
fn rest(signed: bool, a: u32, b: u32) -> u32
    ensures { result ≡ remainder signed a b }
{
    if b == 0 {
        return a;
    }
    if signed { rest_signed(a, b) } else { a % b }
}

fn rest_signed(a: u32, b: u32) -> u32
    requires { 0 < b }
    ensures { result ≡ word_of (int_rem (signed a) (signed b)) }
{
    a.cast_signed()
        .wrapping_rem(b.cast_signed())
        .cast_unsigned()
}

fn shift_signed(a: u32, n: u32) -> u32
    requires { n < 32 }
    ensures { result ≡ word_of (shifted_down (signed a) n) }
{
    if a < 0x8000_0000 { a >> n } else { !(!a >> n) }
}

#[tactic(auto, unfolding(crate::specs::Numbers::is_less))]
fn less(signed: bool, a: u32, b: u32) -> bool
    ensures { result ≡ is_less signed a b }
{
    if signed {
        a.cast_signed() < b.cast_signed()
    } else {
        a < b
    }
}

fn extend_byte(low: u32) -> u32
    requires { low < 2 ^ 8 }
    ensures { result ≡ extended 8 low }
{
    if low < 0x80 { low } else { low + 0xffff_ff00 }
}

fn extend_half(low: u32) -> u32
    requires { low < 2 ^ 16 }
    ensures { result ≡ extended 16 low }
{
    if low < 0x8000 { low } else { low + 0xffff_0000 }
}

#[tactic(auto, unfolding(crate::specs::Numbers::narrowed))]
fn narrow(scalar: Scalar, a: u32) -> u32
    ensures { result ≡ narrowed scalar a }
{
    match scalar {
        Scalar::Char => extend_byte(a % 0x100),
        Scalar::Uchar => a % 0x100,
        Scalar::Short => extend_half(a % 0x1_0000),
        Scalar::Ushort => a % 0x1_0000,
        Scalar::Int => a,
        Scalar::Uint => a,
    }
}

/// The word that an operation gives of two words.
#[tactic(auto, unfolding(crate::specs::Numbers::applied))]
pub fn apply(op: BinOp, a: u32, b: u32) -> u32
    ensures { result ≡ applied op a b }
{
    match op {
        BinOp::Add => a.wrapping_add(b),
        BinOp::Sub => a.wrapping_sub(b),
        BinOp::Mul => a.wrapping_mul(b),
        BinOp::MulHi(signed) => multiply_high(signed, a, b),
        BinOp::Div(signed) => divide(signed, a, b),
        BinOp::Rem(signed) => rest(signed, a, b),
        BinOp::And => a & b,
        BinOp::Or => a | b,
        BinOp::Xor => a ^ b,
        BinOp::Shl => a.wrapping_shl(b),
        BinOp::Shr => a.wrapping_shr(b),
        BinOp::Sar => shift_signed(a, b % 32),
        BinOp::Min(signed) => if less(signed, a, b) { a } else { b },
        BinOp::Max(signed) => if less(signed, a, b) { b } else { a },
        BinOp::Less(signed) => u32::from(less(signed, a, b)),
        BinOp::Equal => u32::from(a == b),
        BinOp::Mul24 => (a % 0x100_0000).wrapping_mul(b % 0x100_0000),
    }
}

/// The word that an operation gives of one word.
#[tactic(auto, unfolding(crate::specs::Numbers::applied_one))]
pub fn apply_one(op: UnOp, a: u32) -> u32
    ensures { result ≡ applied_one op a }
{
    match op {
        UnOp::Not => !a,
        UnOp::Neg => 0_u32.wrapping_sub(a),
        UnOp::Clz => a.leading_zeros(),
        UnOp::Popcount => a.count_ones(),
        UnOp::Narrow(scalar) => narrow(scalar, a),
    }
}
