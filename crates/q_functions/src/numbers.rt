//! What the built-in functions of numbers give.

ghost use Rattle.std.specs.Prelude.{◌≡◌, ◌%◌, ◌<◌, ◌≤◌, ◌^◌, ◌+ℤ◌, ◌-ℤ◌, ◌*ℤ◌, unsigned_abs};
ghost use Rattle.std.specs.Int.Count.{count_leading_zeros};
ghost use Rattle.q_lane.specs.Numbers.{word_of, shifted_down, extended, narrowed, width as width_of};
ghost use Rattle.q_functions.specs.NumberFunctions.{is_signed as has_sign, bytes_of as size_of, number as number_of, least as least_of, greatest as greatest_of, low_bits as low_bits_of, clamped, low_24 as low_24_of, turned, built_in, argument as argument_of, number_function as given_by};

use crate::functions::NumberFunction;
use q_lane::{Scalar, UnOp, apply_one};

/// Whether the type has negative numbers.
pub fn is_signed(scalar: Scalar) -> bool
    ensures { result ≡ has_sign scalar }
{
    match scalar {
        Scalar::Char | Scalar::Short | Scalar::Int => true,
        Scalar::Uchar | Scalar::Ushort | Scalar::Uint => false,
    }
}

/// How many bytes an element of the type has.
pub fn bytes_of(scalar: Scalar) -> u32
    ensures { result ≡ size_of scalar }
{
    match scalar {
        Scalar::Char | Scalar::Uchar => 1,
        Scalar::Short | Scalar::Ushort => 2,
        Scalar::Int | Scalar::Uint => 4,
    }
}

fn width(scalar: Scalar) -> u32
    ensures { result ≡ width_of scalar }
{
    match scalar {
        Scalar::Char | Scalar::Uchar => 8,
        Scalar::Short | Scalar::Ushort => 16,
        Scalar::Int | Scalar::Uint => 32,
    }
}

/// The number of the type that a word stands for. Products of two of them fit in an `i128`.
fn number(scalar: Scalar, word: u32) -> i128
    ensures value { result ≡ number_of scalar word }
    ensures small { unsigned_abs result ≤ 2 ^ 32 }
{
    if is_signed(scalar) {
        i128::from(word.cast_signed())
    } else {
        i128::from(word)
    }
}

/// The word of a number.
fn wrapped(number: i128) -> u32
    ensures { result ≡ word_of number }
{
    (number.cast_unsigned() % 0x1_0000_0000) as u32
}

/// The product of two numbers of words.
fn product(a: i128, b: i128) -> i128
    requires first { unsigned_abs a ≤ 2 ^ 32 }
    requires second { unsigned_abs b ≤ 2 ^ 32 }
    ensures { result ≡ a *ℤ b }
{
    a * b
}

fn least(scalar: Scalar) -> i128
    ensures { result ≡ least_of scalar }
{
    match scalar {
        Scalar::Char => i128::from(i8::MIN),
        Scalar::Short => i128::from(i16::MIN),
        Scalar::Int => i128::from(i32::MIN),
        Scalar::Uchar | Scalar::Ushort | Scalar::Uint => 0,
    }
}

fn greatest(scalar: Scalar) -> i128
    ensures { result ≡ greatest_of scalar }
{
    match scalar {
        Scalar::Char => i128::from(i8::MAX),
        Scalar::Uchar => i128::from(u8::MAX),
        Scalar::Short => i128::from(i16::MAX),
        Scalar::Ushort => i128::from(u16::MAX),
        Scalar::Int => i128::from(i32::MAX),
        Scalar::Uint => i128::from(u32::MAX),
    }
}

fn saturated(scalar: Scalar, number: i128) -> u32
    ensures { result ≡ word_of (clamped number (least_of scalar) (greatest_of scalar)) }
{
    wrapped(number.max(least(scalar)).min(greatest(scalar)))
}

fn low_bits(scalar: Scalar, word: u32) -> u32
    ensures value { result ≡ low_bits_of scalar word }
    ensures small { result < 2 ^ width_of scalar }
{
    match scalar {
        Scalar::Char | Scalar::Uchar => word % 0x100,
        Scalar::Short | Scalar::Ushort => word % 0x1_0000,
        Scalar::Int | Scalar::Uint => word,
    }
}

/// A number of 24 bits that is read as signed, as a word.
fn extended_24(low: u32) -> u32
    requires { low < 2 ^ 24 }
    ensures { result ≡ extended 24 low }
{
    if low < 0x80_0000 {
        low
    } else {
        low + 0xff00_0000
    }
}

/// The number of the low 24 bits.
fn low_24(scalar: Scalar, word: u32) -> i128
    ensures value { result ≡ low_24_of scalar word }
    ensures small { unsigned_abs result ≤ 2 ^ 32 }
{
    let low = word % 0x100_0000;
    if is_signed(scalar) {
        number(Scalar::Int, extended_24(low))
    } else {
        number(Scalar::Uint, low)
    }
}

fn short_product(scalar: Scalar, x: u32, y: u32) -> u32
    ensures { result ≡ word_of (low_24_of scalar x *ℤ low_24_of scalar y) }
{
    wrapped(product(low_24(scalar, x), low_24(scalar, y)))
}

fn upper_product(scalar: Scalar, x: u32, y: u32) -> u32
    ensures { result ≡ word_of (shifted_down (number_of scalar x *ℤ number_of scalar y) (width_of scalar)) }
{
    let whole = product(number(scalar, x), number(scalar, y));
    wrapped(whole >> width(scalar))
}

fn saturated_sum(scalar: Scalar, x: u32, y: u32) -> u32
    ensures { result ≡ word_of (clamped (number_of scalar x +ℤ number_of scalar y) (least_of scalar) (greatest_of scalar)) }
{
    saturated(scalar, number(scalar, x) + number(scalar, y))
}

fn saturated_difference(scalar: Scalar, x: u32, y: u32) -> u32
    ensures { result ≡ word_of (clamped (number_of scalar x -ℤ number_of scalar y) (least_of scalar) (greatest_of scalar)) }
{
    saturated(scalar, number(scalar, x) - number(scalar, y))
}

/// Bits of this width turned left by so many places.
fn rotate(width: u32, bits: u32, places: u32) -> u32
    requires bits { width ≤ 32 }
    requires turn { places < width }
    ensures { result ≡ turned width bits places }
{
    let bits = u64::from(bits);
    (((bits << places) + (bits >> (width - places))) % (1 << width)) as u32
}

#[tactic(auto, unfolding(q_lane::specs::Numbers::applied_one))]
fn rotated(scalar: Scalar, x: u32, places: u32) -> u32
    ensures { result ≡ narrowed scalar (turned (width_of scalar) (low_bits_of scalar x) (places % width_of scalar)) }
{
    let width = width(scalar);
    let turned = rotate(width, low_bits(scalar, x), places % width);
    apply_one(UnOp::Narrow(scalar), turned)
}

fn leading_zeros(scalar: Scalar, x: u32) -> u32
    ensures { result ≡ count_leading_zeros (width_of scalar) (low_bits_of scalar x) }
{
    low_bits(scalar, x).leading_zeros() - (32 - width(scalar))
}

fn size(scalar: Scalar, x: u32) -> u32
    ensures { result ≡ unsigned_abs (number_of scalar x) }
{
    number(scalar, x).unsigned_abs() as u32
}

fn size_of_difference(scalar: Scalar, x: u32, y: u32) -> u32
    ensures { result ≡ unsigned_abs (number_of scalar x -ℤ number_of scalar y) }
{
    number(scalar, x).abs_diff(number(scalar, y)) as u32
}

#[tactic(auto, unfolding(q_lane::specs::Numbers::applied_one))]
fn argument(scalar: Scalar, args: &[u32], index: usize) -> u32
    ensures { result ≡ argument_of scalar args.now index }
{
    let word = args.get(index).copied().unwrap_or(0);
    apply_one(UnOp::Narrow(scalar), word)
}

#[tactic(auto, unfolding(crate::specs::NumberFunctions::built_in))]
fn applied(which: NumberFunction, scalar: Scalar, x: u32, y: u32, z: u32) -> u32
    ensures { result ≡ built_in which scalar x y z }
{
    let (a, b) = (number(scalar, x), number(scalar, y));
    match which {
        NumberFunction::Min => wrapped(a.min(b)),
        NumberFunction::Max => wrapped(a.max(b)),
        NumberFunction::Clamp => wrapped(a.max(b).min(number(scalar, z))),
        NumberFunction::Abs => size(scalar, x),
        NumberFunction::AbsDiff => size_of_difference(scalar, x, y),
        NumberFunction::Mul24 => short_product(scalar, x, y),
        NumberFunction::MulHi => upper_product(scalar, x, y),
        NumberFunction::Rotate => rotated(scalar, x, y),
        NumberFunction::Clz => leading_zeros(scalar, x),
        NumberFunction::Popcount => low_bits(scalar, x).count_ones(),
        NumberFunction::AddSat => saturated_sum(scalar, x, y),
        NumberFunction::SubSat => saturated_difference(scalar, x, y),
    }
}

/// What a function that works in the type gives of the words of its arguments. An argument that isn't there is 0.
#[tactic(auto, unfolding(crate::specs::NumberFunctions::number_function))]
pub fn number_function(which: NumberFunction, scalar: Scalar, args: &[u32]) -> u32
    ensures { result ≡ given_by which scalar args.now }
{
    applied(
        which,
        scalar,
        argument(scalar, args, 0),
        argument(scalar, args, 1),
        argument(scalar, args, 2),
    )
}
