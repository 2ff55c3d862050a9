//! Numbers: decimal, octal and hexadecimal, with a suffix or without.

ghost use Rattle.std.specs.Prelude.{◌≡◌, ◌≤◌, ◌<◌, ◌^◌, ◌+◌, length, drop, MatchOption, Some, None, nat_lt, cond};
ghost use Rattle.std.specs.Char.{digit_value as value_of_digit};
ghost use Rattle.std.specs.Str.Parse.{AllDigits, digits_value};
ghost use Rattle.clc_lexer.specs.Numerals.{radix};
ghost use Rattle.clc_lexer.specs.Reading as reading;

/// The base of a number.
#[derive(Clone, Copy, Debug, PartialEq, Eq)]
pub(crate) enum Base {
    Decimal,
    Octal,
    Hexadecimal,
}

impl Base {
    fn radix(self) -> u32
        ensures value { result ≡ radix self }
        ensures low { 8 ≤ result }
        ensures high { result ≤ 16 }
    {
        match self {
            Base::Decimal => 10,
            Base::Octal => 8,
            Base::Hexadecimal => 16,
        }
    }
}

/// The base, and what stands after the marks of the base.
fn split_base(bytes: &[u8]) -> (Base, &[u8])
    ensures base { result.0 ≡ reading.base_of bytes.now }
    ensures body { result.1.now ≡ reading.after_front (reading.base_of bytes.now) bytes.now }
{
    match bytes {
        [b'0', b'x' | b'X', body @ ..] => (Base::Hexadecimal, body),
        [b'0', body @ ..] => (Base::Octal, body),
        _ => (Base::Decimal, bytes),
    }
}

/// How many digits of the radix stand at the front.
fn digit_count(radix: u32, bytes: &[u8]) -> usize
    requires low { 8 ≤ radix }
    requires high { radix ≤ 16 }
    ensures value { result ≡ length (reading.digits_of radix bytes.now) }
    ensures within { result ≤ length bytes.now }
{
    for (i, byte) in bytes.iter().enumerate() {
        if !(*byte as char).is_digit(radix) {
            return i;
        }
    }
    bytes.len()
}

/// The value of digits, or `None` where it isn't below 2^32.
fn value_of(radix: u32, digits: &[u8]) -> Option<u32>
    requires low { 8 ≤ radix }
    requires high { radix ≤ 16 }
    requires digits { AllDigits radix digits.now }
    ensures { MatchOption result (2 ^ 32 ≤ digits_value radix digits.now) (λ value. value ≡ digits_value radix digits.now) }
{
    let mut value: u32 = 0;
    for byte in digits {
        let digit = (*byte as char).to_digit(radix)?;
        value = value.checked_mul(radix)?.checked_add(digit)?;
    }
    Some(value)
}

/// Whether a suffix stands there, or `None` where something else does.
fn has_suffix(bytes: &[u8]) -> Option<bool>
    ensures { result ≡ reading.suffix_of bytes.now }
{
    match bytes {
        [] => Some(false),
        [b'u' | b'U'] => Some(true),
        _ => None,
    }
}

/// The value, and whether it is a `uint`, where it has a type.
fn with_type(base: Base, value: u32, suffixed: bool) -> Option<(u32, bool)>
    ensures { result ≡ reading.typed base value (Some suffixed) }
{
    if suffixed {
        return Some((value, true));
    }
    if value <= i32::MAX as u32 {
        return Some((value, false));
    }
    match base {
        Base::Decimal => None,
        Base::Octal | Base::Hexadecimal => Some((value, true)),
    }
}

/// The digits of the radix at the front, and what stands after them.
fn split_digits(radix: u32, bytes: &[u8]) -> (&[u8], &[u8])
    requires low { 8 ≤ radix }
    requires high { radix ≤ 16 }
    ensures digits { result.0.now ≡ reading.digits_of radix bytes.now }
    ensures rest { result.1.now ≡ drop (length (reading.digits_of radix bytes.now)) bytes.now }
{
    bytes.split_at(digit_count(radix, bytes))
}

/// The value of these digits with what stands after them, and whether it is a `uint`.
fn read_digits(base: Base, digits: &[u8], suffix: &[u8]) -> Option<(u32, bool)>
    requires { AllDigits (radix base) digits.now }
    ensures { result ≡ reading.read_digits base digits.now suffix.now }
{
    if digits.is_empty() && base != Base::Octal {
        return None;
    }
    let suffixed = has_suffix(suffix)?;
    let value = value_of(base.radix(), digits)?;
    with_type(base, value, suffixed)
}

/// The value of a number and whether it is a `uint`, or `None` where the bytes are no number.
pub(crate) fn number_of(bytes: &[u8]) -> Option<(u32, bool)>
    ensures { result ≡ reading.number_of bytes.now }
{
    let (base, body) = split_base(bytes);
    let (digits, suffix) = split_digits(base.radix(), body);
    read_digits(base, digits, suffix)
}
