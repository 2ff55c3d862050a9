//! What the operations mean on one element.

ghost use Rattle.std.specs.Prelude.{◌≡◌, ◌<◌, ◌*◌, ◌^◌, not};
ghost use Rattle.std.specs.List.{list_all, list_any};
ghost use Rattle.qpu_encode.specs.Operations.{add_value, mul_value, passes, holds, unpacked, small_word, rotation, turned, byte, lesser_byte};

use crate::form::{AddOp, BraCond, Cond, MulOp};
use q_lane::{BinOp, Scalar, UnOp, apply, apply_one};

fn turn(a: u32, n: u32) -> u32
    requires { n < 32 }
    ensures { result ≡ turned a n }
{
    let double = u64::from(a) * 0x1_0000_0000 + u64::from(a);
    ((double >> n) % 0x1_0000_0000) as u32
}

/// What the add unit gives of two words.
#[tactic(auto, unfolding(crate::specs::Operations::add_value))]
pub fn add_value(op: AddOp, a: u32, b: u32) -> u32
    ensures { result ≡ add_value op a b }
{
    match op {
        AddOp::Nop => 0,
        AddOp::Add => apply(BinOp::Add, a, b),
        AddOp::Sub => apply(BinOp::Sub, a, b),
        AddOp::Shr => apply(BinOp::Shr, a, b),
        AddOp::Asr => apply(BinOp::Sar, a, b),
        AddOp::Ror => turn(a, b % 32),
        AddOp::Shl => apply(BinOp::Shl, a, b),
        AddOp::Min => apply(BinOp::Min(true), a, b),
        AddOp::Max => apply(BinOp::Max(true), a, b),
        AddOp::And => apply(BinOp::And, a, b),
        AddOp::Or => apply(BinOp::Or, a, b),
        AddOp::Xor => apply(BinOp::Xor, a, b),
        AddOp::Not => apply_one(UnOp::Not, a),
        AddOp::Clz => apply_one(UnOp::Clz, a),
        AddOp::Mul32 => apply(BinOp::Mul, a, b),
        AddOp::MulHs => apply(BinOp::MulHi(true), a, b),
        AddOp::MulHu => apply(BinOp::MulHi(false), a, b),
    }
}

fn byte_at(k: u32, a: u32) -> u32
    requires { k < 4 }
    ensures is { result ≡ byte k a }
    ensures fits { result < 2 ^ 8 }
{
    (a >> (8 * k)) % 0x100
}

fn lesser(k: u32, a: u32, b: u32) -> u32
    requires { k < 4 }
    ensures is { result ≡ lesser_byte k a b }
    ensures fits { result < 2 ^ 8 }
{
    byte_at(k, a).min(byte_at(k, b))
}

/// What the mul unit gives of two words.
#[tactic(auto, unfolding(crate::specs::Operations::mul_value))]
pub fn mul_value(op: MulOp, a: u32, b: u32) -> u32
    ensures { result ≡ mul_value op a b }
{
    match op {
        MulOp::Nop => 0,
        MulOp::Mul24 => apply(BinOp::Mul24, a, b),
        MulOp::V8Min => {
            lesser(0, a, b)
                + 0x100 * lesser(1, a, b)
                + 0x1_0000 * lesser(2, a, b)
                + 0x100_0000 * lesser(3, a, b)
        }
    }
}

/// Whether an element whose flags Z and N are these meets the condition.
#[tactic(auto, unfolding(crate::specs::Operations::passes))]
pub fn passes(cond: Cond, zero: bool, neg: bool) -> bool
    ensures { result ≡ passes cond zero neg }
{
    match cond {
        Cond::Never => false,
        Cond::Always => true,
        Cond::Zs => zero,
        Cond::Zc => !zero,
        Cond::Ns => neg,
        Cond::Nc => !neg,
    }
}

fn all_set(flags: &[bool; 16]) -> bool
    ensures { result ≡ list_all (λ b. b) flags.now }
{
    flags.iter().all(|b| *b)
}

fn all_clear(flags: &[bool; 16]) -> bool
    ensures { result ≡ list_all (λ b. not b) flags.now }
{
    flags.iter().all(|b| !*b)
}

fn any_set(flags: &[bool; 16]) -> bool
    ensures { result ≡ list_any (λ b. b) flags.now }
{
    flags.iter().any(|b| *b)
}

fn any_clear(flags: &[bool; 16]) -> bool
    ensures { result ≡ list_any (λ b. not b) flags.now }
{
    flags.iter().any(|b| !*b)
}

/// Whether a branch with this condition is taken, where the flags Z and N of the sixteen elements are these.
#[tactic(auto, unfolding(crate::specs::Operations::holds))]
pub fn holds(cond: BraCond, zero: &[bool; 16], neg: &[bool; 16]) -> bool
    ensures { result ≡ holds cond zero.now neg.now }
{
    match cond {
        BraCond::AllZ => all_set(zero),
        BraCond::AllNz => all_clear(zero),
        BraCond::AnyZ => any_set(zero),
        BraCond::AnyNz => any_clear(zero),
        BraCond::AllN => all_set(neg),
        BraCond::AllNn => all_clear(neg),
        BraCond::AnyN => any_set(neg),
        BraCond::AnyNn => any_clear(neg),
        BraCond::Always => true,
    }
}

/// The word that an unpack takes of one.
#[tactic(auto, unfolding(crate::specs::Operations::unpacked))]
pub fn unpacked(code: u8, a: u32) -> u32
    ensures { result ≡ unpacked code a }
{
    if code == 1 {
        apply_one(UnOp::Narrow(Scalar::Short), a)
    } else if code == 2 {
        apply_one(UnOp::Narrow(Scalar::Short), a / 0x1_0000)
    } else if 4 <= code && code <= 7 {
        byte_at(u32::from(code) - 4, a)
    } else {
        a
    }
}

/// The word of a small immediate, by its code from 0 to 31.
#[tactic(auto, unfolding(crate::specs::Operations::small_word))]
pub fn small_word(code: u8) -> u32
    ensures { result ≡ small_word code }
{
    let low = u32::from(code) % 32;
    if low < 16 { low } else { low + 0xffff_ffe0 }
}

/// How far a small immediate's code from 48 to 63 rotates the mul unit's result, where `five` is
/// element 0 of r5.
#[tactic(auto, unfolding(crate::specs::Operations::rotation))]
pub fn rotation(code: u8, five: u32) -> u32
    ensures { result ≡ rotation code five }
{
    if code == 48 {
        five % 16
    } else {
        u32::from(code).saturating_sub(48)
    }
}
