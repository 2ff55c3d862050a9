//! Words both ways.

ghost use Rattle.std.specs.Prelude.{get_or, false, true, ◌≡◌, ◌≢◌, ◌≤◌, ◌<◌, ◌+◌, ◌-◌, ◌*◌, ◌^◌, Some, IfSome, IfNone};
ghost use Rattle.qpu_encode.specs.WordFields.{FitEach, field, fields_from, join};
ghost use Rattle.qpu_encode.specs.WordFields.{form_of, word_of, alu_from, ldi_from, bra_from, bra_widths, bra_values, distance_of, distance_bits, is_distance, alu_widths, ldi_widths, alu_values, ldi_values, bit, is_in_profile};
ghost use Rattle.qpu_encode.specs.declared.form.Form.{Form};

use crate::codes::{
    add_code_of, bra_code_of, cond_code_of, find_add_op, find_bra, find_cond, find_head,
    find_mul_op, head_code_of, mul_code_of,
};
use crate::field::Field;
use crate::form::{AddPart, BraCond, Cond, Form, Head, MulPart};
use crate::instr::Instr;
use crate::profile::is_in_profile;

fn byte<const LO: u32, const W: u32>(word: u64) -> u8
    requires width { W ≤ 8 }
    requires within { LO + W ≤ 64 }
    requires some { 1 ≤ W }
    ensures { result ≡ field LO W word }
{
    Field::<LO, W>::get(word) as u8
}

#[tactic(auto, unfolding(crate::specs::WordFields::alu_from))]
fn alu(word: u64) -> Option<Instr>
    ensures { result ≡ alu_from (fields_from 0 alu_widths word) }
{
    let head = find_head(Field::<60, 4>::get(word))?;
    let add_op = find_add_op(Field::<24, 5>::get(word))?;
    let mul_op = find_mul_op(Field::<29, 3>::get(word))?;
    let add_cond = find_cond(Field::<49, 3>::get(word))?;
    let mul_cond = find_cond(Field::<46, 3>::get(word))?;
    let add = AddPart {
        op: add_op,
        cond: add_cond,
        dst: byte::<38, 6>(word),
        a: byte::<9, 3>(word),
        b: byte::<6, 3>(word),
    };
    let mul = MulPart {
        op: mul_op,
        cond: mul_cond,
        dst: byte::<32, 6>(word),
        a: byte::<3, 3>(word),
        b: byte::<0, 3>(word),
    };
    let form = Form::Alu {
        head,
        unpack: byte::<57, 3>(word),
        add,
        mul,
        flags: byte::<45, 1>(word) == 1,
        swap: byte::<44, 1>(word) == 1,
        ra: byte::<18, 6>(word),
        rb: byte::<12, 6>(word),
    };
    if (byte::<56, 1>(word) == 0 && byte::<52, 4>(word) == 0) && is_in_profile(&form) {
        Some(Instr { form })
    } else {
        None
    }
}

#[tactic(auto, unfolding(crate::specs::WordFields::ldi_from))]
fn ldi(word: u64) -> Option<Instr>
    ensures { result ≡ ldi_from (fields_from 0 ldi_widths word) }
{
    let add_cond = find_cond(Field::<49, 3>::get(word))?;
    let mul_cond = find_cond(Field::<46, 3>::get(word))?;
    let form = Form::Ldi {
        add_cond,
        mul_cond,
        swap: byte::<44, 1>(word) == 1,
        add_dst: byte::<38, 6>(word),
        mul_dst: byte::<32, 6>(word),
        value: Field::<0, 32>::get(word) as u32,
    };
    if ((byte::<60, 4>(word) == 14 && byte::<52, 8>(word) == 0) && byte::<45, 1>(word) == 0)
        && is_in_profile(&form)
    {
        Some(Instr { form })
    } else {
        None
    }
}

#[tactic(auto, unfolding(crate::specs::WordFields::distance_of))]
fn distance(bits: u64) -> i32
    requires { bits < 2 ^ 29 }
    ensures { result ≡ distance_of bits }
{
    if bits < 0x1000_0000 {
        bits as i32
    } else {
        bits as i32 - 0x2000_0000
    }
}

#[tactic(auto, unfolding(crate::specs::WordFields::distance_bits))]
fn bits_of_words(words: i32) -> u64
    requires { is_distance words ≡ true }
    ensures bits { result ≡ distance_bits words }
    ensures fits { result < 2 ^ 29 }
{
    let size = u64::from(words.unsigned_abs());
    if words < 0 { 0x2000_0000 - size } else { size }
}

#[tactic(auto, unfolding(crate::specs::WordFields::bra_from))]
fn bra(word: u64) -> Option<Instr>
    ensures { result ≡ bra_from (fields_from 0 bra_widths word) }
{
    let cond = find_bra(Field::<52, 4>::get(word))?;
    let words = distance(Field::<3, 29>::get(word));
    let form = Form::Bra { cond, words };
    if (((byte::<0, 3>(word) == 0 && byte::<32, 6>(word) == 39)
        && (byte::<38, 6>(word) == 39 && byte::<44, 1>(word) == 0))
        && ((byte::<45, 5>(word) == 0 && byte::<50, 1>(word) == 0)
            && (byte::<51, 1>(word) == 1
                && (byte::<56, 4>(word) == 0 && byte::<60, 4>(word) == 15))))
        && is_in_profile(&form)
    {
        Some(Instr { form })
    } else {
        None
    }
}

// The instruction of a word, by its fields.
#[tactic(auto, unfolding(crate::specs::WordFields::form_of))]
fn decode_fields(word: u64) -> Option<Instr>
    ensures { result ≡ form_of word }
{
    let signal = Field::<60, 4>::get(word);
    if signal == 14 {
        ldi(word)
    } else if signal == 15 {
        bra(word)
    } else {
        alu(word)
    }
}

/// The instruction of a word; none exactly where the word is outside the profile.
pub fn decode(word: u64) -> Option<Instr>
    ensures form { result ≡ form_of word }

    // The word is that of the instruction.
    ensures back { IfSome result (λ form. word_of form ≡ word) }

    // Without an instruction it is the word of no form in the profile.
    ensures none { IfNone result ((form : Form) → is_in_profile form ≡ true → word_of form ≢ word) }
{
    decode_fields(word)
}

// The number of these high bits and these low ones.
fn push<const W: u32>(high: u64, low: u64) -> u64
    requires width { W ≤ 32 }
    requires room { high < 2 ^ (64 - W) }
    requires fits { low < 2 ^ W }
    ensures { result ≡ high * 2 ^ W + low }
{
    (high << W) + low
}

fn alu_word(
    head: Head,
    unpack: u8,
    add: &AddPart,
    mul: &MulPart,
    bits: [bool; 2],
    reads: [u8; 2],
) -> u64
    requires { FitEach alu_widths (alu_values head unpack add.now mul.now (get_or bits 0 false) (get_or bits 1 false) (get_or reads 0 0) (get_or reads 1 0)) }
    ensures { result ≡ join alu_widths (alu_values head unpack add.now mul.now (get_or bits 0 false) (get_or bits 1 false) (get_or reads 0 0) (get_or reads 1 0)) }
{
    let [flags, swap] = bits;
    let [ra, rb] = reads;
    let w = push::<4>(0, u64::from(head_code_of(head)));
    let w = push::<3>(w, u64::from(unpack));
    let w = push::<1>(w, 0);
    let w = push::<4>(w, 0);
    let w = push::<3>(w, u64::from(cond_code_of(add.cond)));
    let w = push::<3>(w, u64::from(cond_code_of(mul.cond)));
    let w = push::<1>(w, bit_of(flags));
    let w = push::<1>(w, bit_of(swap));
    let w = push::<6>(w, u64::from(add.dst));
    let w = push::<6>(w, u64::from(mul.dst));
    let w = push::<3>(w, u64::from(mul_code_of(mul.op)));
    let w = push::<5>(w, u64::from(add_code_of(add.op)));
    let w = push::<6>(w, u64::from(ra));
    let w = push::<6>(w, u64::from(rb));
    let w = push::<3>(w, u64::from(add.a));
    let w = push::<3>(w, u64::from(add.b));
    let w = push::<3>(w, u64::from(mul.a));
    push::<3>(w, u64::from(mul.b))
}

fn ldi_word(add_cond: Cond, mul_cond: Cond, swap: bool, add_dst: u8, mul_dst: u8, value: u32) -> u64
    requires { FitEach ldi_widths (ldi_values add_cond mul_cond swap add_dst mul_dst value) }
    ensures { result ≡ join ldi_widths (ldi_values add_cond mul_cond swap add_dst mul_dst value) }
{
    let w = push::<4>(0, 14);
    let w = push::<8>(w, 0);
    let w = push::<3>(w, u64::from(cond_code_of(add_cond)));
    let w = push::<3>(w, u64::from(cond_code_of(mul_cond)));
    let w = push::<1>(w, 0);
    let w = push::<1>(w, bit_of(swap));
    let w = push::<6>(w, u64::from(add_dst));
    let w = push::<6>(w, u64::from(mul_dst));
    push::<32>(w, u64::from(value))
}

fn bra_word(cond: BraCond, words: i32) -> u64
    requires { is_distance words ≡ true }
    ensures { result ≡ join bra_widths (bra_values cond words) }
{
    let w = push::<4>(0, 15);
    let w = push::<4>(w, 0);
    let w = push::<4>(w, u64::from(bra_code_of(cond)));
    let w = push::<1>(w, 1);
    let w = push::<1>(w, 0);
    let w = push::<5>(w, 0);
    let w = push::<1>(w, 0);
    let w = push::<6>(w, 39);
    let w = push::<6>(w, 39);
    let w = push::<29>(w, bits_of_words(words));
    push::<3>(w, 0)
}

fn bit_of(b: bool) -> u64
    ensures { result ≡ bit b }
{
    u64::from(b)
}

// The word of a form, by its fields.
#[tactic(auto, unfolding(crate::specs::WordFields::word_of))]
fn encode_fields(form: &Form) -> u64
    requires { is_in_profile form.now ≡ true }
    ensures { result ≡ word_of form.now }
{
    match *form {
        Form::Alu {
            head,
            unpack,
            add,
            mul,
            flags,
            swap,
            ra,
            rb,
        } => alu_word(head, unpack, &add, &mul, [flags, swap], [ra, rb]),
        Form::Ldi {
            add_cond,
            mul_cond,
            swap,
            add_dst,
            mul_dst,
            value,
        } => ldi_word(add_cond, mul_cond, swap, add_dst, mul_dst, value),
        Form::Bra { cond, words } => bra_word(cond, words),
    }
}

/// The word of an instruction.
pub fn encode(instr: &Instr) -> u64
    ensures word { result ≡ word_of instr.now }

    // Decoding gives the instruction again.
    ensures again { form_of result ≡ Some instr.now }
{
    encode_fields(&instr.form)
}
