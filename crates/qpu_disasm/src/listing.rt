//! The line of a word.

ghost use Rattle.std.specs.Prelude.{◌≡◌, ◌≤◌, ◌++◌, length, codes};
ghost use Rattle.std.specs.Int.{to_be_bytes, w64};
ghost use Rattle.hex.specs.Hex.{encode_lower};
ghost use Rattle.arrayvec.specs.ArrayVec.{array_vec_len};
ghost use Rattle.qpu_encode.specs.declared.form.Form.{Form};
ghost use Rattle.qpu_disasm.specs.Listing.{form_text, text_by, text};

use crate::names::{name_of_bra, name_of_head};
use crate::pieces::{Line, push_b, push_distance, push_source, push_text, push_value, push_word};
use crate::units::{push_add, push_mul, push_tail, push_write};
use arrayvec::ArrayVec;
use qpu_encode::{BraCond, Cond, Form, Head, Instr, decode};

/// The text of a word, with no byte that ends the line.
#[derive(Drop)]
pub struct Listing {
    pub bytes: ArrayVec<u8, 128>,
}

#[tactic(auto, unfolding(crate::specs::Listing::form_text))]
fn line_of_load(
    add_cond: Cond,
    mul_cond: Cond,
    swap: bool,
    add_dst: u8,
    mul_dst: u8,
    value: u32,
) -> Line
    ensures items { result.items ≡ form_text (Form.Ldi add_cond mul_cond swap add_dst mul_dst value) }
    ensures short { array_vec_len result ≤ 128 }
{
    let mut line = ArrayVec::new();
    push_text(&mut line, b"ldi: ");
    push_write(&mut line, add_cond, swap, add_dst);
    push_text(&mut line, b" | ");
    push_write(&mut line, mul_cond, !swap, mul_dst);
    push_text(&mut line, b" | ");
    push_value(&mut line, value);
    push_tail(&mut line, 0, false, swap);
    line
}

#[tactic(auto, unfolding(crate::specs::Listing::form_text))]
fn line_of_branch(cond: BraCond, words: i32) -> Line
    ensures items { result.items ≡ form_text (Form.Bra cond words) }
    ensures short { array_vec_len result ≤ 128 }
{
    let mut line = ArrayVec::new();
    push_text(&mut line, b"bra: ");
    push_text(&mut line, name_of_bra(cond));
    push_text(&mut line, b" ");
    push_distance(&mut line, words);
    line
}

#[tactic(auto, unfolding(crate::specs::Listing::form_text))]
fn line_of_form(form: &Form) -> Line
    ensures items { result.items ≡ form_text form.now }
    ensures short { array_vec_len result ≤ 128 }
{
    match *form {
        Form::Alu {
            head,
            unpack,
            add,
            mul,
            flags,
            swap,
            ra,
            rb,
        } => {
            let mut line = ArrayVec::new();
            push_text(&mut line, name_of_head(head));
            push_text(&mut line, b": ");
            push_add(&mut line, swap, &add);
            push_text(&mut line, b" | ");
            push_mul(&mut line, !swap, &mul);
            push_text(&mut line, b" | A=");
            push_source(&mut line, false, ra);
            push_text(&mut line, b" B=");
            push_b(&mut line, matches!(head, Head::Small), rb);
            push_tail(&mut line, unpack, flags, swap);
            line
        }
        Form::Ldi {
            add_cond,
            mul_cond,
            swap,
            add_dst,
            mul_dst,
            value,
        } => line_of_load(add_cond, mul_cond, swap, add_dst, mul_dst, value),
        Form::Bra { cond, words } => line_of_branch(cond, words),
    }
}

// The line of a word outside the profile.
fn line_of_other(word: u64) -> Line
    ensures items { result.items ≡ codes ".word " ++ encode_lower (to_be_bytes w64 word) }
    ensures short { array_vec_len result ≤ 128 }
{
    let mut line = ArrayVec::new();
    push_text(&mut line, b".word ");
    push_word(&mut line, word);
    line
}

#[tactic(auto, unfolding(crate::specs::Listing::text_by))]
fn line_by(decoded: Option<Instr>, word: u64) -> Line
    ensures items { result.items ≡ text_by decoded word }
    ensures short { array_vec_len result ≤ 128 }
{
    match decoded {
        Some(instr) => line_of_form(&instr.form),
        None => line_of_other(word),
    }
}

/// The line of a word: of the form that it has in the profile, or of its digits. Takes no memory.
#[tactic(auto, unfolding(crate::specs::Listing::text))]
pub fn line(word: u64) -> Listing
    ensures is_text { result.bytes.items ≡ text word }
    ensures short { length (text word) ≤ 128 }
{
    Listing {
        bytes: line_by(decode(word), word),
    }
}
