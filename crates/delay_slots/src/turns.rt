//! Words that can be spared, one after the other.

ghost use Rattle.std.specs.Prelude.{◌≡◌, ◌+◌, ◌<◌, ◌^◌, length, OnOk};
ghost use Rattle.std.specs.Vec.{vec_len};
ghost use Rattle.tight_words.specs.Tight.{IsTight};

use crate::words::instr_of;
use qpu_encode::{Field, Form, decode, encode};
use std::alloc::AllocError;
use tight_words::{joint, loose_from};

const BRANCH: u64 = 15;

// The distance of a branch at b without the word at i: one less where it passes over it.
fn mended_distance(i: u64, b: u64, words: i32) -> i32
    requires here { i < 2 ^ 32 }
    requires there { b < 2 ^ 32 }
{
    let size = u64::from(words.unsigned_abs());
    if words < 0 {
        if i < b && b + 4 <= i + size {
            words + 1
        } else {
            words
        }
    } else if words > 0 && (b < i && i < b + 4 + size) {
        words - 1
    } else {
        words
    }
}

fn mended_form(i: u64, b: u64, word: u64, form: Form) -> Result<u64, AllocError>
    requires here { i < 2 ^ 32 }
    requires there { b < 2 ^ 32 }
{
    match form {
        Form::Bra { cond, words } => Ok(encode(&instr_of(Form::Bra {
            cond,
            words: mended_distance(i, b, words),
        })?)),
        Form::Alu { .. } => Ok(word),
        Form::Ldi { .. } => Ok(word),
    }
}

// The word at b without the word at i.
fn mended_word(i: u64, b: u64, word: u64) -> Result<u64, AllocError>
    requires here { i < 2 ^ 32 }
    requires there { b < 2 ^ 32 }
{
    if Field::<60, 4>::get(word) == BRANCH {
        match decode(word) {
            None => Ok(word),
            Some(instr) => mended_form(i, b, word, instr.form),
        }
    } else {
        Ok(word)
    }
}

// All branches lead to where their targets go when the word at i is taken out.
fn mend(words: &mut [u64], i: usize) -> Result<(), AllocError>
    requires short { length words.old < 2 ^ 32 }
    requires here { i < length words.old }
{
    for b in 0..words.len() {
        words[b] = mended_word(i as u64, b as u64, words[b])?;
    }
    Ok(())
}

// The word that does two takes the place of the second; the first is gone.
fn put_at(words: &mut [u64], i: usize, form: Form) -> Result<(), AllocError> {
    if i < words.len() {
        words[i] = encode(&instr_of(form)?);
    }
    Ok(())
}

/// Joins or removes at a loose place.
fn turn(words: &mut Vec<u64>, i: usize) -> Result<(), AllocError>
    requires short { vec_len words.old < 2 ^ 32 }
    requires here { i < vec_len words.old }
    ensures { OnOk result (vec_len words.new + 1 ≡ vec_len words.old) }
{
    let joint = joint(words, i);
    mend(words, i)?;
    words.remove(i);
    match joint {
        None => Ok(()),
        Some(form) => put_at(words, i, form),
    }
}

/// Joins or removes until there is no loose place. What a turn makes loose stands near it; the last search goes over all.
pub fn tighten(words: &mut Vec<u64>) -> Result<(), AllocError>
    requires short { vec_len words.old < 2 ^ 32 }
    ensures { OnOk result (IsTight words.new.items) }
{
    let mut start: u32 = 0;
    let mut done = false;
    'turns: while !done {
        match loose_from(words, start) {
            Some(i) => {
                turn(words, i as usize)?;
                start = i.saturating_sub(4);
            }
            None => {
                done = start == 0;
                start = 0;
            }
        }
    }
    Ok(())
}
