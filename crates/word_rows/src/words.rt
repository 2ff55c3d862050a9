//! Words both ways, and their fields.

ghost use Rattle.std.specs.Prelude.{◌≤◌, ◌+◌};

use crate::forms::form_text;
use crate::parts::{Fault, Parts};
use qpu_encode::{Field, decode, encode};
use std::alloc::Global;

/// The form of a word, and that its word is the same again.
pub fn answer(alloc: Global, parts: &mut Parts<'_>) -> Result<String, Fault> {
    let word = parts.long_word()?;
    let Some(instr) = decode(word) else {
        return Ok(String::from_str(alloc, "outside")?);
    };
    let again = encode(&instr);
    if again == word {
        Ok(form_text(alloc, &instr.form)?)
    } else {
        Ok(format!(in alloc; "a form whose word is {again:016x}")?)
    }
}

fn put<const LOW: u32, const WIDTH: u32>(word: u64, value: u64) -> Result<u64, Fault>
    requires width { WIDTH ≤ 32 }
    requires within { LOW + WIDTH ≤ 64 }
    requires some { 1 ≤ WIDTH }
{
    if value < 1 << WIDTH {
        Ok(Field::<LOW, WIDTH>::put(word, value))
    } else {
        Err(Fault::NoRow)
    }
}

fn get_at(low: u8, width: u8, word: u64) -> Result<u64, Fault> {
    match (low, width) {
        (60, 4) => Ok(Field::<60, 4>::get(word)),
        (0, 32) => Ok(Field::<0, 32>::get(word)),
        (32, 6) => Ok(Field::<32, 6>::get(word)),
        (45, 1) => Ok(Field::<45, 1>::get(word)),
        _ => Err(Fault::NoRow),
    }
}

fn put_at(low: u8, width: u8, word: u64, value: u64) -> Result<u64, Fault> {
    match (low, width) {
        (60, 4) => put::<60, 4>(word, value),
        (0, 32) => put::<0, 32>(word, value),
        (45, 1) => put::<45, 1>(word, value),
        _ => Err(Fault::NoRow),
    }
}

/// The value of a field, or the word with this value in the field.
pub fn answer_of_field(alloc: Global, parts: &mut Parts<'_>) -> Result<String, Fault> {
    let name = parts.text()?;
    let low = parts.number()?;
    let width = parts.number()?;
    let word = parts.long_word()?;
    match name {
        "get" => {
            let value = get_at(low, width, word)?;
            Ok(format!(in alloc; "{value:x}")?)
        }
        "put" => {
            let word = put_at(low, width, word, parts.long_word()?)?;
            Ok(format!(in alloc; "{word:016x}")?)
        }
        _ => Err(Fault::NoRow),
    }
}
