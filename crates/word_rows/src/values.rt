//! What the operations of the QPU's units give.

use crate::forms::{ADD_OPS, BRANCH_CONDITIONS, CONDITIONS, MUL_OPS};
use crate::parts::{Fault, Parts};
use crate::texts::{text_of, word_text};
use qpu_encode::{add_value, holds, mul_value, passes, rotation, small_word, unpacked};
use std::alloc::Global;

fn word_given(alloc: Global, name: &str, parts: &mut Parts<'_>) -> Result<u32, Fault> {
    match name {
        "add_value" => {
            let op = parts.one_of(alloc, &ADD_OPS)?;
            let a = parts.word()?;
            Ok(add_value(op, a, parts.word()?))
        }
        "mul_value" => {
            let op = parts.one_of(alloc, &MUL_OPS)?;
            let a = parts.word()?;
            Ok(mul_value(op, a, parts.word()?))
        }
        "unpacked" => {
            let code = parts.number()?;
            Ok(unpacked(code, parts.word()?))
        }
        "small_word" => Ok(small_word(parts.number()?)),
        _ => Err(Fault::NoRow),
    }
}

/// A flag of the sixteen elements: of all, of none, of the first alone, or of all but the last.
fn flags(name: &str) -> Result<[bool; 16], Fault> {
    let mut first = [false; 16];
    first[0] = true;
    let mut most = [true; 16];
    most[15] = false;
    match name {
        "all" => Ok([true; 16]),
        "none" => Ok([false; 16]),
        "first" => Ok(first),
        "most" => Ok(most),
        _ => Err(Fault::NoRow),
    }
}

/// What an operation gives, or whether a condition is met.
pub fn answer(alloc: Global, parts: &mut Parts<'_>) -> Result<String, Fault> {
    match parts.text()? {
        "rotation" => {
            let code = parts.number()?;
            text_of(alloc, rotation(code, parts.word()?))
        }
        "passes" => {
            let cond = parts.one_of(alloc, &CONDITIONS)?;
            let zero = parts.truth()?;
            text_of(alloc, passes(cond, zero, parts.truth()?))
        }
        "holds" => {
            let cond = parts.one_of(alloc, &BRANCH_CONDITIONS)?;
            let zero = flags(parts.text()?)?;
            text_of(alloc, holds(cond, &zero, &flags(parts.text()?)?))
        }
        name => {
            let word = word_given(alloc, name, parts)?;
            word_text(alloc, word)
        }
    }
}
