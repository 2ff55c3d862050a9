//! Setups and their words.

use crate::parts::{Fault, Parts};
use crate::texts::{option_text, word_text};
use std::alloc::Global;
use vpm_words::{Transfer, load_set, parse_read, parse_write, read_set, store_set, write_set};

/// A transfer in range, by its four numbers after their names.
pub fn transfer(parts: &mut Parts<'_>) -> Result<Transfer, Fault> {
    let mode = parts.named_number("mode")?;
    let len = parts.named_number("len")?;
    let row = parts.named_number("row")?;
    let col = parts.named_number("col")?;
    if (mode == 0 || (2 <= mode && mode <= 7))
        && 1 <= len
        && row < 64
        && len <= 16
        && col <= 16 - len
    {
        Ok(Transfer {
            mode,
            len,
            row,
            col,
        })
    } else {
        Err(Fault::NoRow)
    }
}

fn read_word(parts: &mut Parts<'_>) -> Result<u32, Fault> {
    let row = parts.named_number("row")?;
    let rows = parts.named_number("rows")?;
    if row < 64 && 1 <= rows && rows <= 16 {
        Ok(read_set(row, rows))
    } else {
        Err(Fault::NoRow)
    }
}

fn write_word(parts: &mut Parts<'_>) -> Result<u32, Fault> {
    let row = parts.named_number("row")?;
    if row < 64 {
        Ok(write_set(row))
    } else {
        Err(Fault::NoRow)
    }
}

/// The word of a setup, or the setup of a word.
pub fn answer(alloc: Global, parts: &mut Parts<'_>) -> Result<String, Fault> {
    let word = match parts.text()? {
        "parse_read" => return option_text(alloc, parse_read(parts.word()?)),
        "parse_write" => return option_text(alloc, parse_write(parts.word()?)),
        "read_set" => read_word(parts)?,
        "write_set" => write_word(parts)?,
        "load_set" => load_set(transfer(parts)?),
        "store_set" => store_set(transfer(parts)?),
        _ => return Err(Fault::NoRow),
    };
    word_text(alloc, word)
}
