//! Bytes as words of a row: `\n` stands for byte 10, and `\xHH` for the byte with these hex digits.

use crate::row_fault::RowFault;
use hex::FromHex;
use std::alloc::{AllocError, Global};

/// The longest ramp that a row asks for.
const MOST_RAMP: usize = 65_536;

/// The part after a name and a space.
pub fn after<'a>(text: &'a str, name: &str) -> Result<&'a str, RowFault> {
    match text.split_once(' ') {
        Some((first, rest)) if first == name => Ok(rest),
        _ => Err(RowFault::NoRow),
    }
}

/// The parts before and after a separator.
pub fn halves<'a>(text: &'a str, between: &str) -> Result<(&'a str, &'a str), RowFault> {
    text.split_once(between).ok_or(RowFault::NoRow)
}

pub fn number(word: &str) -> Result<u64, RowFault> {
    word.parse().ok().ok_or(RowFault::NoRow)
}

pub fn small_number(word: &str) -> Result<u32, RowFault> {
    word.parse().ok().ok_or(RowFault::NoRow)
}

fn append_escape(bytes: &mut Vec<u8>, piece: &[u8]) -> Result<(), RowFault> {
    match piece {
        [b'n', rest @ ..] => {
            bytes.push(b'\n')?;
            bytes.extend_from_slice(rest)?;
            Ok(())
        }
        [b'x', high, low, rest @ ..] => {
            let [byte] = <[u8; 1] as FromHex>::from_hex([*high, *low])?;
            bytes.push(byte)?;
            bytes.extend_from_slice(rest)?;
            Ok(())
        }
        _ => Err(RowFault::NoRow),
    }
}

/// The bytes of a text with escapes.
pub fn unescaped(alloc: Global, text: &str) -> Result<Vec<u8>, RowFault> {
    let mut bytes = Vec::new(alloc);
    let mut is_first = true;
    for piece in text.split('\\') {
        if is_first {
            bytes.extend_from_slice(piece.as_bytes())?;
        } else {
            append_escape(&mut bytes, piece.as_bytes())?;
        }
        is_first = false;
    }
    Ok(bytes)
}

/// The bytes 0 to 250 again and again, so that a byte that is lost or moved shows.
fn ramp(alloc: Global, len: usize) -> Result<Vec<u8>, AllocError> {
    let mut bytes = Vec::new(alloc);
    for i in 0..len {
        bytes.push((i % 251) as u8)?;
    }
    Ok(bytes)
}

/// The bytes of a word: `empty` has none, and `ramp:N` has N that count up.
pub fn bytes_of(alloc: Global, word: &str) -> Result<Vec<u8>, RowFault> {
    if word == "empty" {
        return Ok(Vec::new(alloc));
    }
    let Some(len) = word.strip_prefix("ramp:") else {
        return unescaped(alloc, word);
    };
    let len = number(len)? as usize;
    if len > MOST_RAMP {
        return Err(RowFault::NoRow);
    }
    Ok(ramp(alloc, len)?)
}

fn push_escaped(out: &mut String, byte: u8) -> Result<(), AllocError> {
    match byte {
        b'\n' => out.push_str("\\n"),
        33..=91 | 93..=126 => {
            out.push(char::from(byte))?;
            Ok(())
        }
        _ => write!(out, "\\x{byte:02x}"),
    }
}

/// The word with these bytes.
pub fn escaped(alloc: Global, bytes: &[u8]) -> Result<String, AllocError> {
    let mut out = String::new(alloc);
    for byte in bytes {
        push_escaped(&mut out, *byte)?;
    }
    Ok(out)
}

fn is_ramp(bytes: &[u8]) -> bool {
    let mut wanted = 0u8;
    for byte in bytes {
        if *byte != wanted {
            return false;
        }
        wanted = if wanted == 250 {
            0
        } else {
            wanted.wrapping_add(1)
        };
    }
    true
}

/// As `escaped`, with `empty` for no bytes and `ramp:N` for N that count up.
pub fn spelled(alloc: Global, bytes: &[u8]) -> Result<String, AllocError> {
    if bytes.is_empty() {
        return String::from_str(alloc, "empty");
    }
    if is_ramp(bytes) {
        return format!(in alloc; "ramp:{}", bytes.len());
    }
    escaped(alloc, bytes)
}

/// Begins the next item of a list.
pub fn begin_item(out: &mut String, between: &str) -> Result<(), AllocError> {
    if out.is_empty() {
        return Ok(());
    }
    out.push_str(between)
}

/// A list of numbers, with a space between two.
pub fn numbers(alloc: Global, numbers: &[u32]) -> Result<String, AllocError> {
    let mut out = String::new(alloc);
    for number in numbers {
        begin_item(&mut out, " ")?;
        write!(out, "{number}")?;
    }
    Ok(out)
}

/// The list, or `none` where it has nothing.
pub fn or_none(list: &String) -> &str {
    if list.is_empty() {
        "none"
    } else {
        list.as_str()
    }
}
