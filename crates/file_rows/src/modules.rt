//! Rows of modules: their bytes in hex, and their parts as in `rows 3, kinds int pointer, words 0123456789abcdef`.

ghost use Rattle.std.specs.Prelude.{IfSome};
ghost use Rattle.vc4q_module.specs.ModuleBytes.{IsModule};

use crate::row_fault::RowFault;
use crate::spelling::{after, begin_item, halves, or_none, small_number};
use std::alloc::{AllocError, Global};
use vc4q_module::{Kind, ModFault, Module, Scalar, law_limits, read, write};

const MOST_ROWS: u32 = 262_144;

const MOST_KINDS: usize = 16;

const MOST_WORDS: usize = 16_777_216;

/// The sizes of the parts of a module's head.
const HEAD: [usize; 7] = [4, 4, 4, 4, 4, 16, 4];

fn kind_of(word: &str) -> Result<Kind, RowFault> {
    match word {
        "char" => Ok(Kind::Value(Scalar::Char)),
        "uchar" => Ok(Kind::Value(Scalar::Uchar)),
        "short" => Ok(Kind::Value(Scalar::Short)),
        "ushort" => Ok(Kind::Value(Scalar::Ushort)),
        "int" => Ok(Kind::Value(Scalar::Int)),
        "uint" => Ok(Kind::Value(Scalar::Uint)),
        "pointer" => Ok(Kind::Pointer),
        _ => Err(RowFault::NoRow),
    }
}

fn name_of(kind: Kind) -> &'static str {
    match kind {
        Kind::Value(Scalar::Char) => "char",
        Kind::Value(Scalar::Uchar) => "uchar",
        Kind::Value(Scalar::Short) => "short",
        Kind::Value(Scalar::Ushort) => "ushort",
        Kind::Value(Scalar::Int) => "int",
        Kind::Value(Scalar::Uint) => "uint",
        Kind::Pointer => "pointer",
    }
}

/// The kinds of a list, which may be `none`.
pub fn kinds_of(alloc: Global, list: &str) -> Result<Vec<Kind>, RowFault> {
    let mut kinds = Vec::new(alloc);
    if list == "none" {
        return Ok(kinds);
    }
    for word in list.split(' ') {
        kinds.push(kind_of(word)?)?;
    }
    Ok(kinds)
}

fn names_of(alloc: Global, kinds: &[Kind]) -> Result<String, AllocError> {
    let mut out = String::new(alloc);
    for kind in kinds {
        begin_item(&mut out, " ")?;
        out.push_str(name_of(*kind))?;
    }
    Ok(out)
}

fn bytes_of(alloc: Global, list: &str) -> Result<Vec<u8>, RowFault> {
    let mut bytes = Vec::new(alloc);
    for group in list.split(' ') {
        let part = hex::decode(alloc, group)?;
        bytes.extend_from_slice(&part)?;
    }
    Ok(bytes)
}

fn words_of(alloc: Global, list: &str) -> Result<Vec<u64>, RowFault> {
    let mut words = Vec::new(alloc);
    for group in list.split(' ') {
        let Ok(word) = u64::from_str_radix(group, 16) else {
            return Err(RowFault::NoRow);
        };
        words.push(word)?;
    }
    Ok(words)
}

fn digits_of(alloc: Global, words: &[u64]) -> Result<String, AllocError> {
    let mut out = String::new(alloc);
    for word in words {
        begin_item(&mut out, " ")?;
        write!(out, "{word:016x}")?;
    }
    Ok(out)
}

fn parts(alloc: Global, module: &Module) -> Result<String, AllocError> {
    law_limits(module);
    let rows = module.rows;
    let kinds = names_of(alloc, &module.kinds)?;
    let words = digits_of(alloc, &module.words)?;
    format!(in alloc; "rows {rows}, kinds {}, words {words}", or_none(&kinds))
}

/// The answer to `read BYTES`.
pub fn read_answer(alloc: Global, call: &str) -> Result<String, RowFault> {
    let bytes = bytes_of(alloc, after(call, "read")?)?;
    match read(alloc, &bytes) {
        Ok(module) => Ok(parts(alloc, &module)?),
        Err(ModFault::At(place)) => Ok(format!(in alloc; "place {place}")?),
        Err(ModFault::Memory) => Err(RowFault::Memory),
    }
}

/// The module of these parts, where they are within a module's limits.
fn within(rows: u32, kinds: Vec<Kind>, words: Vec<u64>) -> Option<Module>
    ensures { IfSome result IsModule }
{
    if rows > MOST_ROWS || kinds.len() > MOST_KINDS {
        return None;
    }
    if words.is_empty() || words.len() > MOST_WORDS {
        return None;
    }
    Some(Module { rows, kinds, words })
}

fn module_of(alloc: Global, text: &str) -> Result<Module, RowFault> {
    let (rows, rest) = halves(after(text, "rows")?, ", ")?;
    let (kinds, rest) = halves(after(rest, "kinds")?, ", ")?;
    let rows = small_number(rows)?;
    let kinds = kinds_of(alloc, kinds)?;
    let words = words_of(alloc, after(rest, "words")?)?;
    match within(rows, kinds, words) {
        Some(module) => Ok(module),
        None => Err(RowFault::NoRow),
    }
}

/// Appends the words, eight bytes each.
fn append_words(out: &mut String, alloc: Global, bytes: &[u8]) -> Result<(), AllocError> {
    for word in bytes.chunks(8) {
        begin_item(out, " ")?;
        out.push_str(hex::encode(alloc, word)?.as_str())?;
    }
    Ok(())
}

/// The hex digits of a module's bytes, with spaces between the parts of the head and the words.
fn grouped(alloc: Global, bytes: &[u8]) -> Result<String, AllocError> {
    let mut out = String::new(alloc);
    let mut rest = bytes;
    for size in HEAD {
        let (part, left) = rest.split_at(size.min(rest.len()));
        begin_item(&mut out, " ")?;
        out.push_str(hex::encode(alloc, part)?.as_str())?;
        rest = left;
    }
    append_words(&mut out, alloc, rest)?;
    Ok(out)
}

/// The answer to `write PARTS`.
pub fn write_answer(alloc: Global, call: &str) -> Result<String, RowFault> {
    let module = module_of(alloc, after(call, "write")?)?;
    let bytes = write(alloc, &module)?;
    Ok(grouped(alloc, &bytes)?)
}
