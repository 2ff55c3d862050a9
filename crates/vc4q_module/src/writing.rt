//! Writing a module.

ghost use Rattle.std.specs.Prelude.{◌≡◌, ◌≤◌, ◌-◌, List, length, map, replicate, ◌++◌, IfOk, OnOk};
ghost use Rattle.std.specs.List.{flat_map};
ghost use Rattle.vc4q_module.specs.ModuleBytes.{module_bytes, le32, le64, kind_byte as byte_of_kind, kind_bytes};

use crate::fault::{HEADER_BYTES, LETTERS, MOST_KINDS, NO_KIND, WORD_BYTES};
use crate::module::{Memory, Module};
use byteorder::{ByteOrder, LittleEndian};
use q_lane::{Kind, Scalar};
use std::alloc::Global;

fn kind_byte(kind: Kind) -> u8
    ensures { result ≡ byte_of_kind kind }
{
    match kind {
        Kind::Value(Scalar::Char) => 0,
        Kind::Value(Scalar::Uchar) => 1,
        Kind::Value(Scalar::Short) => 2,
        Kind::Value(Scalar::Ushort) => 3,
        Kind::Value(Scalar::Int) => 4,
        Kind::Value(Scalar::Uint) => 5,
        Kind::Pointer => 6,
    }
}

fn put_number(out: &mut Vec<u8>, number: u32) -> Result<(), Memory>
    ensures { OnOk result (out.new.items ≡ out.old.items ++ le32 number) }
{
    let mut bytes = [0; 4];
    LittleEndian::write_u32(&mut bytes, number);
    out.extend_from_slice(&bytes)
}

fn put_word(out: &mut Vec<u8>, word: u64) -> Result<(), Memory>
    ensures { OnOk result (out.new.items ≡ out.old.items ++ le64 word) }
{
    let mut bytes = [0; WORD_BYTES];
    LittleEndian::write_u64(&mut bytes, word);
    out.extend_from_slice(&bytes)
}

/// 255 in each kind byte from this one on.
fn put_no_kinds(out: &mut Vec<u8>, from: usize) -> Result<(), Memory>
    requires { from ≤ 16 }
    ensures { OnOk result (out.new.items ≡ out.old.items ++ replicate (16 - from) 255) }
{
    let none = [NO_KIND; MOST_KINDS];
    let rest = &none[from..];
    out.extend_from_slice(rest)
}

fn put_kinds(out: &mut Vec<u8>, kinds: &[Kind]) -> Result<(), Memory>
    requires { length kinds.now ≤ 16 }
    ensures { OnOk result (out.new.items ≡ out.old.items ++ kind_bytes kinds.now) }
{
    for kind in kinds {
        out.push(kind_byte(*kind))?;
    }
    put_no_kinds(out, kinds.len())
}

fn put_words(out: &mut Vec<u8>, words: &[u64]) -> Result<(), Memory>
    ensures { OnOk result (out.new.items ≡ out.old.items ++ flat_map le64 words.now) }
{
    for word in words {
        put_word(out, *word)?;
    }
    Ok(())
}

/// The bytes of a module.
#[tactic(auto, unfolding(crate::specs::ModuleBytes::module_bytes))]
pub fn write(alloc: Global, module: &Module) -> Result<Vec<u8>, Memory>
    ensures { IfOk result (λ out. out.items ≡ module_bytes «module».now) }
{
    let mut out = Vec::with_capacity(alloc, HEADER_BYTES + WORD_BYTES * module.words.len())?;
    out.extend_from_slice(&LETTERS)?;
    put_number(&mut out, 1)?;
    put_number(&mut out, module.rows)?;
    put_number(&mut out, module.words.len() as u32)?;
    put_number(&mut out, module.kinds.len() as u32)?;
    put_kinds(&mut out, &module.kinds)?;
    put_number(&mut out, 0)?;
    put_words(&mut out, &module.words)?;
    Ok(out)
}
