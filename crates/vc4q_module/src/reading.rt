//! Reading a module.

ghost use Rattle.std.specs.Prelude.{◌≡◌, ◌≢◌, ◌≤◌, ◌<◌, ◌+◌, ◌*◌, ◌^◌, ℕ, List, length, drop, map, Some, None, Err, IfOk};
ghost use Rattle.byteorder.specs.Endian.{little_number};
ghost use Rattle.vc4q_module.specs.ModuleBytes.{ModuleOf, IsModule, module_bytes, first_fault as first_fault_of, kind_of as kind_of_byte, words_in, number_at, module_in};

use crate::fault::{FIRST_KIND, HEADER_BYTES, ModFault, WORD_BYTES, first_fault, number_from};
use crate::module::{Memory, Module};
use byteorder::{ByteOrder, LittleEndian};
use q_lane::{Kind, Scalar};
use std::alloc::Global;

fn kind_of(byte: u8) -> Kind
    ensures { result ≡ kind_of_byte byte }
{
    match byte {
        0 => Kind::Value(Scalar::Char),
        1 => Kind::Value(Scalar::Uchar),
        2 => Kind::Value(Scalar::Short),
        3 => Kind::Value(Scalar::Ushort),
        4 => Kind::Value(Scalar::Int),
        5 => Kind::Value(Scalar::Uint),
        _ => Kind::Pointer,
    }
}

fn read_kinds(alloc: Global, bytes: &[u8]) -> Result<Vec<Kind>, Memory>
    ensures { IfOk result (λ kinds. kinds.items ≡ map kind_of_byte bytes.now) }
{
    let mut kinds = Vec::with_capacity(alloc, bytes.len())?;
    for byte in bytes {
        kinds.push(kind_of(*byte))?;
    }
    Ok(kinds)
}

/// The word whose eight bytes are the i-th eight.
fn word_at(bytes: &[u8], i: usize) -> u64
    requires { 8 * i + 8 ≤ length bytes.now }
    ensures { result ≡ little_number 8 (drop (8 * i) bytes.now) }
{
    LittleEndian::read_u64(&bytes[WORD_BYTES * i..])
}

/// The first `count` words.
#[tactic(auto, unfolding(crate::specs::ModuleBytes::words_in))]
fn read_words(alloc: Global, bytes: &[u8], count: usize) -> Result<Vec<u64>, Memory>
    requires { length bytes.now ≡ 8 * count }
    ensures { IfOk result (λ words. words.items ≡ words_in count bytes.now) }
{
    let mut words = Vec::with_capacity(alloc, count)?;
    for i in 0..count {
        words.push(word_at(bytes, i))?;
    }
    Ok(words)
}

/// What stands at each place.
fn read_parts(alloc: Global, bytes: &[u8]) -> Result<Module, Memory>
    requires long { 40 ≤ length bytes.now }
    requires parameters { number_at 16 bytes.now ≤ 16 }
    requires exact { length bytes.now ≡ 40 + 8 * number_at 12 bytes.now }
    requires limits { IsModule (module_in bytes.now) }
    ensures { IfOk result (λ m. m ≡ module_in bytes.now) }
{
    let parameters = number_from(bytes, 16) as usize;
    let count = number_from(bytes, 12) as usize;
    let kind_bytes = &bytes[FIRST_KIND..FIRST_KIND + parameters];
    let code = &bytes[HEADER_BYTES..];
    Ok(Module {
        rows: number_from(bytes, 8),
        kinds: read_kinds(alloc, kind_bytes)?,
        words: read_words(alloc, code, count)?,
    })
}

/// The module that has these bytes.
pub fn read(alloc: Global, bytes: &[u8]) -> Result<Module, ModFault>

    // It is the one module with these bytes, and is within the limits.
    ensures spelling { IfOk result (λ m. bytes.now ≡ module_bytes m) }
    ensures limits { IfOk result IsModule }
    ensures none { IfOk result (λ m. first_fault_of bytes.now ≡ None) }

    // A place is that of the first failing test, and there is one exactly where a test fails.
    ensures place { (p : ℕ) → result ≡ Err (ModFault.At p) → first_fault_of bytes.now ≡ Some p }
    ensures refused { (p : ℕ) → first_fault_of bytes.now ≡ Some p → result ≡ Err (ModFault.At p) }

    // Then the bytes are no module's.
    ensures no_spelling { (p : ℕ) → result ≡ Err (ModFault.At p) → (m : ModuleOf) → IsModule m → bytes.now ≢ module_bytes m }

    // Memory lacks only for a module.
    ensures memory { result ≡ Err ModFault.Memory → first_fault_of bytes.now ≡ None }
{
    if let Some(place) = first_fault(bytes) {
        return Err(ModFault::At(place));
    }
    match read_parts(alloc, bytes) {
        Ok(module) => Ok(module),
        Err(_) => Err(ModFault::Memory),
    }
}
