//! Moving one element between the memory and the VPM.

ghost use Rattle.std.specs.Prelude.{◌≡◌, ◌<◌, ◌≤◌, ◌+◌, ◌*◌, ◌^◌, true, get_or, slice_set};
ghost use Rattle.vpm_words.specs.Elements.{is_element};
ghost use Rattle.vpm_words.specs.Moves as moves;
ghost use Rattle.vpm_words.specs.Moves.{part_of, with_part, number_at, bytes_of, put_bytes, cell, with_cell};

use crate::state::Element;

fn byte_at(memory: &[u8], at: u64) -> u32
    ensures value { result ≡ get_or memory.now at 0 }
    ensures small { result < 256 }
{
    match memory.get(at as usize) {
        Some(byte) => u32::from(*byte),
        None => 0,
    }
}

// The number in so many bytes, the lowest first.
fn read_number(memory: &[u8], at: u64, size: u8) -> u32
    requires size { size ≤ 4 }
    requires room { at < 2 ^ 33 }
    ensures value { result ≡ number_at size memory.now at }
    ensures small { result < 2 ^ (8 * size) }
{
    match size {
        0 => 0,
        1 => byte_at(memory, at),
        2 => byte_at(memory, at) + 0x100 * byte_at(memory, at + 1),
        3 => {
            byte_at(memory, at)
                + 0x100 * (byte_at(memory, at + 1) + 0x100 * byte_at(memory, at + 2))
        }
        _ => {
            byte_at(memory, at)
                + 0x100
                    * (byte_at(memory, at + 1)
                        + 0x100 * (byte_at(memory, at + 2) + 0x100 * byte_at(memory, at + 3)))
        }
    }
}

// A byte past the end of the memory is dropped.
fn put_byte(memory: &mut [u8], at: u64, byte: u8)
    ensures { memory.new ≡ slice_set memory.old at byte }
{
    let place = at as usize;
    if place < memory.len() {
        memory[place] = byte;
    }
}

fn write_number(memory: &mut [u8], at: u64, size: u8, value: u32)
    requires size { size ≤ 4 }
    requires room { at < 2 ^ 33 }
    ensures { memory.new ≡ put_bytes memory.old at (bytes_of size value) }
{
    let mut rest = value;
    for j in 0..size {
        put_byte(memory, at + u64::from(j), (rest % 0x100) as u8);
        rest /= 0x100;
    }
}

fn take_part(low: u8, size: u8, word: u32) -> u32
    requires { low + 8 * size ≤ 32 }
    ensures { result ≡ part_of low size word }
{
    match size {
        0 => 0,
        1 => (word >> low) % 0x100,
        2 => (word >> low) % 0x1_0000,
        3 => (word >> low) % 0x100_0000,
        _ => word,
    }
}

fn put_part(low: u8, size: u8, word: u32, part: u32) -> u32
    requires within { low + 8 * size ≤ 32 }
    requires small { part < 2 ^ (8 * size) }
    ensures { result ≡ with_part low size word part }
{
    if size == 4 {
        return part;
    }
    let end = low + 8 * size;
    let word = u64::from(word);
    let below = word % (1 << low);
    let above = (word >> end) << end;
    (below + (u64::from(part) << low) + above) as u32
}

/// Moves an element from the memory into the VPM. A byte outside the memory is read as 0.
#[tactic(auto, unfolding(crate::specs::Moves::load_element, crate::specs::Elements::is_element))]
pub fn load_element(element: &Element, memory: &[u8], vpm: &mut [[u32; 16]; 64])
    requires { is_element element.now ≡ true }
    ensures { vpm.new ≡ moves.load_element element.now memory.now vpm.old }
{
    let Element {
        address,
        size,
        row,
        col,
        low,
    } = *element;
    let part = read_number(memory, address, size);
    let word = &mut vpm[usize::from(row)][usize::from(col)];
    *word = put_part(low, size, *word, part);
}

/// Moves an element from the VPM into the memory. A byte outside the memory isn't written.
#[tactic(auto, unfolding(crate::specs::Moves::store_element, crate::specs::Moves::bytes_out, crate::specs::Elements::is_element))]
pub fn store_element(element: &Element, vpm: &[[u32; 16]; 64], memory: &mut [u8])
    requires { is_element element.now ≡ true }
    ensures { memory.new ≡ moves.store_element element.now vpm.now memory.old }
{
    let Element {
        address,
        size,
        row,
        col,
        low,
    } = *element;
    let part = take_part(low, size, vpm[usize::from(row)][usize::from(col)]);
    write_number(memory, address, size, part);
}
