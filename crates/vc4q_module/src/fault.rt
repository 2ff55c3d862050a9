//! The first place where bytes aren't those of a module.

ghost use Rattle.std.specs.Prelude.{◌≡◌, ◌≤◌, ◌<◌, ◌+◌, ◌^◌, List, length, take, drop};
ghost use Rattle.vc4q_module.specs.ModuleBytes.{number_at, is_kind_byte, kind_fault as kind_fault_of, first_fault as first_fault_of};

use byteorder::{ByteOrder, LittleEndian};
use thiserror::Error;

/// Why a module is not read.
#[derive(Clone, Copy, Debug, PartialEq, Eq, Error)]
pub enum ModFault {
    /// The bytes are no module's. The first failing test has this place.
    #[error("place")]
    At(u32),
    /// There was no memory for the module.
    #[error("memory")]
    Memory,
}

pub(crate) const HEADER_BYTES: usize = 40;

pub(crate) const WORD_BYTES: usize = 8;

pub(crate) const LETTERS: [u8; 4] = *b"VC4Q";

pub(crate) const FIRST_KIND: usize = 20;

pub(crate) const MOST_KINDS: usize = 16;

/// The kind byte of a parameter that isn't there.
pub(crate) const NO_KIND: u8 = 255;

const MOST_ROWS: u32 = 262_144;

const MOST_WORDS: u32 = 1 << 24;

/// The number in the four bytes from a place.
#[tactic(auto, unfolding(crate::specs::ModuleBytes::number_at))]
pub(crate) fn number_from(bytes: &[u8], place: usize) -> u32
    requires { place + 4 ≤ length bytes.now }
    ensures { result ≡ number_at place bytes.now }
{
    LittleEndian::read_u32(&bytes[place..])
}

/// A kind byte is right where so many parameters are still to come.
fn is_kind(left: u32, byte: u8) -> bool
    ensures { result ≡ is_kind_byte left byte }
{
    if left == 0 { byte == NO_KIND } else { byte < 7 }
}

/// The place of the first wrong kind byte.
#[tactic(auto, unfolding(crate::specs::ModuleBytes::kind_fault))]
fn kind_fault(kinds: &[u8], count: u32) -> Option<u32>
    requires { length kinds.now ≤ 16 }
    ensures { result ≡ kind_fault_of count 20 kinds.now }
{
    let mut left = count;
    let mut place = FIRST_KIND as u32;
    for byte in kinds {
        if !is_kind(left, *byte) {
            return Some(place);
        }
        left = left.saturating_sub(1);
        place += 1;
    }
    None
}

/// The place of the first failing test.
#[tactic(auto, unfolding(crate::specs::ModuleBytes::first_fault))]
pub(crate) fn first_fault(bytes: &[u8]) -> Option<u32>
    ensures { result ≡ first_fault_of bytes.now }
{
    if bytes.len() < HEADER_BYTES {
        return Some(bytes.len() as u32);
    }
    if bytes[..4] != LETTERS[..] {
        return Some(0);
    }
    if number_from(bytes, 4) != 1 {
        return Some(4);
    }
    if number_from(bytes, 8) > MOST_ROWS {
        return Some(8);
    }
    let words = number_from(bytes, 12);
    if words == 0 || words > MOST_WORDS {
        return Some(12);
    }
    let parameters = number_from(bytes, 16);
    if parameters > MOST_KINDS as u32 {
        return Some(16);
    }
    if let Some(place) = kind_fault(&bytes[FIRST_KIND..FIRST_KIND + MOST_KINDS], parameters) {
        return Some(place);
    }
    if number_from(bytes, 36) != 0 {
        return Some(36);
    }
    let due = HEADER_BYTES + WORD_BYTES * words as usize;
    if bytes.len() != due {
        return Some(bytes.len().min(due) as u32);
    }
    None
}
