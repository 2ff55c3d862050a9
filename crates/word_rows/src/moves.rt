//! Moving one element.

ghost use Rattle.std.specs.Prelude.{◌≡◌, true, IfOk};
ghost use Rattle.vpm_words.specs.Elements.{is_element};

use crate::parts::{Fault, Parts};
use crate::queues::started;
use std::alloc::Global;
use vpm_words::{Element, load_element, store_element};

const MEMORY: [u8; 6] = [0xA0, 0xA1, 0xA2, 0xA3, 0xA4, 0xA5];

/// The VPM before: each word is 5, but for the last one.
fn vpm_before() -> [[u32; 16]; 64] {
    let mut vpm = [[5; 16]; 64];
    vpm[63][15] = 0x1122_3344;
    vpm
}

/// The one element of a transfer.
fn one_element(parts: &mut Parts<'_>) -> Result<Element, Fault>
    ensures { IfOk result (λ element. is_element element ≡ true) }
{
    let mut queue = started(parts)?;
    if queue.len() == 1 {
        Ok(queue.take(0))
    } else {
        Err(Fault::NoRow)
    }
}

/// The memory after an element was stored.
fn stored(alloc: Global, parts: &mut Parts<'_>) -> Result<String, Fault> {
    let element = one_element(parts)?;
    let mut memory = MEMORY;
    store_element(&element, &vpm_before(), &mut memory);
    Ok(hex::encode(alloc, &memory)?)
}

/// The last two words of the VPM after an element was loaded.
fn loaded(alloc: Global, parts: &mut Parts<'_>) -> Result<String, Fault> {
    let element = one_element(parts)?;
    let mut vpm = vpm_before();
    load_element(&element, &MEMORY, &mut vpm);
    let before = vpm[63][14];
    let last = vpm[63][15];
    Ok(format!(in alloc; "{before:08x} {last:08x}")?)
}

/// What moving an element leaves.
pub fn answer(alloc: Global, parts: &mut Parts<'_>) -> Result<String, Fault> {
    match parts.text()? {
        "store_element" => stored(alloc, parts),
        "load_element" => loaded(alloc, parts),
        _ => Err(Fault::NoRow),
    }
}
