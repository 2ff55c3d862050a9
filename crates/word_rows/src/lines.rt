//! Lines of a listing.

use crate::parts::{Fault, Parts};
use qpu_disasm::line;
use std::alloc::Global;

/// The line of a word.
pub fn answer(alloc: Global, parts: &mut Parts<'_>) -> Result<String, Fault> {
    let listing = line(parts.long_word()?);
    Ok(String::from_utf8_lossy(alloc, &listing.bytes)?)
}
