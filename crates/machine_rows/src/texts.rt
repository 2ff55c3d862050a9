//! Numbers and lists in the text of a row.

use std::alloc::{AllocError, Global};

/// A word in decimal, or after `0x` in hexadecimal.
pub fn word(text: &str) -> Option<u32> {
    match text.strip_prefix("0x") {
        Some(digits) => u32::from_str_radix(digits, 16).ok(),
        None => text.parse::<u32>().ok(),
    }
}

/// An instruction word, of sixteen hexadecimal digits.
pub fn instruction(text: &str) -> Option<u64> {
    if text.len() == 16 {
        u64::from_str_radix(text, 16).ok()
    } else {
        None
    }
}

/// Words between spaces.
pub fn words(alloc: Global, text: &str) -> Result<Option<Vec<u32>>, AllocError> {
    let mut all = Vec::new(alloc);
    for part in text.split(' ') {
        let Some(value) = word(part) else {
            return Ok(None);
        };
        all.push(value)?;
    }
    Ok(Some(all))
}

/// Bytes, of two hexadecimal digits each.
pub fn bytes(alloc: Global, text: &str) -> Option<Vec<u8>> {
    hex::decode(alloc, text).ok()
}
