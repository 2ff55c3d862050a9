//! Rows of the order of names, as `compare a b`.

use crate::row_fault::RowFault;
use crate::spelling::{after, bytes_of, halves};
use q_io::Text;
use std::alloc::Global;
use std::cmp::Ordering;

/// The name with the bytes of a word.
pub fn name_of(alloc: Global, word: &str) -> Result<Text, RowFault> {
    Ok(Text::new(bytes_of(alloc, word)?))
}

/// `==`, `partial_cmp` and `cmp` tell the same order.
fn order(one: &Text, other: &Text) -> Option<Ordering> {
    let order = one.cmp(other);
    let is_told = one.partial_cmp(other) == Some(order);
    let is_same = (*one == *other) == (order == Ordering::Equal);
    if is_told && is_same {
        Some(order)
    } else {
        None
    }
}

/// The answer to `compare NAME NAME`.
pub fn answer(alloc: Global, call: &str) -> Result<String, RowFault> {
    let (one, other) = halves(after(call, "compare")?, " ")?;
    let one = name_of(alloc, one)?;
    let other = name_of(alloc, other)?;
    let text = match order(&one, &other) {
        Some(Ordering::Less) => "less",
        Some(Ordering::Equal) => "equal",
        Some(Ordering::Greater) => "greater",
        None => "two orders",
    };
    Ok(String::from_str(alloc, text)?)
}
