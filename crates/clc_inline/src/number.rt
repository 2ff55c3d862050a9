//! Numbers of variables, and how deep a walk may go.

ghost use Rattle.std.specs.Prelude.{◌≡◌, ◌+◌, IfOk};
ghost use Rattle.clc_inline.specs.Inlining.{numbers as numbers_from};

use sqlite_items::Items;
use std::alloc::{AllocError, Global};

/// The greatest number of a variable.
const MOST: usize = 0xffff_ffff;

/// The sum; where it passes 32 bits, no memory could hold so many variables.
pub(crate) fn number(base: u32, var: u32) -> Result<u32, AllocError>
    ensures { IfOk result (λ n. n ≡ base + var) }
{
    match base.checked_add(var) {
        Some(number) => Ok(number),
        None => Err(AllocError),
    }
}

/// One level less.
pub(crate) fn deeper(room: u32) -> Result<u32, AllocError>
    ensures { IfOk result (λ r. r + 1 ≡ room) }
{
    match room.checked_sub(1) {
        Some(room) => Ok(room),
        None => Err(AllocError),
    }
}

/// A length as the number of the next variable.
pub(crate) fn next(length: usize) -> Result<u32, AllocError>
    ensures { IfOk result (λ n. n ≡ length) }
{
    if length > MOST {
        return Err(AllocError);
    }
    Ok(length as u32)
}

/// So many numbers from this one on.
#[tactic(auto, using(crate::proofs::Numbers::numbers_more, crate::proofs::Numbers::numbers_done, crate::proofs::Numbers::numbers_start))]
pub(crate) fn numbers(alloc: Global, from: u32, count: u32) -> Result<Items<u32>, AllocError>
    ensures { IfOk result (λ list. list ≡ numbers_from from count) }
{
    let mut list = Items::new(alloc);
    for i in 0..count {
        list.push(number(from, i)?)?;
    }
    Ok(list)
}
