//! The elements that an engine has left.

use crate::parts::{Fault, Parts};
use crate::setups::transfer;
use crate::texts::{Listing, text_of};
use std::alloc::Global;
use vpm_words::{Element, Queue, Transfer};

/// The most elements of a transfer.
const MOST: u32 = 16;

fn element_text(alloc: Global, element: &Element) -> Result<String, Fault> {
    let Element {
        address,
        size,
        row,
        col,
        low,
    } = *element;
    Ok(format!(in alloc; "{address} size {size} row {row} col {col} low {low}")?)
}

/// The elements of a queue, in their order. They are taken out.
pub fn elements_text(alloc: Global, queue: &mut Queue) -> Result<String, Fault> {
    let mut listing = Listing::new(alloc);
    for _ in 0..MOST {
        if queue.len() == 0 {
            break;
        }
        let text = element_text(alloc, &queue.take(0))?;
        listing.add(text.as_str())?;
    }
    listing.finish()
}

/// What an engine has left after a transfer is started at an address, or where none is.
pub fn started(parts: &mut Parts<'_>) -> Result<Queue, Fault> {
    let mut queue = Queue::new();
    if !parts.is_empty() {
        let moved = transfer(parts)?;
        parts.skip("at")?;
        queue.start(parts.address()?, moved);
    }
    Ok(queue)
}

fn taken(alloc: Global, mut queue: Queue, index: u32) -> Result<String, Fault> {
    if index < queue.len() {
        element_text(alloc, &queue.take(index))
    } else {
        Err(Fault::NoRow)
    }
}

// An element of an earlier transfer is left before.
fn started_if_set(alloc: Global, parts: &mut Parts<'_>) -> Result<String, Fault> {
    let mut queue = Queue::new();
    queue.start(
        0,
        Transfer {
            mode: 0,
            len: 1,
            row: 0,
            col: 0,
        },
    );
    let setup = if parts.starts_with("none ") {
        parts.skip("none")?;
        None
    } else {
        Some(transfer(parts)?)
    };
    parts.skip("at")?;
    queue.start_if_set(parts.address()?, setup);
    elements_text(alloc, &mut queue)
}

/// What is left, or what is said of it.
pub fn answer(alloc: Global, parts: &mut Parts<'_>) -> Result<String, Fault> {
    match parts.text()? {
        "new" => elements_text(alloc, &mut Queue::new()),
        "start" => elements_text(alloc, &mut started(parts)?),
        "start_if_set" => started_if_set(alloc, parts),
        "len" => text_of(alloc, started(parts)?.len()),
        "is_empty" => text_of(alloc, started(parts)?.is_empty()),
        "touches" => {
            let row = parts.number()?;
            text_of(alloc, started(parts)?.touches(row))
        }
        "take" => {
            let index = parts.number()?;
            taken(alloc, started(parts)?, u32::from(index))
        }
        _ => Err(Fault::NoRow),
    }
}
