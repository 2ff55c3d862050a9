//! The operations of one block.

ghost use Rattle.std.specs.Prelude.{◌≡◌, ◌<◌, ◌≤◌, OnOk};
ghost use Rattle.std.specs.Vec.{vec_len};

use crate::choose::{mate_of, next_place, said_alone};
use crate::item::{Item, item_of};
use crate::last::{Last, after, after_blanks, at_start, blank, blanks_before};
use phys_ir::{Pair, Pop};
use std::alloc::{AllocError, Global};
use tight_words::idles;

/// So many operations are looked at for the next word.
const WINDOW: usize = 10;

fn put(pairs: &mut Vec<Pair>, pair: Pair) -> Result<(), AllocError> {
    pairs.extend_from_slice(&[pair])
}

fn put_blanks(pairs: &mut Vec<Pair>, blanks: u8) -> Result<(), AllocError> {
    for _ in 0..blanks {
        put(pairs, blank())?;
    }
    Ok(())
}

// Takes the next word's operations out of the window.
fn emit(pairs: &mut Vec<Pair>, window: &mut Vec<Item>, last: &mut Last) -> Result<(), AllocError>
    requires { 0 < vec_len window.old }
    ensures { vec_len window.new < vec_len window.old }
{
    let place = next_place(window, last);
    let first = window.remove(place);
    let alone = said_alone(&first);
    let blanks = blanks_before(last, &alone.pair, &alone.form);
    let before = after_blanks(last, blanks);
    put_blanks(pairs, blanks)?;
    let said = match mate_of(window, &first, &before) {
        None => alone,
        Some(mate) => {
            window.remove(mate.place);
            mate.said
        }
    };
    *last = after(&before, &said.pair, said.form);
    put(pairs, said.pair)
}

fn emit_if_full(
    pairs: &mut Vec<Pair>,
    window: &mut Vec<Item>,
    last: &mut Last,
) -> Result<(), AllocError> {
    if WINDOW <= window.len() {
        emit(pairs, window, last)?;
    }
    Ok(())
}

fn put_in(window: &mut Vec<Item>, item: Item) -> Result<(), AllocError> {
    if idles(&item.form) {
        Ok(())
    } else {
        window.extend_from_slice(&[item])
    }
}

fn emit_rest(
    pairs: &mut Vec<Pair>,
    window: &mut Vec<Item>,
    last: &mut Last,
) -> Result<(), AllocError> {
    'words: while !window.is_empty() {
        emit(pairs, window, last)?;
    }
    Ok(())
}

/// The pairs that do these operations.
pub fn pairs_of(alloc: Global, ops: &[Pop]) -> Result<Vec<Pair>, AllocError> {
    let mut pairs = Vec::new(alloc);
    let mut window = Vec::new(alloc);
    let mut last = at_start();
    for pop in ops {
        emit_if_full(&mut pairs, &mut window, &mut last)?;
        put_in(&mut window, item_of(pop))?;
    }
    emit_rest(&mut pairs, &mut window, &mut last)?;
    Ok(pairs)
}
