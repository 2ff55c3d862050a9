//! The words of all blocks, one block after the other.

use crate::leads::{Way, number_of};
use crate::pieces::Piece;
use crate::words::{blank, put};
use qpu_encode::{BraCond, Form, Head};
use std::alloc::{AllocError, Global};

const SLOTS: u32 = 3;

fn sum(x: u32, y: u32) -> Result<u32, AllocError> {
    match x.checked_add(y) {
        Some(total) => Ok(total),
        None => Err(AllocError),
    }
}

// The words that stand before the exit.
fn body_size(piece: &Piece) -> Result<u32, AllocError> {
    let all = number_of(piece.forms.len())?;
    Ok(all.saturating_sub(piece.fill))
}

fn exit_size(piece: &Piece) -> u32 {
    match piece.way {
        Way::Through => { if piece.pad { 1 } else { 0 } }
        Way::Always(_) => 4,
        Way::When { .. } => 4,
        Way::Both { .. } => 8,
        Way::End => 3,
    }
}

fn size_of(piece: &Piece) -> Result<u32, AllocError> {
    sum(body_size(piece)?, exit_size(piece))
}

fn put_number(numbers: &mut Vec<u32>, number: u32) -> Result<(), AllocError> {
    numbers.push(number)?;
    Ok(())
}

/// The places where the blocks begin.
fn starts_of(alloc: Global, pieces: &[Piece]) -> Result<Vec<u32>, AllocError> {
    let mut starts = Vec::new(alloc);
    let mut next: u32 = 0;
    for piece in pieces {
        put_number(&mut starts, next)?;
        next = sum(next, size_of(piece)?)?;
    }
    Ok(starts)
}

fn start_of(starts: &[u32], block: u32) -> Result<u32, AllocError> {
    match starts.get(block as usize) {
        None => Err(AllocError),
        Some(start) => Ok(*start),
    }
}

/// How far a branch at a place goes to another: it counts from the word after its slots.
fn distance(place: u32, target: u32) -> Result<i32, AllocError> {
    let words = i64::from(target) - i64::from(place) - 4;
    match i32::try_from(words) {
        Ok(words) => Ok(words),
        Err(_) => Err(AllocError),
    }
}

fn put_branch(
    words: &mut Vec<u64>,
    cond: BraCond,
    place: u32,
    target: u32,
) -> Result<(), AllocError> {
    let words_on = distance(place, target)?;
    put(
        words,
        Form::Bra {
            cond,
            words: words_on,
        },
    )
}

fn put_forms(words: &mut Vec<u64>, forms: &[Form]) -> Result<(), AllocError> {
    for form in forms {
        put(words, *form)?;
    }
    Ok(())
}

fn put_blanks(words: &mut Vec<u64>, many: u32) -> Result<(), AllocError> {
    for _ in 0..many {
        put(words, blank(Head::Plain))?;
    }
    Ok(())
}

// The words in the slots of a branch.
fn put_slots(words: &mut Vec<u64>, forms: &[Form]) -> Result<(), AllocError> {
    put_forms(words, forms)?;
    let filled = number_of(forms.len())?;
    put_blanks(words, SLOTS.saturating_sub(filled))
}

fn put_end(words: &mut Vec<u64>) -> Result<(), AllocError> {
    put(words, blank(Head::End))?;
    put_blanks(words, 2)
}

fn put_pad(words: &mut Vec<u64>, pad: bool) -> Result<(), AllocError> {
    if pad { put_blanks(words, 1) } else { Ok(()) }
}

// The exit at a place, with these words in the slots of its first branch.
fn put_exit(
    words: &mut Vec<u64>,
    starts: &[u32],
    place: u32,
    piece: &Piece,
    slots: &[Form],
) -> Result<(), AllocError> {
    match piece.way {
        Way::Through => put_pad(words, piece.pad),
        Way::Always(block) => {
            put_branch(words, BraCond::Always, place, start_of(starts, block)?)?;
            put_slots(words, slots)
        }
        Way::When { cond, yes } => {
            put_branch(words, cond, place, start_of(starts, yes)?)?;
            put_slots(words, slots)
        }
        Way::Both { cond, yes, no } => {
            put_branch(words, cond, place, start_of(starts, yes)?)?;
            put_slots(words, slots)?;
            put_branch(
                words,
                BraCond::Always,
                sum(place, 4)?,
                start_of(starts, no)?,
            )?;
            put_blanks(words, SLOTS)
        }
        Way::End => put_end(words),
    }
}

fn put_piece(words: &mut Vec<u64>, starts: &[u32], piece: &Piece) -> Result<(), AllocError> {
    let split = piece.forms.len().saturating_sub(piece.fill as usize);
    let forms = piece.forms.as_slice();
    put_forms(words, &forms[..split])?;
    let place = number_of(words.len())?;
    put_exit(words, starts, place, piece, &forms[split..])
}

/// The words of all blocks.
pub fn words_of(alloc: Global, pieces: &[Piece]) -> Result<Vec<u64>, AllocError> {
    let starts = starts_of(alloc, pieces)?;
    let mut words = Vec::new(alloc);
    for piece in pieces {
        put_piece(&mut words, &starts, piece)?;
    }
    Ok(words)
}
