//! What the words before leave to watch for.

use pair_words::form_of_pair;
use phys_ir::{PDst, PSrc, Pair, Pop};
use qpu_encode::Form;
use tight_words::clashes;

/// The word before, and how many words were done since the last read setup, up to 3.
#[derive(Clone, Copy)]
pub struct Last {
    pub form: Form,
    pub age: u8,
}

/// So many words have to lie between a read setup and a read of the VPM.
const READY: u8 = 3;

/// The pair of no operation.
pub fn blank() -> Pair {
    Pair {
        add: None,
        mul: None,
    }
}

/// What a block begins with: sections stand in one block, and so do a read setup and what it is for.
pub fn at_start() -> Last {
    Last {
        form: form_of_pair(&blank()),
        age: READY,
    }
}

fn older(age: u8, words: u8) -> u8 {
    age.saturating_add(words).min(READY)
}

/// After so many words that do nothing.
pub fn after_blanks(last: &Last, blanks: u8) -> Last {
    if blanks == 0 {
        *last
    } else {
        Last {
            form: form_of_pair(&blank()),
            age: older(last.age, blanks),
        }
    }
}

fn sets_up(part: &Option<Pop>) -> bool {
    match part {
        None => false,
        Some(pop) => matches!(pop.dst, PDst::ReadSet),
    }
}

/// After this pair and its word.
pub fn after(last: &Last, pair: &Pair, form: Form) -> Last {
    let age = if sets_up(&pair.add) || sets_up(&pair.mul) {
        0
    } else {
        older(last.age, 1)
    };
    Last { form, age }
}

fn takes_row(pop: &Pop) -> bool {
    matches!(pop.a, PSrc::Vpm) || matches!(pop.b, PSrc::Vpm)
}

fn part_takes_row(part: &Option<Pop>) -> bool {
    match part {
        None => false,
        Some(pop) => takes_row(pop),
    }
}

/// A row of the VPM is read.
pub fn reads_row(pair: &Pair) -> bool {
    part_takes_row(&pair.add) || part_takes_row(&pair.mul)
}

/// How many words that do nothing have to stand before this one.
pub fn blanks_before(last: &Last, pair: &Pair, form: &Form) -> u8 {
    if reads_row(pair) && last.age < READY {
        READY - last.age
    } else if clashes(&Some(last.form), &Some(*form)) {
        1
    } else {
        0
    }
}
