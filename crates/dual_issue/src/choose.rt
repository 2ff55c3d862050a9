//! Which operation comes next, and which goes with it.

ghost use Rattle.std.specs.Prelude.{◌<◌, length, IfSome};

use crate::item::{Item, alone, pair_on_units, passes};
use crate::last::{Last, blanks_before};
use pair_words::form_of_pair;
use phys_ir::Pair;
use qpu_encode::Form;
use tight_words::free;

/// A pair with its word.
#[derive(Clone, Copy)]
pub struct Said {
    pub pair: Pair,
    pub form: Form,
}

/// What stands at a place of the window makes this pair.
#[derive(Clone, Copy)]
pub struct Mate {
    pub place: usize,
    pub said: Said,
}

// The one may be done before all these.
fn passes_all(earlier: &[Item], item: &Item) -> bool {
    for other in earlier {
        if !passes(other, item) {
            return false;
        }
    }
    true
}

/// The word of an operation alone.
pub fn said_alone(item: &Item) -> Said {
    Said {
        pair: alone(&item.pop),
        form: item.form,
    }
}

// The operation may come next, with no word before it that does nothing.
fn may_be_next(window: &[Item], place: usize, last: &Last) -> bool {
    if place < window.len() {
        let said = said_alone(&window[place]);
        blanks_before(last, &said.pair, &said.form) == 0
            && passes_all(&window[..place], &window[place])
    } else {
        false
    }
}

/// The place of the operation that comes next: the first that needs no wait, or else the first of all.
pub fn next_place(window: &[Item], last: &Last) -> usize
    ensures { 0 < length window.now → result < length window.now }
{
    for place in 0..window.len() {
        if may_be_next(window, place, last) {
            return place;
        }
    }
    0
}

// The pair, where no wait is needed before it.
fn ready(last: &Last, pair: Option<Pair>) -> Option<Said> {
    let pair = pair?;
    let form = form_of_pair(&pair);
    if blanks_before(last, &pair, &form) == 0 {
        Some(Said { pair, form })
    } else {
        None
    }
}

// Both in one word, the one that comes first on either unit.
fn together(last: &Last, first: &Item, second: &Item) -> Option<Said> {
    if !free(&first.form, &second.form) {
        return None;
    }
    match ready(last, pair_on_units(&first.pop, &second.pop)) {
        Some(said) => Some(said),
        None => ready(last, pair_on_units(&second.pop, &first.pop)),
    }
}

fn mate_at(window: &[Item], place: usize, first: &Item, last: &Last) -> Option<Said> {
    if place < window.len() && passes_all(&window[..place], &window[place]) {
        together(last, first, &window[place])
    } else {
        None
    }
}

/// The first operation that goes into one word with this one, which comes before all in the window.
pub fn mate_of(window: &[Item], first: &Item, last: &Last) -> Option<Mate>
    ensures { IfSome result (λ mate. mate.place < length window.now) }
{
    for place in 0..window.len() {
        if let Some(said) = mate_at(window, place, first, last) {
            return Some(Mate { place, said });
        }
    }
    None
}
