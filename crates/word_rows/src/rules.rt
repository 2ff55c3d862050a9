//! The first rule that a word breaks.

use crate::parts::{Fault, Parts, number_of, one_called, truth_of, word_of};
use crate::texts::option_text;
use qpu_encode::decode;
use qpu_rules::{Owner, Recent, Seen, first_broken};
use std::alloc::Global;

const OWNERS: [Owner; 3] = [Owner::Nobody, Owner::Me, Owner::Other];

/// What the words before left, and what the word's access looks at.
#[derive(Clone, Copy)]
struct Place {
    recent: Recent,
    seen: Seen,
}

/// The words before wrote nothing; the QPU owns the mutex and has all setups.
const QUIET: Place = Place {
    recent: Recent {
        file_a: None,
        file_b: None,
        accs: 0,
        five: false,
        slots: 0,
        ending: 0,
        age: 3,
    },
    seen: Seen {
        uniforms: 1,
        owner: Owner::Me,
        read_rows: 1,
        write_set: true,
        load_set: true,
        store_set: true,
        load_busy: false,
        store_busy: false,
        row_busy: false,
        value: 0x1A00,
        fits: true,
    },
};

fn set_recent(recent: &mut Recent, name: &str, value: &str) -> Result<(), Fault> {
    match name {
        "file_a" => recent.file_a = Some(number_of(value)?),
        "file_b" => recent.file_b = Some(number_of(value)?),
        "accs" => recent.accs = number_of(value)?,
        "five" => recent.five = truth_of(value)?,
        "slots" => recent.slots = number_of(value)?,
        "ending" => recent.ending = number_of(value)?,
        "age" => recent.age = number_of(value)?,
        _ => return Err(Fault::NoRow),
    }
    Ok(())
}

fn set_flag(seen: &mut Seen, name: &str, is_set: bool) -> Result<(), Fault> {
    match name {
        "write_set" => seen.write_set = is_set,
        "load_set" => seen.load_set = is_set,
        "store_set" => seen.store_set = is_set,
        "load_busy" => seen.load_busy = is_set,
        "store_busy" => seen.store_busy = is_set,
        "row_busy" => seen.row_busy = is_set,
        "fits" => seen.fits = is_set,
        _ => return Err(Fault::NoRow),
    }
    Ok(())
}

fn set_seen(seen: &mut Seen, alloc: Global, name: &str, value: &str) -> Result<(), Fault> {
    match name {
        "uniforms" => seen.uniforms = u32::from(number_of(value)?),
        "owner" => seen.owner = one_called(alloc, &OWNERS, value)?,
        "read_rows" => seen.read_rows = number_of(value)?,
        "value" => seen.value = word_of(value)?,
        _ => return set_flag(seen, name, truth_of(value)?),
    }
    Ok(())
}

fn changed(alloc: Global, changes: &str) -> Result<Place, Fault> {
    let mut place = QUIET;
    for change in changes.split_whitespace() {
        let (name, value) = change.split_once('=').ok_or(Fault::NoRow)?;
        match name {
            "file_a" | "file_b" | "accs" | "five" | "slots" | "ending" | "age" => {
                set_recent(&mut place.recent, name, value)?;
            }
            _ => set_seen(&mut place.seen, alloc, name, value)?,
        }
    }
    Ok(place)
}

/// The first rule that a word breaks, in a place that is quiet but for what is said.
pub fn answer(alloc: Global, parts: &mut Parts<'_>) -> Result<String, Fault> {
    let word = parts.long_word()?;
    let Place { recent, seen } = changed(alloc, parts.rest())?;
    let Some(instr) = decode(word) else {
        return Err(Fault::NoRow);
    };
    let rule = first_broken(&instr, &recent, &seen);
    option_text(alloc, rule)
}
