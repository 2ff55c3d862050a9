//! The answers that rows want of the machine.

use crate::texts::word;
use qpu_machine::{Counts, Effect, Lanes, QpuView, Rule, Stop};

const RULES: [(&str, Rule); 17] = [
    ("H0", Rule::H0),
    ("H1", Rule::H1),
    ("H2", Rule::H2),
    ("H3", Rule::H3),
    ("H4", Rule::H4),
    ("H5", Rule::H5),
    ("H6", Rule::H6),
    ("H7", Rule::H7),
    ("H8", Rule::H8),
    ("H9", Rule::H9),
    ("H10", Rule::H10),
    ("H11", Rule::H11),
    ("H12", Rule::H12),
    ("H13", Rule::H13),
    ("H14", Rule::H14),
    ("H15", Rule::H15),
    ("H16", Rule::H16),
];

fn rule(text: &str) -> Option<Rule> {
    for (name, rule) in RULES {
        if name == text {
            return Some(rule);
        }
    }
    None
}

/// A broken rule, the QPU that broke it and the word: `Broken H0 by QPU 1 at word 1`.
#[derive(Clone, Copy)]
struct Breach {
    rule: Rule,
    qpu: u32,
    place: u32,
}

fn read_breach(text: &str) -> Option<Breach> {
    let (name, rest) = text.strip_prefix("Broken ")?.split_once(" by QPU ")?;
    let (qpu, place) = rest.split_once(" at word ")?;
    Some(Breach {
        rule: rule(name)?,
        qpu: word(qpu)?,
        place: word(place)?,
    })
}

/// What a step did.
pub fn effect(text: &str) -> Option<Effect> {
    match text {
        "Did" => Some(Effect::Did),
        "Moved" => Some(Effect::Moved),
        "Stalled" => Some(Effect::Stalled),
        "Nothing" => Some(Effect::Nothing),
        _ => {
            let Breach { rule, qpu, place } = read_breach(text)?;
            Some(Effect::Broken { rule, qpu, place })
        }
    }
}

/// Whether a run goes on.
pub fn stop(text: &str) -> Option<Stop> {
    match text {
        "Going" => Some(Stop::Going),
        "Finished" => Some(Stop::Finished),
        _ => {
            let Breach { rule, qpu, place } = read_breach(text)?;
            Some(Stop::Broken { rule, qpu, place })
        }
    }
}

/// `10 issued, 1 moved, 0 loads, 1 stores`.
pub fn counts(text: &str) -> Option<Counts> {
    let (issued, rest) = text.split_once(" issued, ")?;
    let (moved, rest) = rest.split_once(" moved, ")?;
    let (loads, rest) = rest.split_once(" loads, ")?;
    let stores = rest.strip_suffix(" stores")?;
    Some(Counts {
        issued: issued.parse::<u64>().ok()?,
        moved: moved.parse::<u64>().ok()?,
        loads: loads.parse::<u64>().ok()?,
        stores: stores.parse::<u64>().ok()?,
    })
}

/// Sixteen words, or `all` and the word that each of them is.
pub fn lanes(text: &str) -> Option<Lanes<16>> {
    if let Some(each) = text.strip_prefix("all ") {
        let word = word(each)?;
        return Some(Lanes { words: [word; 16] });
    }
    let mut words = [0; 16];
    let mut parts = text.split(' ');
    for lane in words.iter_mut() {
        *lane = word(parts.next()?)?;
    }
    if parts.next().is_none() {
        Some(Lanes { words })
    } else {
        None
    }
}

/// `going at word 3, 3 issued, r0 all 0`, or `ended` in the place of `going`.
pub fn view(text: &str) -> Option<QpuView> {
    let (how, rest) = text.split_once(" at word ")?;
    let ended = match how {
        "ended" => true,
        "going" => false,
        _ => return None,
    };
    let (place, rest) = rest.split_once(", ")?;
    let (issued, r0) = rest.split_once(" issued, r0 ")?;
    Some(QpuView {
        ended,
        place: word(place)?,
        issued: issued.parse::<u64>().ok()?,
        r0: lanes(r0)?,
    })
}
