//! Runs of the machine: openings, what is played, and rows of what is seen.

use crate::begun::Begun;
use crate::openings::{Opening, begin};
use crate::rows::{Fault, Line, Rows, agree};
use crate::texts::{bytes, instruction, word, words};
use crate::wanted::{counts, effect, lanes, stop, view};
use qpu_machine::{Fill, Region, Step};
use std::alloc::{AllocError, Global};

/// The opening that the lines told so far, and the machine that was begun last.
#[derive(Drop)]
pub struct Runs {
    opening: Opening,
    begun: Option<Begun>,
}

impl Runs {
    pub fn new(alloc: Global) -> Runs {
        Runs {
            opening: Opening::new(alloc),
            begun: None,
        }
    }

    /// Adds to the opening. `case` leaves all but the code, and `opening` leaves nothing.
    fn tell(&mut self, alloc: Global, kind: &str, rest: &str) -> Result<bool, Fault> {
        match kind {
            "opening" => *self = Runs::new(alloc),
            "case" => {
                self.opening.code.clear();
                self.begun = None;
            }
            "word" => add_word(&mut self.opening, rest)?,
            "uniforms" => set_uniforms(alloc, &mut self.opening, rest)?,
            "zeros" => add_zeros(&mut self.opening, rest)?,
            "bytes" => add_bytes(alloc, &mut self.opening, rest)?,
            "buffer" => set_buffer(&mut self.opening, rest)?,
            "begin" => self.begun = Some(begin_at(alloc, &self.opening, rest)?),
            _ => return Ok(false),
        }
        Ok(true)
    }
}

impl Rows for Runs {
    fn judge(&mut self, alloc: Global, line: &str) -> Result<Line, Fault> {
        if let Some((asked, wanted)) = line.split_once(" => ") {
            let Some(begun) = &mut self.begun else {
                return Err(Fault::NoRow);
            };
            return answer(alloc, begun, asked, wanted);
        }
        let (kind, rest) = line.split_once(' ').unwrap_or((line, ""));
        if self.tell(alloc, kind, rest)? {
            return Ok(Line::Taken);
        }
        let Some(begun) = &mut self.begun else {
            return Err(Fault::NoRow);
        };
        play(alloc, begun, kind, rest).ok_or(Fault::NoRow)
    }
}

/// `100009E7009E7000 nothing`: a word of the code, and what it does.
fn add_word(opening: &mut Opening, rest: &str) -> Result<(), Fault> {
    let (digits, _what) = rest.split_once(' ').ok_or(Fault::NoRow)?;
    opening
        .code
        .push(instruction(digits).ok_or(Fault::NoRow)?)
        .map_err(AllocError::from)?;
    Ok(())
}

/// `2 each: 5 6`: how many each QPU has, and the words.
fn set_uniforms(alloc: Global, opening: &mut Opening, rest: &str) -> Result<(), Fault> {
    let (per, list) = rest.split_once(" each: ").ok_or(Fault::NoRow)?;
    opening.per = word(per).ok_or(Fault::NoRow)?;
    opening.uniforms = words(alloc, list)?.ok_or(Fault::NoRow)?;
    Ok(())
}

fn add_zeros(opening: &mut Opening, rest: &str) -> Result<(), Fault> {
    let count = word(rest).ok_or(Fault::NoRow)?;
    for _zero in 0..count {
        opening.memory.push(0).map_err(AllocError::from)?;
    }
    Ok(())
}

fn add_bytes(alloc: Global, opening: &mut Opening, rest: &str) -> Result<(), Fault> {
    let added = bytes(alloc, rest).ok_or(Fault::NoRow)?;
    opening.memory.extend_from_slice(&added)?;
    Ok(())
}

/// `1: 65600, 12 bytes`: the number of a buffer, where it begins, and how long it is.
fn buffer_of(rest: &str) -> Option<(u32, Region)> {
    let (number, place) = rest.split_once(": ")?;
    let (start, len) = place.strip_suffix(" bytes")?.split_once(", ")?;
    let region = Region {
        start: word(start)?,
        len: word(len)?,
    };
    Some((word(number)?, region))
}

fn set_buffer(opening: &mut Opening, rest: &str) -> Result<(), Fault> {
    let (number, region) = buffer_of(rest).ok_or(Fault::NoRow)?;
    match number {
        0 => opening.places.first = region,
        1 => opening.places.second = region,
        2 => opening.places.third = region,
        _ => return Err(Fault::NoRow),
    }
    Ok(())
}

/// `2 zeros`, or `2 seed 7`: how many QPUs, and what registers and rows of the VPM hold.
fn begin_at(alloc: Global, opening: &Opening, rest: &str) -> Result<Begun, Fault> {
    let (qpus, held) = rest.split_once(' ').ok_or(Fault::NoRow)?;
    let fill = fill(held).ok_or(Fault::NoRow)?;
    let qpus = word(qpus).ok_or(Fault::NoRow)?;
    begin(alloc, opening, qpus, fill)?.ok_or(Fault::NoRow)
}

fn fill(text: &str) -> Option<Fill> {
    match text {
        "zeros" => Some(Fill::Zero),
        _ => Some(Fill::Seed(text.strip_prefix("seed ")?.parse::<u64>().ok()?)),
    }
}

fn play(alloc: Global, begun: &mut Begun, kind: &str, rest: &str) -> Option<Line> {
    match kind {
        "rounds" => begun.run_rounds(rest.parse::<u64>().ok()?),
        "seeded" => {
            let (seed, steps) = rest.split_once(' ')?;
            begun.run_seeded(seed.parse::<u64>().ok()?, steps.parse::<u64>().ok()?);
        }
        "listed" => {
            let (list, times) = rest.split_once(" times ")?;
            begun.run_listed(&bytes(alloc, list)?, times.parse::<u64>().ok()?);
        }
        _ => return None,
    }
    Some(Line::Taken)
}

fn answer(alloc: Global, begun: &mut Begun, asked: &str, wanted: &str) -> Result<Line, Fault> {
    let (kind, rest) = asked.split_once(' ').unwrap_or((asked, ""));
    match kind {
        "steps" => take_steps(alloc, begun, rest, wanted),
        "state" => agree(alloc, &begun.state(), stop(wanted)),
        "counts" => agree(alloc, &begun.counts(), counts(wanted)),
        "qpu" => see_qpu(alloc, begun, rest, wanted),
        "buffer" => see_buffer(alloc, begun, rest, wanted),
        _ => Err(Fault::NoRow),
    }
}

fn step(text: &str) -> Option<Step> {
    let (kind, number) = text.split_once(' ')?;
    let number = word(number)?;
    match kind {
        "issue" => Some(Step::Issue(number)),
        "load" => Some(Step::Load(number)),
        "store" => Some(Step::Store(number)),
        _ => None,
    }
}

/// Takes each of the steps, beside what it is to have done.
fn take_steps(alloc: Global, begun: &mut Begun, steps: &str, wanted: &str) -> Result<Line, Fault> {
    let mut effects = wanted.split(", ");
    for text in steps.split(", ") {
        let step = step(text).ok_or(Fault::NoRow)?;
        let wanted = effects.next().ok_or(Fault::NoRow)?;
        agree(alloc, &begun.step(step), effect(wanted))?;
    }
    if effects.next().is_none() {
        Ok(Line::Held)
    } else {
        Err(Fault::NoRow)
    }
}

/// A QPU, or with `r0` before its number that register of it alone.
fn see_qpu(alloc: Global, begun: &Begun, rest: &str, wanted: &str) -> Result<Line, Fault> {
    let (number, register) = match rest.strip_suffix(" r0") {
        Some(number) => (number, true),
        None => (rest, false),
    };
    let k = word(number).ok_or(Fault::NoRow)?;
    let seen = begun.qpu(k).ok_or(Fault::NoRow)?;
    if register {
        agree(alloc, &seen.r0, lanes(wanted))
    } else {
        agree(alloc, &seen, view(wanted))
    }
}

fn see_buffer(alloc: Global, begun: &Begun, rest: &str, wanted: &str) -> Result<Line, Fault> {
    let i = word(rest).ok_or(Fault::NoRow)?;
    let seen = begun.buffer(i).ok_or(Fault::NoRow)?;
    let wanted = bytes(alloc, wanted).ok_or(Fault::NoRow)?;
    if seen == wanted.as_slice() {
        Ok(Line::Held)
    } else {
        Err(Fault::Differs(hex::encode(alloc, seen)?))
    }
}
