//! Operations on vectors of words.

ghost use Rattle.std.specs.Prelude.{◌≤◌};

use crate::lanes::ON_TWO;
use crate::parts::{Fault, Parts, cut, word_of};
use q_lane::Lanes;
use std::alloc::Global;

fn vector<const N: usize>(text: &str) -> Result<Lanes<N>, Fault>
    requires { (1 ≤ N) × (N ≤ 64) }
{
    let mut words = [0; N];
    let mut count = 0_usize;
    for part in text.split(' ') {
        if count >= N {
            return Err(Fault::NoRow);
        }
        words[count] = word_of(part)?;
        count += 1;
    }
    if count == N {
        Ok(Lanes { words })
    } else {
        Err(Fault::NoRow)
    }
}

fn words_text(alloc: Global, words: &[u32]) -> Result<String, Fault> {
    let mut text = String::new(alloc);
    for word in words {
        if !text.is_empty() {
            text.push(' ')?;
        }
        let digits = format!(in alloc; "{word:x}")?;
        text.push_str(digits.as_str())?;
    }
    Ok(text)
}

fn rotated<const N: usize>(alloc: Global, n: u32, text: &str) -> Result<String, Fault>
    requires { (1 ≤ N) × (N ≤ 64) }
{
    let words = vector::<N>(text)?;
    words_text(alloc, &words.rotate(n).words)
}

/// What a rotation gives, by the number of lanes.
fn rotation(alloc: Global, n: u32, text: &str) -> Result<String, Fault> {
    match text.split(' ').count() {
        1 => rotated::<1>(alloc, n, text),
        5 => rotated::<5>(alloc, n, text),
        16 => rotated::<16>(alloc, n, text),
        _ => Err(Fault::NoRow),
    }
}

/// What an operation gives of its vectors.
pub fn answer(alloc: Global, parts: &mut Parts<'_>) -> Result<String, Fault> {
    let lanes = match parts.text()? {
        "splat" => Lanes::<16>::splat(parts.word()?),
        "map2" => {
            let op = parts.one_of(alloc, &ON_TWO)?;
            let (a, b) = cut(parts.rest())?;
            Lanes::map2(op, &vector::<16>(a)?, &vector::<16>(b)?)
        }
        "select" => {
            let (mask, both) = cut(parts.rest())?;
            let (a, b) = cut(both)?;
            Lanes::select(&vector::<16>(mask)?, &vector::<16>(a)?, &vector::<16>(b)?)
        }
        "rotate" => {
            let n = parts.word()?;
            return rotation(alloc, n, parts.rest());
        }
        _ => return Err(Fault::NoRow),
    };
    words_text(alloc, &lanes.words)
}
