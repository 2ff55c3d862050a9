//! Words, and what r0 holds after them.

use crate::openings::{Opening, begin};
use crate::rows::{Fault, Line, Rows, agree};
use crate::texts::instruction;
use crate::wanted::lanes;
use qpu_machine::{Fill, Stop};
use std::alloc::{AllocError, Global};

/// The program end and the two words after it, which do nothing.
const END: [u64; 3] = [
    0x3000_09E7_009E_7000,
    0x1000_09E7_009E_7000,
    0x1000_09E7_009E_7000,
];

/// How many rounds the words run, which is more than they need.
const ROUNDS: u64 = 20;

/// Reads `registers.txt`.
#[derive(Clone, Copy)]
pub struct Registers;

impl Rows for Registers {
    fn judge(&mut self, alloc: Global, line: &str) -> Result<Line, Fault> {
        let (code, wanted) = line.split_once(" => ").ok_or(Fault::NoRow)?;
        let opening = opening_of(alloc, code)?;
        let mut begun = begin(alloc, &opening, 1, Fill::Zero)?.ok_or(Fault::NoRow)?;
        begun.run_rounds(ROUNDS);
        agree(alloc, &begun.state(), Some(Stop::Finished))?;
        let seen = begun.qpu(0).ok_or(Fault::NoRow)?;
        agree(alloc, &seen.r0, lanes(wanted))
    }
}

/// The words and the program end, with the uniforms 5 and 6.
fn opening_of(alloc: Global, code: &str) -> Result<Opening, Fault> {
    let mut opening = Opening::new(alloc);
    for digits in code.split(' ') {
        opening
            .code
            .push(instruction(digits).ok_or(Fault::NoRow)?)
            .map_err(AllocError::from)?;
    }
    opening.code.extend_from_slice(&END)?;
    opening.per = 2;
    opening.uniforms.extend_from_slice(&[5, 6])?;
    Ok(opening)
}
