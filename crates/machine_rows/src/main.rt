//! Runs the machine on the openings of `runs.txt`, `example.txt` and `registers.txt`, compares footprints by `footprints.txt`,
//! and tells which rows are answered otherwise than they say. It calls the laws as well.
#![tactic(auto)]

mod begun;
mod footprints;
mod laws;
mod openings;
mod registers;
mod rows;
mod runs;
mod texts;
mod wanted;

use footprints::Footprints;
use laws::call_each;
use registers::Registers;
use rows::tell;
use runs::Runs;
use std::io;

fn main(rt: HostRuntime) -> io::Result<()> {
    let mut runs = Runs::new(rt.alloc());
    tell(&rt, "runs.txt", &mut runs)?;
    tell(&rt, "example.txt", &mut runs)?;
    tell(&rt, "registers.txt", &mut Registers)?;
    call_each();
    tell(&rt, "footprints.txt", &mut Footprints)
}
