//! The state of the machine, and what its steps answer.

use q_lane::Lanes;
use qpu_rules::Written;
use vpm_words::{Ports, Rule};

/// One step of the system: an issue of a QPU by its number, or a move of an engine's element by
/// its number among those left.
#[derive(Clone, Copy, Debug, PartialEq, Eq)]
pub enum Step {
    Issue(u32),
    Load(u32),
    Store(u32),
}

/// What a step did: a word was done, an element was moved, the word waits, nothing, or the word
/// broke a restriction. `place` is a word number.
#[derive(Clone, Copy, Debug, PartialEq, Eq)]
pub enum Effect {
    Did,
    Moved,
    Stalled,
    Nothing,
    Broken { rule: Rule, qpu: u32, place: u32 },
}

/// Whether a run goes on: it is finished where all QPUs have ended and no element is left.
#[derive(Clone, Copy, Debug, PartialEq, Eq)]
pub enum Stop {
    Going,
    Finished,
    Broken { rule: Rule, qpu: u32, place: u32 },
}

/// Words done, elements moved, loads started and stores started. Each count stays at its last
/// value.
#[derive(Clone, Copy, Debug, PartialEq, Eq)]
pub struct Counts {
    pub issued: u64,
    pub moved: u64,
    pub loads: u64,
    pub stores: u64,
}

/// One QPU from outside. `place` is the number of its next word, `issued` how many it has done.
#[derive(Clone, Copy, Debug, PartialEq, Eq)]
pub struct QpuView {
    pub ended: bool,
    pub place: u32,
    pub issued: u64,
    pub r0: Lanes<16>,
}

/// Files A and B, the accumulators r0 to r3, r5, and the flags Z and N of each element.
#[derive(Clone, Copy)]
pub struct Regs {
    pub a: [Lanes<16>; 32],
    pub b: [Lanes<16>; 32],
    pub acc: [Lanes<16>; 4],
    pub five: Lanes<16>,
    pub zero: [bool; 16],
    pub neg: [bool; 16],
}

/// Where a QPU is. `slots` is how many delay slots of a branch are left, after which it goes to
/// `target`, and `ending` how many words are left to it after a program end; both are 0 elsewhere.
#[derive(Clone, Copy)]
pub struct Flow {
    pub place: u32,
    pub ended: bool,
    pub slots: u8,
    pub target: u32,
    pub ending: u8,
    pub issued: u64,
}

/// One QPU: its registers, where it is, what its last word wrote, and its setups.
#[derive(Clone, Copy)]
pub struct Qpu {
    pub regs: Regs,
    pub flow: Flow,
    pub written: Written,
    pub ports: Ports,
}

/// A broken restriction: by which QPU, at which word.
#[derive(Clone, Copy)]
pub struct Fault {
    pub rule: Rule,
    pub qpu: u32,
    pub place: u32,
}
