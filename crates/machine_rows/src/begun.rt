//! A machine and how it runs.

ghost use Rattle.std.specs.Prelude.{◌≡◌, length};

use qpu_machine::{Counts, Effect, Machine, QpuView, Step, Stop};

/// A machine of so many QPUs and three buffers.
#[derive(Drop)]
pub struct Begun {
    machine: Machine,
    qpus: u32,
    ghost many: { length machine.qpus ≡ qpus },
    ghost three: { length machine.fixed.buffers ≡ 3 },
}

impl Begun {
    pub fn new(machine: Machine, qpus: u32) -> Begun
        requires many { length machine.qpus ≡ qpus }
        requires three { length machine.fixed.buffers ≡ 3 }
    {
        Begun { machine, qpus }
    }

    pub fn run_rounds(&mut self, rounds: u64) {
        self.machine.run_rounds(rounds);
    }

    pub fn run_seeded(&mut self, seed: u64, steps: u64) {
        self.machine.run_seeded(seed, steps);
    }

    pub fn run_listed(&mut self, bytes: &[u8], times: u64) {
        self.machine.run_listed(bytes, times);
    }

    pub fn step(&mut self, step: Step) -> Effect {
        self.machine.step(step)
    }

    pub fn state(&self) -> Stop {
        self.machine.state()
    }

    pub fn counts(&self) -> Counts {
        self.machine.counts()
    }

    /// QPU `k`, if there is one.
    pub fn qpu(&self, k: u32) -> Option<QpuView> {
        if k < self.qpus {
            Some(self.machine.qpu(k))
        } else {
            None
        }
    }

    /// The bytes of buffer `i`, if there is one.
    pub fn buffer(&self, i: u32) -> Option<&[u8]> {
        if i < 3 {
            Some(self.machine.buffer(i))
        } else {
            None
        }
    }
}
