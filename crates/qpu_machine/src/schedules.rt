//! Runs over the schedules that a program plays: rounds, the numbers of a seed, and the bytes of a file.

ghost use Rattle.std.specs.Prelude.{◌≡◌, ◌≢◌, ◌↔◌, [], ◌∷◌, IsTrue, length, map};
ghost use Rattle.qpu_machine.specs.MachineState.{stop_of};
ghost use Rattle.qpu_machine.specs.MachineRun.{machine_run};
ghost use Rattle.qpu_machine.specs.Schedules.{round, rounds_of, step_at, seeded_of, byte_step, listed_of};

use crate::generator::{Generator, draw};
use crate::machine::Machine;
use crate::state::{Effect, Step, Stop};

fn has_stopped(machine: &Machine) -> bool
    ensures { IsTrue result ↔ (stop_of machine.now ≢ Stop.Going) }
{
    machine.state() != Stop::Going
}

/// An issue of each QPU, and a move of each engine.
fn run_round(machine: &mut Machine, qpus: u32)
    ensures { machine.new ≡ machine_run (round qpus) machine.old }
{
    for k in 0..qpus {
        machine.step(Step::Issue(k));
    }
    machine.step(Step::Load(0));
    machine.step(Step::Store(0));
}

/// The step of a drawn number.
#[tactic(auto, unfolding(crate::specs::Schedules::step_at))]
fn step_of_number(qpus: u32, number: u32) -> Step
    ensures { result ≡ step_at qpus number }
{
    let count = u64::from(qpus);
    let turn = u64::from(number) % (count + 2);
    if turn < count {
        Step::Issue(turn as u32)
    } else if turn == count {
        Step::Load(number / 64)
    } else {
        Step::Store(number / 64)
    }
}

/// The step of a byte.
#[tactic(auto, unfolding(crate::specs::Schedules::byte_step))]
fn step_of_byte(byte: u8) -> Step
    ensures { result ≡ byte_step byte }
{
    let low = byte % 16;
    let high = u32::from(byte / 16);
    if low < 12 {
        Step::Issue(u32::from(low))
    } else if low < 14 {
        Step::Load(high)
    } else {
        Step::Store(high)
    }
}

/// Takes the step, and says whether the machine has stopped. A step that did something needs no look.
#[tactic(auto, unfolding(crate::specs::MachineRun::machine_run))]
fn stops_at(machine: &mut Machine, step: Step) -> bool
    ensures state { machine.new ≡ machine_run (step ∷ []) machine.old }
    ensures stopped { IsTrue result → stop_of machine.new ≢ Stop.Going }
{
    machine.step(step) == Effect::Nothing && has_stopped(machine)
}

/// Takes the steps of the bytes, and says whether the machine has stopped. Then the steps that are left change nothing.
fn stops_in(machine: &mut Machine, bytes: &[u8]) -> bool
    ensures state { machine.new ≡ machine_run (map byte_step bytes.now) machine.old }
    ensures stopped { IsTrue result → stop_of machine.new ≢ Stop.Going }
{
    for byte in bytes {
        if stops_at(machine, step_of_byte(*byte)) {
            return true;
        }
    }
    false
}

fn play_rounds(machine: &mut Machine, rounds: u64)
    ensures { machine.new ≡ machine_run (rounds_of rounds (length machine.old.qpus)) machine.old }
{
    let qpus = machine.count();
    for _round in 0..rounds {
        if has_stopped(machine) {
            return;
        }
        run_round(machine, qpus);
    }
}

fn play_seeded(machine: &mut Machine, seed: u64, steps: u64)
    ensures { machine.new ≡ machine_run (seeded_of seed steps (length machine.old.qpus)) machine.old }
{
    let qpus = machine.count();
    let mut generator = Generator { state: seed };
    for _step in 0..steps {
        let step = step_of_number(qpus, draw(&mut generator));
        if stops_at(machine, step) {
            return;
        }
    }
}

// Without bytes there are no steps, however many times over.
fn play_listed(machine: &mut Machine, bytes: &[u8], times: u64)
    ensures { machine.new ≡ machine_run (listed_of bytes.now times) machine.old }
{
    if bytes.is_empty() {
        return;
    }
    for _time in 0..times {
        if stops_in(machine, bytes) {
            return;
        }
    }
}

impl Machine {
    /// Runs so many rounds: an issue of each QPU in order, then a move of each engine. Leaves as soon
    /// as the machine has stopped.
    pub fn run_rounds(&mut self, rounds: u64)
        ensures state { self.new ≡ machine_run (rounds_of rounds (length self.old.qpus)) self.old }
        ensures fixed { self.new.fixed ≡ self.old.fixed }
        ensures count { length self.new.qpus ≡ length self.old.qpus }
    {
        play_rounds(self, rounds);
    }

    /// Runs so many steps by the numbers of a seed. Leaves as soon as the machine has stopped.
    pub fn run_seeded(&mut self, seed: u64, steps: u64)
        ensures state { self.new ≡ machine_run (seeded_of seed steps (length self.old.qpus)) self.old }
        ensures fixed { self.new.fixed ≡ self.old.fixed }
        ensures count { length self.new.qpus ≡ length self.old.qpus }
    {
        play_seeded(self, seed, steps);
    }

    /// Runs the steps of these bytes, so many times over. Leaves as soon as the machine has stopped.
    pub fn run_listed(&mut self, bytes: &[u8], times: u64)
        ensures state { self.new ≡ machine_run (listed_of bytes.now times) self.old }
        ensures fixed { self.new.fixed ≡ self.old.fixed }
        ensures count { length self.new.qpus ≡ length self.old.qpus }
    {
        play_listed(self, bytes, times);
    }
}
