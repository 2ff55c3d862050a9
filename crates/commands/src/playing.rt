//! From the machine's first step on: the run, the writes and the report.

ghost use Rattle.std.specs.Prelude.{◌≡◌, ◌⊎◌, ◌≤◌, [], length, All, IfSome, false};
ghost use Rattle.q_io.specs.Rose.{Rose};
ghost use Rattle.qpu_machine.specs.MachineState.{stop_of};
ghost use Rattle.commands.specs.Plan.{no_sources, Ends, status_of};
ghost use Rattle.commands.specs.Due.{EndsAsDue, due_of};
ghost use Rattle.commands.specs.Buffers.{HasTextNames};
ghost use Rattle.commands.specs.Play.{answer_of, ran, stored_plan, play_plan};

use crate::buffers::store_buffers;
use crate::places::after_put;
use crate::report::put_report;
use crate::status::Status;
use launch_file::{Launch, Schedule};
use q_io::{Files, Sink};
use qpu_machine::{Machine, Stop};

/// A machine that is ready for its first step, the launch that it runs, and the bytes of the
/// schedule's file.
#[derive(Drop)]
pub struct Ready {
    pub machine: Machine,
    pub launch: Launch,
    pub file: Vec<u8>,
}

fn status_of_stop(stop: Stop) -> Status
    ensures { result ≡ status_of (answer_of stop) }
{
    match stop {
        Stop::Finished => Status::Done,
        Stop::Broken { .. } => Status::Broken,
        Stop::Going => Status::Unfinished,
    }
}

/// Runs the machine by the whole schedule.
#[tactic(auto, unfolding(crate::specs::Play::ran))]
fn run_schedule(machine: &mut Machine, schedule: &Schedule, file: &[u8])
    ensures state { machine.new ≡ ran machine.old schedule.now file.now }
    ensures fixed { machine.new.fixed ≡ machine.old.fixed }
    ensures count { length machine.new.qpus ≡ length machine.old.qpus }
{
    match schedule {
        Schedule::Rounds(rounds) => machine.run_rounds(*rounds),
        Schedule::Seed { seed, steps } => machine.run_seeded(*seed, *steps),
        Schedule::File { times, .. } => machine.run_listed(file, *times),
    }
}

/// Writes the buffers with an output name, and the report.
#[tactic(auto, unfolding(crate::specs::Play::report_plan))]
fn store<F: Files, S: Sink>(
    machine: &Machine,
    launch: &Launch,
    files: &mut F,
    out: &mut S,
) -> Status
    requires names { All HasTextNames launch.now.buffers }
    requires qpus { launch.now.qpus ≡ length machine.now.qpus }
    requires buffers { length launch.now.buffers ≡ length machine.now.fixed.buffers }
    requires few { length launch.now.buffers ≤ 16 }
    ensures { Ends no_sources false (stored_plan machine.now launch.now)
        (F.state files.old) (S.state out.old) (F.state files.new) (S.state out.new) result }
{
    match store_buffers(&launch.buffers, machine, files, out) {
        Ok(()) => after_put(
            put_report(out, machine, launch.qpus),
            status_of_stop(machine.state()),
        ),
        Err(status) => status,
    }
}

/// Runs the machine, writes the buffers with an output name and the report.
#[tactic(auto, unfolding(crate::specs::Play::play_plan))]
fn play_places<F: Files, S: Sink>(ready: &mut Ready, files: &mut F, out: &mut S) -> Status
    requires names { All HasTextNames ready.old.launch.buffers }
    requires few { length ready.old.launch.buffers ≤ 16 }
    requires qpus { ready.old.launch.qpus ≡ length ready.old.machine.qpus }
    requires buffers { length ready.old.launch.buffers ≡ length ready.old.machine.fixed.buffers }
    ensures { Ends no_sources false (play_plan ready.old.machine ready.old.launch ready.old.file.items)
        (F.state files.old) (S.state out.old) (F.state files.new) (S.state out.new) result }
{
    run_schedule(&mut ready.machine, &ready.launch.schedule, &ready.file);
    store(&ready.machine, &ready.launch, files, out)
}

/// Does from the machine's first step on what `exec` does: runs the machine by the launch's
/// schedule, with `file` as the bytes of the schedule's file, writes the buffers with an output name
/// in their order, and then the report. It asks for no memory itself.
pub fn play<F: Files, S: Sink>(ready: &mut Ready, files: &mut F, out: &mut S) -> Status
    requires qpus { ready.old.launch.qpus ≡ length ready.old.machine.qpus }
    requires buffers { length ready.old.launch.buffers ≡ length ready.old.machine.fixed.buffers }

    // Want of memory and a fault are answered only where such a thing came in this call.
    ensures memory { result ≡ Status.Memory
        → Rose (F.state files.old).shortages (F.state files.new).shortages
        ⊎ Rose (S.state out.old).shortages (S.state out.new).shortages }
    ensures write_fault { result ≡ Status.WriteFault
        → Rose (F.state files.old).write_faults (F.state files.new).write_faults
        ⊎ Rose (S.state out.old).faults (S.state out.new).faults }

    // Where the files are told, it ends as is due of the machine, or at a fault on the way there.
    ensures due { IfSome (F.state files.old).told (λ tree.
        EndsAsDue false (due_of (play_plan ready.old.machine ready.old.launch ready.old.file.items) tree []) tree
        (F.state files.old) (S.state out.old) (F.state files.new) (S.state out.new) result) }

    // Told or not, it goes through its places in their order.
    ensures order { Ends no_sources false (play_plan ready.old.machine ready.old.launch ready.old.file.items)
        (F.state files.old) (S.state out.old) (F.state files.new) (S.state out.new) result }
{
    let _qpus = ready.launch.qpus;
    play_places(ready, files, out)
}
