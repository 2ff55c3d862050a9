//! The command `exec`: a module is run on the buffers of a launch.

ghost use Rattle.std.specs.Prelude.{◌≡◌, [], true, ℕ, List, length, map, IfOk, IfErr};
ghost use Rattle.launch_file.specs.Layout.{buffer_lens};
ghost use Rattle.launch_file.specs.Laws.{Fits};
ghost use Rattle.promise.specs.Openings.{AreAllBytes};
ghost use Rattle.vc4q_module.specs.ModuleBytes.{IsModule};
ghost use Rattle.q_io.specs.FilesMeaning.{FilesState};
ghost use Rattle.commands.specs.Plan.{no_sources, Plan, Ends, Leads};
ghost use Rattle.commands.specs.Buffers.{HasTextFile};
ghost use Rattle.commands.specs.Loading.{module_plan};
ghost use Rattle.commands.specs.Exec.{read_schedule, ready_plan, buffers_plan, schedule_plan, exec_launch_plan, exec_plan};

use crate::buffers::fill_buffers;
use crate::launching::fill_launch;
use crate::loading::fill_module;
use crate::names::{text_of, two_names};
use crate::opening::open;
use crate::places::{read_place, say_trouble};
use crate::playing::{Ready, play};
use crate::status::Status;
use launch_file::{Launch, Schedule};
use q_io::{Files, Sink, Text};
use std::alloc::Global;
use vc4q_module::Module;

const SCHEDULE_LIMIT: u64 = 16_777_216;

/// Takes the machine's memory, and plays.
#[tactic(auto, unfolding(crate::specs::Exec::ready_plan))]
fn exec_ready<F: Files, S: Sink>(
    alloc: Global,
    module: Module,
    launch: Launch,
    file: Vec<u8>,
    buffers: &[Text],
    files: &mut F,
    out: &mut S,
) -> Status
    requires code { IsModule «module» }
    requires fits { Fits launch «module».kinds [] }
    requires sizes { map length buffers.now ≡ buffer_lens launch.buffers }
    requires bytes { AreAllBytes buffers.now }
    ensures { Ends no_sources true (ready_plan «module» launch file.items buffers.now)
        (F.state files.old) (S.state out.old) (F.state files.new) (S.state out.new) result }
{
    match open(alloc, module, &launch, buffers) {
        Ok(machine) => play(
            &mut Ready {
                machine,
                launch,
                file,
            },
            files,
            out,
        ),
        Err(_) => Status::Memory,
    }
}

/// From the buffers of a launch on.
#[tactic(auto, unfolding(crate::specs::Exec::buffers_plan))]
fn exec_buffers<F: Files, S: Sink>(
    alloc: Global,
    module: Module,
    launch: Launch,
    file: Vec<u8>,
    files: &mut F,
    out: &mut S,
) -> Status
    requires code { IsModule «module» }
    requires fits { Fits launch «module».kinds [] }
    ensures { Ends no_sources true (buffers_plan «module» launch file.items)
        (F.state files.old) (S.state out.old) (F.state files.new) (S.state out.new) result }
{
    match fill_buffers(alloc, &launch.buffers, files, out) {
        Ok(buffers) => exec_ready(alloc, module, launch, file, &buffers, files, out),
        Err(status) => status,
    }
}

/// The bytes of the schedule's file, of none where the schedule has no file.
fn fill_schedule<F: Files, S: Sink>(
    alloc: Global,
    schedule: &Schedule,
    files: &mut F,
    out: &mut S,
) -> Result<Vec<u8>, Status>
    requires { HasTextFile schedule.now }
    ensures ok { IfOk result (λ file. (next : List ℕ → Plan)
        → Leads no_sources true (read_schedule schedule.now next) (F.state files.old) (S.state out.old)
        (next file.items) (F.state files.new) (S.state out.new)) }
    ensures err { IfErr result (λ status. (next : List ℕ → Plan)
        → Ends no_sources true (read_schedule schedule.now next) (F.state files.old) (S.state out.old)
        (F.state files.new) (S.state out.new) status) }
{
    match schedule {
        Schedule::Rounds(_) => Ok(Vec::new(alloc)),
        Schedule::Seed { .. } => Ok(Vec::new(alloc)),
        Schedule::File { name, .. } => {
            match read_place(files, text_of(name), SCHEDULE_LIMIT) {
                Ok(file) => Ok(file),
                Err(trouble) => Err(say_trouble(out, trouble, text_of(name))),
            }
        }
    }
}

/// From the schedule's file of a launch that fits on.
#[tactic(auto, unfolding(crate::specs::Exec::schedule_plan))]
fn exec_schedule<F: Files, S: Sink>(
    alloc: Global,
    module: Module,
    launch: Launch,
    files: &mut F,
    out: &mut S,
) -> Status
    requires code { IsModule «module» }
    requires fits { Fits launch «module».kinds [] }
    ensures { Ends no_sources true (schedule_plan «module» launch)
        (F.state files.old) (S.state out.old) (F.state files.new) (S.state out.new) result }
{
    match fill_schedule(alloc, &launch.schedule, files, out) {
        Ok(file) => exec_buffers(alloc, module, launch, file, files, out),
        Err(status) => status,
    }
}

/// From the read of the launch on. `taken` are the files that the command names.
pub fn exec_launch<F: Files, S: Sink>(
    alloc: Global,
    module: Module,
    taken: &[Text],
    launch_name: &str,
    files: &mut F,
    out: &mut S,
) -> Status
    requires { IsModule «module» }
    ensures { Ends no_sources true (exec_launch_plan taken.now «module» launch_name.now)
        (F.state files.old) (S.state out.old) (F.state files.new) (S.state out.new) result }
{
    match fill_launch(alloc, &module.kinds, taken, launch_name, files, out) {
        Ok(launch) => exec_schedule(alloc, module, launch, files, out),
        Err(status) => status,
    }
}

/// From the read of the module on. `taken` are the files that the command names.
fn exec_module<F: Files, S: Sink>(
    alloc: Global,
    taken: &[Text],
    module_name: &str,
    launch_name: &str,
    files: &mut F,
    out: &mut S,
) -> Status
    ensures { Ends no_sources true (module_plan module_name.now (λ code. exec_launch_plan taken.now code launch_name.now))
        (F.state files.old) (S.state out.old) (F.state files.new) (S.state out.new) result }
{
    match fill_module(alloc, module_name, files, out) {
        Ok(module) => exec_launch(alloc, module, taken, launch_name, files, out),
        Err(status) => status,
    }
}

/// Runs the module file by the launch file.
#[tactic(auto, unfolding(crate::specs::Exec::exec_plan))]
pub fn exec<F: Files, S: Sink>(
    alloc: Global,
    module_name: &str,
    launch_name: &str,
    files: &mut F,
    out: &mut S,
) -> Status
    ensures { Ends no_sources true (exec_plan module_name.now launch_name.now)
        (F.state files.old) (S.state out.old) (F.state files.new) (S.state out.new) result }
{
    match two_names(alloc, module_name, launch_name) {
        Ok(taken) => exec_module(alloc, &taken, module_name, launch_name, files, out),
        Err(_) => Status::Memory,
    }
}
