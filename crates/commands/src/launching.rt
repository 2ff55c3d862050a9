//! A command's launch: read, and fitted to a kernel's parameters.

ghost use Rattle.std.specs.Prelude.{◌≡◌, ◌≤◌, [], true, None, length, IfOk, IfErr};
ghost use Rattle.launch_file.specs.Launches.{LaunchOf};
ghost use Rattle.launch_file.specs.Fit.{fit_fault};
ghost use Rattle.launch_file.specs.Laws.{Fits};
ghost use Rattle.q_io.specs.FilesMeaning.{FilesState};
ghost use Rattle.commands.specs.Plan.{no_sources, Plan, Ends, Leads};
ghost use Rattle.commands.specs.Launching.{launch_line, fit_plan, launch_plan, RefusesLaunch};

use crate::lines::{Line, push_number, push_text};
use crate::places::{read_place, say, say_trouble};
use crate::status::Status;
use arrayvec::ArrayVec;
use launch_file::{Launch, LaunchFault, fit, read_launch};
use q_io::{Files, Sink, Text};
use q_lane::Kind;
use std::alloc::Global;

const LAUNCH_LIMIT: u64 = 65_536;

/// The line of a launch that violates this rule at this line.
#[tactic(auto, unfolding(crate::specs::Launching::launch_line))]
fn line_of_launch(rule: u8, at: u32) -> Line
    ensures { result.items ≡ launch_line rule at }
{
    let mut line = ArrayVec::new();
    push_text(&mut line, b"bad launch B");
    push_number(&mut line, u64::from(rule));
    push_text(&mut line, b" ");
    push_number(&mut line, u64::from(at));
    push_text(&mut line, b"\n");
    line
}

/// Ends where the launch isn't read, or doesn't fit.
fn refuse_launch<S: Sink>(out: &mut S, fault: LaunchFault) -> Status
    ensures { RefusesLaunch fault (S.state out.old) (S.state out.new) result }
{
    match fault {
        LaunchFault::Rule { rule, line } => {
            say(out, &line_of_launch(rule, line), Status::BadLaunch)
        }
        LaunchFault::Memory => Status::Memory,
    }
}

/// The launch, if it suits parameters of these kinds and writes to none of the files that are taken.
fn fitting<S: Sink>(
    launch: Launch,
    kinds: &[Kind],
    taken: &[Text],
    out: &mut S,
) -> Result<Launch, Status>
    requires { length launch.args ≤ 65536 }
    ensures ok { IfOk result (λ it. (it ≡ launch) × (fit_fault launch kinds.now taken.now ≡ None) × ((S.state out.new) ≡ (S.state out.old))) }
    ensures err { IfErr result (λ status. (files : FilesState) (next : LaunchOf → Plan)
        → Ends no_sources true (fit_plan taken.now kinds.now next launch) files (S.state out.old) files (S.state out.new) status) }
{
    match fit(&launch, kinds, taken) {
        Ok(()) => Ok(launch),
        Err(fault) => Err(refuse_launch(out, fault)),
    }
}

/// The launch in a file, which suits parameters of these kinds. `taken` are the files that the command
/// names.
#[tactic(auto, unfolding(crate::specs::Launching::launch_plan))]
pub fn fill_launch<F: Files, S: Sink>(
    alloc: Global,
    kinds: &[Kind],
    taken: &[Text],
    launch_name: &str,
    files: &mut F,
    out: &mut S,
) -> Result<Launch, Status>
    ensures fits { IfOk result (λ launch. Fits launch kinds.now []) }
    ensures ok { IfOk result (λ launch. (next : LaunchOf → Plan)
        → Leads no_sources true (launch_plan taken.now kinds.now launch_name.now next) (F.state files.old) (S.state out.old)
        (next launch) (F.state files.new) (S.state out.new)) }
    ensures err { IfErr result (λ status. (next : LaunchOf → Plan)
        → Ends no_sources true (launch_plan taken.now kinds.now launch_name.now next) (F.state files.old) (S.state out.old)
        (F.state files.new) (S.state out.new) status) }
{
    let bytes = match read_place(files, launch_name, LAUNCH_LIMIT) {
        Ok(bytes) => bytes,
        Err(trouble) => return Err(say_trouble(out, trouble, launch_name)),
    };
    match read_launch(alloc, &bytes) {
        Ok(launch) => fitting(launch, kinds, taken, out),
        Err(fault) => Err(refuse_launch(out, fault)),
    }
}
