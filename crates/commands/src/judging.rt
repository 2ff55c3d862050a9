//! The command `judge`: a launch of a kernel is judged by what its source means.

ghost use Rattle.std.specs.Prelude.{◌≡◌, ◌≤◌, ◌++◌, ℕ, List, true, length, codes, decimal, IfOk, IfErr};
ghost use Rattle.q_io.specs.FilesMeaning.{FilesState};
ghost use Rattle.launch_file.specs.Launches.{items_of};
ghost use Rattle.launch_meaning.specs.LaunchMeaning.{IsVerdict};
ghost use Rattle.launch_meaning.specs.Small.{AreSmall};
ghost use Rattle.promise.specs.Kernel.{Meaning};
ghost use Rattle.commands.specs.Plan.{no_language, no_sources, both, status_of, Plan, Ends, Leads};
ghost use Rattle.commands.specs.Launching.{launch_plan};
ghost use Rattle.commands.specs.Judge.{race_line, verdict_line, answer_to, verdict_plan, judged_plan, meaning_plan, judged_launch_plan, judge_plan};

use crate::buffers::fill_buffers;
use crate::compiling::{SOURCE_LIMIT, refuse_source};
use crate::launching::fill_launch;
use crate::lines::{Line, push_number, push_text};
use crate::names::two_names;
use crate::places::{read_place, say, say_trouble};
use crate::refusals::line_col;
use crate::status::Status;
use arrayvec::ArrayVec;
use launch_file::Launch;
use launch_meaning::{Bytes, Verdict};
use promise::JudgedKernel;
use q_io::{Files, Sink, Text};
use sqlite_items::Items;
use std::alloc::{AllocError, Global};

/// The line of a race.
#[tactic(auto, unfolding(crate::specs::Judge::race_line))]
fn line_of_race(buffer: u32, byte: u32, first: u32, second: u32) -> Line
    ensures { result.items ≡ race_line buffer byte first second }
{
    let mut line = ArrayVec::new();
    push_text(&mut line, b"race buffer ");
    push_number(&mut line, u64::from(buffer));
    push_text(&mut line, b" byte ");
    push_number(&mut line, u64::from(byte));
    push_text(&mut line, b" items ");
    push_number(&mut line, u64::from(first));
    push_text(&mut line, b" ");
    push_number(&mut line, u64::from(second));
    push_text(&mut line, b"\n");
    line
}

/// The line of an item whose access at this byte of the source is out of bounds.
#[tactic(auto, unfolding(crate::specs::Judge::verdict_line))]
fn line_of_bounds(source: &[u8], item: u32, at: u32) -> Line
    ensures { result.items ≡ verdict_line source.now (Verdict.Bounds item at) }
{
    let (source_line, column) = line_col(source, at);
    let mut line = ArrayVec::new();
    push_text(&mut line, b"bounds item ");
    push_number(&mut line, u64::from(item));
    push_text(&mut line, b" ");
    push_number(&mut line, source_line);
    push_text(&mut line, b" ");
    push_number(&mut line, column);
    push_text(&mut line, b"\n");
    line
}

/// A line of a label and a number.
fn line_of_number(label: &[u8], number: u64) -> Line
    requires { length label.now ≤ 64 }
    ensures { result.items ≡ label.now ++ (decimal number ++ codes "\n") }
{
    let mut line = ArrayVec::new();
    push_text(&mut line, label);
    push_number(&mut line, number);
    push_text(&mut line, b"\n");
    line
}

/// The line of a verdict.
#[tactic(auto, unfolding(crate::specs::Judge::verdict_line))]
fn line_of_verdict(source: &[u8], verdict: &Verdict) -> Line
    ensures { result.items ≡ verdict_line source.now verdict.now }
{
    match verdict {
        Verdict::Safe { turns, .. } => line_of_number(b"safe turns ", *turns),
        Verdict::Race {
            buffer,
            byte,
            first,
            second,
        } => line_of_race(*buffer, *byte, *first, *second),
        Verdict::Bounds { item, at } => line_of_bounds(source, *item, *at),
        Verdict::Spent { item } => line_of_number(b"spent item ", u64::from(*item)),
    }
}

fn status_of_verdict(verdict: &Verdict) -> Status
    ensures { result ≡ status_of (answer_to verdict.now) }
{
    match verdict {
        Verdict::Safe { .. } => Status::Done,
        Verdict::Race { .. } => Status::NotSafe,
        Verdict::Bounds { .. } => Status::NotSafe,
        Verdict::Spent { .. } => Status::NotSafe,
    }
}

/// The buffers' bytes, as they are judged.
fn bytes_of(alloc: Global, buffers: &[Text]) -> Result<Vec<Bytes>, AllocError>
    ensures { IfOk result (λ bytes. bytes.items ≡ buffers.now) }
{
    let mut all = Vec::with_capacity(alloc, buffers.len())?;
    for buffer in buffers {
        all.push(Items::from_slice(alloc, buffer.as_bytes())?)?;
    }
    Ok(all)
}

/// The verdict on a launch with these buffers.
fn verdict_on<K: JudgedKernel>(
    alloc: Global,
    kernel: &K,
    launch: &Launch,
    buffers: &[Text],
    turns: u32,
) -> Result<Verdict, AllocError>
    requires { AreSmall buffers.now }
    ensures { IfOk result (λ verdict. IsVerdict ((K.meaning kernel.now).item launch.now) (items_of launch.now.global) buffers.now turns verdict) }
{
    let buffers = bytes_of(alloc, buffers)?;
    kernel.verdict(alloc, launch, &buffers, turns)
}

/// From the buffers of a launch on.
#[tactic(auto, unfolding(crate::specs::Judge::verdict_plan))]
fn judge_buffers<K: JudgedKernel, S: Sink>(
    alloc: Global,
    source: &[u8],
    kernel: &K,
    launch: &Launch,
    buffers: &[Text],
    turns: u32,
    out: &mut S,
) -> Status
    requires { AreSmall buffers.now }
    ensures { (files : FilesState) → Ends no_sources true (verdict_plan source.now (K.meaning kernel.now) turns launch.now buffers.now)
        files (S.state out.old) files (S.state out.new) result }
{
    match verdict_on(alloc, kernel, launch, buffers, turns) {
        Ok(verdict) => say(
            out,
            &line_of_verdict(source, &verdict),
            status_of_verdict(&verdict),
        ),
        Err(_) => Status::Memory,
    }
}

/// From the launch that fits on.
#[tactic(auto, unfolding(crate::specs::Judge::judged_plan))]
fn judge_launch<K: JudgedKernel + Drop, F: Files, S: Sink>(
    alloc: Global,
    source: &[u8],
    kernel: &K,
    launch: &Launch,
    turns: u32,
    files: &mut F,
    out: &mut S,
) -> Status
    ensures { Ends no_sources true (judged_plan source.now (K.meaning kernel.now) turns launch.now)
        (F.state files.old) (S.state out.old) (F.state files.new) (S.state out.new) result }
{
    match fill_buffers(alloc, &launch.buffers, files, out) {
        Ok(buffers) => judge_buffers(alloc, source, kernel, launch, &buffers, turns, out),
        Err(status) => status,
    }
}

/// From the kernel that was read on. `taken` are the files that the command names.
fn judge_kernel<K: JudgedKernel + Drop, F: Files, S: Sink>(
    alloc: Global,
    source: &[u8],
    kernel: &K,
    taken: &[Text],
    launch_name: &str,
    turns: u32,
    files: &mut F,
    out: &mut S,
) -> Status
    ensures { Ends no_sources true
        (launch_plan taken.now (K.meaning kernel.now).kinds launch_name.now (judged_plan source.now (K.meaning kernel.now) turns))
        (F.state files.old) (S.state out.old) (F.state files.new) (S.state out.new) result }
{
    match fill_launch(alloc, kernel.kinds(), taken, launch_name, files, out) {
        Ok(launch) => judge_launch(alloc, source, kernel, &launch, turns, files, out),
        Err(status) => status,
    }
}

/// A kernel of the source in a file, with that source.
#[tactic(auto, unfolding(crate::specs::Judge::meaning_plan))]
fn understand<K: JudgedKernel + Drop, F: Files, S: Sink>(
    alloc: Global,
    source_name: &str,
    kernel: &str,
    files: &mut F,
    out: &mut S,
) -> Result<(Vec<u8>, K), Status>
    ensures ok { IfOk result (λ read. (next : List ℕ → Meaning → Plan)
        → Leads (both no_language K.meanings) true (meaning_plan source_name.now kernel.now next) (F.state files.old) (S.state out.old)
        (next read.0.items (K.meaning read.1)) (F.state files.new) (S.state out.new)) }
    ensures err { IfErr result (λ status. (next : List ℕ → Meaning → Plan)
        → Ends (both no_language K.meanings) true (meaning_plan source_name.now kernel.now next) (F.state files.old) (S.state out.old)
        (F.state files.new) (S.state out.new) status) }
{
    let source = match read_place(files, source_name, SOURCE_LIMIT) {
        Ok(source) => source,
        Err(trouble) => return Err(say_trouble(out, trouble, source_name)),
    };
    match K::of_source(alloc, &source, kernel.as_bytes()) {
        Ok(kernel) => Ok((source, kernel)),
        Err(refusal) => Err(refuse_source(out, &source, refusal)),
    }
}

/// Judges a launch of the kernel of a source file by the launch file, with so many turns for each work-item.
#[tactic(auto, unfolding(crate::specs::Judge::judge_plan, crate::specs::Judge::judged_launch_plan))]
pub fn judge_file<K: JudgedKernel + Drop, F: Files, S: Sink>(
    alloc: Global,
    source_name: &str,
    kernel: &str,
    launch_name: &str,
    turns: u32,
    files: &mut F,
    out: &mut S,
) -> Status
    ensures { Ends (both no_language K.meanings) true (judge_plan source_name.now kernel.now launch_name.now turns)
        (F.state files.old) (S.state out.old) (F.state files.new) (S.state out.new) result }
{
    let taken = match two_names(alloc, source_name, launch_name) {
        Ok(taken) => taken,
        Err(_) => return Status::Memory,
    };
    match understand::<K, F, S>(alloc, source_name, kernel, files, out) {
        Ok((source, kernel)) => judge_kernel(
            alloc,
            &source,
            &kernel,
            &taken,
            launch_name,
            turns,
            files,
            out,
        ),
        Err(status) => status,
    }
}
