//! The report of a run.

ghost use Rattle.std.specs.Prelude.{◌≡◌, ◌++◌, length};
ghost use Rattle.q_io.specs.SinkMeaning.{SinkCountsStay, PutsAll};
ghost use Rattle.qpu_machine.specs.MachineState.{stop_of};
ghost use Rattle.commands.specs.Report.{rule_text, stop_line, counts_line, ended_text, qpu_line, r0_line, qpu_lines, all_qpu_lines, report};

use crate::lines::{Line, push_number, push_sum, push_text, push_word};
use arrayvec::ArrayVec;
use q_io::{Put, Sink, put_all, put_two};
use qpu_machine::{Counts, Machine, QpuView, Rule, Stop};

fn text_of_rule(rule: Rule) -> &'static [u8]
    ensures { result.now ≡ rule_text rule }
{
    match rule {
        Rule::H0 => b"H0",
        Rule::H1 => b"H1",
        Rule::H2 => b"H2",
        Rule::H3 => b"H3",
        Rule::H4 => b"H4",
        Rule::H5 => b"H5",
        Rule::H6 => b"H6",
        Rule::H7 => b"H7",
        Rule::H8 => b"H8",
        Rule::H9 => b"H9",
        Rule::H10 => b"H10",
        Rule::H11 => b"H11",
        Rule::H12 => b"H12",
        Rule::H13 => b"H13",
        Rule::H14 => b"H14",
        Rule::H15 => b"H15",
        Rule::H16 => b"H16",
    }
}

fn text_of_ended(ended: bool) -> &'static [u8]
    ensures { result.now ≡ ended_text ended }
{
    if ended { b" ended" } else { b" running" }
}

#[tactic(auto, unfolding(crate::specs::Report::stop_line))]
fn broken_line(rule: Rule, qpu: u32, place: u32) -> Line
    ensures { result.items ≡ stop_line (Stop.Broken rule qpu place) }
{
    let mut line = ArrayVec::new();
    push_text(&mut line, b"stop broken ");
    push_text(&mut line, text_of_rule(rule));
    push_text(&mut line, b" qpu ");
    push_number(&mut line, u64::from(qpu));
    push_text(&mut line, b" place ");
    push_number(&mut line, u64::from(place));
    push_text(&mut line, b"\n");
    line
}

#[tactic(auto, unfolding(crate::specs::Report::stop_line))]
fn line_of_stop(stop: Stop) -> Line
    ensures { result.items ≡ stop_line stop }
{
    let mut line = ArrayVec::new();
    match stop {
        Stop::Going => push_text(&mut line, b"stop unfinished\n"),
        Stop::Finished => push_text(&mut line, b"stop finished\n"),
        Stop::Broken { rule, qpu, place } => return broken_line(rule, qpu, place),
    }
    line
}

#[tactic(auto, unfolding(crate::specs::Report::counts_line))]
fn line_of_counts(counts: Counts) -> Line
    ensures { result.items ≡ counts_line counts }
{
    let mut line = ArrayVec::new();
    push_text(&mut line, b"steps ");
    push_sum(&mut line, counts.issued, counts.moved);
    push_text(&mut line, b" issued ");
    push_number(&mut line, counts.issued);
    push_text(&mut line, b" moved ");
    push_number(&mut line, counts.moved);
    push_text(&mut line, b" loads ");
    push_number(&mut line, counts.loads);
    push_text(&mut line, b" stores ");
    push_number(&mut line, counts.stores);
    push_text(&mut line, b"\n");
    line
}

#[tactic(auto, unfolding(crate::specs::Report::qpu_line))]
fn line_of_qpu(k: u32, view: &QpuView) -> Line
    ensures { result.items ≡ qpu_line k view.now }
{
    let mut line = ArrayVec::new();
    push_text(&mut line, b"qpu ");
    push_number(&mut line, u64::from(k));
    push_text(&mut line, text_of_ended(view.ended));
    push_text(&mut line, b" place ");
    push_number(&mut line, u64::from(view.place));
    push_text(&mut line, b" issued ");
    push_number(&mut line, view.issued);
    push_text(&mut line, b"\n");
    line
}

#[tactic(auto, unfolding(crate::specs::Report::r0_line))]
fn line_of_r0(words: &[u32; 16]) -> Line
    ensures { result.items ≡ r0_line words.now }
{
    let mut line = ArrayVec::new();
    push_text(&mut line, b"r0");
    for word in words {
        push_word(&mut line, *word);
    }
    push_text(&mut line, b"\n");
    line
}

#[tactic(auto, unfolding(crate::specs::Report::qpu_lines))]
fn put_qpu<S: Sink>(out: &mut S, k: u32, view: &QpuView) -> Put
    ensures counts { SinkCountsStay (S.state out.old) (S.state out.new) }
    ensures answer { PutsAll (S.state out.old) (S.state out.new) (qpu_lines k view.now) result }
{
    put_two(out, &line_of_qpu(k, view), &line_of_r0(&view.r0.words))
}

fn put_qpus<S: Sink>(out: &mut S, machine: &Machine, qpus: u32) -> Put
    requires { qpus ≡ length machine.now.qpus }
    ensures counts { SinkCountsStay (S.state out.old) (S.state out.new) }
    ensures answer { PutsAll (S.state out.old) (S.state out.new) (all_qpu_lines 0 machine.now.qpus) result }
{
    for k in 0..qpus {
        match put_qpu(out, k, &machine.qpu(k)) {
            Put::Done => {}
            Put::Failed => return Put::Failed,
            Put::Memory => return Put::Memory,
        }
    }
    Put::Done
}

fn put_counts<S: Sink>(out: &mut S, machine: &Machine) -> Put
    ensures counts { SinkCountsStay (S.state out.old) (S.state out.new) }
    ensures answer { PutsAll (S.state out.old) (S.state out.new) (counts_line machine.now.counts) result }
{
    put_all(out, &line_of_counts(machine.counts()))
}

fn put_stop<S: Sink>(out: &mut S, machine: &Machine) -> Put
    ensures counts { SinkCountsStay (S.state out.old) (S.state out.new) }
    ensures answer { PutsAll (S.state out.old) (S.state out.new) (stop_line (stop_of machine.now)) result }
{
    put_all(out, &line_of_stop(machine.state()))
}

fn put_after_stop<S: Sink>(out: &mut S, machine: &Machine, qpus: u32) -> Put
    requires { qpus ≡ length machine.now.qpus }
    ensures counts { SinkCountsStay (S.state out.old) (S.state out.new) }
    ensures answer { PutsAll (S.state out.old) (S.state out.new)
        (counts_line machine.now.counts ++ all_qpu_lines 0 machine.now.qpus) result }
{
    match put_counts(out, machine) {
        Put::Done => put_qpus(out, machine, qpus),
        Put::Failed => Put::Failed,
        Put::Memory => Put::Memory,
    }
}

/// Writes the report of a machine of so many QPUs. Takes no memory of its own.
#[tactic(auto, unfolding(crate::specs::Report::report))]
pub fn put_report<S: Sink>(out: &mut S, machine: &Machine, qpus: u32) -> Put
    requires { qpus ≡ length machine.now.qpus }
    ensures counts { SinkCountsStay (S.state out.old) (S.state out.new) }
    ensures answer { PutsAll (S.state out.old) (S.state out.new) (report machine.now) result }
{
    match put_stop(out, machine) {
        Put::Done => put_after_stop(out, machine, qpus),
        Put::Failed => Put::Failed,
        Put::Memory => Put::Memory,
    }
}
