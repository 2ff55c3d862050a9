//! A launch is read line by line, up to the first fault.

ghost use Rattle.std.specs.Prelude.{◌≡◌, ◌<◌, ◌≤◌, ◌^◌, ◌+◌, false, [], ◌∷◌, ◌++◌, ℕ, List, length, Some, None, true, is_some, OnOk, IfOk, IfErr, IfSome, IfNone};
ghost use Rattle.launch_file.specs.Launches.{with_ones, IsLaunch};
ghost use Rattle.launch_file.specs.LaunchIn.{launch_in};
ghost use Rattle.launch_file.specs.LineText.{Line as LineOf, FirstLine, QpusLine, GlobalLine, LocalLine};
ghost use Rattle.launch_file.specs.LaunchText.{head_lines, launch_lines, launch_text};
ghost use Rattle.launch_file.specs.Rules.{is_whole, fault_in, product, divides_not, first_fault};
ghost use Rattle.launch_file.specs.Reading.{Follows, IsHead, IsBody, Leads, IsFirst, Allowed, body_lines, lines_after};
ghost use Rattle.launch_file.specs.HeadReading.{GoesOn, Stops, AreGood, Onward, StopsAfter, Ends, StopsHere};
ghost use Rattle.launch_file.specs.Views.{line_view, sizes_view};

use crate::body::{Body, Trouble, take_line};
use crate::head::{take_first, take_global, take_local, take_qpus};
use crate::launch::{Arg, BufferLine, Launch, LaunchFault, Schedule};
use crate::lines::{Line, Sizes, read_line};
use crate::words::cut;
use std::alloc::Global;

/// The line at the front, and what follows it. None where no line is ended there, or it is of no form.
fn next_line(bytes: &[u8]) -> Option<(Line<'_>, &[u8])>
    ensures line { IfSome result (λ p. Follows bytes.now (line_view p.0) p.1.now) }
    ensures none { IfNone result ((before : List LineOf) → is_whole before ≡ false → fault_in before bytes.now ≡ Some (1, length before + 1)) }
    ensures after { IfNone result ((before : List LineOf) → 0 < length bytes.now → fault_in before bytes.now ≡ Some (1, length before + 1)) }
{
    let (piece, rest) = cut(bytes, b'\n');
    let Some(rest) = rest else {
        return None;
    };
    let Some(line) = read_line(piece) else {
        return None;
    };
    Some((line, rest))
}

fn fault(rule: u8, line: u32) -> LaunchFault
    ensures { result ≡ LaunchFault.Rule rule line }
{
    LaunchFault::Rule { rule, line }
}

fn read_first(rest: &[u8]) -> Result<&[u8], LaunchFault>
    ensures ok { IfOk result (λ left. GoesOn [] rest.now (FirstLine ∷ []) left.now) }
    ensures err { IfErr result (λ e. Stops [] rest.now e) }
{
    let Some((line, left)) = next_line(rest) else {
        return Err(fault(1, 1));
    };
    match take_first(line) {
        Ok(()) => Ok(left),
        Err(rule) => Err(fault(rule, 1)),
    }
}

fn read_qpus(rest: &[u8]) -> Result<(u64, &[u8]), LaunchFault>
    ensures ok { IfOk result (λ p. GoesOn (FirstLine ∷ []) rest.now (FirstLine ∷ QpusLine p.0 ∷ []) p.1.now) }
    ensures some { IfOk result (λ p. 1 ≤ p.0) }
    ensures few { IfOk result (λ p. p.0 ≤ 12) }
    ensures err { IfErr result (λ e. Stops (FirstLine ∷ []) rest.now e) }
{
    let Some((line, left)) = next_line(rest) else {
        return Err(fault(1, 2));
    };
    match take_qpus(line) {
        Ok(qpus) => Ok((qpus, left)),
        Err(rule) => Err(fault(rule, 2)),
    }
}

fn read_global(rest: &[u8]) -> Result<(Sizes, &[u8]), LaunchFault>
    ensures ok { IfOk result (λ p. (qpus : ℕ) → GoesOn (FirstLine ∷ QpusLine qpus ∷ []) rest.now (FirstLine ∷ QpusLine qpus ∷ GlobalLine (sizes_view p.0) ∷ []) p.1.now) }
    ensures good { IfOk result (λ p. AreGood (sizes_view p.0)) }
    ensures items { IfOk result (λ p. product (sizes_view p.0) ≤ 1048576) }
    ensures err { IfErr result (λ e. (qpus : ℕ) → Stops (FirstLine ∷ QpusLine qpus ∷ []) rest.now e) }
{
    let Some((line, left)) = next_line(rest) else {
        return Err(fault(1, 3));
    };
    match take_global(line) {
        Ok(sizes) => Ok((sizes, left)),
        Err(rule) => Err(fault(rule, 3)),
    }
}

fn read_local(rest: &[u8], global: Sizes) -> Result<(Sizes, &[u8]), LaunchFault>
    ensures ok { IfOk result (λ p. (qpus : ℕ) → GoesOn (FirstLine ∷ QpusLine qpus ∷ GlobalLine (sizes_view global) ∷ []) rest.now (head_lines qpus (sizes_view global) (sizes_view p.0)) p.1.now) }
    ensures good { IfOk result (λ p. AreGood (sizes_view p.0)) }
    ensures same { IfOk result (λ p. length (sizes_view p.0) ≡ length (sizes_view global)) }
    ensures divides { IfOk result (λ p. divides_not (sizes_view global) (sizes_view p.0) ≡ false) }
    ensures err { IfErr result (λ e. (qpus : ℕ) → Stops (FirstLine ∷ QpusLine qpus ∷ GlobalLine (sizes_view global) ∷ []) rest.now e) }
{
    let Some((line, left)) = next_line(rest) else {
        return Err(fault(1, 4));
    };
    match take_local(line, global) {
        Ok(sizes) => Ok((sizes, left)),
        Err(rule) => Err(fault(rule, 4)),
    }
}

/// What the lines of the head say.
#[derive(Clone, Copy)]
struct Head {
    qpus: u64,
    global: Sizes,
    local: Sizes,
}

/// The head, and what follows it.
fn read_head(bytes: &[u8]) -> Result<(Head, &[u8]), LaunchFault>
    ensures head { IfOk result (λ p. IsHead p.0.qpus (sizes_view p.0.global) (sizes_view p.0.local)) }
    ensures leads { IfOk result (λ p. Leads bytes.now (head_lines p.0.qpus (sizes_view p.0.global) (sizes_view p.0.local)) p.1.now) }
    ensures err { IfErr result (λ e. IsFirst bytes.now e) }
{
    let rest = read_first(bytes)?;
    let (qpus, rest) = read_qpus(rest)?;
    let (global, rest) = read_global(rest)?;
    let (local, rest) = read_local(rest, global)?;
    let head = Head {
        qpus,
        global,
        local,
    };
    Ok((head, rest))
}

/// Takes the next line after the head.
fn read_next<'a>(
    body: &mut Body,
    alloc: Global,
    rest: &'a [u8],
    number: u32,
) -> Result<&'a [u8], LaunchFault>
    requires allowed { Allowed body.old }
    requires some { 0 < length rest.now }
    requires number { number ≡ 5 + length (body_lines body.old) }
    ensures allowed { OnOk result (Allowed body.new) }
    ensures count { OnOk result (length (body_lines body.new) ≡ length (body_lines body.old) + 1) }
    ensures onward { IfOk result (λ left. Onward body.old rest.now body.new left.now) }
    ensures shorter { IfOk result (λ left. length left.now + 2 ≤ length rest.now) }
    ensures err { IfErr result (λ e. StopsAfter body.old rest.now e) }
{
    let Some((line, left)) = next_line(rest) else {
        return Err(fault(1, number));
    };
    match take_line(body, alloc, line) {
        Ok(()) => Ok(left),
        Err(Trouble::Broken(rule)) => Err(fault(rule, number)),
        Err(Trouble::NoMemory) => Err(LaunchFault::Memory),
    }
}

/// What the lines after the head say.
#[derive(Drop)]
struct Tail {
    buffers: Vec<BufferLine>,
    args: Vec<Arg>,
    schedule: Schedule,
}

/// The lines after the head, up to the end of the file.
fn read_tail(alloc: Global, rest: &[u8]) -> Result<Tail, LaunchFault>
    requires { length rest.now + 8 < 2 ^ 32 }
    ensures allowed { IfOk result (λ tail. IsBody tail.buffers.items tail.args.items (Some tail.schedule)) }
    ensures ends { IfOk result (λ tail. Ends rest.now (lines_after tail.buffers.items tail.args.items (Some tail.schedule))) }
    ensures err { IfErr result (λ e. StopsHere rest.now e) }
{
    let mut body = Body {
        buffers: Vec::new(alloc),
        args: Vec::new(alloc),
        schedule: None,
    };
    let mut left = rest;
    let mut number = 4;
    while !left.is_empty() {
        number += 1;
        left = read_next(&mut body, alloc, left, number)?;
    }
    let Body {
        buffers,
        args,
        schedule,
    } = body;
    match schedule {
        Some(schedule) => Ok(Tail {
            buffers,
            args,
            schedule,
        }),
        None => Err(fault(1, number + 1)),
    }
}

fn count_of(sizes: Sizes) -> u32
    ensures { result ≡ length (sizes_view sizes) }
{
    match sizes {
        Sizes::One(_) => 1,
        Sizes::Two(..) => 2,
        Sizes::Three(..) => 3,
    }
}

/// Three sizes: a missing one is 1.
#[tactic(auto, using(crate::proofs::HeadLaws::good_one, crate::proofs::HeadLaws::good_two, crate::proofs::HeadLaws::good_three))]
fn padded(sizes: Sizes) -> [u32; 3]
    requires { AreGood (sizes_view sizes) }
    ensures { result ≡ with_ones (sizes_view sizes) }
{
    match sizes {
        Sizes::One(x) => [x as u32, 1, 1],
        Sizes::Two(x, y) => [x as u32, y as u32, 1],
        Sizes::Three(x, y, z) => [x as u32, y as u32, z as u32],
    }
}

/// The launch that the lines say.
fn launch_of(head: Head, tail: Tail) -> Launch
    requires head { IsHead head.qpus (sizes_view head.global) (sizes_view head.local) }
    requires tail { IsBody tail.buffers.items tail.args.items (Some tail.schedule) }
    ensures valid { IsLaunch result }
    ensures lines { launch_lines result ≡ head_lines head.qpus (sizes_view head.global) (sizes_view head.local) ++ lines_after tail.buffers.items tail.args.items (Some tail.schedule) }
{
    let global = padded(head.global);
    let local = padded(head.local);
    let dims = count_of(head.global);
    let qpus = head.qpus as u32;
    Launch {
        qpus,
        global,
        local,
        dims,
        buffers: tail.buffers,
        args: tail.args,
        schedule: tail.schedule,
    }
}

/// Reads a launch, or finds the first line that violates a rule and the least rule there.
/// `Memory` says that no memory was left, and nothing of the text.
pub fn read_launch(alloc: Global, bytes: &[u8]) -> Result<Launch, LaunchFault>
    requires { length bytes.now < 2 ^ 32 }

    // The bytes are the launch's text, and no line violates a rule.
    ensures text { IfOk result (λ launch. bytes.now ≡ launch_text launch) }
    ensures clean { OnOk result (first_fault bytes.now ≡ None) }

    // It is the one that the lines say, and is valid.
    ensures launch { IfOk result (λ launch. launch ≡ launch_in bytes.now) }
    ensures valid { IfOk result IsLaunch }

    // A fault is the first one.
    ensures fault { IfErr result (λ e. IsFirst bytes.now e) }
{
    let (head, rest) = read_head(bytes)?;
    let tail = read_tail(alloc, rest)?;
    Ok(launch_of(head, tail))
}
