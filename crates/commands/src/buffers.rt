//! The buffers of a launch: read before the run, and written after it.

ghost use Rattle.std.specs.Prelude.{◌≡◌, ◌≤◌, [], true, false, length, map, List, ℕ, vec_len, All, IfOk, IfErr, OnOk};
ghost use Rattle.launch_file.specs.Layout.{buffer_lens};
ghost use Rattle.commands.specs.Plan.{no_sources, Plan, Ends, Leads};
ghost use Rattle.commands.specs.Buffers.{filled, read_buffer, read_buffers, write_buffer, write_buffers, HasTextNames};
ghost use Rattle.qpu_machine.specs.Reachable.{AreBytes};
ghost use Rattle.promise.specs.Openings.{AreAllBytes};
ghost use Rattle.promise.specs.Faithful.{buffers_of};

use crate::names::text_of;
use crate::places::{each_below, read_place, say_trouble, write_place};
use crate::status::Status;
use launch_file::BufferLine;
use q_io::{Files, Sink, Text};
use qpu_machine::Machine;
use std::alloc::Global;

/// The bytes, and zeros up to the size.
fn fill(mut bytes: Vec<u8>, size: u32) -> Result<Text, Status>
    requires { vec_len bytes ≤ size }
    ensures ok { IfOk result (λ text. text ≡ filled size bytes.items) }
    ensures size { IfOk result (λ text. length text ≡ size) }
    ensures bytes { IfOk result AreBytes }
    ensures err { IfErr result (λ status. status ≡ Status.Memory) }
{
    match bytes.resize(size as usize, 0) {
        Ok(()) => {
            each_below(&bytes);
            Ok(Text::new(bytes))
        }
        Err(_) => Err(Status::Memory),
    }
}

/// A buffer from its file, filled up with zeros.
fn fill_buffer<F: Files, S: Sink>(
    alloc: Global,
    line: &BufferLine,
    files: &mut F,
    out: &mut S,
) -> Result<Text, Status>
    requires { HasTextNames line.now }
    ensures ok { IfOk result (λ bytes. (next : List ℕ → Plan)
        → Leads no_sources true (read_buffer line.now next) (F.state files.old) (S.state out.old)
        (next bytes) (F.state files.new) (S.state out.new)) }
    ensures size { IfOk result (λ bytes. length bytes ≡ line.now.size) }
    ensures bytes { IfOk result AreBytes }
    ensures err { IfErr result (λ status. (next : List ℕ → Plan)
        → Ends no_sources true (read_buffer line.now next) (F.state files.old) (S.state out.old)
        (F.state files.new) (S.state out.new) status) }
{
    match &line.from {
        None => fill(Vec::new(alloc), line.size),
        Some(name) => match read_place(files, text_of(name), u64::from(line.size)) {
            Ok(bytes) => fill(bytes, line.size),
            Err(trouble) => Err(say_trouble(out, trouble, text_of(name))),
        },
    }
}

/// The buffers of a launch, each from its file.
pub fn fill_buffers<F: Files, S: Sink>(
    alloc: Global,
    lines: &[BufferLine],
    files: &mut F,
    out: &mut S,
) -> Result<Vec<Text>, Status>
    requires { All HasTextNames lines.now }
    ensures sizes { IfOk result (λ buffers. map length buffers.items ≡ buffer_lens lines.now) }
    ensures bytes { IfOk result (λ buffers. AreAllBytes buffers.items) }
    ensures ok { IfOk result (λ buffers. (next : List (List ℕ) → Plan)
        → Leads no_sources true (read_buffers lines.now [] next) (F.state files.old) (S.state out.old)
        (next buffers.items) (F.state files.new) (S.state out.new)) }
    ensures err { IfErr result (λ status. (next : List (List ℕ) → Plan)
        → Ends no_sources true (read_buffers lines.now [] next) (F.state files.old) (S.state out.old)
        (F.state files.new) (S.state out.new) status) }
{
    let mut buffers = Vec::new(alloc);
    for line in lines {
        let buffer = match fill_buffer(alloc, line, files, out) {
            Ok(buffer) => buffer,
            Err(status) => return Err(status),
        };
        match buffers.push(buffer) {
            Ok(()) => {}
            Err(_) => return Err(Status::Memory),
        }
    }
    Ok(buffers)
}

/// Writes a buffer, if it has an output name.
fn store_buffer<F: Files, S: Sink>(
    line: &BufferLine,
    bytes: &[u8],
    files: &mut F,
    out: &mut S,
) -> Result<(), Status>
    requires { HasTextNames line.now }
    ensures ok { OnOk result ((next : Plan)
        → Leads no_sources false (write_buffer line.now bytes.now next) (F.state files.old) (S.state out.old)
        next (F.state files.new) (S.state out.new)) }
    ensures err { IfErr result (λ status. (next : Plan)
        → Ends no_sources false (write_buffer line.now bytes.now next) (F.state files.old) (S.state out.old)
        (F.state files.new) (S.state out.new) status) }
{
    match &line.to {
        None => Ok(()),
        Some(name) => match write_place(files, text_of(name), bytes) {
            Ok(()) => Ok(()),
            Err(trouble) => Err(say_trouble(out, trouble, text_of(name))),
        },
    }
}

/// Writes the machine's buffers with an output name, in order.
pub fn store_buffers<F: Files, S: Sink>(
    lines: &[BufferLine],
    machine: &Machine,
    files: &mut F,
    out: &mut S,
) -> Result<(), Status>
    requires names { All HasTextNames lines.now }
    requires same { length lines.now ≡ length machine.now.fixed.buffers }
    requires few { length lines.now ≤ 16 }
    ensures ok { OnOk result ((next : Plan)
        → Leads no_sources false (write_buffers lines.now (buffers_of machine.now) next) (F.state files.old) (S.state out.old)
        next (F.state files.new) (S.state out.new)) }
    ensures err { IfErr result (λ status. (next : Plan)
        → Ends no_sources false (write_buffers lines.now (buffers_of machine.now) next) (F.state files.old) (S.state out.old)
        (F.state files.new) (S.state out.new) status) }
{
    for i in 0..lines.len() {
        match store_buffer(&lines[i], machine.buffer(i as u32), files, out) {
            Ok(()) => {}
            Err(status) => return Err(status),
        }
    }
    Ok(())
}
