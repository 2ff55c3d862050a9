//! The lines after the head: buffers, arguments and the schedule.

ghost use Rattle.std.specs.Prelude.{◌≡◌, ◌<◌, ◌≤◌, ◌^◌, nat_abs, option_map, IfOk, IfNone};
ghost use Rattle.launch_file.specs.Launches.{IsSchedule, is_name_in, is_written};
ghost use Rattle.launch_file.specs.LineText.{BufferIs, ArgValue, ArgBuffer, IsProper};
ghost use Rattle.launch_file.specs.LaunchText.{schedule_line};
ghost use Rattle.launch_file.specs.Reading.{Takes, Allowed, is_written_to, buffer_rule};
ghost use Rattle.launch_file.specs.Views.{line_view, now};

use crate::launch::{Arg, BufferLine, Schedule};
use crate::lines::Line;
use q_io::Text;
use std::alloc::{AllocError, Global};

/// What has been read after the four lines of the head.
#[derive(Drop)]
pub struct Body {
    pub buffers: Vec<BufferLine>,
    pub args: Vec<Arg>,
    pub schedule: Option<Schedule>,
}

/// Why a line isn't taken.
#[derive(Clone, Copy, Debug, PartialEq, Eq)]
pub enum Trouble {
    Broken(u8),
    NoMemory,
}

impl From<AllocError> for Trouble {
    ghost use Rattle.std.specs.Prelude.{◌≡◌};
    ghost use Rattle.launch_file.specs.declared.body.Trouble.TheVariants.{NoMemory};

    ghost from_gives = { λ _ e. e ≡ NoMemory };

    fn from(_error: AllocError) -> Trouble {
        Trouble::NoMemory
    }
}

fn has_output(buffer: &BufferLine, name: &[u8]) -> bool
    ensures { result ≡ is_name_in buffer.now.to name.now }
{
    match &buffer.to {
        Some(other) => other.as_bytes() == name,
        None => false,
    }
}

fn is_taken(buffers: &[BufferLine], to: Option<&[u8]>) -> bool
    ensures { result ≡ is_written_to buffers.now (option_map now to.entry) }
{
    match to {
        Some(name) => is_output(buffers, name),
        None => false,
    }
}

fn is_output(buffers: &[BufferLine], name: &[u8]) -> bool
    ensures { result ≡ is_written buffers.now name.now }
{
    for buffer in buffers {
        if has_output(buffer, name) {
            return true;
        }
    }
    false
}

/// The least rule that a further buffer's line violates.
#[tactic(auto, unfolding(crate::specs::Reading::buffer_rule))]
fn rule_of_buffer(body: &Body, size: u64, to: Option<&[u8]>) -> Option<u8>
    ensures rule { result ≡ buffer_rule body.now.buffers.items body.now.args.items body.now.schedule size (option_map now to.entry) }
    ensures small { IfNone result (size ≤ 16777216) }
{
    if !(body.args.is_empty() && body.schedule.is_none()) {
        return Some(1);
    }
    if body.buffers.len() >= 16 {
        return Some(6);
    }
    if size > 16_777_216 {
        return Some(7);
    }
    if is_taken(&body.buffers, to) {
        return Some(12);
    }
    None
}

fn owned(alloc: Global, name: Option<&[u8]>) -> Result<Option<Text>, AllocError>
    ensures { IfOk result (λ text. text ≡ option_map now name.entry) }
{
    match name {
        Some(bytes) => Ok(Some(Text::from_slice(alloc, bytes)?)),
        None => Ok(None),
    }
}

fn take_buffer(
    body: &mut Body,
    alloc: Global,
    size: u64,
    from: Option<&[u8]>,
    to: Option<&[u8]>,
) -> Result<(), Trouble>
    requires allowed { Allowed body.old }
    requires proper { IsProper (BufferIs size (option_map now from) (option_map now to)) }
    ensures { Takes body.old body.new (BufferIs size (option_map now from.entry) (option_map now to.entry)) result }
{
    if let Some(rule) = rule_of_buffer(body, size, to) {
        return Err(Trouble::Broken(rule));
    }
    let from = owned(alloc, from)?;
    let to = owned(alloc, to)?;
    let size = size as u32;
    let buffer = BufferLine { size, from, to };
    if let Err(_error) = body.buffers.push(buffer) {
        return Err(Trouble::NoMemory);
    }
    Ok(())
}

fn take_value(body: &mut Body, value: i128) -> Result<(), Trouble>
    requires allowed { Allowed body.old }
    requires proper { nat_abs value < 2 ^ 64 }
    ensures { Takes body.old body.new (ArgValue value) result }
{
    if body.schedule.is_some() {
        return Err(Trouble::Broken(1));
    }
    if let Err(_error) = body.args.push(Arg::Value(value)) {
        return Err(Trouble::NoMemory);
    }
    Ok(())
}

fn take_number(body: &mut Body, number: u64) -> Result<(), Trouble>
    requires allowed { Allowed body.old }
    ensures { Takes body.old body.new (ArgBuffer number) result }
{
    if body.schedule.is_some() {
        return Err(Trouble::Broken(1));
    }
    if number >= body.buffers.len() as u64 {
        return Err(Trouble::Broken(11));
    }
    let number = number as u32;
    if let Err(_error) = body.args.push(Arg::Buffer(number)) {
        return Err(Trouble::NoMemory);
    }
    Ok(())
}

fn take_schedule(body: &mut Body, schedule: Schedule) -> Result<(), Trouble>
    requires allowed { Allowed body.old }
    requires proper { IsSchedule schedule }
    ensures { Takes body.old body.new (schedule_line schedule) result }
{
    if body.schedule.is_some() {
        return Err(Trouble::Broken(1));
    }
    body.schedule = Some(schedule);
    Ok(())
}

/// Takes a line after the head, or says which rule it violates.
pub fn take_line(body: &mut Body, alloc: Global, line: Line<'_>) -> Result<(), Trouble>
    requires allowed { Allowed body.old }
    requires proper { IsProper (line_view line) }
    ensures { Takes body.old body.new (line_view line.entry) result }
{
    match line {
        Line::First => Err(Trouble::Broken(1)),
        Line::Qpus(_) => Err(Trouble::Broken(1)),
        Line::Global(_) => Err(Trouble::Broken(1)),
        Line::Local(_) => Err(Trouble::Broken(1)),
        Line::Buffer { size, from, to } => take_buffer(body, alloc, size, from, to),
        Line::Value(value) => take_value(body, value),
        Line::BufferArg(number) => take_number(body, number),
        Line::Rounds(rounds) => take_schedule(body, Schedule::Rounds(rounds)),
        Line::Seed { seed, steps } => take_schedule(body, Schedule::Seed { seed, steps }),
        Line::File { name, times } => {
            let name = Text::from_slice(alloc, name)?;
            take_schedule(body, Schedule::File { name, times })
        }
    }
}
