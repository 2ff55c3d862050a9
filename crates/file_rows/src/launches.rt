//! Rows of launch files: their text, in which `\n` ends a line, and the launch's parts or the rule that is violated first with its line.

use crate::made::made_launch;
use crate::row_fault::RowFault;
use crate::spelling::{after, begin_item, escaped, numbers, or_none, unescaped};
use launch_file::{Arg, BufferLine, Launch, LaunchFault, Schedule, read_launch};
use q_io::Text;
use std::alloc::{AllocError, Global};

/// The longest launch file that is read.
const MOST_BYTES: usize = 65_536;

/// The rule and the line of a fault.
pub fn fault_text(alloc: Global, fault: LaunchFault) -> Result<String, RowFault> {
    match fault {
        LaunchFault::Rule { rule, line } => Ok(format!(in alloc; "B{rule} line {line}")?),
        LaunchFault::Memory => Err(RowFault::Memory),
    }
}

fn read_text(alloc: Global, text: &str) -> Result<Result<Launch, LaunchFault>, RowFault> {
    let bytes = unescaped(alloc, text)?;
    if bytes.len() > MOST_BYTES {
        return Err(RowFault::NoRow);
    }
    Ok(read_launch(alloc, &bytes))
}

/// The launch that a row speaks of: `made VALUE`, or the text of a launch without fault.
pub fn launch_of(alloc: Global, text: &str) -> Result<Launch, RowFault> {
    if let Some(value) = text.strip_prefix("made ") {
        let Ok(value) = value.parse() else {
            return Err(RowFault::NoRow);
        };
        return Ok(made_launch(alloc, value)?);
    }
    match read_text(alloc, text)? {
        Ok(launch) => Ok(launch),
        Err(LaunchFault::Memory) => Err(RowFault::Memory),
        Err(_) => Err(RowFault::NoRow),
    }
}

fn name_text(alloc: Global, name: &Option<Text>) -> Result<String, AllocError> {
    match name {
        Some(name) => escaped(alloc, name.as_bytes()),
        None => String::from_str(alloc, "-"),
    }
}

fn buffer_text(alloc: Global, buffer: &BufferLine) -> Result<String, AllocError> {
    let size = buffer.size;
    let from = name_text(alloc, &buffer.from)?;
    let to = name_text(alloc, &buffer.to)?;
    format!(in alloc; "{size} {from} {to}")
}

fn buffer_texts(alloc: Global, buffers: &[BufferLine]) -> Result<String, AllocError> {
    let mut out = String::new(alloc);
    for buffer in buffers {
        begin_item(&mut out, " | ")?;
        out.push_str(buffer_text(alloc, buffer)?.as_str())?;
    }
    Ok(out)
}

fn arg_texts(alloc: Global, args: &[Arg]) -> Result<String, AllocError> {
    let mut out = String::new(alloc);
    for arg in args {
        begin_item(&mut out, " | ")?;
        match arg {
            Arg::Value(value) => write!(out, "value {value}")?,
            Arg::Buffer(number) => write!(out, "buffer {number}")?,
        }
    }
    Ok(out)
}

fn schedule_text(alloc: Global, schedule: &Schedule) -> Result<String, AllocError> {
    match schedule {
        Schedule::Rounds(rounds) => format!(in alloc; "rr {rounds}"),
        Schedule::Seed { seed, steps } => format!(in alloc; "seed {seed} {steps}"),
        Schedule::File { name, times } => {
            let name = escaped(alloc, name.as_bytes())?;
            format!(in alloc; "file {name} {times}")
        }
    }
}

fn parts(alloc: Global, launch: &Launch) -> Result<String, AllocError> {
    let qpus = launch.qpus;
    let global = numbers(alloc, &launch.global)?;
    let local = numbers(alloc, &launch.local)?;
    let dims = launch.dims;
    let buffers = buffer_texts(alloc, &launch.buffers)?;
    let args = arg_texts(alloc, &launch.args)?;
    let schedule = schedule_text(alloc, &launch.schedule)?;
    let buffers = or_none(&buffers);
    let args = or_none(&args);
    format!(in alloc;
        "qpus {qpus}, global {global}, local {local}, dims {dims}, buffers {buffers}, args {args}, schedule {schedule}"
    )
}

/// The answer to `read TEXT`.
pub fn answer(alloc: Global, call: &str) -> Result<String, RowFault> {
    match read_text(alloc, after(call, "read")?)? {
        Ok(launch) => Ok(parts(alloc, &launch)?),
        Err(fault) => fault_text(alloc, fault),
    }
}
