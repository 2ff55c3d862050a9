//! Rows of scripts of calls on sinks, as `mem failing 1: put_all ab, put_two c d, taken, calls`.
//!
//! The sink is `sure` or `mem`, both in memory, or `host`, the standard output.

use crate::row_fault::RowFault;
use crate::scripts::{Scripted, failing, object_of, run};
use crate::spelling::{bytes_of, halves, spelled};
use q_io::{HostSink, MemSink, Put, Sink, SureSink, put_all, put_three, put_two};
use std::alloc::Global;

fn put_pieces<S: Sink>(sink: &mut S, alloc: Global, call: &str) -> Result<Put, RowFault> {
    let (name, pieces) = halves(call, " ")?;
    if name == "put_all" {
        let piece = bytes_of(alloc, pieces)?;
        return Ok(put_all(sink, &piece));
    }
    let (first, rest) = halves(pieces, " ")?;
    let first = bytes_of(alloc, first)?;
    if name == "put_two" {
        let second = bytes_of(alloc, rest)?;
        return Ok(put_two(sink, &first, &second));
    }
    if name != "put_three" {
        return Err(RowFault::NoRow);
    }
    let (second, third) = halves(rest, " ")?;
    let second = bytes_of(alloc, second)?;
    let third = bytes_of(alloc, third)?;
    Ok(put_three(sink, &first, &second, &third))
}

/// A call that all sinks take.
fn outer_call<S: Sink>(sink: &mut S, alloc: Global, call: &str) -> Result<String, RowFault> {
    match put_pieces(sink, alloc, call)? {
        Put::Memory => Err(RowFault::Memory),
        put => Ok(format!(in alloc; "{put:?}")?),
    }
}

impl Scripted for SureSink {
    fn call(&mut self, alloc: Global, call: &str) -> Result<String, RowFault> {
        if call == "taken" {
            return Ok(spelled(alloc, self.taken())?);
        }
        outer_call(self, alloc, call)
    }
}

impl Scripted for MemSink {
    fn call(&mut self, alloc: Global, call: &str) -> Result<String, RowFault> {
        if call == "taken" {
            return Ok(spelled(alloc, self.taken())?);
        }
        if call == "calls" {
            return Ok(format!(in alloc; "{}", self.calls())?);
        }
        outer_call(self, alloc, call)
    }
}

impl<R: Print> Scripted for HostSink<'_, R> {
    fn call(&mut self, alloc: Global, call: &str) -> Result<String, RowFault> {
        outer_call(self, alloc, call)
    }
}

/// The answers to `SINK: CALLS`.
pub fn answer<R: Print>(rt: &R, alloc: Global, call: &str) -> Result<String, RowFault> {
    let (head, script) = halves(call, ": ")?;
    match object_of(head) {
        ("sure", "") => run(&mut SureSink::with(alloc), alloc, script),
        ("mem", begin) => {
            let fail = failing(alloc, begin)?;
            run(&mut MemSink::with(alloc, fail), alloc, script)
        }
        ("host", "") => run(&mut HostSink::new(rt), alloc, script),
        _ => Err(RowFault::NoRow),
    }
}
