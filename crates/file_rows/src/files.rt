//! Rows of scripts of calls on files, as `mem failing 1: write a old, read a 9, file a, calls`.
//!
//! The files are `sure` or `mem`, both in memory, or `host`, those of the system. A row of `system` removes one of the latter.

use crate::names::name_of;
use crate::row_fault::RowFault;
use crate::scripts::{Scripted, failing, object_of, run};
use crate::spelling::{after, bytes_of, halves, number, spelled};
use q_io::{Files, Got, HostFiles, MemFiles, Put, SureFiles};
use std::alloc::{AllocError, Global};
use std::collections::BTreeMap;
use std::{fs, rt, str};

fn put_text(alloc: Global, put: Put) -> Result<String, RowFault> {
    match put {
        Put::Memory => Err(RowFault::Memory),
        other => Ok(format!(in alloc; "{other:?}")?),
    }
}

fn got_text(alloc: Global, got: Got) -> Result<String, RowFault> {
    match got {
        Got::Found(bytes) => {
            let bytes = spelled(alloc, &bytes)?;
            Ok(format!(in alloc; "Found {bytes}")?)
        }
        Got::TooLong => Ok(String::from_str(alloc, "TooLong")?),
        Got::Missing => Ok(String::from_str(alloc, "Missing")?),
        Got::Failed => Ok(String::from_str(alloc, "Failed")?),
        Got::Memory => Err(RowFault::Memory),
    }
}

/// What is told of a file in memory.
fn told(alloc: Global, bytes: Option<&[u8]>) -> Result<String, AllocError> {
    match bytes {
        Some(bytes) => spelled(alloc, bytes),
        None => String::from_str(alloc, "none"),
    }
}

fn path_of(name: &[u8]) -> Result<&str, RowFault> {
    str::from_utf8(name).ok().ok_or(RowFault::NoRow)
}

fn write_file<F: Files>(files: &mut F, alloc: Global, text: &str) -> Result<String, RowFault> {
    let (name, bytes) = halves(text, " ")?;
    let name = bytes_of(alloc, name)?;
    let name = path_of(&name)?;
    let bytes = bytes_of(alloc, bytes)?;
    put_text(alloc, files.write(name, &bytes))
}

fn read_file<F: Files>(files: &mut F, alloc: Global, text: &str) -> Result<String, RowFault> {
    let (name, limit) = halves(text, " ")?;
    let name = bytes_of(alloc, name)?;
    let name = path_of(&name)?;
    let limit = number(limit)?;
    got_text(alloc, files.read(name, limit))
}

/// A call that all files take: `write NAME BYTES` or `read NAME LIMIT`.
fn outer_call<F: Files>(files: &mut F, alloc: Global, call: &str) -> Result<String, RowFault> {
    match halves(call, " ")? {
        ("write", text) => write_file(files, alloc, text),
        ("read", text) => read_file(files, alloc, text),
        _ => Err(RowFault::NoRow),
    }
}

impl Scripted for SureFiles {
    fn call(&mut self, alloc: Global, call: &str) -> Result<String, RowFault> {
        if let Some(name) = call.strip_prefix("file ") {
            let name = name_of(alloc, name)?;
            return Ok(told(alloc, self.file(&name))?);
        }
        outer_call(self, alloc, call)
    }
}

impl Scripted for MemFiles {
    fn call(&mut self, alloc: Global, call: &str) -> Result<String, RowFault> {
        if call == "calls" {
            return Ok(format!(in alloc; "{}", self.calls())?);
        }
        if let Some(name) = call.strip_prefix("file ") {
            let name = name_of(alloc, name)?;
            return Ok(told(alloc, self.file(&name))?);
        }
        outer_call(self, alloc, call)
    }
}

impl<R: rt::Files> Scripted for HostFiles<'_, R> {
    fn call(&mut self, alloc: Global, call: &str) -> Result<String, RowFault> {
        outer_call(self, alloc, call)
    }
}

/// Files in memory that begin with none, or with one as in `holding a old`.
fn sure_files(alloc: Global, begin: &str) -> Result<SureFiles, RowFault> {
    let mut held = BTreeMap::new(alloc);
    if begin.is_empty() {
        return Ok(SureFiles::with(alloc, held));
    }
    let (name, bytes) = halves(after(begin, "holding")?, " ")?;
    let name = name_of(alloc, name)?;
    let bytes = bytes_of(alloc, bytes)?;
    held.insert(name, bytes)?;
    Ok(SureFiles::with(alloc, held))
}

fn remove<R: rt::Files>(rt: &R, alloc: Global, script: &str) -> Result<String, RowFault> {
    let name = bytes_of(alloc, after(script, "remove")?)?;
    let name = path_of(&name)?;
    let text = match fs::remove_file(rt, name) {
        Ok(()) => "Done",
        Err(_) => "Failed",
    };
    Ok(String::from_str(alloc, text)?)
}

/// The answers to `FILES: CALLS`.
pub fn answer<R: rt::Files>(rt: &R, alloc: Global, call: &str) -> Result<String, RowFault> {
    let (head, script) = halves(call, ": ")?;
    match object_of(head) {
        ("sure", begin) => {
            let mut files = sure_files(alloc, begin)?;
            run(&mut files, alloc, script)
        }
        ("mem", begin) => {
            let fail = failing(alloc, begin)?;
            let mut files = MemFiles::with(alloc, BTreeMap::new(alloc), fail);
            run(&mut files, alloc, script)
        }
        ("host", "") => {
            let mut files = HostFiles::new(rt, alloc);
            run(&mut files, alloc, script)
        }
        ("system", "") => remove(rt, alloc, script),
        _ => Err(RowFault::NoRow),
    }
}
