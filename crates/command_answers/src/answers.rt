//! What is wanted of a command, against what it did.

use crate::case::{Left, Outcome};
use crate::fault::RowFault;
use crate::value::{Names, bytes_of};
use q_io::Text;
use std::alloc::{AllocError, Global};

/// So many bytes of an answer are told at most.
const TOLD: usize = 400;

/// The bytes as a text in quotes, in which `\n` stands for byte 10.
fn quoted(alloc: Global, bytes: &[u8]) -> Result<String, AllocError> {
    let text = String::from_utf8_lossy(alloc, bytes.get(..TOLD).unwrap_or(bytes))?;
    let mut told = String::from_str(alloc, "\"")?;
    for (k, line) in text.split('\n').enumerate() {
        if k > 0 {
            told.push_str("\\n")?;
        }
        told.push_str(line)?;
    }
    told.push_str("\"")?;
    Ok(told)
}

fn status(alloc: Global, outcome: &Outcome, wanted: &str) -> Result<Option<String>, RowFault> {
    let status = outcome.status;
    if wanted.parse::<u8>()? == status {
        return Ok(None);
    }
    Ok(Some(format!(in alloc; "status {status}")?))
}

fn output(
    alloc: Global,
    names: &Names,
    outcome: &Outcome,
    wanted: &str,
) -> Result<Option<String>, RowFault> {
    if bytes_of(alloc, names, wanted)?.as_slice() == outcome.output.as_slice() {
        return Ok(None);
    }
    let got = quoted(alloc, &outcome.output)?;
    Ok(Some(format!(in alloc; "output {got}")?))
}

/// What is told of a file.
fn told(alloc: Global, name: &str, bytes: Option<&[u8]>) -> Result<String, RowFault> {
    let Some(bytes) = bytes else {
        return Ok(format!(in alloc; "no file {name}")?);
    };
    let shown = hex::encode(alloc, bytes.get(..TOLD).unwrap_or(bytes))?;
    Ok(format!(in alloc; "file {name} = {shown}")?)
}

fn file(
    alloc: Global,
    names: &Names,
    outcome: &Outcome,
    wanted: &str,
) -> Result<Option<String>, RowFault> {
    let (name, value) = wanted.split_once(" = ").ok_or(RowFault::NoRow)?;
    let key = Text::from_slice(alloc, name.as_bytes())?;
    let got = outcome.left.file(&key)?;
    if got == Some(bytes_of(alloc, names, value)?.as_slice()) {
        return Ok(None);
    }
    Ok(Some(told(alloc, name, got)?))
}

fn no_file(alloc: Global, outcome: &Outcome, wanted: &str) -> Result<Option<String>, RowFault> {
    let name = wanted.strip_prefix("file ").ok_or(RowFault::NoRow)?;
    let key = Text::from_slice(alloc, name.as_bytes())?;
    match outcome.left.file(&key)? {
        None => Ok(None),
        got => Ok(Some(told(alloc, name, got)?)),
    }
}

/// How many calls of the files there were, or pieces of the output.
fn count(
    alloc: Global,
    outcome: &Outcome,
    kind: &str,
    wanted: &str,
) -> Result<Option<String>, RowFault> {
    let Left::Failing { files, pieces } = &outcome.left else {
        return Err(RowFault::NoRow);
    };
    let got = if kind == "calls" {
        files.calls()
    } else {
        *pieces
    };
    if wanted.parse::<u64>()? == got {
        return Ok(None);
    }
    Ok(Some(format!(in alloc; "{kind} {got}")?))
}

/// What the command did otherwise than wanted, nothing where the answer is as wanted.
pub fn difference(
    alloc: Global,
    names: &Names,
    outcome: &Outcome,
    wanted: &str,
) -> Result<Option<String>, RowFault> {
    let (kind, rest) = wanted.split_once(' ').ok_or(RowFault::NoRow)?;
    match kind {
        "status" => status(alloc, outcome, rest),
        "output" => output(alloc, names, outcome, rest),
        "file" => file(alloc, names, outcome, rest),
        "no" => no_file(alloc, outcome, rest),
        "calls" | "pieces" => count(alloc, outcome, kind, rest),
        _ => Err(RowFault::NoRow),
    }
}
