//! A kernel is compiled by the passes and run, and its buffers are compared.

use crate::judged::verdict;
use crate::launches::{output_name, with_outputs};
use crate::report::{Counts, counts_in};
use crate::shares::{Shares, shares_of};
use clc_front::front;
use clc_inline::LimitFault;
use clc_types::Typed;
use command_answers::RowFault;
use delay_slots::loose;
use kernel_meaning::{Bytes, Verdict};
use launch_file::{Launch, read_launch};
use pass_chain::chain;
use promise::Refusal;
use q_io::{SureFiles, SureSink, Text};
use q_lane::Kind;
use std::alloc::{AllocError, Global};
use std::collections::BTreeMap;
use vc4c_core::{code, run};
use vc4q_module::{Module, write};

/// A source and a kernel of it, the text of a launch, and the files that the launch names.
#[derive(Clone, Copy)]
pub struct Trial<'a> {
    pub source: &'a [u8],
    pub kernel: &'a str,
    pub launch: &'a str,
    pub files: &'a BTreeMap<Text, Vec<u8>>,
}

/// What came of a kernel: its module's size and what its words are spent on, what its run took, and what it left in the buffers.
#[derive(Drop)]
pub struct Finding {
    pub words: usize,
    pub shares: Shares,
    pub rows: u32,
    pub counts: Counts,
    pub buffers: Vec<Vec<u8>>,
}

/// How a trial ends.
#[derive(Drop)]
pub enum Outcome {
    /// The run left the buffers that the source means.
    Same(Finding),
    /// Something is otherwise than it should be.
    Differs(String),
}

/// A run of a module.
#[derive(Drop)]
struct Ran {
    status: u8,
    report: Vec<u8>,
    files: SureFiles,
}

const MODULE: &str = "the-module";

const LAUNCH: &str = "the-launch";

fn text(alloc: Global, name: &str) -> Result<Text, AllocError> {
    Text::from_slice(alloc, name.as_bytes())
}

/// The files of a trial with the module and the launch beside them.
fn files_for(
    alloc: Global,
    files: &BTreeMap<Text, Vec<u8>>,
    module: &Module,
    launch: &str,
) -> Result<BTreeMap<Text, Vec<u8>>, RowFault> {
    let mut all = BTreeMap::new(alloc);
    for (name, bytes) in files.iter() {
        all.insert(
            Text::from_slice(alloc, name.as_bytes())?,
            Vec::from_slice(alloc, bytes)?,
        )?;
    }
    all.insert(text(alloc, MODULE)?, write(alloc, module)?)?;
    all.insert(
        text(alloc, LAUNCH)?,
        Vec::from_slice(alloc, launch.as_bytes())?,
    )?;
    Ok(all)
}

/// Runs a module by the command `exec`.
fn executed(
    alloc: Global,
    files: &BTreeMap<Text, Vec<u8>>,
    module: &Module,
    launch: &str,
) -> Result<Ran, RowFault> {
    let mut words = Vec::new(alloc);
    for word in ["exec", MODULE, LAUNCH] {
        words.push(String::from_str(alloc, word)?)?;
    }
    let mut files = SureFiles::with(alloc, files_for(alloc, files, module, launch)?);
    let mut out = SureSink::with(alloc);
    let status = code(run(alloc, &words, &mut files, &mut out));
    Ok(Ran {
        status,
        report: Vec::from_slice(alloc, out.taken())?,
        files,
    })
}

/// The first byte that differs.
fn first_difference(wanted: &[u8], got: &[u8]) -> Option<usize> {
    if wanted.len() != got.len() {
        return Some(wanted.len().min(got.len()));
    }
    wanted.iter().zip(got).position(|(a, b)| a != b)
}

/// The buffers that a run left, or how the first of them that isn't as wanted differs.
fn compared(
    alloc: Global,
    wanted: &[Bytes],
    files: &SureFiles,
) -> Result<Result<Vec<Vec<u8>>, String>, RowFault> {
    let mut buffers = Vec::new(alloc);
    for (buffer, bytes) in wanted.iter().enumerate() {
        let name = text(alloc, &output_name(alloc, buffer)?)?;
        let got = files.file(&name).unwrap_or(&[]);
        if let Some(at) = first_difference(bytes.as_slice(), got) {
            let wanted = bytes.as_slice().get(at).copied().unwrap_or(0);
            let got = got.get(at).copied().unwrap_or(0);
            return Ok(Err(format!(in alloc;
                "buffer {buffer} byte {at} is {got:02x}, not {wanted:02x}"
            )?));
        }
        buffers.push(Vec::from_slice(alloc, got)?)?;
    }
    Ok(Ok(buffers))
}

fn finding_of(
    alloc: Global,
    module: &Module,
    ran: &Ran,
    wanted: &[Bytes],
) -> Result<Outcome, RowFault> {
    let report = String::from_utf8_lossy(alloc, &ran.report)?;
    if ran.status != 0 {
        let status = ran.status;
        let end = report.lines().next().unwrap_or("");
        return Ok(Outcome::Differs(format!(in alloc; "status {status}, {end}")?));
    }
    let counts = counts_in(&report).ok_or(RowFault::NoRow)?;
    Ok(match compared(alloc, wanted, &ran.files)? {
        Err(difference) => Outcome::Differs(difference),
        Ok(buffers) => Outcome::Same(Finding {
            words: module.words.len(),
            shares: shares_of(&module.words),
            rows: module.rows,
            counts,
            buffers,
        }),
    })
}

/// How a refused source is told.
fn refused(alloc: Global, refusal: Refusal) -> Result<Outcome, RowFault> {
    match refusal {
        Refusal::Memory => Err(RowFault::Memory),
        Refusal::Rule { rule, at } => {
            let name = str::from_utf8(rule.name()).unwrap_or("no name");
            Ok(Outcome::Differs(format!(in alloc; "refused {name} at {at}")?))
        }
    }
}

/// How a kernel is told that passes a limit.
fn limited(alloc: Global, fault: LimitFault) -> Result<Outcome, RowFault> {
    match fault {
        LimitFault::Memory => Err(RowFault::Memory),
        LimitFault::N1 { count } => Ok(Outcome::Differs(format!(in alloc; "N1 {count}")?)),
        LimitFault::N2 { count } => Ok(Outcome::Differs(format!(in alloc; "N2 {count}")?)),
    }
}

/// How a launch is told that isn't safe.
fn unsafe_launch(alloc: Global, verdict: &Verdict) -> Result<Outcome, RowFault> {
    let told = match verdict {
        Verdict::Safe { .. } => String::from_str(alloc, "safe")?,
        Verdict::Race { buffer, byte, .. } => {
            format!(in alloc; "the launch has a race at buffer {buffer} byte {byte}")?
        }
        Verdict::Bounds { item, at } => {
            format!(in alloc; "item {item} is out of bounds at byte {at}")?
        }
        Verdict::Spent { item } => format!(in alloc; "item {item} is spent")?,
    };
    Ok(Outcome::Differs(told))
}

/// A kernel of a typed tree, and the module that the passes make of it.
#[derive(Clone, Copy)]
struct Compiled<'a> {
    typed: &'a Typed,
    kernel: u32,
    module: &'a Module,
}

/// Runs a module under a launch that is safe, and compares the buffers.
fn run_compared(
    alloc: Global,
    trial: Trial<'_>,
    module: &Module,
    launch: &str,
    wanted: &[Bytes],
) -> Result<Outcome, RowFault> {
    let ran = executed(alloc, trial.files, module, launch)?;
    finding_of(alloc, module, &ran, wanted)
}

/// Runs a module where the launch is safe by the source.
fn judged(
    alloc: Global,
    trial: Trial<'_>,
    compiled: Compiled<'_>,
    text: &str,
    launch: &Launch,
) -> Result<Outcome, RowFault> {
    match verdict(alloc, compiled.typed, compiled.kernel, launch, trial.files)? {
        Verdict::Safe { buffers, .. } => run_compared(
            alloc,
            trial,
            compiled.module,
            text,
            &buffers,
        ),
        other => unsafe_launch(alloc, &other),
    }
}

/// The launch that a text tells, where it tells one.
fn launch_of(alloc: Global, text: &str) -> Option<Launch> {
    let bytes = text.as_bytes();
    if bytes.len() > u32::MAX as usize {
        return None;
    }
    match read_launch(alloc, bytes) {
        Ok(launch) => Some(launch),
        Err(_) => None,
    }
}

/// Runs a tight module under the launch.
fn launched(alloc: Global, trial: Trial<'_>, compiled: Compiled<'_>) -> Result<Outcome, RowFault> {
    let module = compiled.module;
    if let Some(at) = loose(&module.words) {
        return Ok(Outcome::Differs(format!(in alloc; "loose at {at}")?));
    }
    let text = with_outputs(alloc, trial.launch)?;
    match launch_of(alloc, &text) {
        Some(launch) => judged(alloc, trial, compiled, &text, &launch),
        None => Ok(Outcome::Differs(String::from_str(alloc, "no launch")?)),
    }
}

/// Compiles a kernel, and runs it.
fn compile_and_run(
    alloc: Global,
    trial: Trial<'_>,
    typed: &Typed,
    kernel: u32,
    kinds: Vec<Kind>,
) -> Result<Outcome, RowFault> {
    match chain(alloc, typed, kernel, kinds) {
        Ok(module) => launched(
            alloc,
            trial,
            Compiled {
                typed,
                kernel,
                module: &module,
            },
        ),
        Err(fault) => limited(alloc, fault),
    }
}

/// Compiles the kernel by the passes, runs it under the launch's schedule, and compares its buffers with those that its source means.
pub fn attempt(alloc: Global, trial: Trial<'_>) -> Result<Outcome, RowFault> {
    match front(alloc, trial.source, trial.kernel.as_bytes()) {
        Ok(wanted) => {
            let kinds = wanted.kinds;
            compile_and_run(alloc, trial, &wanted.typed, wanted.kernel, kinds)
        }
        Err(refusal) => refused(alloc, refusal),
    }
}
