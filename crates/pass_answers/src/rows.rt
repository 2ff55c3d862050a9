//! The lines of the files of rows.

use crate::trial::{Finding, Outcome, Trial, attempt};
use command_answers::{Names, RowFault, bytes_of};
use q_io::Text;
use std::alloc::Global;
use std::collections::BTreeMap;

/// What the lines so far have made.
#[derive(Drop)]
pub struct PassRows {
    alloc: Global,
    names: Names,
    files: BTreeMap<Text, Vec<u8>>,
    outcome: Option<Outcome>,
    /// How many words the kernel before the last one issued.
    issued: Option<u64>,
    held: u64,
    differences: Vec<String>,
}

impl PassRows {
    pub fn new(alloc: Global) -> PassRows {
        PassRows {
            alloc,
            names: BTreeMap::new(alloc),
            files: BTreeMap::new(alloc),
            outcome: None,
            issued: None,
            held: 0,
            differences: Vec::new(alloc),
        }
    }

    /// Counts anew, with the names that there are.
    pub fn begin_file(&mut self) {
        self.held = 0;
        self.begin_case();
    }

    /// How many rows of the file hold.
    pub fn held(&self) -> u64 {
        self.held
    }

    /// The rows of the last line that don't hold.
    pub fn differences(&self) -> &[String] {
        &self.differences
    }

    fn begin_case(&mut self) {
        self.files = BTreeMap::new(self.alloc);
        self.outcome = None;
    }

    /// `NAME = VALUE`
    fn take_name(&mut self, rest: &str) -> Result<(), RowFault> {
        let (name, value) = rest.split_once(" = ").ok_or(RowFault::NoRow)?;
        let bytes = bytes_of(self.alloc, &self.names, value)?;
        self.names
            .insert(String::from_str(self.alloc, name)?, bytes)?;
        Ok(())
    }

    /// `NAME = VALUE`
    fn take_file(&mut self, rest: &str) -> Result<(), RowFault> {
        let (name, value) = rest.split_once(" = ").ok_or(RowFault::NoRow)?;
        let bytes = bytes_of(self.alloc, &self.names, value)?;
        self.files
            .insert(Text::from_slice(self.alloc, name.as_bytes())?, bytes)?;
        Ok(())
    }

    fn file(&self, name: &str) -> Result<&[u8], RowFault> {
        let key = Text::from_slice(self.alloc, name.as_bytes())?;
        match self.files.get(&key) {
            Some(bytes) => Ok(bytes),
            None => Err(RowFault::NoRow),
        }
    }

    /// `SOURCE KERNEL LAUNCH`
    fn take_kernel(&mut self, rest: &str) -> Result<(), RowFault> {
        let (source, rest) = rest.split_once(' ').ok_or(RowFault::NoRow)?;
        let (kernel, launch) = rest.split_once(' ').ok_or(RowFault::NoRow)?;
        let launch = String::from_utf8_lossy(self.alloc, self.file(launch)?)?;
        let outcome = attempt(
            self.alloc,
            Trial {
                source: self.file(source)?,
                kernel,
                launch: &launch,
                files: &self.files,
            },
        )?;
        self.issued = match &self.outcome {
            Some(Outcome::Same(finding)) => Some(finding.counts.issued),
            _ => None,
        };
        self.outcome = Some(outcome);
        Ok(())
    }

    /// What stands before the answers of a line. Where nothing does, the answers are of the line before.
    fn take_action(&mut self, action: &str) -> Result<(), RowFault> {
        if action.is_empty() {
            return Ok(());
        }
        let (kind, rest) = action.split_once(' ').unwrap_or((action, ""));
        match kind {
            "let" => self.take_name(rest),
            "case" => {
                self.begin_case();
                Ok(())
            }
            "file" => self.take_file(rest),
            "kernel" => self.take_kernel(rest),
            _ => Err(RowFault::NoRow),
        }
    }

    fn take_answers(&mut self, answers: &str) -> Result<(), RowFault> {
        let outcome = self.outcome.as_ref().ok_or(RowFault::NoRow)?;
        for wanted in answers.split("; ") {
            match difference(self.alloc, &self.names, outcome, self.issued, wanted)? {
                None => self.held = self.held.saturating_add(1),
                Some(got) => {
                    let told = format!(in self.alloc; "wanted {wanted}, got {got}")?;
                    self.differences.push(told)?;
                }
            }
        }
        Ok(())
    }

    /// Takes a line, and compares what it wants.
    pub fn take_line(&mut self, line: &str) -> Result<(), RowFault> {
        self.differences.clear();
        if line.is_empty() || line.starts_with('#') {
            return Ok(());
        }
        match line.split_once("=> ") {
            Some((action, answers)) => {
                self.take_action(action.trim_end())?;
                self.take_answers(answers)
            }
            None => self.take_action(line),
        }
    }
}

/// A number that is wanted, as another one is.
fn number(alloc: Global, label: &str, wanted: &str, got: u64) -> Result<Option<String>, RowFault> {
    if wanted.parse::<u64>()? == got {
        return Ok(None);
    }
    Ok(Some(format!(in alloc; "{label} {got}")?))
}

/// `at most N`
fn rows(alloc: Global, wanted: &str, rows: u32) -> Result<Option<String>, RowFault> {
    let most = wanted.strip_prefix("at most ").ok_or(RowFault::NoRow)?;
    if rows <= most.parse::<u32>()? {
        return Ok(None);
    }
    Ok(Some(format!(in alloc; "rows {rows}")?))
}

/// `K = VALUE`
fn buffer(
    alloc: Global,
    names: &Names,
    finding: &Finding,
    wanted: &str,
) -> Result<Option<String>, RowFault> {
    let (buffer, value) = wanted.split_once(" = ").ok_or(RowFault::NoRow)?;
    let got = finding
        .buffers
        .get(buffer.parse::<usize>()?)
        .ok_or(RowFault::NoRow)?;
    if bytes_of(alloc, names, value)?.as_slice() == got.as_slice() {
        return Ok(None);
    }
    let shown = hex::encode(alloc, got)?;
    Ok(Some(format!(in alloc; "{shown}")?))
}

/// `below twice` what the kernel before issued
fn issued(
    alloc: Global,
    before: Option<u64>,
    wanted: &str,
    issued: u64,
) -> Result<Option<String>, RowFault> {
    let before = before.ok_or(RowFault::NoRow)?;
    if wanted != "below twice" {
        return Err(RowFault::NoRow);
    }
    if issued < before.saturating_mul(2) {
        return Ok(None);
    }
    Ok(Some(format!(in alloc; "issued {issued} after {before}")?))
}

/// What a kernel that ran as it should did otherwise than wanted.
fn finding_difference(
    alloc: Global,
    names: &Names,
    finding: &Finding,
    before: Option<u64>,
    wanted: &str,
) -> Result<Option<String>, RowFault> {
    let (label, rest) = wanted.split_once(' ').unwrap_or((wanted, ""));
    match label {
        "same" => Ok(None),
        "loads" => number(alloc, label, rest, finding.counts.loads),
        "stores" => number(alloc, label, rest, finding.counts.stores),
        "issued" => issued(alloc, before, rest, finding.counts.issued),
        "rows" => rows(alloc, rest, finding.rows),
        "buffer" => buffer(alloc, names, finding, rest),
        _ => Ok(Some(String::from_str(alloc, "same")?)),
    }
}

/// What came of a kernel otherwise than wanted, nothing where it is as wanted.
fn difference(
    alloc: Global,
    names: &Names,
    outcome: &Outcome,
    before: Option<u64>,
    wanted: &str,
) -> Result<Option<String>, RowFault> {
    match outcome {
        Outcome::Same(finding) => finding_difference(alloc, names, finding, before, wanted),
        Outcome::Differs(told) if told.as_str() == wanted => Ok(None),
        Outcome::Differs(told) => Ok(Some(String::from_str(alloc, told)?)),
    }
}
