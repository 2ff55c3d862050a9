//! The lines of the files of rows.

use crate::answers::difference;
use crate::case::{Case, Outcome, faults_of, run_over, words_of};
use crate::fault::RowFault;
use crate::value::{Names, bytes_of};
use std::alloc::Global;
use std::collections::BTreeMap;

/// What the lines so far have made.
#[derive(Drop)]
pub struct Rows {
    alloc: Global,
    names: Names,
    case: Case,
    outcome: Option<Outcome>,
    held: u64,
    differences: Vec<String>,
}

impl Rows {
    pub fn new(alloc: Global) -> Rows {
        Rows {
            alloc,
            names: BTreeMap::new(alloc),
            case: Case::new(alloc),
            outcome: None,
            held: 0,
            differences: Vec::new(alloc),
        }
    }

    /// Counts anew, with the names that there are.
    pub fn begin_file(&mut self) {
        self.held = 0;
        self.begin_case();
    }

    /// How many rows of the file hold.
    pub fn held(&self) -> u64 {
        self.held
    }

    /// The rows of the last line that don't hold.
    pub fn differences(&self) -> &[String] {
        &self.differences
    }

    fn begin_case(&mut self) {
        self.case = Case::new(self.alloc);
        self.outcome = None;
    }

    /// `NAME = VALUE`
    fn take_name(&mut self, rest: &str) -> Result<(), RowFault> {
        let (name, value) = rest.split_once(" = ").ok_or(RowFault::NoRow)?;
        let bytes = bytes_of(self.alloc, &self.names, value)?;
        self.names
            .insert(String::from_str(self.alloc, name)?, bytes)?;
        Ok(())
    }

    /// `NAME = VALUE`
    fn take_file(&mut self, rest: &str) -> Result<(), RowFault> {
        let (name, value) = rest.split_once(" = ").ok_or(RowFault::NoRow)?;
        let bytes = bytes_of(self.alloc, &self.names, value)?;
        self.case
            .files
            .insert(String::from_str(self.alloc, name)?, bytes)?;
        self.outcome = None;
        Ok(())
    }

    fn take_command(&mut self, rest: &str) -> Result<(), RowFault> {
        self.case.words = words_of(self.alloc, rest)?;
        self.outcome = Some(self.case.run(self.alloc)?);
        Ok(())
    }

    fn take_next_command(&mut self, rest: &str) -> Result<(), RowFault> {
        let outcome = self.outcome.take().ok_or(RowFault::NoRow)?;
        let files = outcome.into_files().ok_or(RowFault::NoRow)?;
        let words = words_of(self.alloc, rest)?;
        self.outcome = Some(run_over(self.alloc, &words, files)?);
        Ok(())
    }

    fn take_faults(&mut self, rest: &str) -> Result<(), RowFault> {
        let faults = faults_of(self.alloc, rest)?;
        self.outcome = Some(self.case.run_failing(self.alloc, faults)?);
        Ok(())
    }

    /// `NAME LIMIT`
    fn take_longer(&mut self, rest: &str) -> Result<(), RowFault> {
        let (name, limit) = rest.split_once(' ').ok_or(RowFault::NoRow)?;
        self.outcome = Some(self.case.run_longer(self.alloc, name, limit.parse()?)?);
        Ok(())
    }

    /// What stands before the answers of a line. Where nothing does, the answers are of the line before.
    fn take_action(&mut self, action: &str) -> Result<(), RowFault> {
        if action.is_empty() {
            return Ok(());
        }
        let (kind, rest) = action.split_once(' ').unwrap_or((action, ""));
        match kind {
            "let" => self.take_name(rest),
            "case" => {
                self.begin_case();
                Ok(())
            }
            "file" => self.take_file(rest),
            "command" => self.take_command(rest),
            "then" => self.take_next_command(rest),
            "fail" => self.take_faults(rest),
            "longer" => self.take_longer(rest),
            _ => Err(RowFault::NoRow),
        }
    }

    fn take_answers(&mut self, answers: &str) -> Result<(), RowFault> {
        let outcome = self.outcome.as_ref().ok_or(RowFault::NoRow)?;
        for wanted in answers.split("; ") {
            match difference(self.alloc, &self.names, outcome, wanted)? {
                None => self.held = self.held.saturating_add(1),
                Some(got) => {
                    let told = format!(in self.alloc; "wanted {wanted}, got {got}")?;
                    self.differences.push(told)?;
                }
            }
        }
        Ok(())
    }

    /// Takes a line, and compares what it wants.
    pub fn take_line(&mut self, line: &str) -> Result<(), RowFault> {
        self.differences.clear();
        if line.is_empty() || line.starts_with('#') {
            return Ok(());
        }
        match line.split_once("=> ") {
            Some((action, answers)) => {
                self.take_action(action.trim_end())?;
                self.take_answers(answers)
            }
            None => self.take_action(line),
        }
    }
}
