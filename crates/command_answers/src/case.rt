//! A case: the files that are there before a command, and the command's words.

use crate::fault::RowFault;
use crate::longer::LongerFile;
use q_io::{MemFiles, MemSink, SureFiles, SureSink, Text};
use std::alloc::{AllocError, Global};
use std::collections::BTreeMap;
use vc4c_core::{code, run};

#[derive(Drop)]
pub struct Case {
    pub files: BTreeMap<String, Vec<u8>>,
    pub words: Vec<String>,
}

/// The numbers of the calls of the files, and of the pieces of the output, that fail.
#[derive(Drop)]
pub struct Faults {
    calls: Vec<u64>,
    pieces: Vec<u64>,
}

/// What a command left.
#[derive(Drop)]
pub enum Left {
    /// Files of which no call failed.
    Sure(SureFiles),
    /// Files of which some calls may have failed, and how many pieces came to the output.
    Failing { files: MemFiles, pieces: u64 },
    /// No files that are known.
    Unknown,
}

/// How a command ended.
#[derive(Drop)]
pub struct Outcome {
    pub status: u8,
    pub output: Vec<u8>,
    pub left: Left,
}

impl Outcome {
    /// The files that were left, where none of their calls failed.
    pub fn into_files(self) -> Option<SureFiles> {
        let Outcome { left, .. } = self;
        match left {
            Left::Sure(files) => Some(files),
            _ => None,
        }
    }
}

impl Left {
    /// The content of a file, None where there is none; no row may ask for one where the files aren't known.
    pub fn file(&self, name: &Text) -> Result<Option<&[u8]>, RowFault> {
        match self {
            Left::Sure(files) => Ok(files.file(name)),
            Left::Failing { files, .. } => Ok(files.file(name)),
            Left::Unknown => Err(RowFault::NoRow),
        }
    }
}

/// Reads `none`, or faults as `call 2, piece 0`.
pub fn faults_of(alloc: Global, text: &str) -> Result<Faults, RowFault> {
    let mut calls = Vec::new(alloc);
    let mut pieces = Vec::new(alloc);
    if text == "none" {
        return Ok(Faults { calls, pieces });
    }
    for fault in text.split(", ") {
        let (kind, number) = fault.split_once(' ').ok_or(RowFault::NoRow)?;
        match kind {
            "call" => calls.push(number.parse()?)?,
            "piece" => pieces.push(number.parse()?)?,
            _ => return Err(RowFault::NoRow),
        }
    }
    Ok(Faults { calls, pieces })
}

/// The words of a line, of which `""` is the empty one.
pub fn words_of(alloc: Global, line: &str) -> Result<Vec<String>, AllocError> {
    let mut words = Vec::new(alloc);
    for piece in line.split_whitespace() {
        let word = if piece == "\"\"" { "" } else { piece };
        words.push(String::from_str(alloc, word)?)?;
    }
    Ok(words)
}

/// Runs a command over files and an output that never fail.
pub fn run_over(
    alloc: Global,
    words: &[String],
    mut files: SureFiles,
) -> Result<Outcome, AllocError> {
    let mut out = SureSink::with(alloc);
    let status = run(alloc, words, &mut files, &mut out);
    Ok(Outcome {
        status: code(status),
        output: Vec::from_slice(alloc, out.taken())?,
        left: Left::Sure(files),
    })
}

impl Case {
    pub fn new(alloc: Global) -> Case {
        Case {
            files: BTreeMap::new(alloc),
            words: Vec::new(alloc),
        }
    }

    fn tree(&self, alloc: Global) -> Result<BTreeMap<Text, Vec<u8>>, AllocError> {
        let mut tree = BTreeMap::new(alloc);
        for (name, bytes) in self.files.iter() {
            tree.insert(
                Text::from_slice(alloc, name.as_bytes())?,
                Vec::from_slice(alloc, bytes)?,
            )?;
        }
        Ok(tree)
    }

    /// Runs the command over the files of the case.
    pub fn run(&self, alloc: Global) -> Result<Outcome, AllocError> {
        run_over(
            alloc,
            &self.words,
            SureFiles::with(alloc, self.tree(alloc)?),
        )
    }

    /// Runs the command where one file alone is there, and longer than a limit.
    pub fn run_longer(&self, alloc: Global, name: &str, limit: u64) -> Result<Outcome, AllocError> {
        let mut files = LongerFile::new(name, limit);
        let mut out = SureSink::with(alloc);
        let status = run(alloc, &self.words, &mut files, &mut out);
        Ok(Outcome {
            status: code(status),
            output: Vec::from_slice(alloc, out.taken())?,
            left: Left::Unknown,
        })
    }

    /// Runs the command over the files of the case where some calls fail.
    pub fn run_failing(&self, alloc: Global, faults: Faults) -> Result<Outcome, AllocError> {
        let mut files = MemFiles::with(alloc, self.tree(alloc)?, faults.calls);
        let mut out = MemSink::with(alloc, faults.pieces);
        let status = run(alloc, &self.words, &mut files, &mut out);
        Ok(Outcome {
            status: code(status),
            output: Vec::from_slice(alloc, out.taken())?,
            left: Left::Failing {
                files,
                pieces: out.calls(),
            },
        })
    }
}
