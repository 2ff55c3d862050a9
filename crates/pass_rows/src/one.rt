//! One launch of a kernel whose source, launch and buffers are files.

use pass_answers::{Finding, Outcome, RowFault, Shares, Trial, attempt};
use q_io::Text;
use std::alloc::{AllocError, Global};
use std::collections::BTreeMap;
use std::rt::Files;
use std::{fs, io};

/// The file that a line of a launch is read from, if it has one.
fn input_of(line: &str) -> Option<&str> {
    let mut words = line.split(' ');
    match (words.next(), words.next(), words.next()) {
        (Some("buffer"), Some(_), Some(name)) if name != "-" => Some(name),
        (Some("schedule"), Some("file"), Some(name)) => Some(name),
        _ => None,
    }
}

/// The files that a launch reads.
fn inputs<R: Files + AllocGlobal>(
    rt: &R,
    alloc: Global,
    launch: &str,
) -> io::Result<BTreeMap<Text, Vec<u8>>> {
    let mut files = BTreeMap::new(alloc);
    for line in launch.lines() {
        if let Some(name) = input_of(line) {
            let key = Text::from_slice(alloc, name.as_bytes())?;
            files.insert(key, fs::read(rt, name)?)?;
        }
    }
    Ok(files)
}

fn tell_shares<R: Print>(rt: &R, shares: Shares) -> io::Result<()> {
    let (idle, pairs) = (shares.idle, shares.pairs);
    let (slots, idle_slots) = (shares.slots, shares.idle_slots);
    println!(rt; "idle {idle} pairs {pairs} slots {slots} of them idle {idle_slots}")
}

fn tell_finding<R: Print>(rt: &R, finding: &Finding) -> io::Result<()> {
    let (words, rows, counts) = (finding.words, finding.rows, finding.counts);
    println!(rt; "same")?;
    println!(rt; "module {words} words {rows} rows")?;
    tell_shares(rt, finding.shares)?;
    let (steps, issued, loads, stores) = (counts.steps, counts.issued, counts.loads, counts.stores);
    println!(rt; "steps {steps} issued {issued} loads {loads} stores {stores}")
}

/// Tries a kernel, and tells `same` with its module's size and what its run took, or the first difference.
pub fn tell_one<R: Files + Print + AllocGlobal>(
    rt: &R,
    alloc: Global,
    source: &str,
    kernel: &str,
    launch: &str,
) -> io::Result<()> {
    let source = fs::read(rt, source)?;
    let launch = fs::read_to_string(rt, launch)?;
    let files = inputs(rt, alloc, &launch)?;
    let trial = Trial {
        source: &source,
        kernel,
        launch: &launch,
        files: &files,
    };
    match attempt(alloc, trial) {
        Ok(Outcome::Same(finding)) => tell_finding(rt, &finding),
        Ok(Outcome::Differs(told)) => println!(rt; "{told}"),
        Err(RowFault::NoRow) => println!(rt; "no report"),
        Err(RowFault::Memory) => Err(io::Error::from(AllocError)),
    }
}
