//! Rows of whether a launch fits parameters and a command's files, as `fit kinds int pointer, taken none, LAUNCH`.

use crate::launches::{fault_text, launch_of};
use crate::modules::kinds_of;
use crate::names::name_of;
use crate::row_fault::RowFault;
use crate::spelling::{after, halves};
use launch_file::fit;
use q_io::Text;
use std::alloc::Global;

/// The most arguments of a row's launch.
const MOST_ARGS: usize = 65_536;

const MOST_BUFFERS: usize = 16;

fn taken_names(alloc: Global, list: &str) -> Result<Vec<Text>, RowFault> {
    let mut names = Vec::new(alloc);
    if list == "none" {
        return Ok(names);
    }
    for word in list.split(' ') {
        names.push(name_of(alloc, word)?)?;
    }
    Ok(names)
}

/// `OK`, or the rule that is violated first with its line.
pub fn answer(alloc: Global, call: &str) -> Result<String, RowFault> {
    let (kinds, text) = halves(after(after(call, "fit")?, "kinds")?, ", ")?;
    let (taken, text) = halves(after(text, "taken")?, ", ")?;
    let kinds = kinds_of(alloc, kinds)?;
    let taken = taken_names(alloc, taken)?;
    let launch = launch_of(alloc, text)?;
    if launch.args.len() > MOST_ARGS || launch.buffers.len() > MOST_BUFFERS {
        return Err(RowFault::NoRow);
    }
    match fit(&launch, &kinds, &taken) {
        Ok(()) => Ok(String::from_str(alloc, "OK")?),
        Err(fault) => fault_text(alloc, fault),
    }
}
