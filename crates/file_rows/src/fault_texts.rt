//! Rows of the texts of faults, as `module place 8` and `launch rule 4 line 3`.

use crate::row_fault::RowFault;
use crate::spelling::{after, halves, small_number};
use launch_file::LaunchFault;
use std::alloc::Global;
use vc4q_module::ModFault;

fn module_fault(text: &str) -> Result<ModFault, RowFault> {
    if text == "memory" {
        return Ok(ModFault::Memory);
    }
    let place = small_number(after(text, "place")?)?;
    Ok(ModFault::At(place))
}

fn launch_fault(text: &str) -> Result<LaunchFault, RowFault> {
    if text == "memory" {
        return Ok(LaunchFault::Memory);
    }
    let (rule, line) = halves(after(text, "rule")?, " line ")?;
    let Ok(rule) = rule.parse() else {
        return Err(RowFault::NoRow);
    };
    let line = small_number(line)?;
    Ok(LaunchFault::Rule { rule, line })
}

/// The text of a fault.
pub fn answer(alloc: Global, call: &str) -> Result<String, RowFault> {
    let (of, text) = halves(call, " ")?;
    if of == "module" {
        let fault = module_fault(text)?;
        return Ok(format!(in alloc; "{fault}")?);
    }
    if of == "launch" {
        let fault = launch_fault(text)?;
        return Ok(format!(in alloc; "{fault}")?);
    }
    Err(RowFault::NoRow)
}
