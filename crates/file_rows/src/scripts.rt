//! Scripts: calls on one object, with `, ` between two.

use crate::row_fault::RowFault;
use crate::spelling::{after, begin_item, number};
use std::alloc::Global;

/// What takes calls, each written as in a row.
pub trait Scripted {
    fn call(&mut self, alloc: Global, call: &str) -> Result<String, RowFault>;
}

/// The answers to the calls, in order.
pub fn run<S: Scripted>(object: &mut S, alloc: Global, script: &str) -> Result<String, RowFault> {
    let mut out = String::new(alloc);
    for call in script.split(", ") {
        let answer = object.call(alloc, call)?;
        begin_item(&mut out, ", ")?;
        out.push_str(answer.as_str())?;
    }
    Ok(out)
}

/// The object's name, and how it begins.
pub fn object_of(head: &str) -> (&str, &str) {
    head.split_once(' ').unwrap_or((head, ""))
}

/// The numbers of the calls that fail, as in `failing 1 3 3`.
pub fn failing(alloc: Global, begin: &str) -> Result<Vec<u64>, RowFault> {
    let mut fail = Vec::new(alloc);
    if begin.is_empty() {
        return Ok(fail);
    }
    for word in after(begin, "failing")?.split(' ') {
        fail.push(number(word)?)?;
    }
    Ok(fail)
}
