//! Rows of where launches lie in the memory, as `layout rows 1, LAUNCH` and `uniforms rows 1, qpu 0, LAUNCH`.
//!
//! A region is `START+LENGTH`.

use crate::launches::launch_of;
use crate::row_fault::RowFault;
use crate::spelling::{after, begin_item, halves, numbers, or_none, small_number};
use launch_file::{Region2, layout, uniforms};
use std::alloc::{AllocError, Global};

const MOST_ROWS: u32 = 262_144;

/// The rows of scratch, and the rest.
fn rows_of(text: &str) -> Result<(u32, &str), RowFault> {
    let (rows, rest) = halves(after(text, "rows")?, ", ")?;
    Ok((small_number(rows)?, rest))
}

fn region_texts(alloc: Global, regions: &[Region2]) -> Result<String, AllocError> {
    let mut out = String::new(alloc);
    for region in regions {
        begin_item(&mut out, " ")?;
        write!(out, "{}+{}", region.start, region.len)?;
    }
    Ok(out)
}

/// The regions of the buffers and of the scratches, and the size of the memory.
pub fn layout_answer(alloc: Global, call: &str) -> Result<String, RowFault> {
    let (rows, text) = rows_of(after(call, "layout")?)?;
    if rows > MOST_ROWS {
        return Err(RowFault::NoRow);
    }
    let launch = launch_of(alloc, text)?;
    let places = layout(alloc, &launch, rows)?;
    let buffers = region_texts(alloc, &places.buffers)?;
    let scratch = region_texts(alloc, &places.scratch)?;
    let size = places.size;
    let buffers = or_none(&buffers);
    Ok(format!(in alloc; "buffers {buffers}, scratch {scratch}, size {size}")?)
}

/// The words that a QPU begins with.
pub fn uniforms_answer(alloc: Global, call: &str) -> Result<String, RowFault> {
    let (rows, text) = rows_of(after(call, "uniforms")?)?;
    if rows > MOST_ROWS {
        return Err(RowFault::NoRow);
    }
    let (qpu, text) = halves(after(text, "qpu")?, ", ")?;
    let qpu = small_number(qpu)?;
    let launch = launch_of(alloc, text)?;
    let places = layout(alloc, &launch, rows)?;
    if qpu >= launch.qpus {
        return Err(RowFault::NoRow);
    }
    let words = uniforms(alloc, &launch, &places, qpu)?;
    Ok(numbers(alloc, &words)?)
}
