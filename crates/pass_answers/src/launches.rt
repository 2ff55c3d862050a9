//! Launches whose buffers are all written to files.

use std::alloc::{AllocError, Global};

/// The name of the file that a buffer is written to.
pub fn output_name(alloc: Global, buffer: usize) -> Result<String, AllocError> {
    format!(in alloc; "buffer-{buffer}-after")
}

/// A buffer's line but for its output.
fn buffer_of(line: &str) -> Option<&str> {
    match line.rsplit_once(' ') {
        Some((head, _output)) if line.starts_with("buffer ") => Some(head),
        _ => None,
    }
}

/// The launch with an output file for each buffer in place of its own.
pub fn with_outputs(alloc: Global, launch: &str) -> Result<String, AllocError> {
    let mut text = String::new(alloc);
    let mut buffers = 0usize;
    for line in launch.lines() {
        if let Some(head) = buffer_of(line) {
            let name = output_name(alloc, buffers)?;
            writeln!(text, "{head} {name}")?;
            buffers = buffers.saturating_add(1);
        } else {
            writeln!(text, "{line}")?;
        }
    }
    Ok(text)
}
