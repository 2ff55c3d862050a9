//! What the compiler answers to the text of a row.

use clc_lexer::line_col;
use compile_pipe::{Refusal, SourceRule, compile};
use std::alloc::{AllocError, Global};
use vc4q_module::Module;

fn name_of(rule: SourceRule) -> &'static str {
    str::from_utf8(rule.name()).unwrap_or("no name")
}

/// The bytes that the text of a row stands for.
fn source_of(alloc: Global, text: &str) -> Result<String, AllocError> {
    let mut source = String::new(alloc);
    for (i, line) in text.split("\\n").enumerate() {
        if i > 0 {
            source.push('\n')?;
        }
        source.push_str(line)?;
    }
    Ok(source)
}

/// A rule and the line and column at which a source violates it.
fn place(alloc: Global, source: &[u8], rule: SourceRule, at: u32) -> Result<String, AllocError> {
    let name = name_of(rule);
    if at as usize > source.len() || at == u32::MAX {
        return format!(in alloc; "{name} outside the source");
    }
    let (line, column) = line_col(source, at);
    format!(in alloc; "{name} {line} {column}")
}

/// The rule that the source of a row violates first. The kernel that is asked for has no name, so a lawful source is refused by K1.
pub fn first_violation(alloc: Global, text: &str) -> Result<String, AllocError> {
    let source = source_of(alloc, text)?;
    match compile(alloc, source.as_bytes(), b"") {
        Ok(_) => String::from_str(alloc, "a module"),
        Err(Refusal::Memory) => Err(AllocError),
        Err(Refusal::Rule { rule, at }) => match rule {
            SourceRule::K1 => String::from_str(alloc, "OK"),
            rule => place(alloc, source.as_bytes(), rule, at),
        },
    }
}

/// The rows and the kinds of a module, and its words.
fn content(alloc: Global, module: &Module) -> Result<String, AllocError> {
    let rows = module.rows;
    let kinds = module.kinds.len();
    let mut text = format!(in alloc; "{rows} rows, {kinds} kinds, words")?;
    for word in &module.words {
        write!(text, " {word:016X}")?;
    }
    Ok(text)
}

/// The module of a kernel and a source, with ` | ` between them, or the first violated rule and its offset.
pub fn module_of(alloc: Global, text: &str) -> Result<String, AllocError> {
    let Some((kernel, source)) = text.split_once(" | ") else {
        return String::from_str(alloc, "no kernel is named");
    };
    let source = source_of(alloc, source)?;
    match compile(alloc, source.as_bytes(), kernel.as_bytes()) {
        Ok(module) => content(alloc, &module),
        Err(Refusal::Memory) => Err(AllocError),
        Err(Refusal::Rule { rule, at }) => {
            let name = name_of(rule);
            format!(in alloc; "{name} at {at}")
        }
    }
}
