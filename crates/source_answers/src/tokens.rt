//! The tokens of a source as text.

use crate::segments::source_of;
use clc_lexer::{LexFault, Tok, Token, lex, line_col};
use std::alloc::{AllocError, Global};
use tree_text::text_of;

/// The line and column of an offset.
pub fn place(alloc: Global, source: &[u8], at: u32) -> Result<String, AllocError> {
    if at as usize > source.len() || at == u32::MAX {
        return String::from_str(alloc, "outside the source");
    }
    let (line, column) = line_col(source, at);
    format!(in alloc; "{line} {column}")
}

/// What a token says: a name, a number with its type, or the name of a mark or a reserved word.
pub fn put_kind(text: &mut String, kind: &Tok) -> Result<(), AllocError> {
    match kind {
        Tok::Name(name) => {
            let name = text_of(name.as_bytes());
            write!(text, "name {name}")
        }
        Tok::Number { value, unsigned } => {
            let ty = if *unsigned { "uint" } else { "int" };
            write!(text, "{ty} {value}")
        }
        Tok::Word(word) => write!(text, "{word:?}"),
        Tok::Mark(mark) => write!(text, "{mark:?}"),
    }
}

/// Each token with the offsets of its first byte and of the byte after its last.
fn listed(alloc: Global, tokens: &[Token]) -> Result<String, AllocError> {
    let mut text = String::new(alloc);
    for token in tokens {
        if !text.is_empty() {
            text.push_str(", ")?;
        }
        put_kind(&mut text, &token.kind)?;
        let Token { from, to, .. } = token;
        write!(text, " {from} {to}")?;
    }
    if tokens.is_empty() {
        text.push_str("no tokens")?;
    }
    Ok(text)
}

/// The tokens of the source of a row, or its first fault.
pub fn answer(alloc: Global, text: &str) -> Result<String, AllocError> {
    let Some(source) = source_of(alloc, text)? else {
        return String::from_str(alloc, "no source");
    };
    match lex(alloc, &source) {
        Ok(tokens) => listed(alloc, &tokens),
        Err(LexFault::Memory) => Err(AllocError),
        Err(LexFault::Rule { rule, at }) => {
            let place = place(alloc, &source, at)?;
            format!(in alloc; "{rule:?} {place}")
        }
    }
}
