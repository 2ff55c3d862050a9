//! What the parser answers to tokens.

use crate::segments::{Segment, segments};
use clc_lexer::{LexFault, Token, lex};
use clc_parser::{GramFault, parse};
use clc_proper::proper;
use clc_tree::Tree;
use clc_tree_tokens::flat;
use std::alloc::{AllocError, Global};
use tree_text::program_text;

/// Appends the tokens of a segment, as often as it is there. Whether it has tokens.
fn append(alloc: Global, tokens: &mut Vec<Token>, segment: &Segment) -> Result<bool, AllocError> {
    let piece = match lex(alloc, &segment.bytes) {
        Ok(piece) => piece,
        Err(LexFault::Memory) => return Err(AllocError),
        Err(LexFault::Rule { .. }) => return Ok(false),
    };
    for _ in 0..segment.count {
        tokens.extend_with_clones(&piece)?;
    }
    Ok(true)
}

/// The tokens of the segments of a text, each of which is read alone. So they may be more than those of a source. None where
/// a segment has no tokens.
fn tokens_of(alloc: Global, text: &str) -> Result<Option<Vec<Token>>, AllocError> {
    let mut tokens = Vec::new(alloc);
    let Some(segments) = segments(alloc, text)? else {
        return Ok(None);
    };
    for segment in &segments {
        if !append(alloc, &mut tokens, segment)? {
            return Ok(None);
        }
    }
    Ok(Some(tokens))
}

/// The answer to a program's tree: OK or the tree as text, where the tree is proper and has the tokens that were read.
fn lawful(
    alloc: Global,
    tokens: &[Token],
    tree: &Tree,
    as_text: bool,
) -> Result<String, AllocError> {
    if flat(alloc, tree)?.as_slice() != tokens {
        return String::from_str(alloc, "a tree of other tokens");
    }
    if !proper(tree) {
        return String::from_str(alloc, "an improper tree");
    }
    if as_text {
        return program_text(alloc, tree);
    }
    String::from_str(alloc, "OK")
}

/// What the parser answers to the tokens of a text. The place of a fault is the number of a token, from 0.
pub fn answer(alloc: Global, text: &str, as_text: bool) -> Result<String, AllocError> {
    let Some(tokens) = tokens_of(alloc, text)? else {
        return String::from_str(alloc, "no tokens");
    };
    if tokens.len() > 65_536 {
        return String::from_str(alloc, "too many tokens");
    }
    match parse(alloc, &tokens) {
        Ok(tree) => lawful(alloc, &tokens, &tree, as_text),
        Err(GramFault::G1 { token }) => format!(in alloc; "G1 token {token}"),
        Err(GramFault::G2 { token }) => format!(in alloc; "G2 token {token}"),
        Err(GramFault::Memory) => Err(AllocError),
    }
}
