//! What small calls answer.

use crate::segments::source_of;
use crate::tokens::{place, put_kind};
use clc_lexer::{LexFault, LexRule, Mark, Text, Tok, Token, Word, lex};
use clc_tree::rank;
use std::alloc::{AllocError, Global};
use tree_text::text_of;

/// The line and column of an offset of a source.
fn place_of(alloc: Global, rest: &str) -> Result<String, AllocError> {
    let Some((at, text)) = rest.split_once(' ') else {
        return String::from_str(alloc, "no place");
    };
    match (at.parse::<u32>(), source_of(alloc, text)?) {
        (Ok(at), Some(source)) => place(alloc, &source, at),
        _ => String::from_str(alloc, "no place"),
    }
}

/// How two names are ordered, or whether they are the same.
fn ordering(alloc: Global, rest: &str) -> Result<String, AllocError> {
    let Some((one, other)) = rest.split_once(' ') else {
        return String::from_str(alloc, "no two names");
    };
    let one = Text::new(Vec::from_slice(alloc, one.as_bytes())?);
    let other = Text::from_slice(alloc, other.as_bytes())?;
    if one == other {
        return String::from_str(alloc, "equal");
    }
    if one > other {
        return String::from_str(alloc, "greater");
    }
    String::from_str(alloc, "less")
}

/// Whether the copy of a name's token is the token.
fn copy(alloc: Global, name: &str) -> Result<String, AllocError> {
    let token = Token {
        kind: Tok::Name(Text::from_slice(alloc, name.as_bytes())?),
        from: 0,
        to: 0,
    };
    let is_equal = token.clone()? == token;
    String::from_str(alloc, if is_equal { "equal" } else { "different" })
}

/// The text of a fault.
fn fault(alloc: Global, name: &str) -> Result<String, AllocError> {
    let fault = match name {
        "memory" => LexFault::Memory,
        _ => LexFault::Rule {
            rule: LexRule::L2,
            at: 8,
        },
    };
    format!(in alloc; "{fault}")
}

/// The name and the spelling of a word of the table, by its number there.
fn word_entry(alloc: Global, number: &str) -> Result<String, AllocError> {
    let number = number.parse::<usize>().unwrap_or(usize::MAX);
    let Some(word) = Word::ALL.get(number) else {
        return String::from_str(alloc, "no word");
    };
    let spelling = text_of(word.spelling());
    format!(in alloc; "{word:?} {spelling}")
}

/// The name and the spelling of a mark of the table, by its number there.
fn mark_entry(alloc: Global, number: &str) -> Result<String, AllocError> {
    let number = number.parse::<usize>().unwrap_or(usize::MAX);
    let Some(mark) = Mark::ALL.get(number) else {
        return String::from_str(alloc, "no mark");
    };
    let spelling = text_of(mark.spelling());
    format!(in alloc; "{mark:?} {spelling}")
}

/// How tightly a mark binds as a binary operator.
fn tightness(alloc: Global, text: &str) -> Result<String, AllocError> {
    let Ok(tokens) = lex(alloc, text.as_bytes()) else {
        return String::from_str(alloc, "no tokens");
    };
    match tokens.as_slice() {
        [
            Token {
                kind: Tok::Mark(mark),
                ..
            },
        ] => {
            let rank = rank(*mark);
            format!(in alloc; "{rank}")
        }
        _ => String::from_str(alloc, "no mark"),
    }
}

/// The answer to a call's name and, after a space, what it is given.
pub fn answer(alloc: Global, text: &str) -> Result<String, AllocError> {
    let Some((call, rest)) = text.split_once(' ') else {
        return String::from_str(alloc, "no call");
    };
    match call {
        "line_col" => place_of(alloc, rest),
        "compare" => ordering(alloc, rest),
        "text" => {
            let text = Text::new(Vec::from_slice(alloc, rest.as_bytes())?);
            String::from_str(alloc, text_of(text.as_bytes()))
        }
        "copy" => copy(alloc, rest),
        "fault" => fault(alloc, rest),
        "mark" => mark_entry(alloc, rest),
        "word" => word_entry(alloc, rest),
        "rank" => tightness(alloc, rest),
        _ => String::from_str(alloc, "no call"),
    }
}
