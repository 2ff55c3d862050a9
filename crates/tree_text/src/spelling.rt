//! Tokens as text.

use clc_lexer::{Tok, Token};
use std::alloc::AllocError;

/// Text of bytes that are ASCII characters in each token.
pub fn text_of(bytes: &[u8]) -> &str {
    str::from_utf8(bytes).unwrap_or("no text")
}

/// A token as it may be spelled in a source.
pub fn put_token(text: &mut String, token: &Token) -> Result<(), AllocError> {
    match &token.kind {
        Tok::Name(name) => text.push_str(text_of(name.as_bytes())),
        Tok::Number { value, unsigned } => {
            let suffix = if *unsigned { "u" } else { "" };
            write!(text, "{value}{suffix}")
        }
        Tok::Word(word) => text.push_str(text_of(word.spelling())),
        Tok::Mark(mark) => text.push_str(text_of(mark.spelling())),
    }
}
