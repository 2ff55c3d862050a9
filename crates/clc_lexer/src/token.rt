//! Tokens, and why a source has none.

ghost use Rattle.std.specs.Prelude.{◌≡◌};
ghost use Rattle.clc_lexer.specs.declared.token.LexFault.TheVariants.{Memory};

use crate::marks::Mark;
use crate::text::Text;
use crate::words::Word;
use std::alloc::{AllocError, AllocFailed};
use thiserror::Error;

/// What a token says.
#[derive(Drop, PartialEq, Eq)]
pub enum Tok {
    /// A name that is no reserved and no left-out word.
    Name(Text),
    /// A number, of type `uint` or `int`.
    Number { value: u32, unsigned: bool },
    /// A reserved word.
    Word(Word),
    /// An operator or punctuator.
    Mark(Mark),
}

/// A token, with the offsets in the source of its first byte and of the byte after its last.
#[derive(Drop, PartialEq, Eq)]
pub struct Token {
    pub kind: Tok,
    pub from: u32,
    pub to: u32,
}

impl Clone for Tok {
    ghost is_clone = { λ one other. other ≡ one };

    fn clone(&self) -> Result<Tok, AllocError> {
        match self {
            Tok::Name(text) => Ok(Tok::Name(text.clone()?)),
            Tok::Number { value, unsigned } => Ok(Tok::Number {
                value: *value,
                unsigned: *unsigned,
            }),
            Tok::Word(word) => Ok(Tok::Word(*word)),
            Tok::Mark(mark) => Ok(Tok::Mark(*mark)),
        }
    }
}

impl Clone for Token {
    ghost is_clone = { λ one other. other ≡ one };

    fn clone(&self) -> Result<Token, AllocError> {
        Ok(Token {
            kind: self.kind.clone()?,
            from: self.from,
            to: self.to,
        })
    }
}

/// A rule on the bytes of a source.
#[derive(Clone, Copy, Debug, PartialEq, Eq)]
pub enum LexRule {
    /// The source has at most 65,536 bytes.
    L1,
    /// Outside comments a byte that stands in no token begins white space, a comment or a token.
    L2,
    /// A number is decimal, octal or hexadecimal, and has a type.
    L3,
    /// Each comment that `/*` opens is closed.
    L4,
    /// No word is one of those that the language leaves out here.
    L5,
}

/// Why a source has no tokens.
#[derive(Clone, Copy, Debug, PartialEq, Eq, Error)]
pub enum LexFault {
    /// The first rule that is violated, and the offset of the place.
    #[error("rule")]
    Rule { rule: LexRule, at: u32 },
    /// No memory was left.
    #[error("memory")]
    Memory,
}

impl From<AllocError> for LexFault {
    ghost from_gives = { λ _ fault. fault ≡ Memory };

    fn from(_: AllocError) -> LexFault {
        LexFault::Memory
    }
}

impl<T: Drop> From<AllocFailed<T>> for LexFault {
    ghost from_gives = { λ _ fault. fault ≡ Memory };

    fn from(_: AllocFailed<T>) -> LexFault {
        LexFault::Memory
    }
}
