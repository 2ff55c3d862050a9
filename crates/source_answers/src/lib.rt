//! What the lexer, the parser and the trees answer to the text of a row of data. These functions stand in a library, so that they, and that trees can be
//! dropped, are proved once and not with the program that reads the rows.
#![tactic(auto)]

mod calls;
mod grammar;
mod made;
mod segments;
mod tokens;

use std::alloc::{AllocError, Global};

/// What a row asks for.
#[derive(Clone, Copy)]
pub enum Kind {
    /// The tokens of a source, or its first fault.
    Tokens,
    /// What a small call answers.
    Call,
    /// Whether tokens are a program, or their first fault.
    Grammar,
    /// The tree of a source.
    Tree,
    /// A tree that is made by hand.
    Made,
}

/// The answer to the text of a row.
pub fn answer(alloc: Global, kind: Kind, text: &str) -> Result<String, AllocError> {
    match kind {
        Kind::Tokens => tokens::answer(alloc, text),
        Kind::Call => calls::answer(alloc, text),
        Kind::Grammar => grammar::answer(alloc, text, false),
        Kind::Tree => grammar::answer(alloc, text, true),
        Kind::Made => made::answer(alloc, text),
    }
}
