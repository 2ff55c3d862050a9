//! Statements, rule by rule. `inner` is how many depths are left one level deeper. A statement comes with the answer
//! whether it could take an `else` at its end.

ghost use Rattle.std.specs.Prelude.{◌≡◌, suc, Some, None};
ghost use Rattle.clc_tree.specs.ExpressionRules as e;
ghost use Rattle.clc_tree.specs.StatementRules as spec;
ghost use Rattle.clc_parser.specs.Parts as own;
ghost use Rattle.clc_parser.specs.Reads.{Reads};

use crate::declarations::declare;
use crate::expressions::{expr, expression};
use crate::tokens::{Stop, Tokens};
use clc_lexer::Token;
use clc_tree::{Block, BlockPart, Do, Else, Expr, For, ForStart, If, Kind, Stmt, While};
use sqlite_items::{Boxed, Items};
use std::alloc::Global;

/// An expression one level deeper. It comes in a box, as it is kept while a statement is read that may nest.
fn boxed(alloc: Global, tokens: &mut Tokens<'_>, inner: u32) -> Result<Boxed<Expr>, Stop>
    ensures { Reads ((e.levels inner).expr tokens.old.left.now) result tokens.new.left.now }
{
    Ok(Boxed::new(alloc, expr(alloc, tokens, inner)?)?)
}

/// `[expr]`, one level deeper.
#[tactic(auto, unfolding(crate::specs::StatementRules::maybe))]
fn maybe(alloc: Global, tokens: &mut Tokens<'_>, inner: u32) -> Result<Option<Boxed<Expr>>, Stop>
    ensures { Reads (spec.maybe inner tokens.old.left.now) result tokens.new.left.now }
{
    if tokens.sees(Kind::ExprStart) {
        return Ok(Some(boxed(alloc, tokens, inner)?));
    }
    Ok(None)
}

fn unboxed(value: Option<Boxed<Expr>>) -> Option<Expr>
    ensures { result ≡ value }
{
    value.map(Boxed::into_inner)
}

/// `[expr]`, at the statement's own depth.
#[tactic(auto, unfolding(crate::specs::StatementRules::maybe))]
fn returned(alloc: Global, tokens: &mut Tokens<'_>, inner: u32) -> Result<Option<Boxed<Expr>>, Stop>
    ensures { Reads (spec.maybe (suc inner) tokens.old.left.now) result tokens.new.left.now }
{
    if tokens.sees(Kind::ExprStart) {
        return Ok(Some(Boxed::new(alloc, expression(alloc, tokens, inner)?)?));
    }
    Ok(None)
}

/// A statement where `room` depths are left.
#[cycle(rules)]
fn stmt(alloc: Global, tokens: &mut Tokens<'_>, room: u32) -> Result<(Stmt, bool), Stop>
    ensures { Reads ((spec.levels room).stmt tokens.old.left.now) result tokens.new.left.now }
{
    if room == 0 {
        return Err(tokens.deny(Kind::StmtStart));
    }
    statement(alloc, tokens, room - 1)
}

/// A statement that another one governs.
#[cycle(rules)]
fn governed(alloc: Global, tokens: &mut Tokens<'_>, inner: u32) -> Result<(Boxed<Stmt>, bool), Stop>
    ensures { Reads ((spec.levels inner).stmt tokens.old.left.now) result tokens.new.left.now }
{
    let (body, open_end) = stmt(alloc, tokens, inner)?;
    Ok((Boxed::new(alloc, body)?, open_end))
}

#[cycle(rules)]
#[tactic(auto, unfolding(crate::specs::StatementRules::block_part))]
fn block_part(alloc: Global, tokens: &mut Tokens<'_>, inner: u32) -> Result<BlockPart, Stop>
    ensures { Reads (spec.block_part inner (spec.levels inner) tokens.old.left.now) result tokens.new.left.now }
{
    if tokens.sees(Kind::DeclareStart) {
        return Ok(BlockPart::Declare(declare(alloc, tokens, inner)?));
    }
    let (statement, _) = stmt(alloc, tokens, inner)?;
    Ok(BlockPart::Stmt(statement))
}

#[cycle(rules)]
fn parts(alloc: Global, tokens: &mut Tokens<'_>, inner: u32) -> Result<Items<BlockPart>, Stop>
    ensures { Reads (spec.parts inner (spec.levels inner) tokens.old.left.now) result tokens.new.left.now }
{
    let mut all = Items::new(alloc);
    'turns: while tokens.sees(Kind::PartStart) {
        all.push(block_part(alloc, tokens, inner)?)?;
    }
    Ok(all)
}

/// `"{" {declare | stmt} "}"`
#[cycle(rules)]
#[tactic(auto, unfolding(crate::specs::StatementRules::block))]
pub fn block(alloc: Global, tokens: &mut Tokens<'_>, inner: u32) -> Result<Block, Stop>
    ensures { Reads (spec.block inner (spec.levels inner) tokens.old.left.now) result tokens.new.left.now }
{
    let opening = tokens.take(Kind::LeftBrace)?;
    let parts = parts(alloc, tokens, inner)?;
    let closing = tokens.take(Kind::RightBrace)?;
    Ok(Block {
        opening,
        parts,
        closing,
    })
}

/// What a `for` begins with: a declaration, or an expression or none with its `;`.
#[tactic(auto, unfolding(crate::specs::StatementRules::for_start))]
fn for_start(alloc: Global, tokens: &mut Tokens<'_>, inner: u32) -> Result<ForStart, Stop>
    ensures { Reads (spec.for_start inner (spec.levels inner) tokens.old.left.now) result tokens.new.left.now }
{
    if tokens.sees(Kind::DeclareStart) {
        return Ok(ForStart::Declare(declare(alloc, tokens, inner)?));
    }
    let value = maybe(alloc, tokens, inner)?;
    let end = tokens.one(inner, Kind::Semicolon)?;
    Ok(ForStart::Eval(unboxed(value), end))
}

/// An `if` after its word.
#[cycle(rules)]
#[tactic(auto, unfolding(crate::specs::StatementRules::if_from, crate::specs::StatementRules::tested))]
fn if_from(
    alloc: Global,
    tokens: &mut Tokens<'_>,
    inner: u32,
    word: Token,
) -> Result<(Stmt, bool), Stop>
    ensures { Reads (spec.if_from inner (spec.levels inner) word tokens.old.left.now) result tokens.new.left.now }
{
    let opening = tokens.take(Kind::LeftParen)?;
    let test = boxed(alloc, tokens, inner)?;
    let closing = tokens.take(Kind::RightParen)?;
    let (body, open_end) = governed(alloc, tokens, inner)?;
    let (other, open_end) = other_part(alloc, tokens, inner, open_end)?;
    let test = test.into_inner();
    Ok((
        Stmt::If(If {
            word,
            opening,
            test,
            closing,
            body,
            other,
        }),
        open_end,
    ))
}

/// `["else" stmt]`, after a statement that could take the `else` itself or not. One that could leaves none: an `else` belongs
/// to the nearest `if` that can take it.
#[cycle(rules)]
fn other_part(
    alloc: Global,
    tokens: &mut Tokens<'_>,
    inner: u32,
    open_end: bool,
) -> Result<(Option<Boxed<Else>>, bool), Stop>
    ensures { Reads (own.other_part inner (spec.levels inner) open_end tokens.old.left.now) result tokens.new.left.now }
{
    if open_end {
        return Ok((None, true));
    }
    if !tokens.sees(Kind::Else) {
        return Ok((None, true));
    }
    let word = tokens.take(Kind::Else)?;
    let (body, open_end) = stmt(alloc, tokens, inner)?;
    Ok((Some(Boxed::new(alloc, Else { word, body })?), open_end))
}

/// A `while` after its word.
#[cycle(rules)]
#[tactic(auto, unfolding(crate::specs::StatementRules::while_from, crate::specs::StatementRules::tested))]
fn while_from(
    alloc: Global,
    tokens: &mut Tokens<'_>,
    inner: u32,
    word: Token,
) -> Result<(Stmt, bool), Stop>
    ensures { Reads (spec.while_from inner (spec.levels inner) word tokens.old.left.now) result tokens.new.left.now }
{
    let opening = tokens.take(Kind::LeftParen)?;
    let test = boxed(alloc, tokens, inner)?;
    let closing = tokens.take(Kind::RightParen)?;
    let (body, open_end) = governed(alloc, tokens, inner)?;
    let test = test.into_inner();
    Ok((
        Stmt::While(While {
            word,
            opening,
            test,
            closing,
            body,
        }),
        open_end,
    ))
}

/// A `do` after its word.
#[cycle(rules)]
#[tactic(auto, unfolding(crate::specs::StatementRules::do_from, crate::specs::StatementRules::tested))]
fn do_from(
    alloc: Global,
    tokens: &mut Tokens<'_>,
    inner: u32,
    word: Token,
) -> Result<(Stmt, bool), Stop>
    ensures { Reads (spec.do_from inner (spec.levels inner) word tokens.old.left.now) result tokens.new.left.now }
{
    let (body, _) = governed(alloc, tokens, inner)?;
    let until = tokens.take(Kind::While)?;
    let opening = tokens.take(Kind::LeftParen)?;
    let test = boxed(alloc, tokens, inner)?;
    let closing = tokens.take(Kind::RightParen)?;
    let end = tokens.take(Kind::Semicolon)?;
    let test = test.into_inner();
    Ok((
        Stmt::Do(Do {
            word,
            body,
            until,
            opening,
            test,
            closing,
            end,
        }),
        false,
    ))
}

/// A `for` after its word.
#[cycle(rules)]
#[tactic(auto, unfolding(crate::specs::StatementRules::for_from, crate::specs::StatementRules::for_head))]
fn for_from(
    alloc: Global,
    tokens: &mut Tokens<'_>,
    inner: u32,
    word: Token,
) -> Result<(Stmt, bool), Stop>
    ensures { Reads (spec.for_from inner (spec.levels inner) word tokens.old.left.now) result tokens.new.left.now }
{
    let opening = tokens.take(Kind::LeftParen)?;
    let start = Boxed::new(alloc, for_start(alloc, tokens, inner)?)?;
    let test = maybe(alloc, tokens, inner)?;
    let middle = tokens.one(inner, Kind::Semicolon)?;
    let step = maybe(alloc, tokens, inner)?;
    let closing = tokens.take(Kind::RightParen)?;
    let (body, open_end) = governed(alloc, tokens, inner)?;
    let (start, test, step) = (start.into_inner(), unboxed(test), unboxed(step));
    Ok((
        Stmt::For(For {
            word,
            opening,
            start,
            test,
            middle,
            step,
            closing,
            body,
        }),
        open_end,
    ))
}

/// A `return` after its word.
#[tactic(auto, unfolding(crate::specs::StatementRules::return_from))]
fn return_from(
    alloc: Global,
    tokens: &mut Tokens<'_>,
    inner: u32,
    word: Token,
) -> Result<(Stmt, bool), Stop>
    ensures { Reads (spec.return_from inner (spec.levels inner) word tokens.old.left.now) result tokens.new.left.now }
{
    let value = returned(alloc, tokens, inner)?;
    let end = tokens.take(Kind::Semicolon)?;
    Ok((Stmt::Return(word, unboxed(value), end), false))
}

/// An expression with its `;`.
#[tactic(auto, unfolding(crate::specs::StatementRules::evaluated))]
fn evaluated(alloc: Global, tokens: &mut Tokens<'_>, inner: u32) -> Result<(Stmt, bool), Stop>
    ensures { Reads (spec.evaluated inner (spec.levels inner) tokens.old.left.now) result tokens.new.left.now }
{
    let value = Boxed::new(alloc, expression(alloc, tokens, inner)?)?;
    let end = tokens.take(Kind::Semicolon)?;
    Ok((Stmt::Eval(value.into_inner(), end), false))
}

/// A `break`, a `continue` or a `return`.
#[tactic(auto, unfolding(crate::specs::StatementRules::jump))]
fn jump(alloc: Global, tokens: &mut Tokens<'_>, inner: u32) -> Result<(Stmt, bool), Stop>
    ensures { Reads (spec.jump inner (spec.levels inner) tokens.old.left.now) result tokens.new.left.now }
{
    if tokens.sees(Kind::Break) {
        let word = tokens.take(Kind::Break)?;
        let end = tokens.take(Kind::Semicolon)?;
        return Ok((Stmt::Break(word, end), false));
    }
    if tokens.sees(Kind::Continue) {
        let word = tokens.take(Kind::Continue)?;
        let end = tokens.take(Kind::Semicolon)?;
        return Ok((Stmt::Continue(word, end), false));
    }
    let word = tokens.take(Kind::Return)?;
    return_from(alloc, tokens, inner, word)
}

/// A statement that begins with a word.
#[cycle(rules)]
#[tactic(auto, unfolding(crate::specs::StatementRules::governing))]
fn governing(alloc: Global, tokens: &mut Tokens<'_>, inner: u32) -> Result<(Stmt, bool), Stop>
    ensures { Reads (spec.governing inner (spec.levels inner) tokens.old.left.now) result tokens.new.left.now }
{
    if tokens.sees(Kind::If) {
        let word = tokens.take(Kind::If)?;
        return if_from(alloc, tokens, inner, word);
    }
    if tokens.sees(Kind::While) {
        let word = tokens.take(Kind::While)?;
        return while_from(alloc, tokens, inner, word);
    }
    if tokens.sees(Kind::Do) {
        let word = tokens.take(Kind::Do)?;
        return do_from(alloc, tokens, inner, word);
    }
    if tokens.sees(Kind::For) {
        let word = tokens.take(Kind::For)?;
        return for_from(alloc, tokens, inner, word);
    }
    jump(alloc, tokens, inner)
}

#[cycle(rules)]
#[tactic(auto, unfolding(crate::specs::StatementRules::statement))]
fn statement(alloc: Global, tokens: &mut Tokens<'_>, inner: u32) -> Result<(Stmt, bool), Stop>
    ensures { Reads (spec.statement inner (spec.levels inner) tokens.old.left.now) result tokens.new.left.now }
{
    if tokens.sees(Kind::ExprStart) {
        return evaluated(alloc, tokens, inner);
    }
    if tokens.sees(Kind::LeftBrace) {
        return Ok((Stmt::Block(block(alloc, tokens, inner)?), false));
    }
    if tokens.sees(Kind::Semicolon) {
        return Ok((Stmt::Empty(tokens.take(Kind::Semicolon)?), false));
    }
    governing(alloc, tokens, inner)
}
