//! The tokens of declarations and statements in order.

ghost use Rattle.std.specs.Prelude.{◌≡◌, ◌++◌, [], ◌∷◌, OnOk};
ghost use Rattle.clc_tree.specs.Flat.{pointer_tokens, init_tokens, item_tokens, declare_tokens, expr_tokens, expr_or_none, for_start_tokens, block_part_tokens, stmt_tokens, block_tokens, else_tokens, if_tokens, while_tokens, do_tokens, for_tokens};

use crate::tokens::{Memory, put, put_assign, put_expr, put_optional, put_scalar};
use clc_lexer::Token;
use clc_tree::{
    Block, BlockPart, Declare, Do, Else, Expr, For, ForStart, If, Init, Item, Pointer, Stmt, While,
};

pub(crate) fn put_pointer(tokens: &mut Vec<Token>, pointer: &Pointer) -> Result<(), Memory>
    ensures { OnOk result (tokens.new.items ≡ tokens.old.items ++ pointer_tokens pointer.now) }
{
    put_optional(tokens, &pointer.outer_const)?;
    put(tokens, &pointer.space)?;
    put_optional(tokens, &pointer.inner_const)?;
    put_scalar(tokens, &pointer.element)?;
    put(tokens, &pointer.star)?;
    put_optional(tokens, &pointer.own_const)?;
    put_optional(tokens, &pointer.restrict)
}

fn put_init(tokens: &mut Vec<Token>, init: &Option<Init>) -> Result<(), Memory>
    ensures { OnOk result (tokens.new.items ≡ tokens.old.items ++ init_tokens init.now) }
{
    match init {
        None => Ok(()),
        Some(init) => {
            put(tokens, &init.equals)?;
            put_assign(tokens, &init.value)
        }
    }
}

fn put_item(tokens: &mut Vec<Token>, item: &Item) -> Result<(), Memory>
    ensures { OnOk result (tokens.new.items ≡ tokens.old.items ++ item_tokens item.now) }
{
    match item {
        Item::Array {
            name,
            opening,
            size,
            closing,
        } => {
            put(tokens, name)?;
            put(tokens, opening)?;
            put(tokens, size)?;
            put(tokens, closing)
        }
        Item::Value(name, init) => {
            put(tokens, name)?;
            put_init(tokens, init)
        }
    }
}

fn put_declare(tokens: &mut Vec<Token>, declare: &Declare) -> Result<(), Memory>
    ensures { OnOk result (tokens.new.items ≡ tokens.old.items ++ declare_tokens declare.now) }
{
    match declare {
        Declare::Values {
            constant,
            scalar,
            first,
            rest,
            end,
        } => {
            put_optional(tokens, constant)?;
            put_scalar(tokens, scalar)?;
            put_item(tokens, first)?;
            for step in rest.as_slice() {
                put(tokens, &step.comma)?;
                put_item(tokens, &step.item)?;
            }
            put(tokens, end)
        }
        Declare::Pointer {
            pointer,
            name,
            value,
            end,
        } => {
            put_pointer(tokens, pointer)?;
            put(tokens, name)?;
            put_init(tokens, value)?;
            put(tokens, end)
        }
    }
}

fn put_maybe(tokens: &mut Vec<Token>, expr: &Option<Expr>) -> Result<(), Memory>
    ensures { OnOk result (tokens.new.items ≡ tokens.old.items ++ expr_or_none expr.now) }
{
    match expr {
        None => Ok(()),
        Some(expr) => put_expr(tokens, expr),
    }
}

fn put_for_start(tokens: &mut Vec<Token>, start: &ForStart) -> Result<(), Memory>
    ensures { OnOk result (tokens.new.items ≡ tokens.old.items ++ for_start_tokens start.now) }
{
    match start {
        ForStart::Declare(declare) => put_declare(tokens, declare),
        ForStart::Eval(expr, end) => {
            put_maybe(tokens, expr)?;
            put(tokens, end)
        }
    }
}

/// Puts a word and an expression in parentheses.
fn put_tested(
    tokens: &mut Vec<Token>,
    word: &Token,
    opening: &Token,
    test: &Expr,
    closing: &Token,
) -> Result<(), Memory>
    ensures { OnOk result (tokens.new.items ≡ tokens.old.items ++ word.now ∷ opening.now ∷ (expr_tokens test.now ++ closing.now ∷ [])) }
{
    put(tokens, word)?;
    put(tokens, opening)?;
    put_expr(tokens, test)?;
    put(tokens, closing)
}

/// Puts what stands in the parentheses of a `for`.
fn put_for_head(
    tokens: &mut Vec<Token>,
    start: &ForStart,
    test: &Option<Expr>,
    middle: &Token,
    step: &Option<Expr>,
) -> Result<(), Memory>
    ensures { OnOk result (tokens.new.items ≡ tokens.old.items ++ (for_start_tokens start.now ++ (expr_or_none test.now ++ middle.now ∷ expr_or_none step.now))) }
{
    put_for_start(tokens, start)?;
    put_maybe(tokens, test)?;
    put(tokens, middle)?;
    put_maybe(tokens, step)
}

/// Puts a word and the `;` after it.
fn put_jump(tokens: &mut Vec<Token>, word: &Token, end: &Token) -> Result<(), Memory>
    ensures { OnOk result (tokens.new.items ≡ tokens.old.items ++ word.now ∷ end.now ∷ []) }
{
    put(tokens, word)?;
    put(tokens, end)
}

#[cycle(put_statements)]
pub(crate) fn put_block(tokens: &mut Vec<Token>, block: &Block) -> Result<(), Memory>
    ensures { OnOk result (tokens.new.items ≡ tokens.old.items ++ block_tokens block.now) }
{
    put(tokens, &block.opening)?;
    for part in block.parts.as_slice() {
        put_part(tokens, part)?;
    }
    put(tokens, &block.closing)
}

#[cycle(put_statements)]
fn put_part(tokens: &mut Vec<Token>, part: &BlockPart) -> Result<(), Memory>
    ensures { OnOk result (tokens.new.items ≡ tokens.old.items ++ block_part_tokens part.now) }
{
    match part {
        BlockPart::Declare(declare) => put_declare(tokens, declare),
        BlockPart::Stmt(stmt) => put_stmt(tokens, stmt),
    }
}

#[cycle(put_statements)]
fn put_else(tokens: &mut Vec<Token>, other: &Else) -> Result<(), Memory>
    ensures { OnOk result (tokens.new.items ≡ tokens.old.items ++ else_tokens other.now) }
{
    put(tokens, &other.word)?;
    put_stmt(tokens, &other.body)
}

#[cycle(put_statements)]
fn put_if(tokens: &mut Vec<Token>, choice: &If) -> Result<(), Memory>
    ensures { OnOk result (tokens.new.items ≡ tokens.old.items ++ if_tokens choice.now) }
{
    put_tested(
        tokens,
        &choice.word,
        &choice.opening,
        &choice.test,
        &choice.closing,
    )?;
    put_stmt(tokens, choice.body.get())?;
    match &choice.other {
        None => Ok(()),
        Some(other) => put_else(tokens, other.get()),
    }
}

#[cycle(put_statements)]
fn put_while(tokens: &mut Vec<Token>, repeat: &While) -> Result<(), Memory>
    ensures { OnOk result (tokens.new.items ≡ tokens.old.items ++ while_tokens repeat.now) }
{
    put_tested(
        tokens,
        &repeat.word,
        &repeat.opening,
        &repeat.test,
        &repeat.closing,
    )?;
    put_stmt(tokens, repeat.body.get())
}

#[cycle(put_statements)]
fn put_do(tokens: &mut Vec<Token>, repeat: &Do) -> Result<(), Memory>
    ensures { OnOk result (tokens.new.items ≡ tokens.old.items ++ do_tokens repeat.now) }
{
    put(tokens, &repeat.word)?;
    put_stmt(tokens, repeat.body.get())?;
    put_tested(
        tokens,
        &repeat.until,
        &repeat.opening,
        &repeat.test,
        &repeat.closing,
    )?;
    put(tokens, &repeat.end)
}

#[cycle(put_statements)]
fn put_for(tokens: &mut Vec<Token>, repeat: &For) -> Result<(), Memory>
    ensures { OnOk result (tokens.new.items ≡ tokens.old.items ++ for_tokens repeat.now) }
{
    put(tokens, &repeat.word)?;
    put(tokens, &repeat.opening)?;
    put_for_head(
        tokens,
        &repeat.start,
        &repeat.test,
        &repeat.middle,
        &repeat.step,
    )?;
    put(tokens, &repeat.closing)?;
    put_stmt(tokens, repeat.body.get())
}

#[cycle(put_statements)]
fn put_stmt(tokens: &mut Vec<Token>, stmt: &Stmt) -> Result<(), Memory>
    ensures { OnOk result (tokens.new.items ≡ tokens.old.items ++ stmt_tokens stmt.now) }
{
    match stmt {
        Stmt::Block(block) => put_block(tokens, block),
        Stmt::Eval(expr, end) => {
            put_expr(tokens, expr)?;
            put(tokens, end)
        }
        Stmt::Empty(end) => put(tokens, end),
        Stmt::If(choice) => put_if(tokens, choice),
        Stmt::While(repeat) => put_while(tokens, repeat),
        Stmt::Do(repeat) => put_do(tokens, repeat),
        Stmt::For(repeat) => put_for(tokens, repeat),
        Stmt::Break(word, end) => put_jump(tokens, word, end),
        Stmt::Continue(word, end) => put_jump(tokens, word, end),
        Stmt::Return(word, value, end) => {
            put(tokens, word)?;
            put_maybe(tokens, value)?;
            put(tokens, end)
        }
    }
}
