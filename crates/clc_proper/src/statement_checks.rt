//! Which declarations and statements are proper.

ghost use Rattle.std.specs.Prelude.{◌≡◌, map};
ghost use Rattle.clc_proper.specs.Proper.{all, pointer_proper, init_proper, item_proper, item_step_proper, declare_proper, maybe_proper, for_start_proper, for_head_proper, tested_proper, part_proper, stmt_open, block_proper, else_open, if_open, while_open, do_open, for_open};

use crate::checks::{is_assign, is_expr, is_optional, is_scalar};
use clc_lexer::Token;
use clc_tree::{
    Block, BlockPart, Declare, Do, Else, Expr, For, ForStart, If, Init, Item, ItemStep, Kind,
    Pointer, Stmt, While,
};

pub(crate) fn is_pointer(pointer: &Pointer) -> bool
    ensures { result ≡ pointer_proper pointer.now }
{
    is_optional(Kind::Const, &pointer.outer_const)
        && Kind::Space.takes(&pointer.space)
        && is_optional(Kind::Const, &pointer.inner_const)
        && is_scalar(&pointer.element)
        && Kind::Star.takes(&pointer.star)
        && is_optional(Kind::Const, &pointer.own_const)
        && is_optional(Kind::Restrict, &pointer.restrict)
}

fn is_init(init: &Option<Init>) -> bool
    ensures { result ≡ init_proper init.now }
{
    match init {
        None => true,
        Some(init) => Kind::Equals.takes(&init.equals) && is_assign(&init.value),
    }
}

fn is_item(item: &Item) -> bool
    ensures { result ≡ item_proper item.now }
{
    match item {
        Item::Array {
            name,
            opening,
            size,
            closing,
        } => {
            Kind::Name.takes(name)
                && Kind::LeftBracket.takes(opening)
                && Kind::Number.takes(size)
                && Kind::RightBracket.takes(closing)
        }
        Item::Value(name, init) => Kind::Name.takes(name) && is_init(init),
    }
}

fn are_items(steps: &[ItemStep]) -> bool
    ensures { result ≡ all (map item_step_proper steps.now) }
{
    for step in steps {
        if !(Kind::Comma.takes(&step.comma) && is_item(&step.item)) {
            return false;
        }
    }
    true
}

fn is_declare(declare: &Declare) -> bool
    ensures { result ≡ declare_proper declare.now }
{
    match declare {
        Declare::Values {
            constant,
            scalar,
            first,
            rest,
            end,
        } => {
            is_optional(Kind::Const, constant)
                && is_scalar(scalar)
                && is_item(first)
                && are_items(rest.as_slice())
                && Kind::Semicolon.takes(end)
        }
        Declare::Pointer {
            pointer,
            name,
            value,
            end,
        } => is_pointer(pointer)
            && Kind::Name.takes(name)
            && is_init(value)
            && Kind::Semicolon.takes(end),
    }
}

fn is_maybe(expr: &Option<Expr>) -> bool
    ensures { result ≡ maybe_proper expr.now }
{
    match expr {
        None => true,
        Some(expr) => is_expr(expr),
    }
}

fn is_for_start(start: &ForStart) -> bool
    ensures { result ≡ for_start_proper start.now }
{
    match start {
        ForStart::Declare(declare) => is_declare(declare),
        ForStart::Eval(expr, end) => is_maybe(expr) && Kind::Semicolon.takes(end),
    }
}

/// What stands in the parentheses of a `for`.
fn is_for_head(start: &ForStart, test: &Option<Expr>, middle: &Token, step: &Option<Expr>) -> bool
    ensures { result ≡ for_head_proper start.now test.now middle.now step.now }
{
    is_for_start(start) && is_maybe(test) && Kind::Semicolon.takes(middle) && is_maybe(step)
}

/// An expression in parentheses.
fn is_tested(opening: &Token, test: &Expr, closing: &Token) -> bool
    ensures { result ≡ tested_proper opening.now test.now closing.now }
{
    Kind::LeftParen.takes(opening) && is_expr(test) && Kind::RightParen.takes(closing)
}

#[cycle(check_statements)]
pub(crate) fn is_block(block: &Block) -> bool
    ensures { result ≡ block_proper block.now }
{
    if !Kind::LeftBrace.takes(&block.opening) {
        return false;
    }
    for part in block.parts.as_slice() {
        if !is_part(part) {
            return false;
        }
    }
    Kind::RightBrace.takes(&block.closing)
}

#[cycle(check_statements)]
fn is_part(part: &BlockPart) -> bool
    ensures { result ≡ part_proper part.now }
{
    match part {
        BlockPart::Declare(declare) => is_declare(declare),
        BlockPart::Stmt(stmt) => stmt_open(stmt).is_some(),
    }
}

#[cycle(check_statements)]
fn else_open(other: &Else) -> Option<bool>
    ensures { result ≡ else_open other.now }
{
    if !Kind::Else.takes(&other.word) {
        return None;
    }
    stmt_open(&other.body)
}

#[cycle(check_statements)]
fn if_open(choice: &If) -> Option<bool>
    ensures { result ≡ if_open choice.now }
{
    if !(Kind::If.takes(&choice.word)
        && is_tested(&choice.opening, &choice.test, &choice.closing))
    {
        return None;
    }
    let body_open = stmt_open(choice.body.get())?;
    match &choice.other {
        None => Some(true),
        Some(_) if body_open => None,
        Some(other) => else_open(other.get()),
    }
}

#[cycle(check_statements)]
fn while_open(repeat: &While) -> Option<bool>
    ensures { result ≡ while_open repeat.now }
{
    if !(Kind::While.takes(&repeat.word)
        && is_tested(&repeat.opening, &repeat.test, &repeat.closing))
    {
        return None;
    }
    stmt_open(repeat.body.get())
}

#[cycle(check_statements)]
fn do_open(repeat: &Do) -> Option<bool>
    ensures { result ≡ do_open repeat.now }
{
    let words = Kind::Do.takes(&repeat.word) && Kind::While.takes(&repeat.until);
    let tested = is_tested(&repeat.opening, &repeat.test, &repeat.closing);
    if !(words && tested && Kind::Semicolon.takes(&repeat.end)) {
        return None;
    }
    stmt_open(repeat.body.get())?;
    Some(false)
}

#[cycle(check_statements)]
fn for_open(repeat: &For) -> Option<bool>
    ensures { result ≡ for_open repeat.now }
{
    let begins = Kind::For.takes(&repeat.word) && Kind::LeftParen.takes(&repeat.opening);
    let head = is_for_head(&repeat.start, &repeat.test, &repeat.middle, &repeat.step);
    if !(begins && head && Kind::RightParen.takes(&repeat.closing)) {
        return None;
    }
    stmt_open(repeat.body.get())
}

/// Whether the statement could take an `else` at its end. None where it isn't proper.
#[cycle(check_statements)]
fn stmt_open(stmt: &Stmt) -> Option<bool>
    ensures { result ≡ stmt_open stmt.now }
{
    match stmt {
        Stmt::Block(block) => is_block(block).then_some(false),
        Stmt::Eval(expr, end) => (is_expr(expr) && Kind::Semicolon.takes(end)).then_some(false),
        Stmt::Empty(end) => Kind::Semicolon.takes(end).then_some(false),
        Stmt::If(choice) => if_open(choice),
        Stmt::While(repeat) => while_open(repeat),
        Stmt::Do(repeat) => do_open(repeat),
        Stmt::For(repeat) => for_open(repeat),
        Stmt::Break(word, end) => (Kind::Break.takes(word) && Kind::Semicolon.takes(end)).then_some(
            false,
        ),
        Stmt::Continue(word, end) => {
            (Kind::Continue.takes(word) && Kind::Semicolon.takes(end)).then_some(false)
        }
        Stmt::Return(word, value, end) => {
            (Kind::Return.takes(word) && is_maybe(value) && Kind::Semicolon.takes(end)).then_some(
                false,
            )
        }
    }
}
