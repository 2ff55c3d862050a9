//! Trees of declarations and statements (C99, 6.7 and 6.8).

use crate::expressions::{Assign, Expr, Scalar};
use clc_lexer::Token;
use sqlite_items::{Boxed, Items};

/// `["const"] space ["const"] scalar "*" ["const"] ["restrict"]`. The first two `const` make the elements const, the
/// third makes the variable const.
#[derive(Drop)]
pub struct Pointer {
    pub outer_const: Option<Token>,
    pub space: Token,
    pub inner_const: Option<Token>,
    pub element: Scalar,
    pub star: Token,
    pub own_const: Option<Token>,
    pub restrict: Option<Token>,
}

/// `"=" assign`
#[derive(Drop)]
pub struct Init {
    pub equals: Token,
    pub value: Assign,
}

/// `name "[" number "]" | name ["=" assign]`
#[derive(Drop)]
pub enum Item {
    Array {
        name: Token,
        opening: Token,
        size: Token,
        closing: Token,
    },
    Value(Token, Option<Init>),
}

/// `"," item`
#[derive(Drop)]
pub struct ItemStep {
    pub comma: Token,
    pub item: Item,
}

/// `["const"] scalar item {"," item} ";" | pointer name ["=" assign] ";"`
#[derive(Drop)]
pub enum Declare {
    Values {
        constant: Option<Token>,
        scalar: Scalar,
        first: Item,
        rest: Items<ItemStep>,
        end: Token,
    },
    Pointer {
        pointer: Pointer,
        name: Token,
        value: Option<Init>,
        end: Token,
    },
}

/// What a `for` begins with: `declare | [expr] ";"`
#[derive(Drop)]
pub enum ForStart {
    Declare(Declare),
    Eval(Option<Expr>, Token),
}

/// `"{" {declare | stmt} "}"`
#[cycle(statement)]
#[derive(Drop)]
pub struct Block {
    pub opening: Token,
    pub parts: Items<BlockPart>,
    pub closing: Token,
}

/// `declare | stmt`
#[cycle(statement)]
#[derive(Drop)]
pub enum BlockPart {
    Declare(Declare),
    Stmt(Stmt),
}

/// `"else" stmt`
#[cycle(statement)]
#[derive(Drop)]
pub struct Else {
    pub word: Token,
    pub body: Stmt,
}

/// `"if" "(" expr ")" stmt ["else" stmt]`
#[cycle(statement)]
#[derive(Drop)]
pub struct If {
    pub word: Token,
    pub opening: Token,
    pub test: Expr,
    pub closing: Token,
    pub body: Boxed<Stmt>,
    pub other: Option<Boxed<Else>>,
}

/// `"while" "(" expr ")" stmt`
#[cycle(statement)]
#[derive(Drop)]
pub struct While {
    pub word: Token,
    pub opening: Token,
    pub test: Expr,
    pub closing: Token,
    pub body: Boxed<Stmt>,
}

/// `"do" stmt "while" "(" expr ")" ";"`
#[cycle(statement)]
#[derive(Drop)]
pub struct Do {
    pub word: Token,
    pub body: Boxed<Stmt>,
    pub until: Token,
    pub opening: Token,
    pub test: Expr,
    pub closing: Token,
    pub end: Token,
}

/// `"for" "(" (declare | [expr] ";") [expr] ";" [expr] ")" stmt`
#[cycle(statement)]
#[derive(Drop)]
pub struct For {
    pub word: Token,
    pub opening: Token,
    pub start: ForStart,
    pub test: Option<Expr>,
    pub middle: Token,
    pub step: Option<Expr>,
    pub closing: Token,
    pub body: Boxed<Stmt>,
}

/// A statement; a variant for each alternative.
#[cycle(statement)]
#[derive(Drop)]
pub enum Stmt {
    Block(Block),
    Eval(Expr, Token),
    Empty(Token),
    If(If),
    While(While),
    Do(Do),
    For(For),
    Break(Token, Token),
    Continue(Token, Token),
    Return(Token, Option<Expr>, Token),
}
