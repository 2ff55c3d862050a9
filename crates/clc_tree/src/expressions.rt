//! Trees of expressions (C99, 6.5; OpenCL C 1.2, 6.3), and the types of numbers.

use clc_lexer::Token;
use sqlite_items::{Boxed, Items};

/// A type of numbers: a word alone, or `unsigned` or `signed` with `char`, `short` or `int` after it or with none.
#[derive(Drop)]
pub enum Scalar {
    Plain(Token),
    Signed(Token, Option<Token>),
}

/// `assign {"," assign}`. The arguments of a call are such a list, too.
#[cycle(expression)]
#[derive(Drop)]
pub struct Expr {
    pub first: Assign,
    pub rest: Items<CommaStep>,
}

/// `"," assign`
#[cycle(expression)]
#[derive(Drop)]
pub struct CommaStep {
    pub comma: Token,
    pub value: Assign,
}

/// `cond | unary asgop assign`
#[cycle(expression)]
#[derive(Drop)]
pub enum Assign {
    Cond(Cond),
    Set(Unary, Token, Boxed<Assign>),
}

/// `chain1 ["?" expr ":" cond]`
#[cycle(expression)]
#[derive(Drop)]
pub struct Cond {
    pub test: Chain,
    pub choice: Option<Boxed<Choice>>,
}

/// `"?" expr ":" cond`
#[cycle(expression)]
#[derive(Drop)]
pub struct Choice {
    pub question: Token,
    pub yes: Expr,
    pub colon: Token,
    pub no: Cond,
}

/// The chains of all ten levels: one operand, or an operand of tighter levels with one or more operators of one level,
/// each before an operand of tighter levels. So a long sum doesn't nest.
#[cycle(expression)]
#[derive(Drop)]
pub enum Chain {
    One(Cast),
    Level(Boxed<Chain>, Items<ChainStep>),
}

/// An operator of a level, and the operand after it.
#[cycle(expression)]
#[derive(Drop)]
pub struct ChainStep {
    pub operator: Token,
    pub operand: Chain,
}

/// `"(" scalar ")" cast | unary`
#[cycle(expression)]
#[derive(Drop)]
pub enum Cast {
    To {
        opening: Token,
        target: Scalar,
        closing: Token,
        operand: Boxed<Cast>,
    },
    Of(Unary),
}

/// `post | ("++" | "--") unary | ("+" | "-" | "~" | "!" | "*") cast`
#[cycle(expression)]
#[derive(Drop)]
pub enum Unary {
    Post(Post),
    Step(Token, Boxed<Unary>),
    Prefix(Token, Boxed<Cast>),
}

/// `primary {"[" expr "]" | "++" | "--"}`
#[cycle(expression)]
#[derive(Drop)]
pub struct Post {
    pub primary: Primary,
    pub rest: Items<PostStep>,
}

/// `"[" expr "]" | "++" | "--"`
#[cycle(expression)]
#[derive(Drop)]
pub enum PostStep {
    Index(Token, Boxed<Expr>, Token),
    Step(Token),
}

/// `name | number | "(" expr ")" | name "(" [assign {"," assign}] ")"`
#[cycle(expression)]
#[derive(Drop)]
pub enum Primary {
    Name(Token),
    Number(Token),
    Paren(Token, Boxed<Expr>, Token),
    Call {
        name: Token,
        opening: Token,
        arguments: Option<Boxed<Expr>>,
        closing: Token,
    },
}
