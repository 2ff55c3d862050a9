//! Trees without calls.

use clc_lexer::Mark;
use clc_types::{Builtin, Ty};
use q_lane::Scalar;
use sqlite_items::{Boxed, Items};

/// An expression. `at` is the offset in the source of the first byte of its first token.
#[cycle(body)]
#[derive(Drop)]
pub struct TExpr {
    pub at: u32,
    pub ty: Ty,
    pub node: Node,
}

/// What an expression does. Variables are given by their numbers.
#[cycle(body)]
#[derive(Drop)]
pub enum Node {
    Number(u32),
    Name(u32),
    Index {
        base: Boxed<TExpr>,
        index: Boxed<TExpr>,
    },
    Element {
        array: u32,
        index: Boxed<TExpr>,
    },
    Deref(Boxed<TExpr>),
    Prefix {
        op: Mark,
        arg: Boxed<TExpr>,
    },
    Step {
        place: Boxed<TExpr>,
        up: bool,
        post: bool,
    },
    Cast(Boxed<TExpr>),
    Paren(Boxed<TExpr>),
    Chain {
        first: Boxed<TExpr>,
        rest: Items<(Mark, TExpr)>,
    },
    Cond(Boxed<TExpr>, Boxed<TExpr>, Boxed<TExpr>),
    Assign {
        place: Boxed<TExpr>,
        op: Mark,
        value: Boxed<TExpr>,
    },
    /// A called function's body: its arguments are stored in the variables `params`, and a `return` in it leaves it.
    Scope {
        params: Items<u32>,
        args: Items<TExpr>,
        result: Option<Scalar>,
        body: Boxed<TStmt>,
    },
    Builtin {
        which: Builtin,
        work: Scalar,
        args: Items<TExpr>,
    },
}

/// A statement, or the declaration of one variable.
#[cycle(body)]
#[derive(Drop)]
pub enum TStmt {
    Block(Items<TStmt>),
    Declare {
        var: u32,
        init: Option<TExpr>,
    },
    Eval(TExpr),
    Empty,
    If {
        cond: TExpr,
        yes: Boxed<TStmt>,
        no: Option<Boxed<TStmt>>,
    },
    While {
        cond: TExpr,
        body: Boxed<TStmt>,
    },
    Do {
        body: Boxed<TStmt>,
        cond: TExpr,
    },
    For {
        init: Items<TStmt>,
        cond: Option<TExpr>,
        step: Option<TExpr>,
        body: Boxed<TStmt>,
    },
    Break,
    Continue,
    Return(Option<TExpr>),
}
