//! Whether a body names only what is there.

ghost use Rattle.std.specs.Prelude.{◌≡◌, ◌&&◌, ◌^◌, nat_lt};
ghost use Rattle.clc_inline.specs.Named.{all_below, is_node, is_statement, is_beginning, is_named};
ghost use Rattle.clc_inline.specs.NamedLists.{are_nodes, are_operands, are_statements, are_beginnings, if_some, if_other};

use crate::body::{Node, TExpr, TStmt};
use clc_lexer::Mark;
use clc_types::Var;
use sqlite_items::Boxed;

fn both(a: bool, b: bool) -> bool
    ensures { result ≡ (a && b) }
{
    a && b
}

fn is_below(n: usize, var: u32) -> bool
    ensures { result ≡ nat_lt var n }
{
    (var as usize) < n
}

/// Each number is a word.
fn is_word(word: u32) -> bool
    ensures { result ≡ nat_lt word (2 ^ 32) }
{
    let _word = word;
    true
}

fn are_below(n: usize, params: &[u32]) -> bool
    ensures { result ≡ all_below n params.now }
{
    for param in params {
        if !is_below(n, *param) {
            return false;
        }
    }
    true
}

#[cycle(named)]
fn node(n: usize, e: &TExpr) -> bool
    ensures { result ≡ is_node n e.now.node }
{
    match &e.node {
        Node::Number(word) => is_word(*word),
        Node::Name(var) => is_below(n, *var),
        Node::Index { base, index } => both(node(n, base.get()), node(n, index.get())),
        Node::Element { array, index } => both(is_below(n, *array), node(n, index.get())),
        Node::Deref(pointer) => node(n, pointer.get()),
        Node::Prefix { arg, .. } => node(n, arg.get()),
        Node::Step { place, .. } => node(n, place.get()),
        Node::Cast(arg) => node(n, arg.get()),
        Node::Paren(arg) => node(n, arg.get()),
        Node::Chain { first, rest } => both(node(n, first.get()), operands(n, rest.as_slice())),
        Node::Cond(cond, one, other) => both(
            node(n, cond.get()),
            both(node(n, one.get()), node(n, other.get())),
        ),
        Node::Assign { place, value, .. } => both(node(n, place.get()), node(n, value.get())),
        Node::Scope {
            params,
            args,
            body,
            ..
        } => both(
            are_below(n, params.as_slice()),
            both(nodes(n, args.as_slice()), statement(n, false, body.get())),
        ),
        Node::Builtin { args, .. } => nodes(n, args.as_slice()),
    }
}

#[cycle(named)]
fn nodes(n: usize, all: &[TExpr]) -> bool
    ensures { result ≡ are_nodes n all.now }
{
    for e in all {
        if !node(n, e) {
            return false;
        }
    }
    true
}

#[cycle(named)]
fn operands(n: usize, all: &[(Mark, TExpr)]) -> bool
    ensures { result ≡ are_operands n all.now }
{
    for (_, e) in all {
        if !node(n, e) {
            return false;
        }
    }
    true
}

#[cycle(named)]
fn maybe(n: usize, e: &Option<TExpr>) -> bool
    ensures { result ≡ if_some n e.now }
{
    match e {
        None => true,
        Some(e) => node(n, e),
    }
}

/// A statement, in a loop or not.
#[cycle(named)]
#[tactic(auto, using(crate::proofs::NamedForms::named_block, crate::proofs::NamedForms::named_declare, crate::proofs::NamedForms::named_return))]
fn statement(n: usize, looped: bool, a: &TStmt) -> bool
    ensures { result ≡ is_statement n looped a.now }
{
    match a {
        TStmt::Block(stmts) => block(n, looped, stmts.as_slice()),
        TStmt::Declare { var, init } => both(is_below(n, *var), maybe(n, init)),
        TStmt::Eval(e) => node(n, e),
        TStmt::Empty => true,
        TStmt::If { cond, yes, no } => both(
            node(n, cond),
            both(statement(n, looped, yes.get()), otherwise(n, looped, no)),
        ),
        TStmt::While { cond, body } => both(node(n, cond), statement(n, true, body.get())),
        TStmt::Do { body, cond } => both(node(n, cond), statement(n, true, body.get())),
        TStmt::For {
            init,
            cond,
            step,
            body,
        } => both(
            beginnings(n, init.as_slice()),
            both(
                maybe(n, cond),
                both(maybe(n, step), statement(n, true, body.get())),
            ),
        ),
        TStmt::Break => looped,
        TStmt::Continue => looped,
        TStmt::Return(e) => maybe(n, e),
    }
}

#[cycle(named)]
fn otherwise(n: usize, looped: bool, other: &Option<Boxed<TStmt>>) -> bool
    ensures { result ≡ if_other n looped other.now }
{
    match other {
        None => true,
        Some(a) => statement(n, looped, a.get()),
    }
}

#[cycle(named)]
fn block(n: usize, looped: bool, all: &[TStmt]) -> bool
    ensures { result ≡ are_statements n looped all.now }
{
    for a in all {
        if !statement(n, looped, a) {
            return false;
        }
    }
    true
}

#[cycle(named)]
fn beginnings(n: usize, all: &[TStmt]) -> bool
    ensures { result ≡ are_beginnings n all.now }
{
    for a in all {
        if !beginning(n, a) {
            return false;
        }
    }
    true
}

/// What stands first in a `for`.
#[cycle(named)]
#[tactic(auto, using(crate::proofs::NamedForms::first_declare))]
fn beginning(n: usize, a: &TStmt) -> bool
    ensures { result ≡ is_beginning n a.now }
{
    match a {
        TStmt::Eval(e) => node(n, e),
        TStmt::Declare { var, init } => both(is_below(n, *var), maybe(n, init)),
        TStmt::Block(_) => true,
        TStmt::Empty => true,
        TStmt::If { .. } => true,
        TStmt::While { .. } => true,
        TStmt::Do { .. } => true,
        TStmt::For { .. } => true,
        TStmt::Break => true,
        TStmt::Continue => true,
        TStmt::Return(_) => true,
    }
}

/// Whether a body names only what is there, among them so many parameters.
pub(crate) fn is_sound(vars: &[Var], params: u32, body: &TStmt) -> bool
    ensures { result ≡ is_named vars.now params body.now }
{
    let n = vars.len();
    both(params as usize <= n, statement(n, false, body))
}
