//! The nodes of a function and the elements of its private arrays, each call counted with the called function.

ghost use Rattle.std.specs.Prelude.{◌≡◌, [], map, IfOk};
ghost use Rattle.std.specs.Option.{option_map};
ghost use Rattle.clc_lexer.specs.declared.marks.Mark.{Mark};
ghost use Rattle.clc_counts.specs.Counts.{is_quotient as is_quotient_of, weight as weight_of, plus, none, summed, operands_summed, wholes_summed, begins_summed, else_count, expr_count, maybe_count, stmt_counts, function_count, counted_after, array_tally};

use crate::tally::{Tally, array, counted, nodes, none, plus};
use clc_lexer::Mark;
use clc_types::{Node, TExpr, TFunction, TStmt};
use sqlite_items::Boxed;
use std::alloc::{AllocError, Global};

fn is_quotient(op: Mark) -> bool
    ensures { result ≡ is_quotient_of op }
{
    match op {
        Mark::Slash | Mark::Percent | Mark::SlashAssign | Mark::PercentAssign => true,
        _ => false,
    }
}

/// How many nodes an operator counts as.
fn weight(op: Mark) -> u32
    ensures { result ≡ weight_of op }
{
    if is_quotient(op) { 16 } else { 1 }
}

#[cycle(expressions)]
fn expression(tallies: &[Tally], e: &TExpr) -> Tally
    ensures { result ≡ expr_count plus tallies.now e.now }
{
    match &e.node {
        Node::Number(_) | Node::Name(_) => nodes(1),
        Node::Index { base, index } => {
            let two = plus(
                expression(tallies, base.get()),
                expression(tallies, index.get()),
            );
            plus(nodes(1), two)
        }
        Node::Element { index, .. } => plus(nodes(2), expression(tallies, index.get())),
        Node::Deref(x) | Node::Cast(x) => plus(nodes(1), expression(tallies, x.get())),
        Node::Paren(x) => expression(tallies, x.get()),
        Node::Prefix { arg, .. } => plus(nodes(1), expression(tallies, arg.get())),
        Node::Step { place, .. } => plus(nodes(1), expression(tallies, place.get())),
        Node::Chain { first, rest } => operands(
            tallies,
            expression(tallies, first.get()),
            rest.as_slice(),
        ),
        Node::Cond(x, y, z) => {
            let two = plus(expression(tallies, y.get()), expression(tallies, z.get()));
            plus(nodes(1), plus(expression(tallies, x.get()), two))
        }
        Node::Assign { place, op, value } => {
            let two = plus(
                expression(tallies, place.get()),
                expression(tallies, value.get()),
            );
            plus(nodes(weight(*op)), two)
        }
        Node::Call { function, args } => expressions(
            tallies,
            plus(nodes(1), counted(tallies, *function)),
            args.as_slice(),
        ),
        Node::Builtin { args, .. } => expressions(tallies, nodes(16), args.as_slice()),
    }
}

/// Adds expressions.
#[cycle(expressions)]
fn expressions(tallies: &[Tally], start: Tally, all: &[TExpr]) -> Tally
    ensures { result ≡ summed plus start (map (expr_count plus tallies.now) all.now) }
{
    let mut tally = start;
    for e in all {
        tally = plus(tally, expression(tallies, e));
    }
    tally
}

/// Adds operators with the operands after them.
#[cycle(expressions)]
fn operands(tallies: &[Tally], start: Tally, all: &[(Mark, TExpr)]) -> Tally
    ensures { result ≡ operands_summed plus start (map (λ x. (x.0, expr_count plus tallies.now x.1)) all.now) }
{
    let mut tally = start;
    for x in all {
        tally = plus(tally, plus(nodes(weight(x.0)), expression(tallies, &x.1)));
    }
    tally
}

fn maybe(tallies: &[Tally], e: &Option<TExpr>) -> Tally
    ensures { result ≡ maybe_count plus tallies.now e.now }
{
    match e {
        None => none(),
        Some(e) => expression(tallies, e),
    }
}

#[cycle(statements)]
fn statement(tallies: &[Tally], s: &TStmt) -> Tally
    ensures { result ≡ (stmt_counts plus tallies.now s.now).whole }
{
    match s {
        TStmt::Empty | TStmt::Break | TStmt::Continue => nodes(1),
        TStmt::Block(all) => statements(tallies, nodes(1), all.as_slice()),
        TStmt::Declare { init, .. } => plus(nodes(1), maybe(tallies, init)),
        TStmt::Eval(e) => plus(nodes(1), expression(tallies, e)),
        TStmt::If { cond, yes, no } => {
            let two = plus(statement(tallies, yes.get()), otherwise(tallies, no));
            plus(nodes(1), plus(expression(tallies, cond), two))
        }
        TStmt::While { cond, body } => {
            let two = plus(expression(tallies, cond), statement(tallies, body.get()));
            plus(nodes(1), two)
        }
        TStmt::Do { body, cond } => {
            let two = plus(statement(tallies, body.get()), expression(tallies, cond));
            plus(nodes(1), two)
        }
        TStmt::For {
            init,
            cond,
            step,
            body,
        } => {
            let start = beginnings(tallies, nodes(1), init.as_slice());
            let two = plus(maybe(tallies, step), statement(tallies, body.get()));
            plus(start, plus(maybe(tallies, cond), two))
        }
        TStmt::Return(e) => plus(nodes(1), maybe(tallies, e)),
    }
}

/// Adds statements.
#[cycle(statements)]
fn statements(tallies: &[Tally], start: Tally, all: &[TStmt]) -> Tally
    ensures { result ≡ wholes_summed plus start (map (stmt_counts plus tallies.now) all.now) }
{
    let mut tally = start;
    for s in all {
        tally = plus(tally, statement(tallies, s));
    }
    tally
}

#[cycle(statements)]
fn otherwise(tallies: &[Tally], s: &Option<Boxed<TStmt>>) -> Tally
    ensures { result ≡ else_count (option_map (stmt_counts plus tallies.now) s.now) }
{
    match s {
        None => none(),
        Some(s) => statement(tallies, s.get()),
    }
}

/// What stands first in a `for`: declared items, or an expression, which is no expression statement there.
fn beginning(tallies: &[Tally], s: &TStmt) -> Tally
    ensures { result ≡ (stmt_counts plus tallies.now s.now).begun }
{
    match s {
        TStmt::Eval(e) => expression(tallies, e),
        TStmt::Declare { init, .. } => plus(nodes(1), maybe(tallies, init)),
        TStmt::Block(_) => none(),
        TStmt::Empty => none(),
        TStmt::If { .. } => none(),
        TStmt::While { .. } => none(),
        TStmt::Do { .. } => none(),
        TStmt::For { .. } => none(),
        TStmt::Break => none(),
        TStmt::Continue => none(),
        TStmt::Return(_) => none(),
    }
}

fn beginnings(tallies: &[Tally], start: Tally, all: &[TStmt]) -> Tally
    ensures { result ≡ begins_summed plus start (map (stmt_counts plus tallies.now) all.now) }
{
    let mut tally = start;
    for s in all {
        tally = plus(tally, beginning(tallies, s));
    }
    tally
}

fn function(tallies: &[Tally], function: &TFunction) -> Tally
    ensures { result ≡ function_count plus tallies.now function.now }
{
    let mut tally = statement(tallies, &function.body);
    for var in function.vars.as_slice() {
        tally = plus(tally, array(*var));
    }
    tally
}

/// Counts each function, in order: a function calls earlier ones alone.
pub(crate) fn count(alloc: Global, functions: &[TFunction]) -> Result<Vec<Tally>, AllocError>
    ensures { IfOk result (λ tallies. tallies.items ≡ counted_after plus [] functions.now) }
{
    let mut tallies = Vec::new(alloc);
    for called in functions {
        let tally = function(&tallies, called);
        tallies.push(tally)?;
    }
    Ok(tallies)
}
