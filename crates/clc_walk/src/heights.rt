//! How high the calls in a typed tree reach.

ghost use Rattle.std.specs.Prelude.{◌≡◌, map, max, slice_get};
ghost use Rattle.std.specs.Option.{option_map};
ghost use Rattle.clc_lexer.specs.declared.marks.Mark.{Mark};
ghost use Rattle.clc_types.specs.Heights.{or_zero, greatest, greatest_operand, expr_reach as expr_reach_of, maybe_expr_reach as maybe_expr_reach_of, stmt_reach as stmt_reach_of};

use clc_lexer::Mark;
use clc_types::{Node, TExpr, TStmt};
use sqlite_items::Boxed;

fn height_of(heights: &[u32], function: u32) -> u32
    ensures { result ≡ or_zero (slice_get heights.now function) }
{
    match heights.get(function as usize) {
        None => 0,
        Some(height) => *height,
    }
}

/// The greatest height of the functions that are called in an expression.
#[cycle(exprs)]
pub fn expr_reach(heights: &[u32], e: &TExpr) -> u32
    ensures { result ≡ expr_reach_of heights.now e.now }
{
    match &e.node {
        Node::Number(_) | Node::Name(_) => 0,
        Node::Index { base, index } => expr_reach(heights, base.get()).max(expr_reach(
            heights,
            index.get(),
        )),
        Node::Element { index, .. } => expr_reach(heights, index.get()),
        Node::Deref(x) | Node::Cast(x) | Node::Paren(x) => expr_reach(heights, x.get()),
        Node::Prefix { arg, .. } => expr_reach(heights, arg.get()),
        Node::Step { place, .. } => expr_reach(heights, place.get()),
        Node::Chain { first, rest } => expr_reach(heights, first.get()).max(operands_reach(
            heights,
            rest.as_slice(),
        )),
        Node::Cond(x, y, z) => {
            let two = expr_reach(heights, y.get()).max(expr_reach(heights, z.get()));
            expr_reach(heights, x.get()).max(two)
        }
        Node::Assign { place, value, .. } => expr_reach(heights, place.get()).max(expr_reach(
            heights,
            value.get(),
        )),
        Node::Call { function, args } => height_of(heights, *function).max(exprs_reach(
            heights,
            args.as_slice(),
        )),
        Node::Builtin { args, .. } => exprs_reach(heights, args.as_slice()),
    }
}

#[cycle(exprs)]
fn exprs_reach(heights: &[u32], all: &[TExpr]) -> u32
    ensures { result ≡ greatest (map (expr_reach_of heights.now) all.now) }
{
    let mut most = 0;
    for e in all {
        most = most.max(expr_reach(heights, e));
    }
    most
}

#[cycle(exprs)]
fn operands_reach(heights: &[u32], all: &[(Mark, TExpr)]) -> u32
    ensures { result ≡ greatest_operand (map (λ x. (x.0, expr_reach_of heights.now x.1)) all.now) }
{
    let mut most = 0;
    for x in all {
        most = most.max(expr_reach(heights, &x.1));
    }
    most
}

fn maybe_expr_reach(heights: &[u32], e: &Option<TExpr>) -> u32
    ensures { result ≡ maybe_expr_reach_of heights.now e.now }
{
    match e {
        None => 0,
        Some(e) => expr_reach(heights, e),
    }
}

/// The greatest height of the functions that are called in a statement.
#[cycle(stmts)]
pub fn stmt_reach(heights: &[u32], s: &TStmt) -> u32
    ensures { result ≡ stmt_reach_of heights.now s.now }
{
    match s {
        TStmt::Empty | TStmt::Break | TStmt::Continue => 0,
        TStmt::Block(all) => stmts_reach(heights, all.as_slice()),
        TStmt::Declare { init, .. } => maybe_expr_reach(heights, init),
        TStmt::Eval(e) => expr_reach(heights, e),
        TStmt::If { cond, yes, no } => {
            let two = stmt_reach(heights, yes.get()).max(maybe_stmt_reach(heights, no));
            expr_reach(heights, cond).max(two)
        }
        TStmt::While { cond, body } => expr_reach(heights, cond).max(stmt_reach(
            heights,
            body.get(),
        )),
        TStmt::Do { body, cond } => stmt_reach(heights, body.get()).max(expr_reach(heights, cond)),
        TStmt::For {
            init,
            cond,
            step,
            body,
        } => {
            let two = maybe_expr_reach(heights, step).max(stmt_reach(heights, body.get()));
            let three = maybe_expr_reach(heights, cond).max(two);
            stmts_reach(heights, init.as_slice()).max(three)
        }
        TStmt::Return(e) => maybe_expr_reach(heights, e),
    }
}

/// The greatest height of the functions that are called in statements.
#[cycle(stmts)]
pub fn stmts_reach(heights: &[u32], all: &[TStmt]) -> u32
    ensures { result ≡ greatest (map (stmt_reach_of heights.now) all.now) }
{
    let mut most = 0;
    for s in all {
        most = most.max(stmt_reach(heights, s));
    }
    most
}

#[cycle(stmts)]
fn maybe_stmt_reach(heights: &[u32], s: &Option<Boxed<TStmt>>) -> u32
    ensures { result ≡ or_zero (option_map (stmt_reach_of heights.now) s.now) }
{
    match s {
        None => 0,
        Some(s) => stmt_reach(heights, s.get()),
    }
}
