//! Code of expressions and statements. Each adds its statements to those that are given to it, with numbers from k on, and says which number is
//! free then.

ghost use Rattle.std.specs.Prelude.{IfOk};
ghost use Rattle.item_meaning.specs.StatementMeanings.{var_at};
ghost use Rattle.ir_build.specs.Adds.{Adds, Grows, Finds, Gathers, Holds, Tests};
ghost use Rattle.ir_build.specs.Code.{with_code, truth_code, and_code, or_code, operator_code, assigned_code, compound_code, scope_code, read_code, into_code, declare_code, stmt_code, begin_with_code, effect as effect_code};
ghost use Rattle.ir_build.specs.Lists.{value_code, place_code, chain_list, args_list, code_if, test_of, step_of, return_of, all_list, begin_list, else_of};

use crate::functions::function;
use crate::operators::{combined, converted, prefixed};
use crate::pieces::{Memory, Piece, after, define, truth};
use crate::places::{Found, Target, element, fetch, nowhere, step, store};
use crate::scopes::{
    Back, Branch, Given, Head, always, choice, choose, clear, conditional, give_back, held, pass,
    repeat, test_of_variable,
};
use crate::types::{type_of, variable_at};
use clc_inline::{Node, TExpr, TStmt};
use clc_lexer::Mark;
use clc_types::{Ty, Var};
use item_ir::{Def, Stmt, Val};
use item_values::{operator_in, type_after};
use q_lane::Scalar;
use sqlite_items::{Boxed, Items};
use std::alloc::Global;

/// The value of an expression.
#[cycle(code)]
fn value(
    alloc: Global,
    vars: &[Var],
    out: &mut Vec<Stmt>,
    e: &TExpr,
    k: u32,
) -> Result<Piece, Memory>
    ensures { IfOk result (λ p. Adds out.old.items out.new.items p (value_code vars.now e.now k)) }
{
    match &e.node {
        Node::Number(word) => define(out, Def::Const(*word), k),
        Node::Name(var) => fetch(out, e.ty, Target::Into(*var), k),
        Node::Index { .. } => read(alloc, vars, out, e, k),
        Node::Element { .. } => read(alloc, vars, out, e, k),
        Node::Deref(_) => read(alloc, vars, out, e, k),
        Node::Prefix { op, arg } => {
            let x = value(alloc, vars, out, arg.get(), k)?;
            prefixed(out, *op, x.val, x.next)
        }
        Node::Step { place, up, post } => {
            let found = located(alloc, vars, out, place.get(), k)?;
            step(out, place.get().ty, *up, *post, found)
        }
        Node::Cast(arg) => {
            let x = value(alloc, vars, out, arg.get(), k)?;
            converted(out, e.ty, x.val, x.next)
        }
        Node::Paren(arg) => value(alloc, vars, out, arg.get(), k),
        Node::Chain { first, rest } => {
            let x = value(alloc, vars, out, first.get(), k)?;
            operators(alloc, vars, out, first.get().ty, x, rest.as_slice())
        }
        Node::Cond(cond, one, other) => {
            let cond = value(alloc, vars, out, cond.get(), k)?;
            let yes = into(alloc, vars, cond.next, one.get(), after(cond.next)?)?;
            let no = into(alloc, vars, cond.next, other.get(), yes.next)?;
            conditional(out, cond, yes, no)
        }
        Node::Assign { place, op, value } => {
            let found = located(alloc, vars, out, place.get(), k)?;
            assign(alloc, vars, out, place.get().ty, *op, found, value.get())
        }
        Node::Scope {
            params,
            args,
            result,
            body,
        } => {
            let given = arguments(alloc, vars, out, args.as_slice(), k)?;
            scope(
                alloc,
                vars,
                out,
                params.as_slice(),
                given,
                *result,
                body.get(),
            )
        }
        Node::Builtin { which, work, args } => {
            let given = arguments(alloc, vars, out, args.as_slice(), k)?;
            function(out, *which, *work, given.vals, given.next)
        }
    }
}

/// The value of an expression that is a place.
#[cycle(code)]
fn read(
    alloc: Global,
    vars: &[Var],
    out: &mut Vec<Stmt>,
    e: &TExpr,
    k: u32,
) -> Result<Piece, Memory>
    ensures { IfOk result (λ p. Adds out.old.items out.new.items p (read_code e.now.ty (place_code vars.now e.now k))) }
{
    let found = located(alloc, vars, out, e, k)?;
    fetch(out, e.ty, found.to, found.next)
}

/// An expression as a place.
#[cycle(code)]
fn located(
    alloc: Global,
    vars: &[Var],
    out: &mut Vec<Stmt>,
    e: &TExpr,
    k: u32,
) -> Result<Found, Memory>
    ensures { IfOk result (λ p. Finds out.old.items out.new.items p (place_code vars.now e.now k)) }
{
    match &e.node {
        Node::Name(var) => Ok(Found {
            to: Target::Into(*var),
            next: k,
        }),
        Node::Index { base, index } => {
            let pointer = value(alloc, vars, out, base.get(), k)?;
            let count = value(alloc, vars, out, index.get(), pointer.next)?;
            element(out, e.ty, pointer.val, count)
        }
        Node::Element { array, index } => {
            let index = value(alloc, vars, out, index.get(), k)?;
            Ok(Found {
                to: Target::Cell {
                    array: *array,
                    index: index.val,
                },
                next: index.next,
            })
        }
        Node::Deref(pointer) => {
            let pointer = value(alloc, vars, out, pointer.get(), k)?;
            Ok(Found {
                to: Target::Behind(pointer.val),
                next: pointer.next,
            })
        }
        Node::Paren(arg) => located(alloc, vars, out, arg.get(), k),
        Node::Number(_) => Ok(nowhere(k)),
        Node::Prefix { .. } => Ok(nowhere(k)),
        Node::Step { .. } => Ok(nowhere(k)),
        Node::Cast(_) => Ok(nowhere(k)),
        Node::Chain { .. } => Ok(nowhere(k)),
        Node::Cond(_, _, _) => Ok(nowhere(k)),
        Node::Assign { .. } => Ok(nowhere(k)),
        Node::Scope { .. } => Ok(nowhere(k)),
        Node::Builtin { .. } => Ok(nowhere(k)),
    }
}

/// The value of an assignment to a place of this type.
#[cycle(code)]
fn assign(
    alloc: Global,
    vars: &[Var],
    out: &mut Vec<Stmt>,
    ty: Ty,
    op: Mark,
    found: Found,
    e: &TExpr,
) -> Result<Piece, Memory>
    ensures { IfOk result (λ p. Adds out.old.items out.new.items p (assigned_code ty op e.now.ty (value_code vars.now e.now) found.to found.next)) }
{
    match op {
        Mark::Assign => {
            let x = value(alloc, vars, out, e, found.next)?;
            store(out, ty, found.to, x.val, x.next)
        }
        _ => compound(alloc, vars, out, ty, op, found, e),
    }
}

/// The value of an assignment with an operator.
#[cycle(code)]
fn compound(
    alloc: Global,
    vars: &[Var],
    out: &mut Vec<Stmt>,
    ty: Ty,
    op: Mark,
    found: Found,
    e: &TExpr,
) -> Result<Piece, Memory>
    ensures { IfOk result (λ p. Adds out.old.items out.new.items p (compound_code ty op e.now.ty (value_code vars.now e.now) found.to found.next)) }
{
    let old = fetch(out, ty, found.to, found.next)?;
    let x = value(alloc, vars, out, e, old.next)?;
    let new = combined(out, ty, operator_in(op), e.ty, old.val, x.val, x.next)?;
    store(out, ty, found.to, new.val, new.next)
}

/// Statements that store the value of an expression in variable r.
#[cycle(code)]
fn into(alloc: Global, vars: &[Var], r: u32, e: &TExpr, k: u32) -> Result<Branch, Memory>
    ensures { IfOk result (λ b. Holds b (into_code r (value_code vars.now e.now k))) }
{
    let mut stmts = Vec::new(alloc);
    let x = value(alloc, vars, &mut stmts, e, k)?;
    stmts.push(Stmt::Set(r, x.val))?;
    Ok(Branch {
        stmts,
        next: x.next,
    })
}

/// Statements that store the truth of an expression in variable r.
#[cycle(code)]
fn truth_into(alloc: Global, vars: &[Var], r: u32, e: &TExpr, k: u32) -> Result<Branch, Memory>
    ensures { IfOk result (λ b. Holds b (into_code r (with_code (value_code vars.now e.now k) truth_code))) }
{
    let mut stmts = Vec::new(alloc);
    let x = value(alloc, vars, &mut stmts, e, k)?;
    let x = truth(&mut stmts, x.val, x.next)?;
    stmts.push(Stmt::Set(r, x.val))?;
    Ok(Branch {
        stmts,
        next: x.next,
    })
}

/// `&&` after the value x.
#[cycle(code)]
fn and_also(
    alloc: Global,
    vars: &[Var],
    out: &mut Vec<Stmt>,
    x: Val,
    e: &TExpr,
    k: u32,
) -> Result<Piece, Memory>
    ensures { IfOk result (λ p. Adds out.old.items out.new.items p (and_code x.0 k (value_code vars.now e.now))) }
{
    let first = truth(out, x, k)?;
    let yes = truth_into(alloc, vars, first.next, e, after(first.next)?)?;
    let no = Branch::empty(alloc, yes.next);
    choose(out, first, yes, no)
}

/// `||` after the value x.
#[cycle(code)]
fn or_else(
    alloc: Global,
    vars: &[Var],
    out: &mut Vec<Stmt>,
    x: Val,
    e: &TExpr,
    k: u32,
) -> Result<Piece, Memory>
    ensures { IfOk result (λ p. Adds out.old.items out.new.items p (or_code x.0 k (value_code vars.now e.now))) }
{
    let first = truth(out, x, k)?;
    let yes = Branch::empty(alloc, first.next);
    let no = truth_into(alloc, vars, first.next, e, after(first.next)?)?;
    choose(out, first, yes, no)
}

/// One operator of a chain, with the value x of type ty before it.
#[cycle(code)]
fn operated(
    alloc: Global,
    vars: &[Var],
    out: &mut Vec<Stmt>,
    ty: Ty,
    op: Mark,
    x: Val,
    e: &TExpr,
    k: u32,
) -> Result<Piece, Memory>
    ensures { IfOk result (λ p. Adds out.old.items out.new.items p (operator_code ty op e.now.ty x.0 k (value_code vars.now e.now))) }
{
    match op {
        Mark::AndAnd => and_also(alloc, vars, out, x, e, k),
        Mark::OrOr => or_else(alloc, vars, out, x, e, k),
        Mark::Comma => value(alloc, vars, out, e, k),
        _ => {
            let y = value(alloc, vars, out, e, k)?;
            combined(out, ty, op, e.ty, x, y.val, y.next)
        }
    }
}

/// The operators of a chain after the value x of type ty.
#[cycle(code)]
fn operators(
    alloc: Global,
    vars: &[Var],
    out: &mut Vec<Stmt>,
    ty: Ty,
    x: Piece,
    rest: &[(Mark, TExpr)],
) -> Result<Piece, Memory>
    ensures { IfOk result (λ p. Adds out.old.items out.new.items p (chain_list vars.now ty x.val.0 rest.now x.next)) }
{
    let mut ty = ty;
    let mut x = x;
    for (op, e) in rest {
        x = operated(alloc, vars, out, ty, *op, x.val, e, x.next)?;
        ty = type_after(*op, ty, e.ty);
    }
    Ok(x)
}

#[cycle(code)]
fn arguments(
    alloc: Global,
    vars: &[Var],
    out: &mut Vec<Stmt>,
    args: &[TExpr],
    k: u32,
) -> Result<Given, Memory>
    ensures { IfOk result (λ given. Gathers out.old.items out.new.items given (args_list vars.now args.now k)) }
{
    let mut vals = Vec::new(alloc);
    let mut next = k;
    for e in args {
        let x = value(alloc, vars, out, e, next)?;
        vals.push(x.val)?;
        next = x.next;
    }
    Ok(Given { vals, next })
}

/// A called function's body. Its result stands in a variable of its own, which is 0 where the body begins.
#[cycle(code)]
fn scope(
    alloc: Global,
    vars: &[Var],
    out: &mut Vec<Stmt>,
    params: &[u32],
    given: Given,
    result_type: Option<Scalar>,
    body: &TStmt,
) -> Result<Piece, Memory>
    ensures { IfOk result (λ p. Adds out.old.items out.new.items p (scope_code vars.now params.now result_type (λ back l. stmt_code vars.now back body.now l) given.vals.items given.next)) }
{
    let next = pass(out, vars, params, &given.vals, given.next)?;
    let var = held(out, 0, next)?;
    let back = Back {
        result: result_type,
        var,
    };
    let inner = inside(alloc, vars, back, body, after(var)?)?;
    let next = inner.next;
    out.push(Stmt::Scope(Items::from_vec(inner.stmts)))?;
    define(out, Def::Get(var), next)
}

/// A statement, in a scope with this result.
#[cycle(code)]
pub(crate) fn statement(
    alloc: Global,
    vars: &[Var],
    back: Back,
    out: &mut Vec<Stmt>,
    a: &TStmt,
    k: u32,
) -> Result<u32, Memory>
    ensures { IfOk result (λ next. Grows out.old.items out.new.items next (stmt_code vars.now back a.now k)) }
{
    match a {
        TStmt::Block(stmts) => block(alloc, vars, back, out, stmts.as_slice(), k),
        TStmt::Declare { var, init } => declare(alloc, vars, out, *var, init, k),
        TStmt::Eval(e) => Ok(value(alloc, vars, out, e, k)?.next),
        TStmt::Empty => Ok(k),
        TStmt::If { cond, yes, no } => {
            let cond = value(alloc, vars, out, cond, k)?;
            let yes = inside(alloc, vars, back, yes.get(), cond.next)?;
            let no = otherwise(alloc, vars, back, no, yes.next)?;
            choice(out, cond.val, yes, no)
        }
        TStmt::While { cond, body } => {
            let head = headed(alloc, vars, cond, k)?;
            let round = inside(alloc, vars, back, body.get(), head.next)?;
            let last = Branch::empty(alloc, round.next);
            repeat(out, head, round, last)
        }
        TStmt::Do { body, cond } => {
            let r = held(out, 1, k)?;
            let head = test_of_variable(alloc, r)?;
            let round = inside(alloc, vars, back, body.get(), head.next)?;
            let last = into(alloc, vars, r, cond, round.next)?;
            repeat(out, head, round, last)
        }
        TStmt::For {
            init,
            cond,
            step,
            body,
        } => {
            let next = beginnings(alloc, vars, out, init.as_slice(), k)?;
            let head = tested(alloc, vars, cond, next)?;
            let round = inside(alloc, vars, back, body.get(), head.next)?;
            let last = stepped_on(alloc, vars, step, round.next)?;
            repeat(out, head, round, last)
        }
        TStmt::Break => {
            out.push(Stmt::Break)?;
            Ok(k)
        }
        TStmt::Continue => {
            out.push(Stmt::Continue)?;
            Ok(k)
        }
        TStmt::Return(e) => returned(alloc, vars, back, out, e, k),
    }
}

#[cycle(code)]
fn block(
    alloc: Global,
    vars: &[Var],
    back: Back,
    out: &mut Vec<Stmt>,
    all: &[TStmt],
    k: u32,
) -> Result<u32, Memory>
    ensures { IfOk result (λ next. Grows out.old.items out.new.items next (all_list vars.now back all.now k)) }
{
    let mut next = k;
    for a in all {
        next = statement(alloc, vars, back, out, a, next)?;
    }
    Ok(next)
}

#[cycle(code)]
fn declare(
    alloc: Global,
    vars: &[Var],
    out: &mut Vec<Stmt>,
    var: u32,
    init: &Option<TExpr>,
    k: u32,
) -> Result<u32, Memory>
    ensures { IfOk result (λ next. Grows out.old.items out.new.items next (declare_code (var_at vars.now var) var (code_if vars.now init.now) k)) }
{
    let declared = variable_at(vars, var);
    let next = clear(out, declared, var, k)?;
    match init {
        None => Ok(next),
        Some(e) => {
            let x = value(alloc, vars, out, e, next)?;
            Ok(store(out, type_of(declared), Target::Into(var), x.val, x.next)?.next)
        }
    }
}

#[cycle(code)]
fn returned(
    alloc: Global,
    vars: &[Var],
    back: Back,
    out: &mut Vec<Stmt>,
    e: &Option<TExpr>,
    k: u32,
) -> Result<u32, Memory>
    ensures { IfOk result (λ next. Grows out.old.items out.new.items next (return_of vars.now back e.now k)) }
{
    match e {
        None => {
            out.push(Stmt::Leave)?;
            Ok(k)
        }
        Some(e) => {
            let x = value(alloc, vars, out, e, k)?;
            give_back(out, back, x.val, x.next)
        }
    }
}

/// A statement by itself.
#[cycle(code)]
fn inside(alloc: Global, vars: &[Var], back: Back, a: &TStmt, k: u32) -> Result<Branch, Memory>
    ensures { IfOk result (λ b. Holds b (stmt_code vars.now back a.now k)) }
{
    let mut stmts = Vec::new(alloc);
    let next = statement(alloc, vars, back, &mut stmts, a, k)?;
    Ok(Branch { stmts, next })
}

/// The statement after `else`, if there is one.
#[cycle(code)]
fn otherwise(
    alloc: Global,
    vars: &[Var],
    back: Back,
    other: &Option<Boxed<TStmt>>,
    k: u32,
) -> Result<Branch, Memory>
    ensures { IfOk result (λ b. Holds b (else_of vars.now back other.now k)) }
{
    match other {
        None => Ok(Branch::empty(alloc, k)),
        Some(a) => inside(alloc, vars, back, a.get(), k),
    }
}

/// The head of a loop: its condition.
#[cycle(code)]
fn headed(alloc: Global, vars: &[Var], cond: &TExpr, k: u32) -> Result<Head, Memory>
    ensures { IfOk result (λ h. Tests h (value_code vars.now cond.now k)) }
{
    let mut stmts = Vec::new(alloc);
    let test = value(alloc, vars, &mut stmts, cond, k)?;
    Ok(Head {
        stmts,
        val: test.val,
        next: test.next,
    })
}

/// What stands first in a `for`.
#[cycle(code)]
fn beginnings(
    alloc: Global,
    vars: &[Var],
    out: &mut Vec<Stmt>,
    all: &[TStmt],
    k: u32,
) -> Result<u32, Memory>
    ensures { IfOk result (λ next. Grows out.old.items out.new.items next (begin_list vars.now all.now k)) }
{
    let mut next = k;
    for a in all {
        next = beginning(alloc, vars, out, a, next)?;
    }
    Ok(next)
}

/// Declarations and an expression may stand first in a `for`.
#[cycle(code)]
fn beginning(
    alloc: Global,
    vars: &[Var],
    out: &mut Vec<Stmt>,
    a: &TStmt,
    k: u32,
) -> Result<u32, Memory>
    ensures { IfOk result (λ next. Grows out.old.items out.new.items next (begin_with_code vars.now a.now k)) }
{
    match a {
        TStmt::Eval(e) => Ok(value(alloc, vars, out, e, k)?.next),
        TStmt::Declare { var, init } => declare(alloc, vars, out, *var, init, k),
        TStmt::Block(_) => Ok(k),
        TStmt::Empty => Ok(k),
        TStmt::If { .. } => Ok(k),
        TStmt::While { .. } => Ok(k),
        TStmt::Do { .. } => Ok(k),
        TStmt::For { .. } => Ok(k),
        TStmt::Break => Ok(k),
        TStmt::Continue => Ok(k),
        TStmt::Return(_) => Ok(k),
    }
}

/// The condition of a `for`; where there is none, it goes on.
#[cycle(code)]
fn tested(alloc: Global, vars: &[Var], cond: &Option<TExpr>, k: u32) -> Result<Head, Memory>
    ensures { IfOk result (λ h. Tests h (test_of vars.now cond.now k)) }
{
    match cond {
        None => always(alloc, k),
        Some(e) => headed(alloc, vars, e, k),
    }
}

/// The step of a `for`.
#[cycle(code)]
fn stepped_on(alloc: Global, vars: &[Var], step: &Option<TExpr>, k: u32) -> Result<Branch, Memory>
    ensures { IfOk result (λ b. Holds b (step_of vars.now step.now k)) }
{
    match step {
        None => Ok(Branch::empty(alloc, k)),
        Some(e) => effect(alloc, vars, e, k),
    }
}

/// An expression for what it does.
#[cycle(code)]
fn effect(alloc: Global, vars: &[Var], e: &TExpr, k: u32) -> Result<Branch, Memory>
    ensures { IfOk result (λ b. Holds b (effect_code (value_code vars.now e.now k))) }
{
    let mut stmts = Vec::new(alloc);
    let x = value(alloc, vars, &mut stmts, e, k)?;
    Ok(Branch {
        stmts,
        next: x.next,
    })
}
