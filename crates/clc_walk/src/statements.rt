//! The walk over statements.

ghost use Rattle.std.specs.Prelude.{◌≡◌, ℕ, ◌+◌, [], ◌∷◌, ◌++◌, drop, map, is_some};
ghost use Rattle.clc_types.specs.InternalScope.{knows};
ghost use Rattle.clc_types.specs.InternalWalk.{walk_expr, walk_assign, guarded, Right, bump};
ghost use Rattle.clc_types.specs.InternalAnswers.{Walks, Gives, unit_is};
ghost use Rattle.clc_types.specs.InternalSteps.{Stands, Reaches, view_of, looping, jump_in, returned_in, condition_in, value_in, init_in, maybe_condition as maybe_condition_walk, maybe_value as maybe_value_walk, for_start_walk, listed, walk_block, walk_block_part, walk_stmt, walk_if, walk_while, walk_do, walk_for, maybe_else, condition_end as condition_end_of, value_end as value_end_of, fit_end as fit_end_of, return_end as return_end_of, bare_return as bare_return_of};
ghost use Rattle.std.specs.Prelude.{Bool, not, true};
ghost use Rattle.clc_types.specs.Judged.{violations};

use crate::declarations::declaration;
use crate::expressions::{broken, expr, memory, skip};
use crate::rules::{bare_needs, no_array, return_needs, scalar_needed};
use crate::state::{enter, form, leave, pass, push};
use clc_tree::{Block, BlockPart, Do, Else, Expr, For, ForStart, If, Stmt, While};
use clc_types::{Form, State, TExpr, TStmt, TypeFault, TypeRule};
use q_lane::Scalar;
use sqlite_items::{Boxed, Items};
use std::alloc::{AllocError, Global};

#[tactic(auto, using(crate::proofs::Steps::guarded_stops, crate::proofs::Steps::guarded_goes), unfolding(clc_types::specs::InternalSteps::condition_end))]
fn condition_end(at: &u32, p: u32, x: Form) -> Result<Boxed<TExpr>, TypeFault>
    ensures { Walks (condition_end_of p x at.now) result at.now }
{
    if let Some(f) = scalar_needed(p, x.kind) {
        return Err(broken(f));
    }
    let Form { expr, .. } = x;
    Ok(expr)
}

#[tactic(auto, using(crate::proofs::Steps::guarded_stops, crate::proofs::Steps::guarded_goes), unfolding(clc_types::specs::InternalSteps::value_end))]
fn value_end(at: &u32, p: u32, x: Form) -> Result<Boxed<TExpr>, TypeFault>
    ensures { Walks (value_end_of p x at.now) result at.now }
{
    if let Some(f) = no_array(p, x.kind) {
        return Err(broken(f));
    }
    let Form { expr, .. } = x;
    Ok(expr)
}

/// An expression where a number is needed.
#[tactic(auto, unfolding(clc_types::specs::InternalSteps::condition_in))]
fn condition(alloc: Global, state: &mut State, e: &Expr) -> Result<Boxed<TExpr>, TypeFault>
    ensures { Stands (condition_in e.now (view_of state.old)) result state.new }
{
    let p = state.at;
    let x = form(alloc, state, e)?;
    condition_end(&state.at, p, x)
}

/// An expression where no value is needed.
#[tactic(auto, unfolding(clc_types::specs::InternalSteps::value_in))]
fn value(alloc: Global, state: &mut State, e: &Expr) -> Result<Boxed<TExpr>, TypeFault>
    ensures { Stands (value_in e.now (view_of state.old)) result state.new }
{
    let p = state.at;
    let x = form(alloc, state, e)?;
    value_end(&state.at, p, x)
}

fn maybe_condition(
    alloc: Global,
    state: &mut State,
    e: &Option<Expr>,
) -> Result<Option<Boxed<TExpr>>, TypeFault>
    ensures { (l : Bool) → Stands (maybe_condition_walk e.now l (view_of state.old)) result state.new }
{
    match e {
        None => Ok(None),
        Some(e) => Ok(Some(condition(alloc, state, e)?)),
    }
}

fn maybe_value(
    alloc: Global,
    state: &mut State,
    e: &Option<Expr>,
) -> Result<Option<Boxed<TExpr>>, TypeFault>
    ensures { (l : Bool) → Stands (maybe_value_walk e.now l (view_of state.old)) result state.new }
{
    match e {
        None => Ok(None),
        Some(e) => Ok(Some(value(alloc, state, e)?)),
    }
}

#[tactic(auto, using(crate::proofs::Steps::guarded_stops, crate::proofs::Steps::guarded_goes), unfolding(clc_types::specs::InternalSteps::return_end))]
fn return_end(at: &mut u32, p: u32, gives: Option<Scalar>, x: Form) -> Result<TStmt, TypeFault>
    ensures { Walks (return_end_of p gives x at.old) result at.new }
{
    if let Some(f) = return_needs(gives, p, x.kind) {
        return Err(broken(f));
    }
    skip(at, 1);
    let Form { expr, .. } = x;
    Ok(TStmt::Return(Some(expr.into_inner())))
}

#[tactic(auto, using(crate::proofs::Steps::guarded_stops, crate::proofs::Steps::guarded_goes), unfolding(clc_types::specs::InternalSteps::bare_return))]
fn bare_return(at: &mut u32, gives: Option<Scalar>) -> Result<TStmt, TypeFault>
    ensures { Walks (bare_return_of at.old gives) result at.new }
{
    if let Some(f) = bare_needs(gives, *at) {
        return Err(broken(f));
    }
    skip(at, 2);
    Ok(TStmt::Return(None))
}

#[tactic(auto, unfolding(clc_types::specs::InternalSteps::returned_in))]
fn returned(alloc: Global, state: &mut State, value: &Option<Expr>) -> Result<TStmt, TypeFault>
    ensures { Stands (returned_in value.now (view_of state.old)) result state.new }
{
    let gives = state.scope.home.result;
    match value {
        None => bare_return(&mut state.at, gives),
        Some(e) => {
            let p = state.at;
            skip(&mut state.at, 1);
            let x = form(alloc, state, e)?;
            return_end(&mut state.at, p, gives, x)
        }
    }
}

/// Whether a loop stands around a `break` or a `continue`.
fn jump(state: &mut State, looped: bool) -> Result<(), TypeFault>
    ensures { Reaches (guarded (violations state.old.at ((TypeRule.S10, not looped) ∷ [])) (Right tt (bump state.old.at 2))) result state.old state.new }
{
    if !looped {
        return Err(TypeFault::Rule {
            rule: TypeRule::S10,
            token: state.at,
        });
    }
    skip(&mut state.at, 2);
    Ok(())
}

#[tactic(auto, unfolding(clc_types::specs::InternalSteps::jump_in))]
fn break_out(state: &mut State, looped: bool) -> Result<TStmt, TypeFault>
    ensures { Stands (jump_in TStmt.Break looped (view_of state.old)) result state.new }
{
    jump(state, looped)?;
    Ok(TStmt::Break)
}

#[tactic(auto, unfolding(clc_types::specs::InternalSteps::jump_in))]
fn continue_on(state: &mut State, looped: bool) -> Result<TStmt, TypeFault>
    ensures { Stands (jump_in TStmt.Continue looped (view_of state.old)) result state.new }
{
    jump(state, looped)?;
    Ok(TStmt::Continue)
}

fn for_start(alloc: Global, state: &mut State, start: &ForStart) -> Result<Items<TStmt>, TypeFault>
    ensures { (l : Bool) → Stands (for_start_walk start.now l (view_of state.old)) result state.new }
{
    match start {
        ForStart::Declare(d) => declaration(alloc, state, d, Items::new(alloc)),
        ForStart::Eval(e, _) => {
            let mut list = Items::new(alloc);
            if let Some(x) = maybe_value(alloc, state, e)? {
                push(&mut list, TStmt::Eval(x.into_inner()))?;
            }
            pass(state, 1);
            Ok(list)
        }
    }
}

fn unboxed(e: Option<Boxed<TExpr>>) -> Option<TExpr>
    ensures { result ≡ e }
{
    e.map(Boxed::into_inner)
}

/// A statement, in a loop or not.
#[cycle(statements)]
pub fn stmt(alloc: Global, state: &mut State, looped: bool, s: &Stmt) -> Result<TStmt, TypeFault>
    ensures { Stands (walk_stmt s.now looped (view_of state.old)) result state.new }
{
    match s {
        Stmt::Block(b) => {
            enter(alloc, state)?;
            pass(state, 1);
            let list = block(alloc, state, looped, b)?;
            leave(state);
            Ok(TStmt::Block(list))
        }
        Stmt::Eval(e, _) => {
            let x = value(alloc, state, e)?;
            pass(state, 1);
            Ok(TStmt::Eval(x.into_inner()))
        }
        Stmt::Empty(_) => {
            pass(state, 1);
            Ok(TStmt::Empty)
        }
        Stmt::If(x) => choice(alloc, state, looped, x),
        Stmt::While(x) => while_loop(alloc, state, x),
        Stmt::Do(x) => do_loop(alloc, state, x),
        Stmt::For(x) => for_loop(alloc, state, x),
        Stmt::Break(_, _) => break_out(state, looped),
        Stmt::Continue(_, _) => continue_on(state, looped),
        Stmt::Return(_, e, _) => returned(alloc, state, e),
    }
}

#[cycle(statements)]
fn choice(alloc: Global, state: &mut State, looped: bool, x: &If) -> Result<TStmt, TypeFault>
    ensures { Stands (walk_if x.now looped (view_of state.old)) result state.new }
{
    pass(state, 2);
    let cond = condition(alloc, state, &x.test)?;
    pass(state, 1);
    let yes = boxed(alloc, state, looped, x.body.get())?;
    let no = otherwise(alloc, state, looped, &x.other)?;
    Ok(TStmt::If {
        cond: cond.into_inner(),
        yes,
        no,
    })
}

#[cycle(statements)]
fn while_loop(alloc: Global, state: &mut State, x: &While) -> Result<TStmt, TypeFault>
    ensures { (l : Bool) → Stands (walk_while x.now l (view_of state.old)) result state.new }
{
    pass(state, 2);
    let cond = condition(alloc, state, &x.test)?;
    pass(state, 1);
    let body = boxed(alloc, state, true, x.body.get())?;
    Ok(TStmt::While {
        cond: cond.into_inner(),
        body,
    })
}

#[cycle(statements)]
fn do_loop(alloc: Global, state: &mut State, x: &Do) -> Result<TStmt, TypeFault>
    ensures { (l : Bool) → Stands (walk_do x.now l (view_of state.old)) result state.new }
{
    pass(state, 1);
    let body = boxed(alloc, state, true, x.body.get())?;
    pass(state, 2);
    let cond = condition(alloc, state, &x.test)?;
    pass(state, 2);
    Ok(TStmt::Do {
        body,
        cond: cond.into_inner(),
    })
}

/// A `for` is a block of its own.
#[cycle(statements)]
fn for_loop(alloc: Global, state: &mut State, x: &For) -> Result<TStmt, TypeFault>
    ensures { (l : Bool) → Stands (walk_for x.now l (view_of state.old)) result state.new }
{
    enter(alloc, state)?;
    pass(state, 2);
    let init = for_start(alloc, state, &x.start)?;
    let cond = maybe_condition(alloc, state, &x.test)?;
    pass(state, 1);
    let step = maybe_value(alloc, state, &x.step)?;
    pass(state, 1);
    let body = boxed(alloc, state, true, x.body.get())?;
    leave(state);
    Ok(TStmt::For {
        init,
        cond: unboxed(cond),
        step: unboxed(step),
        body,
    })
}

#[cycle(statements)]
fn boxed(
    alloc: Global,
    state: &mut State,
    looped: bool,
    s: &Stmt,
) -> Result<Boxed<TStmt>, TypeFault>
    ensures { Stands (walk_stmt s.now looped (view_of state.old)) result state.new }
{
    let done = stmt(alloc, state, looped, s)?;
    Ok(Boxed::new(alloc, done).map_err(memory)?)
}

#[cycle(statements)]
fn otherwise(
    alloc: Global,
    state: &mut State,
    looped: bool,
    other: &Option<Boxed<Else>>,
) -> Result<Option<Boxed<TStmt>>, TypeFault>
    ensures { Stands (maybe_else other.now looped (view_of state.old)) result state.new }
{
    match other {
        None => Ok(None),
        Some(other) => {
            let other = other.get();
            pass(state, 1);
            Ok(Some(boxed(alloc, state, looped, &other.body)?))
        }
    }
}

/// What stands after `{`. Its declarations belong to the innermost open block.
#[cycle(statements)]
pub fn block(
    alloc: Global,
    state: &mut State,
    looped: bool,
    b: &Block,
) -> Result<Items<TStmt>, TypeFault>
    ensures { Stands (walk_block b.now looped (view_of state.old)) result state.new }
{
    let list = parts(alloc, state, looped, b.parts.as_slice())?;
    pass(state, 1);
    Ok(list)
}

#[cycle(statements)]
fn parts(
    alloc: Global,
    state: &mut State,
    looped: bool,
    parts: &[BlockPart],
) -> Result<Items<TStmt>, TypeFault>
    ensures { Stands (listed [] (map walk_block_part parts.now) looped (view_of state.old)) result state.new }
{
    let mut list = Items::new(alloc);
    for x in parts {
        list = part(alloc, state, looped, x, list)?;
    }
    Ok(list)
}

#[cycle(statements)]
fn part(
    alloc: Global,
    state: &mut State,
    looped: bool,
    x: &BlockPart,
    done: Items<TStmt>,
) -> Result<Items<TStmt>, TypeFault>
    ensures { Stands (listed done (walk_block_part x.now ∷ []) looped (view_of state.old)) result state.new }
{
    match x {
        BlockPart::Declare(d) => declaration(alloc, state, d, done),
        BlockPart::Stmt(s) => {
            let y = stmt(alloc, state, looped, s)?;
            let mut list = done;
            push(&mut list, y)?;
            Ok(list)
        }
    }
}
