//! Steps of the walk that every statement shares.

ghost use Rattle.std.specs.Prelude.{◌≡◌, ◌+◌, [], ◌∷◌, ◌++◌};
ghost use Rattle.clc_types.specs.InternalScope.{knows};
ghost use Rattle.clc_types.specs.InternalWalk.{walk_expr, walk_assign};
ghost use Rattle.clc_types.specs.InternalAnswers.{Gives, unit_is};
ghost use Rattle.clc_types.specs.InternalSteps.{number as number_of, Reaches, Entered, view_of, skipped, left};

use crate::expressions::{assign, expr, memory, skip};
use clc_tree::{Assign, Expr};
use clc_types::{Form, State, TStmt, TypeFault};
use indexmap::IndexMap;
use sqlite_items::Items;
use std::alloc::{AllocError, Global};

/// Counts n tokens.
#[tactic(auto, unfolding(clc_types::specs::InternalSteps::skipped))]
pub fn pass(state: &mut State, n: u32)
    ensures { view_of state.new ≡ skipped n (view_of state.old) }
{
    skip(&mut state.at, n);
}

/// Opens a block.
#[tactic(auto, unfolding(clc_types::specs::InternalSteps::entered))]
pub fn enter(alloc: Global, state: &mut State) -> Result<(), TypeFault>
    ensures { Entered result (view_of state.old) state.new }
{
    let inner = std::mem::replace(&mut state.scope.inner, IndexMap::new(alloc));
    state.scope.outer.push(inner).map_err(memory)?;
    Ok(())
}

/// Leaves the innermost block.
pub fn leave(state: &mut State)
    ensures { view_of state.new ≡ left (view_of state.old) }
{
    match state.scope.outer.pop() {
        Some(inner) => state.scope.inner = inner,
        None => {}
    }
}

/// A count, as far as it fits.
pub fn number(count: usize) -> u32
    ensures { result ≡ number_of count }
{
    if count < 4294967295 {
        count as u32
    } else {
        4294967295
    }
}

pub fn form(alloc: Global, state: &mut State, e: &Expr) -> Result<Form, TypeFault>
    ensures { Reaches (walk_expr (knows state.old.scope) e.now state.old.at) result state.old state.new }
{
    expr(alloc, &state.scope, &mut state.at, e)
}

pub fn assigned(alloc: Global, state: &mut State, e: &Assign) -> Result<Form, TypeFault>
    ensures { Reaches (walk_assign (knows state.old.scope) e.now state.old.at) result state.old state.new }
{
    assign(alloc, &state.scope, &mut state.at, e)
}

pub fn push(list: &mut Items<TStmt>, x: TStmt) -> Result<(), TypeFault>
    ensures { Gives (unit_is result list.new) (list.old ++ x ∷ []) }
{
    list.push(x).map_err(memory)?;
    Ok(())
}
