//! The walk over declarations.

ghost use Rattle.std.specs.Prelude.{◌≡◌, ◌+◌, [], ◌∷◌, ◌++◌, None, is_some, map, drop};
ghost use Rattle.std.specs.Prelude.{◌||◌};
ghost use Rattle.clc_types.specs.InternalAnswers.{Walks, Gives, unit_is};
ghost use Rattle.clc_types.specs.InternalScope.{seen, found};
ghost use Rattle.clc_types.specs.Words.{one_if as one_if_of, type_tokens as type_tokens_of};
ghost use Rattle.clc_types.specs.Blocks.{pointer_shape as pointer_shape_of, pointer_tokens as pointer_tokens_of};
ghost use Rattle.clc_types.specs.InternalSteps.{Stands, Reaches, view_of, declared_in, size_in, fit_end as fit_end_of, init_in, item_walk, item_step_walk, declare_walk, listed};

use crate::expressions::{broken, memory, skip};
use crate::rules::{fit_needed, is_size, kind_of, var_of};
use crate::scope::probe;
use crate::state::{assigned, number, pass, push};
use crate::words::{name_of, one_if, space_of, type_of, type_tokens, value_of};
use clc_lexer::Token;
use clc_tree::{Declare, Init, Item, ItemStep, Pointer, Scalar as Written};
use clc_types::{Form, Kind, Named, Shape, State, TExpr, TStmt, TypeFault, TypeRule};
use indexmap::IndexMap;
use q_lane::Scalar;
use sqlite_items::Items;
use std::alloc::{AllocError, Global};

fn insert(
    block: &mut IndexMap<Vec<u8>, Named>,
    name: Vec<u8>,
    named: Named,
) -> Result<(), AllocError>
    requires { found (seen block.old) name.items ≡ None }
    ensures { Rattle.std.specs.Prelude.OnOk result (seen block.new ≡ seen block.old ++ (name.items, named) ∷ []) }
{
    block.insert(name, named)?;
    Ok(())
}

/// Adds a name that the block doesn't have.
pub fn add(
    alloc: Global,
    block: &mut IndexMap<Vec<u8>, Named>,
    name: &[u8],
    named: Named,
) -> Result<(), TypeFault>
    requires { found (seen block.old) name.now ≡ None }
    ensures { Gives (unit_is result (seen block.new)) (seen block.old ++ (name.now, named) ∷ []) }
{
    let key = Vec::from_slice(alloc, name).map_err(memory)?;
    match insert(block, key, named) {
        Ok(_) => Ok(()),
        Err(_) => Err(TypeFault::Memory),
    }
}

/// Declares a name in the innermost block, and gives the variable's number.
#[tactic(auto, unfolding(clc_types::specs::InternalSteps::declared_in))]
pub fn declare(
    alloc: Global,
    state: &mut State,
    name: &[u8],
    shape: Shape,
) -> Result<u32, TypeFault>
    ensures { Stands (declared_in (view_of state.old) name.now shape) result state.new }
{
    match probe(&state.scope.inner, name) {
        Some(_) => Err(TypeFault::Rule {
            rule: TypeRule::S2,
            token: state.at,
        }),
        None => {
            let var = number(state.vars.len());
            add(
                alloc,
                &mut state.scope.inner,
                name,
                Named::Variable(var, shape),
            )?;
            state.vars.push(var_of(shape)).map_err(memory)?;
            skip(&mut state.at, 1);
            Ok(var)
        }
    }
}

#[tactic(auto, unfolding(clc_types::specs::InternalSteps::size_in))]
fn size(at: &mut u32, token: &Token) -> Result<(), TypeFault>
    ensures { Walks (size_in token.now at.old) result at.new }
{
    let p = *at;
    skip(at, 1);
    if !is_size(value_of(token)) {
        return Err(TypeFault::Rule {
            rule: TypeRule::S11,
            token: *at,
        });
    }
    *at = p;
    skip(at, 3);
    Ok(())
}

#[tactic(auto, using(crate::proofs::Steps::guarded_stops, crate::proofs::Steps::guarded_goes), unfolding(clc_types::specs::InternalSteps::fit_end))]
fn fit_end(at: &u32, kind: Kind, q: u32, x: Form) -> Result<Option<TExpr>, TypeFault>
    ensures { Walks (fit_end_of kind q x at.now) result at.now }
{
    if let Some(f) = fit_needed(kind, q, x.kind) {
        return Err(broken(f));
    }
    let Form { expr, .. } = x;
    Ok(Some(expr.into_inner()))
}

#[tactic(auto, unfolding(clc_types::specs::InternalSteps::init_in))]
fn initial(
    alloc: Global,
    state: &mut State,
    kind: Kind,
    init: &Option<Init>,
) -> Result<Option<TExpr>, TypeFault>
    ensures { Stands (init_in kind init.now (view_of state.old)) result state.new }
{
    match init {
        None => Ok(None),
        Some(init) => {
            skip(&mut state.at, 1);
            let q = state.at;
            let x = assigned(alloc, state, &init.value)?;
            fit_end(&state.at, kind, q, x)
        }
    }
}

fn item(
    alloc: Global,
    state: &mut State,
    fixed: bool,
    scalar: Scalar,
    item: &Item,
    done: Items<TStmt>,
) -> Result<Items<TStmt>, TypeFault>
    ensures { (l : Rattle.std.specs.Prelude.Bool) → Stands (listed done (item_walk fixed scalar item.now ∷ []) l (view_of state.old)) result state.new }
{
    let mut list = done;
    match item {
        Item::Array {
            name,
            size: count,
            ..
        } => {
            let shape = Shape::Array {
                elem: scalar,
                len: value_of(count),
                fixed,
            };
            let var = declare(alloc, state, name_of(name), shape)?;
            size(&mut state.at, count)?;
            push(&mut list, TStmt::Declare { var, init: None })?;
        }
        Item::Value(name, init) => {
            let shape = Shape::Value { scalar, fixed };
            let var = declare(alloc, state, name_of(name), shape)?;
            let init = initial(alloc, state, Kind::Value(scalar), init)?;
            push(&mut list, TStmt::Declare { var, init })?;
        }
    }
    Ok(list)
}

fn items(
    alloc: Global,
    state: &mut State,
    fixed: bool,
    scalar: Scalar,
    rest: &[ItemStep],
    done: Items<TStmt>,
) -> Result<Items<TStmt>, TypeFault>
    ensures { (l : Rattle.std.specs.Prelude.Bool) → Stands (listed done (map (item_step_walk fixed scalar) rest.now) l (view_of state.old)) result state.new }
{
    let mut list = done;
    for step in rest {
        pass(state, 1);
        list = item(alloc, state, fixed, scalar, &step.item, list)?;
    }
    Ok(list)
}

/// The shape of a variable of this pointer type.
pub fn pointer_shape(pointer: &Pointer) -> Shape
    ensures { result ≡ pointer_shape_of pointer.now }
{
    Shape::Pointer {
        space: space_of(&pointer.space),
        constant: pointer.outer_const.is_some() || pointer.inner_const.is_some(),
        elem: type_of(&pointer.element),
        fixed: pointer.own_const.is_some(),
    }
}

pub fn pointer_tokens(pointer: &Pointer) -> u32
    ensures { result ≡ pointer_tokens_of pointer.now }
{
    one_if(&pointer.outer_const)
        + 1
        + one_if(&pointer.inner_const)
        + type_tokens(&pointer.element)
        + 1
        + one_if(&pointer.own_const)
        + one_if(&pointer.restrict)
}

/// The number of tokens of an optional `const` and a type.
pub fn value_tokens(constant: &Option<Token>, scalar: &Written) -> u32
    ensures { result ≡ one_if_of constant.now + type_tokens_of scalar.now }
{
    one_if(constant) + type_tokens(scalar)
}

/// A declaration; its variables are added to those that stand before it.
pub fn declaration(
    alloc: Global,
    state: &mut State,
    d: &Declare,
    done: Items<TStmt>,
) -> Result<Items<TStmt>, TypeFault>
    ensures { (l : Rattle.std.specs.Prelude.Bool) → Stands (listed done (declare_walk d.now ∷ []) l (view_of state.old)) result state.new }
{
    match d {
        Declare::Values {
            constant,
            scalar,
            first,
            rest,
            ..
        } => {
            pass(state, value_tokens(constant, scalar));
            let fixed = constant.is_some();
            let scalar = type_of(scalar);
            let list = item(alloc, state, fixed, scalar, first, done)?;
            let list = items(alloc, state, fixed, scalar, rest.as_slice(), list)?;
            pass(state, 1);
            Ok(list)
        }
        Declare::Pointer {
            pointer,
            name,
            value,
            ..
        } => {
            pass(state, pointer_tokens(pointer));
            let shape = pointer_shape(pointer);
            let var = declare(alloc, state, name_of(name), shape)?;
            let init = initial(alloc, state, kind_of(0, shape), value)?;
            pass(state, 1);
            let mut list = done;
            push(&mut list, TStmt::Declare { var, init })?;
            Ok(list)
        }
    }
}
