//! The walk over functions.

ghost use Rattle.std.specs.Prelude.{◌≡◌, ◌<◌, ◌^◌, ◌+◌, suc, None, [], ◌∷◌, ◌++◌, length, map, drop, false};
ghost use Rattle.clc_types.specs.InternalScope.{seen, found};
ghost use Rattle.clc_types.specs.Words.{name_of as name_of_token, is_kernel as is_kernel_lead};
ghost use Rattle.clc_types.specs.InternalAnswers.{Walks, Gives, items_in};
ghost use Rattle.clc_types.specs.Programs.{param_shape as param_shape_of, param_tokens as param_tokens_of, param_name as param_name_of, shapes_of as shapes_of_params, result_of as result_of_returns, returns_tokens as returns_tokens_of, signature as signature_of};
ghost use Rattle.clc_types.specs.InternalSteps.{number as number_of, Stands, Goes, view_of};
ghost use Rattle.clc_types.specs.InternalWalks.{counted_in, param_walk, further_walk, params_in, heading_in, begun, ended, function_in, function_walk, functions_walk};

use crate::declarations::{add, declare, pointer_shape, pointer_tokens, value_tokens};
use crate::expressions::{memory, skip};
use crate::heights::stmts_reach;
use crate::scope::named;
use crate::state::{enter, leave, number, pass};
use crate::statements::block;
use crate::words::{is_kernel, name_of, one_if, type_of, type_tokens};
use clc_lexer::{Text, Token};
use clc_tree::{Function, Param, ParamStep, Params, Returns};
use clc_types::{Named, Shape, Signature, State, TFunction, TStmt, TypeFault, TypeRule, Var};
use q_lane::Scalar;
use sqlite_items::Items;
use std::alloc::Global;

/// The most parameters of a function.
const MOST_PARAMS: usize = 16;

fn param_shape(param: &Param) -> Shape
    ensures { result ≡ param_shape_of param.now }
{
    match param {
        Param::Value(constant, scalar, _) => Shape::Value {
            scalar: type_of(scalar),
            fixed: constant.is_some(),
        },
        Param::Pointer(pointer, _) => pointer_shape(pointer),
    }
}

fn param_tokens(param: &Param) -> u32
    ensures { result ≡ param_tokens_of param.now }
{
    match param {
        Param::Value(constant, scalar, _) => value_tokens(constant, scalar),
        Param::Pointer(pointer, _) => pointer_tokens(pointer),
    }
}

fn param_name(param: &Param) -> &Token
    ensures { result.now ≡ param_name_of param.now }
{
    match param {
        Param::Value(_, _, name) | Param::Pointer(_, name) => name,
    }
}

#[tactic(auto, unfolding(clc_types::specs::InternalWalks::counted_in))]
fn counted(at: &mut u32, before: usize, tokens: u32) -> Result<(), TypeFault>
    ensures { Walks (counted_in before tokens at.old) result at.new }
{
    if before == MOST_PARAMS {
        return Err(TypeFault::Rule {
            rule: TypeRule::S14,
            token: *at,
        });
    }
    skip(at, tokens);
    Ok(())
}

fn parameter(
    alloc: Global,
    state: &mut State,
    before: usize,
    param: &Param,
) -> Result<(), TypeFault>
    ensures { Stands (param_walk before param.now (view_of state.old)) result state.new }
{
    counted(&mut state.at, before, param_tokens(param))?;
    declare(alloc, state, name_of(param_name(param)), param_shape(param))?;
    Ok(())
}

fn further(alloc: Global, state: &mut State, rest: &[ParamStep]) -> Result<(), TypeFault>
    ensures { Stands (further_walk 1 rest.now (view_of state.old)) result state.new }
{
    for (i, step) in rest.iter().enumerate() {
        pass(state, 1);
        parameter(alloc, state, i + 1, &step.param)?;
    }
    Ok(())
}

#[tactic(auto, unfolding(clc_types::specs::InternalWalks::params_in))]
fn parameters(alloc: Global, state: &mut State, params: &Option<Params>) -> Result<(), TypeFault>
    ensures { Stands (params_in params.now (view_of state.old)) result state.new }
{
    match params {
        None => Ok(()),
        Some(Params::Void(_)) => {
            pass(state, 1);
            Ok(())
        }
        Some(Params::List(first, rest)) => {
            parameter(alloc, state, 0, first)?;
            further(alloc, state, rest.as_slice())
        }
    }
}

fn result_of(returns: &Returns) -> Option<Scalar>
    ensures { result ≡ result_of_returns returns.now }
{
    match returns {
        Returns::Void(_) => None,
        Returns::Value(scalar) => Some(type_of(scalar)),
    }
}

fn returns_tokens(returns: &Returns) -> u32
    ensures { result ≡ returns_tokens_of returns.now }
{
    match returns {
        Returns::Void(_) => 1,
        Returns::Value(scalar) => type_tokens(scalar),
    }
}

fn shapes_from(alloc: Global, first: &Param, rest: &[ParamStep]) -> Result<Items<Shape>, TypeFault>
    ensures { Gives result (param_shape_of first.now ∷ map (λ s. param_shape_of s.param) rest.now) }
{
    let mut shapes = Items::new(alloc);
    shapes.push(param_shape(first)).map_err(memory)?;
    for step in rest {
        shapes.push(param_shape(&step.param)).map_err(memory)?;
    }
    Ok(shapes)
}

fn shapes_of(alloc: Global, params: &Option<Params>) -> Result<Items<Shape>, TypeFault>
    ensures { Gives result (shapes_of_params params.now) }
{
    match params {
        None | Some(Params::Void(_)) => Ok(Items::new(alloc)),
        Some(Params::List(first, rest)) => shapes_from(alloc, first, rest.as_slice()),
    }
}

fn count_params(params: &Option<Params>) -> u32
    ensures { result ≡ number_of (length (shapes_of_params params.now)) }
{
    match params {
        None | Some(Params::Void(_)) => 0,
        Some(Params::List(_, rest)) => number(rest.len().saturating_add(1)),
    }
}

/// The height of a function that reaches so high.
fn above(reach: u32) -> u32
    ensures { result ≡ number_of (suc reach) }
{
    reach.saturating_add(1)
}

fn signature(alloc: Global, f: &Function) -> Result<Signature, TypeFault>
    ensures { Gives result (signature_of f.now) }
{
    Ok(Signature {
        kernel: is_kernel(&f.lead),
        result: result_of(&f.returns),
        params: shapes_of(alloc, &f.params)?,
    })
}

#[tactic(auto, unfolding(clc_types::specs::InternalWalks::heading_in))]
fn heading(state: &mut State, f: &Function) -> Result<(), TypeFault>
    ensures { Stands (heading_in f.now (view_of state.old)) result state.new }
{
    let token = state.at;
    if named(&state.scope, name_of(&f.name)).is_some() {
        return Err(TypeFault::Rule {
            rule: TypeRule::S2,
            token,
        });
    }
    if is_kernel(&f.lead) && result_of(&f.returns).is_some() {
        return Err(TypeFault::Rule {
            rule: TypeRule::S8,
            token,
        });
    }
    skip(&mut state.at, 1);
    Ok(())
}

#[tactic(auto, unfolding(clc_types::specs::InternalWalks::begun, clc_types::specs::InternalSteps::entered))]
fn begin(alloc: Global, state: &mut State, f: &Function) -> Result<(), TypeFault>
    requires { found (seen state.old.scope.inner) (name_of_token f.now.name) ≡ None }
    ensures { Stands (Goes tt (begun f.now (view_of state.old))) result state.new }
{
    let itself = number(state.scope.home.heights.len());
    add(
        alloc,
        &mut state.scope.inner,
        name_of(&f.name),
        Named::Function(itself),
    )?;
    let signature = signature(alloc, f)?;
    state.scope.home.functions.push(signature).map_err(memory)?;
    state.scope.home.result = result_of(&f.returns);
    state.vars = Items::new(alloc);
    enter(alloc, state)?;
    Ok(())
}

/// Keeps the height of the function whose body has these statements, leaves its block, and gives its variables.
#[tactic(auto, unfolding(clc_types::specs::InternalWalks::ended))]
fn close(alloc: Global, state: &mut State, list: &[TStmt]) -> Result<Items<Var>, TypeFault>
    ensures { Stands (Goes (view_of state.old).vars (ended (TStmt.Block list.now) (view_of state.old))) result state.new }
{
    let height = above(stmts_reach(state.scope.home.heights.as_slice(), list));
    state.scope.home.heights.push(height).map_err(memory)?;
    let vars = std::mem::replace(&mut state.vars, Items::new(alloc));
    leave(state);
    Ok(vars)
}

fn typed(
    alloc: Global,
    f: &Function,
    vars: Items<Var>,
    list: Items<TStmt>,
) -> Result<TFunction, TypeFault>
    ensures { Gives result (record { name = name_of_token f.now.name; at = f.now.name.from; kernel = is_kernel_lead f.now.lead; result = result_of_returns f.now.returns; params = number_of (length (shapes_of_params f.now.params)); vars = vars; body = TStmt.Block list }) }
{
    let name = Text::from_slice(alloc, name_of(&f.name)).map_err(memory)?;
    Ok(TFunction {
        name,
        at: f.name.from,
        kernel: is_kernel(&f.lead),
        result: result_of(&f.returns),
        params: count_params(&f.params),
        vars,
        body: TStmt::Block(list),
    })
}

/// The typed form of a function whose body has these statements, and its end.
fn finish(
    alloc: Global,
    state: &mut State,
    f: &Function,
    list: Items<TStmt>,
) -> Result<TFunction, TypeFault>
    ensures { Stands (Goes (function_in f.now list (view_of state.old)) (ended (TStmt.Block list) (view_of state.old))) result state.new }
{
    let vars = close(alloc, state, list.as_slice())?;
    typed(alloc, f, vars, list)
}

#[tactic(auto, using(crate::proofs::Heads::heading_free), unfolding(clc_types::specs::InternalWalks::function_walk))]
fn function(alloc: Global, state: &mut State, f: &Function) -> Result<TFunction, TypeFault>
    ensures { Stands (function_walk f.now (view_of state.old)) result state.new }
{
    pass(state, one_if(&f.lead) + returns_tokens(&f.returns));
    heading(state, f)?;
    begin(alloc, state, f)?;
    pass(state, 1);
    parameters(alloc, state, &f.params)?;
    pass(state, 2);
    let list = block(alloc, state, false, &f.body)?;
    finish(alloc, state, f, list)
}

/// The typed forms of the functions, from the first on.
pub fn functions(
    alloc: Global,
    state: &mut State,
    all: &[Function],
) -> Result<Items<TFunction>, TypeFault>
    ensures { Stands (functions_walk [] (view_of state.old) all.now) result state.new }
{
    let mut list = Items::new(alloc);
    for f in all {
        let done = function(alloc, state, f)?;
        list.push(done).map_err(memory)?;
    }
    Ok(list)
}
