//! Where a call begins and ends.

ghost use Rattle.std.specs.Prelude.{◌≡◌, IfOk, MatchResult};
ghost use Rattle.item_meaning.specs.ItemMeaning.{as_params as as_params_of, frame as frame_of, entered};
ghost use Rattle.item_meaning.specs.StatementMeanings.{type_of as type_of_var, var_at as var_at_of, returned_as as returned_as_of, fallen_off as fallen_off_of, call_end as call_end_of};
ghost use Rattle.item_meaning.specs.ItemState.{State};
ghost use Rattle.item_values.specs.Answers.{Gives};

use clc_types::{TFunction, Ty, Var};
use item_meaning::{Flow, Value};
use item_values::{Arrays, Frame, Running, Stop, converted};
use q_lane::Scalar;
use sqlite_items::Items;
use std::alloc::{AllocError, Global};

/// Want of memory as a `Stop`, for `map_err`.
pub(crate) fn memory(_error: AllocError) -> Stop
    ensures { result ≡ Stop.Memory }
{
    Stop::Memory
}

/// The type of a variable's value; an array has none.
pub(crate) fn type_of(var: Var) -> Ty
    ensures { result ≡ type_of_var var }
{
    match var {
        Var::Value(scalar) => Ty::Value(scalar),
        Var::Pointer { elem, constant } => Ty::Pointer { elem, constant },
        Var::Array { .. } => Ty::Void,
    }
}

/// What a declaration says of the variable of this number.
pub(crate) fn variable_at(vars: &[Var], var: u32) -> Var
    ensures { result ≡ var_at_of vars.now var }
{
    match vars.get(var as usize) {
        Some(var) => *var,
        None => Var::Value(Scalar::Int),
    }
}

/// The arguments as values of parameters.
fn parameters(alloc: Global, params: &[Var], args: &[Value]) -> Result<Items<Value>, AllocError>
    ensures { IfOk result (λ values. values ≡ as_params_of params.now args.now) }
{
    let mut values = Items::new(alloc);
    for i in 0..params.len().min(args.len()) {
        values.push(converted(type_of(params[i]), args[i]))?;
    }
    Ok(values)
}

/// The variables of a function where its body begins.
fn variables(
    alloc: Global,
    function: &TFunction,
    args: &[Value],
) -> Result<Items<Value>, AllocError>
    ensures { IfOk result (λ values. values ≡ frame_of function.now args.now) }
{
    let vars = function.vars.as_slice();
    let params = (function.params as usize).min(vars.len());
    let mut values = parameters(alloc, &vars[..params], args)?;
    for i in params..vars.len() {
        values.push(Value::Null)?;
    }
    Ok(values)
}

/// Begins a call. The caller's variables are given back.
pub(crate) fn enter(
    alloc: Global,
    running: &mut Running,
    function: &TFunction,
    args: &[Value],
) -> Result<Frame, Stop>
    ensures { MatchResult result (λ caller. (running.new ≡ entered function.now args.now running.old) × (caller.vars ≡ running.old.vars) × (caller.arrays ≡ running.old.arrays)) (λ e. e ≡ Stop.Memory) }
{
    let vars = variables(alloc, function, args).map_err(memory)?;
    let arrays = Arrays::new(alloc, function.vars.len()).map_err(memory)?;
    Ok(running.exchange(Frame { vars, arrays }))
}

/// Ends a call: the caller's variables are there again.
pub(crate) fn leave(running: &mut Running, caller: Frame)
    ensures { running.new ≡ record running.old { vars = caller.vars; arrays = caller.arrays } }
{
    let _callee = running.exchange(caller);
}

fn returned_as(gives: Option<Scalar>, value: Value) -> Value
    ensures { result ≡ returned_as_of gives value }
{
    match gives {
        None => Value::Null,
        Some(scalar) => converted(Ty::Value(scalar), value),
    }
}

/// What a call gives where the body is left so.
pub(crate) fn call_end(gives: Option<Scalar>, flow: Flow) -> Result<Value, Stop>
    ensures { (s : State) → Gives (call_end_of gives flow s) result s }
{
    match flow {
        Flow::Next => Ok(fallen_off(gives)),
        Flow::Broke => Err(Stop::Spent),
        Flow::Again => Err(Stop::Spent),
        Flow::Returned(value) => Ok(returned_as(gives, value)),
    }
}

fn fallen_off(gives: Option<Scalar>) -> Value
    ensures { result ≡ fallen_off_of gives }
{
    match gives {
        None => Value::Null,
        Some(_) => Value::Num(0),
    }
}
