//! Runs of expressions, statements and calls.
//!
//! Each takes its turns in the order of the meaning. A function of the cycle is entered with fewer turns than the one that calls it, or comes
//! before it in this order: a part that takes a turn first; a place; a value, a place in parentheses, or a statement; what stands in them; rounds.

ghost use Rattle.std.specs.Prelude.{◌≡◌, ◌<◌, ◌≤◌, [], ◌∷◌, OnOk, length, slice_get, Some, None};
ghost use Rattle.q_functions.specs.NumberFunctions.{bytes_of as bytes_of_type};
ghost use Rattle.item_meaning.specs.Operators.{scalar_of as scalar_of_type};
ghost use Rattle.item_meaning.specs.NodeMeanings.{variable_place, index_place as index_place_of, cell_place, pointed_place, number_value, prefix_value, cast_value, step_value, assign_value, compound_value, assigned_value, conditional_value, operator_value, chain_value, builtin_value, call_value, read_from};
ghost use Rattle.item_meaning.specs.StatementMeanings.{var_at, type_of as type_of_var, cleared, initialised, no_flow, dropped};
ghost use Rattle.item_meaning.specs.ItemMeaning.{value_if, begin_with};
ghost use Rattle.item_values.specs.Answers.{Gives};
ghost use Rattle.item_run.specs.Settings.{value_in_run, place_in_run, does_in_run, calls_in, test_in_run, step_in_run, returned_flow, choice_flow, HasTruth, OnNone};
ghost use Rattle.item_run.specs.Nodes.{IsBare};
ghost use Rattle.item_run.specs.Lists.{operators_in_run, values_in_run, all_in_run, begins_in_run, else_in_run, after_round, round, after_first, round_first, rounds_of};

use crate::calls::{call_end, enter, leave, memory, type_of, variable_at};
use crate::parens::{inner_place, inner_value};
use crate::setting::Setting;
use clc_lexer::Mark;
use clc_types::{Builtin, Node, TExpr, TStmt, Ty, Var};
use item_meaning::{Flow, Place, Value};
use item_values::{
    Running, Stop, builtin, combined, converted, index_place, operator_in, prefixed, read,
    scalar_of, stepped, truth, type_after, write,
};
use q_functions::bytes_of;
use q_lane::Scalar;
use sqlite_items::{Boxed, Items};
use std::alloc::Global;

/// Whether a number isn't 0.
fn holds(x: Value) -> Result<bool, Stop>
    ensures { HasTruth x result }
{
    match x {
        Value::Num(0) => Ok(false),
        Value::Num(_) => Ok(true),
        Value::Null | Value::At { .. } => Err(Stop::Spent),
    }
}

fn number(running: &mut Running, word: u32) -> Result<Value, Stop>
    ensures gives { Gives (number_value word running.old) result running.new }
    ensures falls { OnOk result (running.new.left < running.old.left) }
{
    running.turn()?;
    Ok(Value::Num(word))
}

fn variable(running: &mut Running, var: u32) -> Result<Place, Stop>
    ensures gives { Gives (variable_place var running.old) result running.new }
    ensures falls { OnOk result (running.new.left < running.old.left) }
{
    running.turn()?;
    Ok(Place::Variable(var))
}

/// The value of an expression.
#[cycle(run)]
pub(crate) fn value(
    alloc: Global,
    setting: &Setting,
    running: &mut Running,
    e: &TExpr,
) -> Result<Value, Stop>
    ensures gives { Gives (value_in_run setting.now e.now running.old) result running.new }
    ensures falls { OnOk result (running.new.left < running.old.left) }
{
    let e = inner_value(e);
    match &e.node {
        Node::Number(word) => number(running, *word),
        Node::Name(_) => placed(alloc, setting, running, e),
        Node::Index { .. } => placed(alloc, setting, running, e),
        Node::Element { .. } => placed(alloc, setting, running, e),
        Node::Deref(_) => placed(alloc, setting, running, e),
        Node::Prefix { op, arg } => prefix(alloc, setting, running, *op, arg.get()),
        Node::Step { place, up, post } => step(alloc, setting, running, place.get(), *up, *post),
        Node::Cast(arg) => cast(alloc, setting, running, e.ty, arg.get()),
        Node::Paren(_) => Err(Stop::Spent),
        Node::Chain { first, rest } => chain(alloc, setting, running, first.get(), rest.as_slice()),
        Node::Cond(cond, one, other) => conditional(
            alloc,
            setting,
            running,
            cond.get(),
            one.get(),
            other.get(),
        ),
        Node::Assign { place, op, value } => assign(
            alloc,
            setting,
            running,
            place.get(),
            *op,
            value.get(),
        ),
        Node::Call { function, args } => call(alloc, setting, running, *function, args.as_slice()),
        Node::Builtin { which, work, args } => asked(
            alloc,
            setting,
            running,
            *which,
            *work,
            args.as_slice(),
        ),
    }
}

/// The value of an expression that is a place.
#[cycle(run)]
fn placed(alloc: Global, setting: &Setting, running: &mut Running, e: &TExpr) -> Result<Value, Stop>
    requires { IsBare e.now.node }
    ensures gives { Gives (read_from e.now.ty (place_in_run setting.now e.now) running.old) result running.new }
    ensures falls { OnOk result (running.new.left < running.old.left) }
{
    let place = located(alloc, setting, running, e)?;
    read(running, e.ty, place)
}

/// An expression as a place.
#[cycle(run)]
fn place_of(
    alloc: Global,
    setting: &Setting,
    running: &mut Running,
    e: &TExpr,
) -> Result<Place, Stop>
    ensures gives { Gives (place_in_run setting.now e.now running.old) result running.new }
    ensures falls { OnOk result (running.new.left < running.old.left) }
{
    located(alloc, setting, running, inner_place(e))
}

/// An expression that isn't in parentheses as a place.
#[cycle(run)]
fn located(
    alloc: Global,
    setting: &Setting,
    running: &mut Running,
    e: &TExpr,
) -> Result<Place, Stop>
    requires { IsBare e.now.node }
    ensures gives { Gives (place_in_run setting.now e.now running.old) result running.new }
    ensures falls { OnOk result (running.new.left < running.old.left) }
{
    match &e.node {
        Node::Name(var) => variable(running, *var),
        Node::Index { base, index } => {
            let size = bytes_of(scalar_of(e.ty));
            indexed(alloc, setting, running, e.at, size, base.get(), index.get())
        }
        Node::Element { array, index } => cell(alloc, setting, running, e.at, *array, index.get()),
        Node::Deref(pointer) => pointed(alloc, setting, running, e.at, pointer.get()),
        Node::Number(_) => Err(Stop::Spent),
        Node::Prefix { .. } => Err(Stop::Spent),
        Node::Step { .. } => Err(Stop::Spent),
        Node::Cast(_) => Err(Stop::Spent),
        Node::Paren(_) => Err(Stop::Spent),
        Node::Chain { .. } => Err(Stop::Spent),
        Node::Cond(_, _, _) => Err(Stop::Spent),
        Node::Assign { .. } => Err(Stop::Spent),
        Node::Call { .. } => Err(Stop::Spent),
        Node::Builtin { .. } => Err(Stop::Spent),
    }
}

#[cycle(run)]
fn indexed(
    alloc: Global,
    setting: &Setting,
    running: &mut Running,
    at: u32,
    size: u32,
    base: &TExpr,
    index: &TExpr,
) -> Result<Place, Stop>
    ensures gives { Gives (index_place_of at size (value_in_run setting.now base.now) (value_in_run setting.now index.now) running.old) result running.new }
    ensures falls { OnOk result (running.new.left < running.old.left) }
{
    running.turn()?;
    let pointer = value(alloc, setting, running, base)?;
    let count = value(alloc, setting, running, index)?;
    Ok(index_place(at, size, pointer, count))
}

#[cycle(run)]
fn cell(
    alloc: Global,
    setting: &Setting,
    running: &mut Running,
    at: u32,
    var: u32,
    index: &TExpr,
) -> Result<Place, Stop>
    ensures gives { Gives (cell_place at var (value_in_run setting.now index.now) running.old) result running.new }
    ensures falls { OnOk result (running.new.left < running.old.left) }
{
    running.turn()?;
    running.turn()?;
    let index = value(alloc, setting, running, index)?;
    Ok(Place::Cell { at, var, index })
}

#[cycle(run)]
fn pointed(
    alloc: Global,
    setting: &Setting,
    running: &mut Running,
    at: u32,
    pointer: &TExpr,
) -> Result<Place, Stop>
    ensures gives { Gives (pointed_place at (value_in_run setting.now pointer.now) running.old) result running.new }
    ensures falls { OnOk result (running.new.left < running.old.left) }
{
    running.turn()?;
    let pointer = value(alloc, setting, running, pointer)?;
    Ok(Place::Behind { at, pointer })
}

#[cycle(run)]
fn prefix(
    alloc: Global,
    setting: &Setting,
    running: &mut Running,
    op: Mark,
    arg: &TExpr,
) -> Result<Value, Stop>
    ensures gives { Gives (prefix_value op (value_in_run setting.now arg.now) running.old) result running.new }
    ensures falls { OnOk result (running.new.left < running.old.left) }
{
    running.turn()?;
    let x = value(alloc, setting, running, arg)?;
    Ok(prefixed(op, x))
}

#[cycle(run)]
fn cast(
    alloc: Global,
    setting: &Setting,
    running: &mut Running,
    ty: Ty,
    arg: &TExpr,
) -> Result<Value, Stop>
    ensures gives { Gives (cast_value ty (value_in_run setting.now arg.now) running.old) result running.new }
    ensures falls { OnOk result (running.new.left < running.old.left) }
{
    running.turn()?;
    let x = value(alloc, setting, running, arg)?;
    Ok(converted(ty, x))
}

#[cycle(run)]
fn step(
    alloc: Global,
    setting: &Setting,
    running: &mut Running,
    target: &TExpr,
    up: bool,
    post: bool,
) -> Result<Value, Stop>
    ensures gives { Gives (step_value target.now.ty up post (place_in_run setting.now target.now) running.old) result running.new }
    ensures falls { OnOk result (running.new.left < running.old.left) }
{
    running.turn()?;
    let place = place_of(alloc, setting, running, target)?;
    let old = read(running, target.ty, place)?;
    let new = write(running, target.ty, place, stepped(target.ty, up, old))?;
    if post {
        return Ok(old);
    }
    Ok(new)
}

/// An assignment: the place, then its old value where the operator wants it, then the value, then the store.
#[cycle(run)]
fn assign(
    alloc: Global,
    setting: &Setting,
    running: &mut Running,
    target: &TExpr,
    op: Mark,
    e: &TExpr,
) -> Result<Value, Stop>
    ensures gives { Gives (assigned_value target.now.ty op e.now.ty (place_in_run setting.now target.now) (value_in_run setting.now e.now) running.old) result running.new }
    ensures falls { OnOk result (running.new.left < running.old.left) }
{
    match op {
        Mark::Assign => assign_plainly(alloc, setting, running, target, e),
        _ => assign_compound(alloc, setting, running, target, op, e),
    }
}

#[cycle(run)]
fn assign_plainly(
    alloc: Global,
    setting: &Setting,
    running: &mut Running,
    target: &TExpr,
    e: &TExpr,
) -> Result<Value, Stop>
    ensures gives { Gives (assign_value target.now.ty (place_in_run setting.now target.now) (value_in_run setting.now e.now) running.old) result running.new }
    ensures falls { OnOk result (running.new.left < running.old.left) }
{
    running.turn()?;
    let place = place_of(alloc, setting, running, target)?;
    let x = value(alloc, setting, running, e)?;
    write(running, target.ty, place, x)
}

#[cycle(run)]
fn assign_compound(
    alloc: Global,
    setting: &Setting,
    running: &mut Running,
    target: &TExpr,
    op: Mark,
    e: &TExpr,
) -> Result<Value, Stop>
    ensures gives { Gives (compound_value target.now.ty op e.now.ty (place_in_run setting.now target.now) (value_in_run setting.now e.now) running.old) result running.new }
    ensures falls { OnOk result (running.new.left < running.old.left) }
{
    running.turn()?;
    let place = place_of(alloc, setting, running, target)?;
    let old = read(running, target.ty, place)?;
    let x = value(alloc, setting, running, e)?;
    write(
        running,
        target.ty,
        place,
        combined(target.ty, operator_in(op), e.ty, old, x),
    )
}

#[cycle(run)]
fn conditional(
    alloc: Global,
    setting: &Setting,
    running: &mut Running,
    cond: &TExpr,
    one: &TExpr,
    other: &TExpr,
) -> Result<Value, Stop>
    ensures gives { Gives (conditional_value (value_in_run setting.now cond.now) (value_in_run setting.now one.now) (value_in_run setting.now other.now) running.old) result running.new }
    ensures falls { OnOk result (running.new.left < running.old.left) }
{
    running.turn()?;
    let x = value(alloc, setting, running, cond)?;
    let held = holds(x)?;
    if held {
        value(alloc, setting, running, one)
    } else {
        value(alloc, setting, running, other)
    }
}

#[cycle(run)]
fn chain(
    alloc: Global,
    setting: &Setting,
    running: &mut Running,
    first: &TExpr,
    rest: &[(Mark, TExpr)],
) -> Result<Value, Stop>
    requires { 0 < length rest.now }
    ensures gives { Gives (chain_value (length rest.now) (value_in_run setting.now first.now) (operators_in_run setting.now first.now.ty rest.now) running.old) result running.new }
    ensures falls { OnOk result (running.new.left < running.old.left) }
{
    running.turns(rest.len())?;
    let x = value(alloc, setting, running, first)?;
    operators(alloc, setting, running, first.ty, x, rest)
}

/// The operators of a chain after a part of this type and value.
#[cycle(run)]
fn operators(
    alloc: Global,
    setting: &Setting,
    running: &mut Running,
    ty: Ty,
    x: Value,
    rest: &[(Mark, TExpr)],
) -> Result<Value, Stop>
    ensures gives { Gives (operators_in_run setting.now ty rest.now x running.old) result running.new }
    ensures falls { OnOk result (running.new.left ≤ running.old.left) }
{
    let mut ty = ty;
    let mut x = x;
    for (op, e) in rest {
        x = operated(alloc, setting, running, ty, *op, x, e)?;
        ty = type_after(*op, ty, e.ty);
    }
    Ok(x)
}

/// One operator after a value of this type.
#[cycle(run)]
fn operated(
    alloc: Global,
    setting: &Setting,
    running: &mut Running,
    ty: Ty,
    op: Mark,
    x: Value,
    e: &TExpr,
) -> Result<Value, Stop>
    ensures gives { Gives (operator_value ty op e.now.ty x (value_in_run setting.now e.now) running.old) result running.new }
    ensures falls { OnOk result (running.new.left ≤ running.old.left) }
{
    match op {
        Mark::AndAnd => {
            let held = holds(x)?;
            if held {
                Ok(truth(value(alloc, setting, running, e)?))
            } else {
                Ok(Value::Num(0))
            }
        }
        Mark::OrOr => {
            let held = holds(x)?;
            if held {
                Ok(Value::Num(1))
            } else {
                Ok(truth(value(alloc, setting, running, e)?))
            }
        }
        Mark::Comma => value(alloc, setting, running, e),
        _ => {
            let y = value(alloc, setting, running, e)?;
            Ok(combined(ty, op, e.ty, x, y))
        }
    }
}

#[cycle(run)]
fn arguments(
    alloc: Global,
    setting: &Setting,
    running: &mut Running,
    args: &[TExpr],
) -> Result<Items<Value>, Stop>
    ensures gives { Gives (values_in_run setting.now args.now running.old) result running.new }
    ensures falls { OnOk result (running.new.left ≤ running.old.left) }
{
    let mut values = Items::new(alloc);
    for e in args {
        let x = value(alloc, setting, running, e)?;
        values.push(x).map_err(memory)?;
    }
    Ok(values)
}

#[cycle(run)]
fn asked(
    alloc: Global,
    setting: &Setting,
    running: &mut Running,
    which: Builtin,
    scalar: Scalar,
    args: &[TExpr],
) -> Result<Value, Stop>
    ensures gives { Gives (builtin_value setting.now.work.now which scalar (values_in_run setting.now args.now) running.old) result running.new }
    ensures falls { OnOk result (running.new.left < running.old.left) }
{
    running.turn()?;
    let values = arguments(alloc, setting, running, args)?;
    builtin(alloc, setting.work, which, scalar, values.as_slice())
}

#[cycle(run)]
fn call(
    alloc: Global,
    setting: &Setting,
    running: &mut Running,
    function: u32,
    args: &[TExpr],
) -> Result<Value, Stop>
    ensures gives { Gives (call_value (values_in_run setting.now args.now) (calls_in setting.now function) running.old) result running.new }
    ensures falls { OnOk result (running.new.left < running.old.left) }
{
    running.turn()?;
    let values = arguments(alloc, setting, running, args)?;
    call_with(alloc, setting, running, function, values)
}

/// Calls a function with these arguments.
#[cycle(run)]
pub(crate) fn call_with(
    alloc: Global,
    setting: &Setting,
    running: &mut Running,
    function: u32,
    args: Items<Value>,
) -> Result<Value, Stop>
    ensures gives { Gives (calls_in setting.now function args running.old) result running.new }
    ensures falls { OnOk result (running.new.left < running.old.left) }
{
    if function as usize >= setting.callable {
        return Err(Stop::Spent);
    }
    let Some(called) = setting.functions.get(function as usize) else {
        return Err(Stop::Spent);
    };
    let inner = Setting {
        work: setting.work,
        functions: setting.functions,
        callable: function as usize,
    };
    let caller = enter(alloc, running, called, args.as_slice())?;
    let flow = statement(alloc, &inner, running, called.vars.as_slice(), &called.body)?;
    leave(running, caller);
    call_end(called.result, flow)
}

/// What a statement does, and how it is left.
#[cycle(run)]
fn statement(
    alloc: Global,
    setting: &Setting,
    running: &mut Running,
    vars: &[Var],
    a: &TStmt,
) -> Result<Flow, Stop>
    ensures gives { Gives (does_in_run setting.now vars.now a.now running.old) result running.new }
    ensures falls { OnOk result (running.new.left < running.old.left) }
{
    running.turn()?;
    match a {
        TStmt::Block(all) => block(alloc, setting, running, vars, all.as_slice()),
        TStmt::Declare { var, init } => declared(alloc, setting, running, vars, *var, init),
        TStmt::Eval(e) => evaluated(alloc, setting, running, e),
        TStmt::Empty => Ok(Flow::Next),
        TStmt::If { cond, yes, no } => choice(alloc, setting, running, vars, cond, yes.get(), no),
        TStmt::While { cond, body } => while_loop(alloc, setting, running, vars, cond, body.get()),
        TStmt::Do { body, cond } => do_loop(alloc, setting, running, vars, body.get(), cond),
        TStmt::For {
            init,
            cond,
            step,
            body,
        } => {
            match beginnings(alloc, setting, running, vars, init.as_slice())? {
                Flow::Next => for_loop(alloc, setting, running, vars, cond, step, body.get()),
                flow => Ok(flow),
            }
        }
        TStmt::Break => Ok(Flow::Broke),
        TStmt::Continue => Ok(Flow::Again),
        TStmt::Return(e) => returned(alloc, setting, running, e),
    }
}

/// Statements one after the other.
#[cycle(run)]
fn block(
    alloc: Global,
    setting: &Setting,
    running: &mut Running,
    vars: &[Var],
    all: &[TStmt],
) -> Result<Flow, Stop>
    ensures gives { Gives (all_in_run setting.now vars.now all.now running.old) result running.new }
    ensures falls { OnOk result (running.new.left ≤ running.old.left) }
{
    for a in all {
        match statement(alloc, setting, running, vars, a)? {
            Flow::Next => {}
            flow => return Ok(flow),
        }
    }
    Ok(Flow::Next)
}

/// What stands first in a `for`.
#[cycle(run)]
fn beginnings(
    alloc: Global,
    setting: &Setting,
    running: &mut Running,
    vars: &[Var],
    all: &[TStmt],
) -> Result<Flow, Stop>
    ensures gives { Gives (begins_in_run setting.now vars.now all.now running.old) result running.new }
    ensures falls { OnOk result (running.new.left ≤ running.old.left) }
{
    for a in all {
        match beginning(alloc, setting, running, vars, a)? {
            Flow::Next => {}
            flow => return Ok(flow),
        }
    }
    Ok(Flow::Next)
}

#[cycle(run)]
fn beginning(
    alloc: Global,
    setting: &Setting,
    running: &mut Running,
    vars: &[Var],
    a: &TStmt,
) -> Result<Flow, Stop>
    ensures gives { Gives (begin_with setting.now.work.now (calls_in setting.now) vars.now a.now running.old) result running.new }
    ensures falls { OnOk result (running.new.left ≤ running.old.left) }
{
    match a {
        TStmt::Eval(e) => evaluated(alloc, setting, running, e),
        TStmt::Declare { var, init } => {
            running.turn()?;
            declared(alloc, setting, running, vars, *var, init)
        }
        TStmt::Block(_) => Err(Stop::Spent),
        TStmt::Empty => Err(Stop::Spent),
        TStmt::If { .. } => Err(Stop::Spent),
        TStmt::While { .. } => Err(Stop::Spent),
        TStmt::Do { .. } => Err(Stop::Spent),
        TStmt::For { .. } => Err(Stop::Spent),
        TStmt::Break => Err(Stop::Spent),
        TStmt::Continue => Err(Stop::Spent),
        TStmt::Return(_) => Err(Stop::Spent),
    }
}

/// An expression whose value isn't used.
#[cycle(run)]
fn evaluated(
    alloc: Global,
    setting: &Setting,
    running: &mut Running,
    e: &TExpr,
) -> Result<Flow, Stop>
    ensures gives { Gives (dropped (value_in_run setting.now e.now) running.old) result running.new }
    ensures falls { OnOk result (running.new.left < running.old.left) }
{
    value(alloc, setting, running, e)?;
    Ok(Flow::Next)
}

/// A declaration, of which a turn was taken: the variable is emptied, and gets its initial value.
#[cycle(run)]
fn declared(
    alloc: Global,
    setting: &Setting,
    running: &mut Running,
    vars: &[Var],
    var: u32,
    init: &Option<TExpr>,
) -> Result<Flow, Stop>
    ensures gives { Gives (initialised (type_of_var (var_at vars.now var)) var (value_if setting.now.work.now (calls_in setting.now) init.now) (cleared (var_at vars.now var) var running.old)) result running.new }
    ensures falls { OnOk result (running.new.left ≤ running.old.left) }
{
    let declared = variable_at(vars, var);
    running.clear(alloc, declared, var)?;
    if let Some(e) = init {
        let x = value(alloc, setting, running, e)?;
        write(running, type_of(declared), Place::Variable(var), x)?;
    }
    Ok(Flow::Next)
}

#[cycle(run)]
fn returned(
    alloc: Global,
    setting: &Setting,
    running: &mut Running,
    e: &Option<TExpr>,
) -> Result<Flow, Stop>
    ensures gives { Gives (returned_flow (value_if setting.now.work.now (calls_in setting.now) e.now) running.old) result running.new }
    ensures falls { OnOk result (running.new.left ≤ running.old.left) }
{
    match e {
        None => Ok(Flow::Returned(Value::Null)),
        Some(e) => Ok(Flow::Returned(value(alloc, setting, running, e)?)),
    }
}

#[cycle(run)]
fn choice(
    alloc: Global,
    setting: &Setting,
    running: &mut Running,
    vars: &[Var],
    cond: &TExpr,
    one: &TStmt,
    other: &Option<Boxed<TStmt>>,
) -> Result<Flow, Stop>
    ensures gives { Gives (choice_flow (value_in_run setting.now cond.now) (does_in_run setting.now vars.now one.now) (else_in_run setting.now vars.now other.now) running.old) result running.new }
    ensures falls { OnOk result (running.new.left < running.old.left) }
{
    let x = value(alloc, setting, running, cond)?;
    let held = holds(x)?;
    if held {
        return statement(alloc, setting, running, vars, one);
    }
    match other {
        None => Ok(Flow::Next),
        Some(other) => statement(alloc, setting, running, vars, other.get()),
    }
}

#[cycle(run)]
fn while_loop(
    alloc: Global,
    setting: &Setting,
    running: &mut Running,
    vars: &[Var],
    cond: &TExpr,
    body: &TStmt,
) -> Result<Flow, Stop>
    ensures gives { Gives (rounds_of running.old.left (round (value_in_run setting.now cond.now) (does_in_run setting.now vars.now body.now) no_flow) running.old) result running.new }
    ensures falls { OnOk result (running.new.left ≤ running.old.left) }
{
    'rounds: loop {
        if let Some(flow) = while_round(alloc, setting, running, vars, cond, body)? {
            return Ok(flow);
        }
    }
}

#[cycle(run)]
fn while_round(
    alloc: Global,
    setting: &Setting,
    running: &mut Running,
    vars: &[Var],
    cond: &TExpr,
    body: &TStmt,
) -> Result<Option<Flow>, Stop>
    ensures gives { Gives (round (value_in_run setting.now cond.now) (does_in_run setting.now vars.now body.now) no_flow running.old) result running.new }
    ensures falls { OnOk result (running.new.left < running.old.left) }
{
    let x = value(alloc, setting, running, cond)?;
    let held = holds(x)?;
    if !held {
        return Ok(Some(Flow::Next));
    }
    match statement(alloc, setting, running, vars, body)? {
        Flow::Next => Ok(None),
        Flow::Again => Ok(None),
        Flow::Broke => Ok(Some(Flow::Next)),
        Flow::Returned(x) => Ok(Some(Flow::Returned(x))),
    }
}

#[cycle(run)]
fn do_loop(
    alloc: Global,
    setting: &Setting,
    running: &mut Running,
    vars: &[Var],
    body: &TStmt,
    cond: &TExpr,
) -> Result<Flow, Stop>
    ensures gives { Gives (rounds_of running.old.left (round_first (does_in_run setting.now vars.now body.now) (value_in_run setting.now cond.now)) running.old) result running.new }
    ensures falls { OnOk result (running.new.left ≤ running.old.left) }
{
    'rounds: loop {
        if let Some(flow) = do_round(alloc, setting, running, vars, body, cond)? {
            return Ok(flow);
        }
    }
}

#[cycle(run)]
fn do_round(
    alloc: Global,
    setting: &Setting,
    running: &mut Running,
    vars: &[Var],
    body: &TStmt,
    cond: &TExpr,
) -> Result<Option<Flow>, Stop>
    ensures gives { Gives (round_first (does_in_run setting.now vars.now body.now) (value_in_run setting.now cond.now) running.old) result running.new }
    ensures falls { OnOk result (running.new.left < running.old.left) }
{
    match statement(alloc, setting, running, vars, body)? {
        Flow::Next => tested_last(alloc, setting, running, cond),
        Flow::Again => tested_last(alloc, setting, running, cond),
        Flow::Broke => Ok(Some(Flow::Next)),
        Flow::Returned(x) => Ok(Some(Flow::Returned(x))),
    }
}

/// The test after a body: whether another round follows.
#[cycle(run)]
fn tested_last(
    alloc: Global,
    setting: &Setting,
    running: &mut Running,
    cond: &TExpr,
) -> Result<Option<Flow>, Stop>
    ensures gives { Gives (after_first Flow.Next running.old (value_in_run setting.now cond.now)) result running.new }
    ensures falls { OnOk result (running.new.left ≤ running.old.left) }
{
    let x = value(alloc, setting, running, cond)?;
    let held = holds(x)?;
    if held { Ok(None) } else { Ok(Some(Flow::Next)) }
}

#[cycle(run)]
fn for_loop(
    alloc: Global,
    setting: &Setting,
    running: &mut Running,
    vars: &[Var],
    cond: &Option<TExpr>,
    step: &Option<TExpr>,
    body: &TStmt,
) -> Result<Flow, Stop>
    ensures gives { Gives (rounds_of running.old.left (round (test_in_run setting.now cond.now) (does_in_run setting.now vars.now body.now) (step_in_run setting.now step.now)) running.old) result running.new }
    ensures falls { OnOk result (running.new.left ≤ running.old.left) }
{
    'rounds: loop {
        if let Some(flow) = for_round(alloc, setting, running, vars, cond, step, body)? {
            return Ok(flow);
        }
    }
}

#[cycle(run)]
fn for_round(
    alloc: Global,
    setting: &Setting,
    running: &mut Running,
    vars: &[Var],
    cond: &Option<TExpr>,
    step: &Option<TExpr>,
    body: &TStmt,
) -> Result<Option<Flow>, Stop>
    ensures gives { Gives (round (test_in_run setting.now cond.now) (does_in_run setting.now vars.now body.now) (step_in_run setting.now step.now) running.old) result running.new }
    ensures falls { OnOk result (running.new.left ≤ running.old.left) }
    ensures shorter { OnNone result (running.new.left < running.old.left) }
{
    let x = tested(alloc, setting, running, cond)?;
    let held = holds(x)?;
    if !held {
        return Ok(Some(Flow::Next));
    }
    match statement(alloc, setting, running, vars, body)? {
        Flow::Next => stepped_on(alloc, setting, running, step),
        Flow::Again => stepped_on(alloc, setting, running, step),
        Flow::Broke => Ok(Some(Flow::Next)),
        Flow::Returned(x) => Ok(Some(Flow::Returned(x))),
    }
}

/// The condition of a `for`; where there is none, it goes on.
#[cycle(run)]
fn tested(
    alloc: Global,
    setting: &Setting,
    running: &mut Running,
    cond: &Option<TExpr>,
) -> Result<Value, Stop>
    ensures gives { Gives (test_in_run setting.now cond.now running.old) result running.new }
    ensures falls { OnOk result (running.new.left ≤ running.old.left) }
{
    match cond {
        None => Ok(Value::Num(1)),
        Some(e) => value(alloc, setting, running, e),
    }
}

/// The step of a `for`, after which another round follows.
#[cycle(run)]
fn stepped_on(
    alloc: Global,
    setting: &Setting,
    running: &mut Running,
    step: &Option<TExpr>,
) -> Result<Option<Flow>, Stop>
    ensures gives { Gives (after_round Flow.Next running.old (step_in_run setting.now step.now)) result running.new }
    ensures falls { OnOk result (running.new.left ≤ running.old.left) }
{
    if let Some(e) = step {
        value(alloc, setting, running, e)?;
    }
    Ok(None)
}
