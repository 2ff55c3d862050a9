//! The bodies of functions with their calls replaced.
//!
//! `room` is how deep expressions, statements and calls may still stand in one another. It is never used up: trees are shallow, and so are calls.
//! What is made is kept in boxes while more is made that may fail.

ghost use Rattle.std.specs.Prelude.{◌≡◌, ◌+◌, ◌++◌, [], map, length, Some, None, slice_get, IfOk};
ghost use Rattle.std.specs.Option.{option_map};
ghost use Rattle.clc_lexer.specs.declared.marks.Mark.{Mark};
ghost use Rattle.clc_types.specs.declared.typed.TFunction.{TFunction};
ghost use Rattle.clc_inline.specs.Inlining.{just, mapped, two, three, four, listed, operands as operands_of, possibly, numbers as numbers_from, bodies_below};
ghost use Rattle.clc_inline.specs.InSetting.{expr_in, node_in, maybe_in, stmt_in, called_in};

use crate::body::{Node, TExpr, TStmt};
use crate::number::{deeper, next, number, numbers};
use crate::setting::Setting;
use clc_lexer::Mark;
use clc_types as typed;
use clc_types::{TFunction, Var};
use sqlite_items::{Boxed, Items, at};
use std::alloc::{AllocError, Global};

#[cycle(inlining)]
fn expression(
    alloc: Global,
    setting: &Setting,
    room: u32,
    vars: &mut Vec<Var>,
    e: &typed::TExpr,
) -> Result<TExpr, AllocError>
    ensures { IfOk result (λ x. just x vars.new.items ≡ expr_in setting.now e.now vars.old.items) }
{
    let room = deeper(room)?;
    let node = node(alloc, setting, room, vars, &e.node)?;
    Ok(TExpr {
        at: e.at,
        ty: e.ty,
        node,
    })
}

#[cycle(inlining)]
fn boxed(
    alloc: Global,
    setting: &Setting,
    room: u32,
    vars: &mut Vec<Var>,
    e: &typed::TExpr,
) -> Result<Boxed<TExpr>, AllocError>
    ensures { IfOk result (λ x. just x vars.new.items ≡ expr_in setting.now e.now vars.old.items) }
{
    let made = expression(alloc, setting, room, vars, e)?;
    Boxed::new(alloc, made)
}

#[cycle(inlining)]
fn node(
    alloc: Global,
    setting: &Setting,
    room: u32,
    vars: &mut Vec<Var>,
    node: &typed::Node,
) -> Result<Node, AllocError>
    ensures { IfOk result (λ x. just x vars.new.items ≡ node_in setting.now node.now vars.old.items) }
{
    match node {
        typed::Node::Number(word) => Ok(Node::Number(*word)),
        typed::Node::Name(var) => Ok(Node::Name(number(setting.base, *var)?)),
        typed::Node::Index { base, index } => {
            indexed(alloc, setting, room, vars, base.get(), index.get())
        }
        typed::Node::Element { array, index } => {
            element(alloc, setting, room, vars, *array, index.get())
        }
        typed::Node::Deref(x) => Ok(Node::Deref(boxed(alloc, setting, room, vars, x.get())?)),
        typed::Node::Prefix { op, arg } => Ok(Node::Prefix {
            op: *op,
            arg: boxed(alloc, setting, room, vars, arg.get())?,
        }),
        typed::Node::Step { place, up, post } => Ok(Node::Step {
            place: boxed(alloc, setting, room, vars, place.get())?,
            up: *up,
            post: *post,
        }),
        typed::Node::Cast(x) => Ok(Node::Cast(boxed(alloc, setting, room, vars, x.get())?)),
        typed::Node::Paren(x) => Ok(Node::Paren(boxed(alloc, setting, room, vars, x.get())?)),
        typed::Node::Chain { first, rest } => {
            chain(alloc, setting, room, vars, first.get(), rest.as_slice())
        }
        typed::Node::Cond(x, y, z) => {
            conditional(alloc, setting, room, vars, x.get(), y.get(), z.get())
        }
        typed::Node::Assign { place, op, value } => {
            assignment(alloc, setting, room, vars, place.get(), *op, value.get())
        }
        typed::Node::Call { function, args } => {
            call(alloc, setting, room, vars, *function, args.as_slice())
        }
        typed::Node::Builtin { which, work, args } => Ok(Node::Builtin {
            which: *which,
            work: *work,
            args: expressions(alloc, setting, room, vars, args.as_slice())?,
        }),
    }
}

#[cycle(inlining)]
fn indexed(
    alloc: Global,
    setting: &Setting,
    room: u32,
    vars: &mut Vec<Var>,
    base: &typed::TExpr,
    index: &typed::TExpr,
) -> Result<Node, AllocError>
    ensures { IfOk result (λ x. just x vars.new.items ≡ two Node.Index (expr_in setting.now base.now vars.old.items) (expr_in setting.now index.now)) }
{
    let base = boxed(alloc, setting, room, vars, base)?;
    let index = boxed(alloc, setting, room, vars, index)?;
    Ok(Node::Index { base, index })
}

#[cycle(inlining)]
fn element(
    alloc: Global,
    setting: &Setting,
    room: u32,
    vars: &mut Vec<Var>,
    array: u32,
    index: &typed::TExpr,
) -> Result<Node, AllocError>
    ensures { IfOk result (λ x. just x vars.new.items ≡ mapped (Node.Element (setting.now.base + array)) (expr_in setting.now index.now vars.old.items)) }
{
    let array = number(setting.base, array)?;
    let index = boxed(alloc, setting, room, vars, index)?;
    Ok(Node::Element { array, index })
}

#[cycle(inlining)]
fn chain(
    alloc: Global,
    setting: &Setting,
    room: u32,
    vars: &mut Vec<Var>,
    first: &typed::TExpr,
    rest: &[(Mark, typed::TExpr)],
) -> Result<Node, AllocError>
    ensures { IfOk result (λ x. just x vars.new.items ≡ two Node.Chain (expr_in setting.now first.now vars.old.items) (operands_of [] (map (λ y. (y.0, expr_in setting.now y.1)) rest.now))) }
{
    let first = boxed(alloc, setting, room, vars, first)?;
    let rest = operands(alloc, setting, room, vars, rest)?;
    Ok(Node::Chain { first, rest })
}

#[cycle(inlining)]
fn conditional(
    alloc: Global,
    setting: &Setting,
    room: u32,
    vars: &mut Vec<Var>,
    cond: &typed::TExpr,
    yes: &typed::TExpr,
    no: &typed::TExpr,
) -> Result<Node, AllocError>
    ensures { IfOk result (λ x. just x vars.new.items ≡ three Node.Cond (expr_in setting.now cond.now vars.old.items) (expr_in setting.now yes.now) (expr_in setting.now no.now)) }
{
    let cond = boxed(alloc, setting, room, vars, cond)?;
    let yes = boxed(alloc, setting, room, vars, yes)?;
    let no = boxed(alloc, setting, room, vars, no)?;
    Ok(Node::Cond(cond, yes, no))
}

#[cycle(inlining)]
fn assignment(
    alloc: Global,
    setting: &Setting,
    room: u32,
    vars: &mut Vec<Var>,
    place: &typed::TExpr,
    op: Mark,
    value: &typed::TExpr,
) -> Result<Node, AllocError>
    ensures { IfOk result (λ x. just x vars.new.items ≡ two (λ y z. Node.Assign y op z) (expr_in setting.now place.now vars.old.items) (expr_in setting.now value.now)) }
{
    let place = boxed(alloc, setting, room, vars, place)?;
    let value = boxed(alloc, setting, room, vars, value)?;
    Ok(Node::Assign { place, op, value })
}

#[cycle(inlining)]
fn expressions(
    alloc: Global,
    setting: &Setting,
    room: u32,
    vars: &mut Vec<Var>,
    all: &[typed::TExpr],
) -> Result<Items<TExpr>, AllocError>
    ensures { IfOk result (λ xs. just xs vars.new.items ≡ listed [] (map (expr_in setting.now) all.now) vars.old.items) }
{
    let mut list = Items::new(alloc);
    for e in all {
        list.push(expression(alloc, setting, room, vars, e)?)?;
    }
    Ok(list)
}

#[cycle(inlining)]
fn operands(
    alloc: Global,
    setting: &Setting,
    room: u32,
    vars: &mut Vec<Var>,
    all: &[(Mark, typed::TExpr)],
) -> Result<Items<(Mark, TExpr)>, AllocError>
    ensures { IfOk result (λ xs. just xs vars.new.items ≡ operands_of [] (map (λ x. (x.0, expr_in setting.now x.1)) all.now) vars.old.items) }
{
    let mut list = Items::new(alloc);
    for x in all {
        list.push((x.0, expression(alloc, setting, room, vars, &x.1)?))?;
    }
    Ok(list)
}

/// A scope in place of a call.
#[cycle(inlining)]
fn call(
    alloc: Global,
    setting: &Setting,
    room: u32,
    vars: &mut Vec<Var>,
    function: u32,
    args: &[typed::TExpr],
) -> Result<Node, AllocError>
    ensures { IfOk result (λ x. just x vars.new.items ≡ called_in setting.now function (listed [] (map (expr_in setting.now) args.now) vars.old.items)) }
{
    let args = expressions(alloc, setting, room, vars, args)?;
    match at(setting.functions, function as usize) {
        None => empty_scope(alloc, args),
        Some(called) => {
            let (params, body) = entered(alloc, setting, room, vars, function, called)?;
            Ok(Node::Scope {
                params,
                args,
                result: called.result,
                body,
            })
        }
    }
}

fn empty_scope(alloc: Global, args: Items<TExpr>) -> Result<Node, AllocError>
    ensures { IfOk result (λ x. x ≡ Node.Scope [] args None TStmt.Empty) }
{
    let body = Boxed::new(alloc, TStmt::Empty)?;
    Ok(Node::Scope {
        params: Items::new(alloc),
        args,
        result: None,
        body,
    })
}

/// The numbers of a called function's parameters, and its body; its variables come behind those that there are.
#[cycle(inlining)]
fn entered(
    alloc: Global,
    setting: &Setting,
    room: u32,
    vars: &mut Vec<Var>,
    function: u32,
    called: &TFunction,
) -> Result<(Items<u32>, Boxed<TStmt>), AllocError>
    requires { slice_get setting.now.functions.now function ≡ Some called.now }
    ensures params { IfOk result (λ x. x.0 ≡ numbers_from (length vars.old.items) called.now.params) }
    ensures body { IfOk result (λ x. just x.1 vars.new.items ≡ bodies_below setting.now.functions.now setting.now.callable function (length vars.old.items) (vars.old.items ++ called.now.vars)) }
{
    let base = next(vars.len())?;
    let params = numbers(alloc, base, called.params)?;
    vars.extend_from_slice(called.vars.as_slice())?;
    let body = called_body(alloc, setting, room, vars, function, called, base)?;
    Ok((params, body))
}

#[cycle(inlining)]
#[tactic(auto, using(crate::proofs::Called::none_called, crate::proofs::Called::body_called))]
fn called_body(
    alloc: Global,
    setting: &Setting,
    room: u32,
    vars: &mut Vec<Var>,
    function: u32,
    called: &TFunction,
    base: u32,
) -> Result<Boxed<TStmt>, AllocError>
    requires { slice_get setting.now.functions.now function ≡ Some called.now }
    ensures { IfOk result (λ x. just x vars.new.items ≡ bodies_below setting.now.functions.now setting.now.callable function base vars.old.items) }
{
    if function >= setting.callable {
        return Boxed::new(alloc, TStmt::Empty);
    }
    let inner = Setting {
        functions: setting.functions,
        callable: function,
        base,
    };
    boxed_statement(alloc, &inner, room, vars, &called.body)
}

#[cycle(inlining)]
fn maybe(
    alloc: Global,
    setting: &Setting,
    room: u32,
    vars: &mut Vec<Var>,
    e: &Option<typed::TExpr>,
) -> Result<Option<Boxed<TExpr>>, AllocError>
    ensures { IfOk result (λ x. just x vars.new.items ≡ maybe_in setting.now e.now vars.old.items) }
{
    match e {
        None => Ok(None),
        Some(e) => Ok(Some(boxed(alloc, setting, room, vars, e)?)),
    }
}

fn unboxed(value: Option<Boxed<TExpr>>) -> Option<TExpr>
    ensures { result ≡ value }
{
    value.map(Boxed::into_inner)
}

/// A statement of a function, with calls of those that may be called replaced.
#[cycle(inlining)]
pub(crate) fn statement(
    alloc: Global,
    setting: &Setting,
    room: u32,
    vars: &mut Vec<Var>,
    s: &typed::TStmt,
) -> Result<TStmt, AllocError>
    ensures { IfOk result (λ x. just x vars.new.items ≡ stmt_in setting.now s.now vars.old.items) }
{
    let room = deeper(room)?;
    match s {
        typed::TStmt::Block(all) => Ok(TStmt::Block(statements(
            alloc,
            setting,
            room,
            vars,
            all.as_slice(),
        )?)),
        typed::TStmt::Declare { var, init } => {
            declaration(alloc, setting, room, vars, *var, init)
        }
        typed::TStmt::Eval(e) => Ok(TStmt::Eval(expression(alloc, setting, room, vars, e)?)),
        typed::TStmt::Empty => Ok(TStmt::Empty),
        typed::TStmt::If { cond, yes, no } => {
            choice(alloc, setting, room, vars, cond, yes.get(), no)
        }
        typed::TStmt::While { cond, body } => {
            while_loop(alloc, setting, room, vars, cond, body.get())
        }
        typed::TStmt::Do { body, cond } => { do_loop(alloc, setting, room, vars, body.get(), cond) }
        typed::TStmt::For {
            init,
            cond,
            step,
            body,
        } => for_loop(
            alloc,
            setting,
            room,
            vars,
            init.as_slice(),
            cond,
            step,
            body.get(),
        ),
        typed::TStmt::Break => Ok(TStmt::Break),
        typed::TStmt::Continue => Ok(TStmt::Continue),
        typed::TStmt::Return(e) => {
            let value = maybe(alloc, setting, room, vars, e)?;
            Ok(TStmt::Return(unboxed(value)))
        }
    }
}

#[cycle(inlining)]
fn declaration(
    alloc: Global,
    setting: &Setting,
    room: u32,
    vars: &mut Vec<Var>,
    var: u32,
    init: &Option<typed::TExpr>,
) -> Result<TStmt, AllocError>
    ensures { IfOk result (λ x. just x vars.new.items ≡ mapped (TStmt.Declare (setting.now.base + var)) (maybe_in setting.now init.now vars.old.items)) }
{
    let var = number(setting.base, var)?;
    let init = maybe(alloc, setting, room, vars, init)?;
    Ok(TStmt::Declare {
        var,
        init: unboxed(init),
    })
}

#[cycle(inlining)]
fn choice(
    alloc: Global,
    setting: &Setting,
    room: u32,
    vars: &mut Vec<Var>,
    cond: &typed::TExpr,
    yes: &typed::TStmt,
    no: &Option<Boxed<typed::TStmt>>,
) -> Result<TStmt, AllocError>
    ensures { IfOk result (λ x. just x vars.new.items ≡ three TStmt.If (expr_in setting.now cond.now vars.old.items) (stmt_in setting.now yes.now) (possibly (option_map (stmt_in setting.now) no.now))) }
{
    let cond = boxed(alloc, setting, room, vars, cond)?;
    let yes = boxed_statement(alloc, setting, room, vars, yes)?;
    let no = otherwise(alloc, setting, room, vars, no)?;
    Ok(TStmt::If {
        cond: cond.into_inner(),
        yes,
        no,
    })
}

#[cycle(inlining)]
fn while_loop(
    alloc: Global,
    setting: &Setting,
    room: u32,
    vars: &mut Vec<Var>,
    cond: &typed::TExpr,
    body: &typed::TStmt,
) -> Result<TStmt, AllocError>
    ensures { IfOk result (λ x. just x vars.new.items ≡ two TStmt.While (expr_in setting.now cond.now vars.old.items) (stmt_in setting.now body.now)) }
{
    let cond = boxed(alloc, setting, room, vars, cond)?;
    let body = boxed_statement(alloc, setting, room, vars, body)?;
    Ok(TStmt::While {
        cond: cond.into_inner(),
        body,
    })
}

#[cycle(inlining)]
fn do_loop(
    alloc: Global,
    setting: &Setting,
    room: u32,
    vars: &mut Vec<Var>,
    body: &typed::TStmt,
    cond: &typed::TExpr,
) -> Result<TStmt, AllocError>
    ensures { IfOk result (λ x. just x vars.new.items ≡ two TStmt.Do (stmt_in setting.now body.now vars.old.items) (expr_in setting.now cond.now)) }
{
    let body = boxed_statement(alloc, setting, room, vars, body)?;
    let cond = expression(alloc, setting, room, vars, cond)?;
    Ok(TStmt::Do { body, cond })
}

#[cycle(inlining)]
fn for_loop(
    alloc: Global,
    setting: &Setting,
    room: u32,
    vars: &mut Vec<Var>,
    init: &[typed::TStmt],
    cond: &Option<typed::TExpr>,
    step: &Option<typed::TExpr>,
    body: &typed::TStmt,
) -> Result<TStmt, AllocError>
    ensures { IfOk result (λ x. just x vars.new.items ≡ four TStmt.For (listed [] (map (stmt_in setting.now) init.now) vars.old.items) (maybe_in setting.now cond.now) (maybe_in setting.now step.now) (stmt_in setting.now body.now)) }
{
    let init = statements(alloc, setting, room, vars, init)?;
    let cond = maybe(alloc, setting, room, vars, cond)?;
    let step = maybe(alloc, setting, room, vars, step)?;
    let body = boxed_statement(alloc, setting, room, vars, body)?;
    Ok(TStmt::For {
        init,
        cond: unboxed(cond),
        step: unboxed(step),
        body,
    })
}

#[cycle(inlining)]
fn boxed_statement(
    alloc: Global,
    setting: &Setting,
    room: u32,
    vars: &mut Vec<Var>,
    s: &typed::TStmt,
) -> Result<Boxed<TStmt>, AllocError>
    ensures { IfOk result (λ x. just x vars.new.items ≡ stmt_in setting.now s.now vars.old.items) }
{
    let made = statement(alloc, setting, room, vars, s)?;
    Boxed::new(alloc, made)
}

#[cycle(inlining)]
fn otherwise(
    alloc: Global,
    setting: &Setting,
    room: u32,
    vars: &mut Vec<Var>,
    s: &Option<Boxed<typed::TStmt>>,
) -> Result<Option<Boxed<TStmt>>, AllocError>
    ensures { IfOk result (λ x. just x vars.new.items ≡ possibly (option_map (stmt_in setting.now) s.now) vars.old.items) }
{
    match s {
        None => Ok(None),
        Some(s) => Ok(Some(boxed_statement(alloc, setting, room, vars, s.get())?)),
    }
}

#[cycle(inlining)]
fn statements(
    alloc: Global,
    setting: &Setting,
    room: u32,
    vars: &mut Vec<Var>,
    all: &[typed::TStmt],
) -> Result<Items<TStmt>, AllocError>
    ensures { IfOk result (λ xs. just xs vars.new.items ≡ listed [] (map (stmt_in setting.now) all.now) vars.old.items) }
{
    let mut list = Items::new(alloc);
    for s in all {
        list.push(statement(alloc, setting, room, vars, s)?)?;
    }
    Ok(list)
}
