//! The walk over expressions.

ghost use Rattle.std.specs.Prelude.{◌≡◌, ◌+◌, [], ◌∷◌, ◌++◌, Some, map};
ghost use Rattle.clc_types.specs.Words.{type_tokens as type_tokens_of};
ghost use Rattle.clc_types.specs.Typing.{element_node as element_node_of, deref_form as deref_form_of, argument, expr_of as typed_expr, plain as plain_of, number_form as number_form_of, variable_form as variable_form_of};
ghost use Rattle.clc_types.specs.InternalScope.{knows};
ghost use Rattle.clc_types.specs.InternalAnswers.{Walks, Gives, items_in};
ghost use Rattle.clc_types.specs.InternalWalk.{bump, paren_end as paren_end_of, index_end as index_end_of, post_end as post_end_of, step_end as step_end_of, prefix_end as prefix_end_of, cast_end as cast_end_of, chain_start as chain_start_of, operator_end as operator_end_of, chain_end as chain_end_of, conditional_end as conditional_end_of, assign_end as assign_end_of, comma as comma_of, walk_operator, walk_operators, walk_argument, walk_arguments, walk_suffix, series_of, walk_expr, walk_assign, walk_cast, walk_chain, walk_primary, walk_unary, walk_chain_step, walk_comma_step, walk_cond, walk_post, walk_post_step, map_series};
ghost use Rattle.clc_lexer.specs.declared.marks.Mark.TheVariants.{Comma};

use crate::calls::call_end;
use crate::rules::{
    assign_needs, common, conditional_needs, element_kind, element_place, index_needs, kind_of,
    operator_kind, operator_needs, place_of, pointer_needed, prefix_kind, scalar_needed, scalar_of,
    step_needs, ty_of,
};
use crate::scope::named;
use crate::words::{is_increment, is_unsigned, mark_of, name_of, type_of, type_tokens, value_of};
use clc_lexer::{Mark, Token};
use clc_tree::{
    Assign, Cast, Chain, ChainStep, CommaStep, Cond, Expr, Post, PostStep, Primary,
    Scalar as Written, Unary,
};
use clc_types::{
    Argument, Fault, Form, Kind, Named, Node, Place, Scope, Shape, Sofar, TExpr, TypeFault,
    TypeRule,
};
use q_lane::Scalar;
use sqlite_items::{Boxed, Items};
use std::alloc::{AllocError, Global};

/// Counts n tokens.
pub fn skip(at: &mut u32, n: u32)
    ensures { at.new ≡ bump at.old n }
{
    *at = at.saturating_add(n);
}

pub fn memory(_error: AllocError) -> TypeFault
    ensures { result ≡ TypeFault.Memory }
{
    TypeFault::Memory
}

pub fn broken(f: Fault) -> TypeFault
    ensures { result ≡ TypeFault.Rule f.rule f.token }
{
    TypeFault::Rule {
        rule: f.rule,
        token: f.token,
    }
}

fn boxed(alloc: Global, expr: TExpr) -> Result<Boxed<TExpr>, TypeFault>
    ensures { Gives result expr }
{
    Boxed::new(alloc, expr).map_err(memory)
}

/// The typed expression of a node that begins at byte `at` of the source.
fn expr_of(alloc: Global, at: u32, kind: Kind, node: Node) -> Result<Boxed<TExpr>, TypeFault>
    ensures { Gives result (typed_expr at kind node) }
{
    let ty = ty_of(kind);
    boxed(alloc, TExpr { at, ty, node })
}

/// An expression that is no place.
pub fn plain(alloc: Global, at: u32, kind: Kind, node: Node) -> Result<Form, TypeFault>
    ensures { Gives result (plain_of at kind node) }
{
    Ok(Form {
        expr: expr_of(alloc, at, kind, node)?,
        kind,
        place: Place::Nowhere,
    })
}

fn number_form(alloc: Global, token: &Token) -> Result<Form, TypeFault>
    ensures { Gives result (number_form_of token.now) }
{
    let scalar = if is_unsigned(token) {
        Scalar::Uint
    } else {
        Scalar::Int
    };
    plain(
        alloc,
        token.from,
        Kind::Value(scalar),
        Node::Number(value_of(token)),
    )
}

fn variable_form(alloc: Global, token: &Token, var: u32, shape: Shape) -> Result<Form, TypeFault>
    ensures { Gives result (variable_form_of token.now var shape) }
{
    let kind = kind_of(var, shape);
    Ok(Form {
        expr: expr_of(alloc, token.from, kind, Node::Name(var))?,
        kind,
        place: place_of(shape),
    })
}

#[tactic(auto, unfolding(clc_types::specs::InternalWalk::paren_end))]
fn paren_end(alloc: Global, at: &mut u32, opening: &Token, x: Form) -> Result<Form, TypeFault>
    ensures { Walks (paren_end_of opening.now x at.old) result at.new }
{
    skip(at, 1);
    let Form { expr, kind, place } = x;
    Ok(Form {
        expr: expr_of(alloc, opening.from, kind, Node::Paren(expr))?,
        kind,
        place,
    })
}

fn element_node(x: Form, y: Form) -> Node
    ensures { result ≡ element_node_of x y }
{
    let index = y.expr;
    match x.kind {
        Kind::Array { var, .. } => Node::Element { array: var, index },
        _ => Node::Index {
            base: x.expr,
            index,
        },
    }
}

#[tactic(auto, using(crate::proofs::Steps::guarded_stops, crate::proofs::Steps::guarded_goes), unfolding(clc_types::specs::InternalWalk::index_end))]
fn index_end(
    alloc: Global,
    at: &mut u32,
    p: u32,
    x: Form,
    q: u32,
    y: Form,
) -> Result<Form, TypeFault>
    ensures { Walks (index_end_of p x q y at.old) result at.new }
{
    if let Some(f) = index_needs(p, &x, q, &y) {
        return Err(broken(f));
    }
    skip(at, 1);
    let first = x.expr.get().at;
    let kind = element_kind(x.kind);
    let place = element_place(x.kind, x.place);
    Ok(Form {
        expr: expr_of(alloc, first, kind, element_node(x, y))?,
        kind,
        place,
    })
}

#[tactic(auto, using(crate::proofs::Steps::guarded_stops, crate::proofs::Steps::guarded_goes), unfolding(clc_types::specs::InternalWalk::post_end))]
fn post_end(
    alloc: Global,
    at: &mut u32,
    operator: &Token,
    p: u32,
    x: Form,
) -> Result<Form, TypeFault>
    ensures { Walks (post_end_of operator.now p x at.old) result at.new }
{
    if let Some(f) = step_needs(p, &x) {
        return Err(broken(f));
    }
    skip(at, 1);
    let Form { expr, kind, .. } = x;
    let first = expr.get().at;
    let node = Node::Step {
        place: expr,
        up: is_increment(mark_of(operator)),
        post: true,
    };
    plain(alloc, first, kind, node)
}

#[tactic(auto, using(crate::proofs::Steps::guarded_stops, crate::proofs::Steps::guarded_goes), unfolding(clc_types::specs::InternalWalk::step_end))]
fn step_end(alloc: Global, at: &u32, operator: &Token, q: u32, x: Form) -> Result<Form, TypeFault>
    ensures { Walks (step_end_of operator.now q x at.now) result at.now }
{
    if let Some(f) = step_needs(q, &x) {
        return Err(broken(f));
    }
    let Form { expr, kind, .. } = x;
    let node = Node::Step {
        place: expr,
        up: is_increment(mark_of(operator)),
        post: false,
    };
    plain(alloc, operator.from, kind, node)
}

fn deref(alloc: Global, operator: &Token, x: Form) -> Result<Form, TypeFault>
    ensures { Gives result (deref_form_of operator.now x) }
{
    let kind = element_kind(x.kind);
    let place = element_place(x.kind, x.place);
    Ok(Form {
        expr: expr_of(alloc, operator.from, kind, Node::Deref(x.expr))?,
        kind,
        place,
    })
}

#[tactic(auto, using(crate::proofs::Steps::guarded_stops, crate::proofs::Steps::guarded_goes), unfolding(clc_types::specs::InternalWalk::prefix_end))]
fn prefix_end(alloc: Global, at: &u32, operator: &Token, q: u32, x: Form) -> Result<Form, TypeFault>
    ensures { Walks (prefix_end_of operator.now q x at.now) result at.now }
{
    let op = mark_of(operator);
    if op == Mark::Star {
        if let Some(f) = pointer_needed(q, x.kind) {
            return Err(broken(f));
        }
        return deref(alloc, operator, x);
    }
    if let Some(f) = scalar_needed(q, x.kind) {
        return Err(broken(f));
    }
    let kind = prefix_kind(op, x.kind);
    plain(alloc, operator.from, kind, Node::Prefix { op, arg: x.expr })
}

#[tactic(auto, using(crate::proofs::Steps::guarded_stops, crate::proofs::Steps::guarded_goes), unfolding(clc_types::specs::InternalWalk::cast_end))]
fn cast_end(
    alloc: Global,
    at: &u32,
    opening: &Token,
    target: &Written,
    q: u32,
    x: Form,
) -> Result<Form, TypeFault>
    ensures { Walks (cast_end_of opening.now target.now q x at.now) result at.now }
{
    if let Some(f) = scalar_needed(q, x.kind) {
        return Err(broken(f));
    }
    plain(
        alloc,
        opening.from,
        Kind::Value(type_of(target)),
        Node::Cast(x.expr),
    )
}

#[tactic(auto, unfolding(clc_types::specs::InternalWalk::chain_start))]
fn chain_start(alloc: Global, x: Form) -> Sofar
    ensures { result ≡ chain_start_of x }
{
    let Form { expr, kind, .. } = x;
    Sofar {
        kind,
        first: expr,
        rest: Items::new(alloc),
    }
}

#[tactic(auto, using(crate::proofs::Steps::guarded_stops, crate::proofs::Steps::guarded_goes), unfolding(clc_types::specs::InternalWalk::operator_end))]
fn operator_end(
    at: &u32,
    mark: Mark,
    p: u32,
    sofar: Sofar,
    q: u32,
    y: Form,
) -> Result<Sofar, TypeFault>
    ensures { Walks (operator_end_of mark p sofar q y at.now) result at.now }
{
    if let Some(f) = operator_needs(mark, p, &sofar, q, &y) {
        return Err(broken(f));
    }
    let kind = operator_kind(mark, sofar.kind, y.kind);
    let Sofar {
        first,
        mut rest,
        ..
    } = sofar;
    let Form { expr, .. } = y;
    rest.push((mark, expr.into_inner())).map_err(memory)?;
    Ok(Sofar { kind, first, rest })
}

#[tactic(auto, unfolding(clc_types::specs::InternalWalk::chain_end))]
fn chain_end(alloc: Global, at: &u32, x: Sofar) -> Result<Form, TypeFault>
    ensures { Walks (chain_end_of x at.now) result at.now }
{
    let Sofar { kind, first, rest } = x;
    let begins = first.get().at;
    plain(alloc, begins, kind, Node::Chain { first, rest })
}

#[tactic(auto, using(crate::proofs::Steps::guarded_stops, crate::proofs::Steps::guarded_goes), unfolding(clc_types::specs::InternalWalk::conditional_end))]
fn conditional_end(
    alloc: Global,
    at: &u32,
    p: u32,
    x: Form,
    q: u32,
    y: Form,
    r: u32,
    z: Form,
) -> Result<Form, TypeFault>
    ensures { Walks (conditional_end_of p x q y r z at.now) result at.now }
{
    if let Some(f) = conditional_needs(p, &x, q, &y, r, &z) {
        return Err(broken(f));
    }
    let kind = Kind::Value(common(scalar_of(y.kind), scalar_of(z.kind)));
    let first = x.expr.get().at;
    plain(alloc, first, kind, Node::Cond(x.expr, y.expr, z.expr))
}

#[tactic(auto, using(crate::proofs::Steps::guarded_stops, crate::proofs::Steps::guarded_goes), unfolding(clc_types::specs::InternalWalk::assign_end))]
fn assign_end(
    alloc: Global,
    at: &u32,
    op: Mark,
    p: u32,
    x: Form,
    q: u32,
    y: Form,
) -> Result<Form, TypeFault>
    ensures { Walks (assign_end_of op p x q y at.now) result at.now }
{
    if let Some(f) = assign_needs(op, p, &x, q, &y) {
        return Err(broken(f));
    }
    let kind = x.kind;
    let first = x.expr.get().at;
    let node = Node::Assign {
        place: x.expr,
        op,
        value: y.expr,
    };
    plain(alloc, first, kind, node)
}

fn push(mut list: Vec<Argument>, place: u32, x: Form) -> Result<Vec<Argument>, TypeFault>
    ensures { Gives (items_in result) (list.items ++ argument place x ∷ []) }
{
    let Form { expr, kind, .. } = x;
    match list.push(Argument { place, kind, expr }) {
        Ok(_) => Ok(list),
        Err(_) => Err(TypeFault::Memory),
    }
}

fn cast_tokens(target: &Written) -> u32
    ensures { result ≡ 2 + type_tokens_of target.now }
{
    2 + type_tokens(target)
}

/// An expression whose first token has the number `at`, which is moved past it.
#[cycle(expressions)]
pub fn expr(alloc: Global, scope: &Scope, at: &mut u32, e: &Expr) -> Result<Form, TypeFault>
    ensures { Walks (walk_expr (knows scope.now) e.now at.old) result at.new }
{
    let p = *at;
    let x = assign(alloc, scope, at, &e.first)?;
    if e.rest.is_empty() {
        return Ok(x);
    }
    let all = commas(alloc, scope, at, p, x, e.rest.as_slice())?;
    chain_end(alloc, at, all)
}

#[cycle(expressions)]
fn commas(
    alloc: Global,
    scope: &Scope,
    at: &mut u32,
    p: u32,
    x: Form,
    rest: &[CommaStep],
) -> Result<Sofar, TypeFault>
    ensures { Walks (walk_operators p (chain_start_of x) at.old (map comma_of (map (walk_comma_step (knows scope.now)) rest.now))) result at.new }
{
    let mut sofar = chain_start(alloc, x);
    for step in rest {
        sofar = comma(alloc, scope, at, p, sofar, step)?;
    }
    Ok(sofar)
}

#[cycle(expressions)]
fn comma(
    alloc: Global,
    scope: &Scope,
    at: &mut u32,
    p: u32,
    sofar: Sofar,
    step: &CommaStep,
) -> Result<Sofar, TypeFault>
    ensures { Walks (walk_operator p sofar at.old (comma_of (walk_comma_step (knows scope.now) step.now))) result at.new }
{
    skip(at, 1);
    let q = *at;
    let y = assign(alloc, scope, at, &step.value)?;
    operator_end(at, Mark::Comma, p, sofar, q, y)
}

#[cycle(expressions)]
fn arguments(
    alloc: Global,
    scope: &Scope,
    at: &mut u32,
    arguments: &Option<Boxed<Expr>>,
) -> Result<Vec<Argument>, TypeFault>
    ensures { Walks (walk_arguments (map_series (knows scope.now) arguments.now) at.old) (items_in result) at.new }
{
    match arguments {
        None => Ok(Vec::new(alloc)),
        Some(written) => arguments_in(alloc, scope, at, written.get()),
    }
}

#[cycle(expressions)]
fn arguments_in(
    alloc: Global,
    scope: &Scope,
    at: &mut u32,
    e: &Expr,
) -> Result<Vec<Argument>, TypeFault>
    ensures { Walks (walk_arguments (Some (series_of (knows scope.now) e.now)) at.old) (items_in result) at.new }
{
    let mut list = argument_of(alloc, scope, at, Vec::new(alloc), &e.first)?;
    for step in e.rest.as_slice() {
        list = argument_after(alloc, scope, at, list, step)?;
    }
    Ok(list)
}

#[cycle(expressions)]
fn argument_after(
    alloc: Global,
    scope: &Scope,
    at: &mut u32,
    list: Vec<Argument>,
    step: &CommaStep,
) -> Result<Vec<Argument>, TypeFault>
    ensures { Walks (walk_argument list.items (bump at.old 1) (walk_comma_step (knows scope.now) step.now)) (items_in result) at.new }
{
    skip(at, 1);
    argument_of(alloc, scope, at, list, &step.value)
}

#[cycle(expressions)]
fn argument_of(
    alloc: Global,
    scope: &Scope,
    at: &mut u32,
    list: Vec<Argument>,
    value: &Assign,
) -> Result<Vec<Argument>, TypeFault>
    ensures { Walks (walk_argument list.items at.old (walk_assign (knows scope.now) value.now)) (items_in result) at.new }
{
    let place = *at;
    let x = assign(alloc, scope, at, value)?;
    push(list, place, x)
}

/// An expression without a comma.
#[cycle(expressions)]
pub fn assign(alloc: Global, scope: &Scope, at: &mut u32, e: &Assign) -> Result<Form, TypeFault>
    ensures { Walks (walk_assign (knows scope.now) e.now at.old) result at.new }
{
    match e {
        Assign::Cond(e) => cond(alloc, scope, at, e),
        Assign::Set(place, operator, value) => {
            let p = *at;
            let x = unary(alloc, scope, at, place)?;
            skip(at, 1);
            let q = *at;
            let y = assign(alloc, scope, at, value.get())?;
            assign_end(alloc, at, mark_of(operator), p, x, q, y)
        }
    }
}

#[cycle(expressions)]
fn cond(alloc: Global, scope: &Scope, at: &mut u32, e: &Cond) -> Result<Form, TypeFault>
    ensures { Walks (walk_cond (knows scope.now) e.now at.old) result at.new }
{
    let p = *at;
    let x = chain(alloc, scope, at, &e.test)?;
    match &e.choice {
        None => Ok(x),
        Some(choice) => {
            let choice = choice.get();
            skip(at, 1);
            let q = *at;
            let y = expr(alloc, scope, at, &choice.yes)?;
            skip(at, 1);
            let r = *at;
            let z = cond(alloc, scope, at, &choice.no)?;
            conditional_end(alloc, at, p, x, q, y, r, z)
        }
    }
}

#[cycle(expressions)]
fn chain(alloc: Global, scope: &Scope, at: &mut u32, e: &Chain) -> Result<Form, TypeFault>
    ensures { Walks (walk_chain (knows scope.now) e.now at.old) result at.new }
{
    match e {
        Chain::One(e) => cast(alloc, scope, at, e),
        Chain::Level(first, rest) => {
            let p = *at;
            let x = chain(alloc, scope, at, first.get())?;
            let all = operators(alloc, scope, at, p, x, rest.as_slice())?;
            chain_end(alloc, at, all)
        }
    }
}

#[cycle(expressions)]
fn operators(
    alloc: Global,
    scope: &Scope,
    at: &mut u32,
    p: u32,
    x: Form,
    rest: &[ChainStep],
) -> Result<Sofar, TypeFault>
    ensures { Walks (walk_operators p (chain_start_of x) at.old (map (walk_chain_step (knows scope.now)) rest.now)) result at.new }
{
    let mut sofar = chain_start(alloc, x);
    for step in rest {
        sofar = operator(alloc, scope, at, p, sofar, step)?;
    }
    Ok(sofar)
}

#[cycle(expressions)]
fn operator(
    alloc: Global,
    scope: &Scope,
    at: &mut u32,
    p: u32,
    sofar: Sofar,
    step: &ChainStep,
) -> Result<Sofar, TypeFault>
    ensures { Walks (walk_operator p sofar at.old (walk_chain_step (knows scope.now) step.now)) result at.new }
{
    skip(at, 1);
    let q = *at;
    let y = chain(alloc, scope, at, &step.operand)?;
    operator_end(at, mark_of(&step.operator), p, sofar, q, y)
}

#[cycle(expressions)]
fn cast(alloc: Global, scope: &Scope, at: &mut u32, e: &Cast) -> Result<Form, TypeFault>
    ensures { Walks (walk_cast (knows scope.now) e.now at.old) result at.new }
{
    match e {
        Cast::Of(e) => unary(alloc, scope, at, e),
        Cast::To {
            opening,
            target,
            operand,
            ..
        } => {
            skip(at, cast_tokens(target));
            let q = *at;
            let x = cast(alloc, scope, at, operand.get())?;
            cast_end(alloc, at, opening, target, q, x)
        }
    }
}

#[cycle(expressions)]
fn unary(alloc: Global, scope: &Scope, at: &mut u32, e: &Unary) -> Result<Form, TypeFault>
    ensures { Walks (walk_unary (knows scope.now) e.now at.old) result at.new }
{
    match e {
        Unary::Post(e) => post(alloc, scope, at, e),
        Unary::Step(operator, operand) => {
            skip(at, 1);
            let q = *at;
            let x = unary(alloc, scope, at, operand.get())?;
            step_end(alloc, at, operator, q, x)
        }
        Unary::Prefix(operator, operand) => {
            skip(at, 1);
            let q = *at;
            let x = cast(alloc, scope, at, operand.get())?;
            prefix_end(alloc, at, operator, q, x)
        }
    }
}

#[cycle(expressions)]
fn post(alloc: Global, scope: &Scope, at: &mut u32, e: &Post) -> Result<Form, TypeFault>
    ensures { Walks (walk_post (knows scope.now) e.now at.old) result at.new }
{
    let p = *at;
    let mut x = primary(alloc, scope, at, &e.primary)?;
    for step in e.rest.as_slice() {
        x = suffix(alloc, scope, at, p, x, step)?;
    }
    Ok(x)
}

#[cycle(expressions)]
fn suffix(
    alloc: Global,
    scope: &Scope,
    at: &mut u32,
    p: u32,
    x: Form,
    step: &PostStep,
) -> Result<Form, TypeFault>
    ensures { Walks (walk_suffix p x at.old (walk_post_step (knows scope.now) step.now)) result at.new }
{
    match step {
        PostStep::Step(operator) => post_end(alloc, at, operator, p, x),
        PostStep::Index(_, index, _) => {
            skip(at, 1);
            let q = *at;
            let y = expr(alloc, scope, at, index.get())?;
            index_end(alloc, at, p, x, q, y)
        }
    }
}

#[cycle(expressions)]
fn primary(alloc: Global, scope: &Scope, at: &mut u32, e: &Primary) -> Result<Form, TypeFault>
    ensures { Walks (walk_primary (knows scope.now) e.now at.old) result at.new }
{
    let p = *at;
    match e {
        Primary::Number(token) => {
            skip(at, 1);
            number_form(alloc, token)
        }
        Primary::Name(token) => match named(scope, name_of(token)) {
            Some(Named::Variable(var, shape)) => {
                skip(at, 1);
                variable_form(alloc, token, var, shape)
            }
            _ => Err(TypeFault::Rule {
                rule: TypeRule::S1,
                token: p,
            }),
        },
        Primary::Paren(opening, inner, _) => {
            skip(at, 1);
            let x = expr(alloc, scope, at, inner.get())?;
            paren_end(alloc, at, opening, x)
        }
        Primary::Call {
            name,
            arguments: written,
            ..
        } => match named(scope, name_of(name)) {
            None | Some(Named::Variable(_, _)) => Err(TypeFault::Rule {
                rule: TypeRule::S1,
                token: p,
            }),
            Some(callee) => {
                skip(at, 2);
                let list = arguments(alloc, scope, at, written)?;
                call_end(alloc, at, &scope.home, p, name, callee, list)
            }
        },
    }
}
