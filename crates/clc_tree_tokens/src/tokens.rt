//! The tokens of expressions in order.

ghost use Rattle.std.specs.Prelude.{◌≡◌, ◌++◌, [], ◌∷◌, IfOk, OnOk, map};
ghost use Rattle.clc_tree.specs.Flat.{optional_tokens, scalar_tokens, assign_tokens, cast_tokens, chain_tokens, post_step_tokens, primary_tokens, unary_tokens, chain_step_tokens, choice_tokens, comma_step_tokens, cond_tokens, expr_tokens, post_tokens};

use clc_lexer::Token;
use clc_tree::{
    Assign, Cast, Chain, ChainStep, Choice, CommaStep, Cond, Expr, Post, PostStep, Primary, Scalar,
    Unary,
};
use std::alloc::AllocError;

/// What is answered where no memory is left.
pub type Memory = AllocError;

pub(crate) fn put(tokens: &mut Vec<Token>, token: &Token) -> Result<(), Memory>
    ensures { OnOk result (tokens.new.items ≡ tokens.old.items ++ token.now ∷ []) }
{
    tokens.push(token.clone()?)?;
    Ok(())
}

pub(crate) fn put_optional(tokens: &mut Vec<Token>, token: &Option<Token>) -> Result<(), Memory>
    ensures { OnOk result (tokens.new.items ≡ tokens.old.items ++ optional_tokens token.now) }
{
    match token {
        Some(token) => put(tokens, token),
        None => Ok(()),
    }
}

pub(crate) fn put_scalar(tokens: &mut Vec<Token>, scalar: &Scalar) -> Result<(), Memory>
    ensures { OnOk result (tokens.new.items ≡ tokens.old.items ++ scalar_tokens scalar.now) }
{
    match scalar {
        Scalar::Plain(word) => put(tokens, word),
        Scalar::Signed(word, base) => {
            put(tokens, word)?;
            put_optional(tokens, base)
        }
    }
}

#[cycle(put_expressions)]
pub(crate) fn put_expr(tokens: &mut Vec<Token>, expr: &Expr) -> Result<(), Memory>
    ensures { OnOk result (tokens.new.items ≡ tokens.old.items ++ expr_tokens expr.now) }
{
    put_assign(tokens, &expr.first)?;
    for step in expr.rest.as_slice() {
        put(tokens, &step.comma)?;
        put_assign(tokens, &step.value)?;
    }
    Ok(())
}

#[cycle(put_expressions)]
pub(crate) fn put_assign(tokens: &mut Vec<Token>, assign: &Assign) -> Result<(), Memory>
    ensures { OnOk result (tokens.new.items ≡ tokens.old.items ++ assign_tokens assign.now) }
{
    match assign {
        Assign::Cond(cond) => put_cond(tokens, cond),
        Assign::Set(place, operator, value) => {
            put_unary(tokens, place)?;
            put(tokens, operator)?;
            put_assign(tokens, value.get())
        }
    }
}

#[cycle(put_expressions)]
fn put_cond(tokens: &mut Vec<Token>, cond: &Cond) -> Result<(), Memory>
    ensures { OnOk result (tokens.new.items ≡ tokens.old.items ++ cond_tokens cond.now) }
{
    put_chain(tokens, &cond.test)?;
    match &cond.choice {
        None => Ok(()),
        Some(choice) => {
            let choice = choice.get();
            put(tokens, &choice.question)?;
            put_expr(tokens, &choice.yes)?;
            put(tokens, &choice.colon)?;
            put_cond(tokens, &choice.no)
        }
    }
}

#[cycle(put_expressions)]
fn put_chain(tokens: &mut Vec<Token>, chain: &Chain) -> Result<(), Memory>
    ensures { OnOk result (tokens.new.items ≡ tokens.old.items ++ chain_tokens chain.now) }
{
    match chain {
        Chain::One(operand) => put_cast(tokens, operand),
        Chain::Level(first, rest) => {
            put_chain(tokens, first.get())?;
            for step in rest.as_slice() {
                put(tokens, &step.operator)?;
                put_chain(tokens, &step.operand)?;
            }
            Ok(())
        }
    }
}

#[cycle(put_expressions)]
fn put_cast(tokens: &mut Vec<Token>, cast: &Cast) -> Result<(), Memory>
    ensures { OnOk result (tokens.new.items ≡ tokens.old.items ++ cast_tokens cast.now) }
{
    match cast {
        Cast::To {
            opening,
            target,
            closing,
            operand,
        } => {
            put(tokens, opening)?;
            put_scalar(tokens, target)?;
            put(tokens, closing)?;
            put_cast(tokens, operand.get())
        }
        Cast::Of(unary) => put_unary(tokens, unary),
    }
}

#[cycle(put_expressions)]
fn put_unary(tokens: &mut Vec<Token>, unary: &Unary) -> Result<(), Memory>
    ensures { OnOk result (tokens.new.items ≡ tokens.old.items ++ unary_tokens unary.now) }
{
    match unary {
        Unary::Post(post) => put_post(tokens, post),
        Unary::Step(operator, operand) => {
            put(tokens, operator)?;
            put_unary(tokens, operand.get())
        }
        Unary::Prefix(operator, operand) => {
            put(tokens, operator)?;
            put_cast(tokens, operand.get())
        }
    }
}

#[cycle(put_expressions)]
fn put_post(tokens: &mut Vec<Token>, post: &Post) -> Result<(), Memory>
    ensures { OnOk result (tokens.new.items ≡ tokens.old.items ++ post_tokens post.now) }
{
    put_primary(tokens, &post.primary)?;
    for step in post.rest.as_slice() {
        put_post_step(tokens, step)?;
    }
    Ok(())
}

#[cycle(put_expressions)]
fn put_post_step(tokens: &mut Vec<Token>, step: &PostStep) -> Result<(), Memory>
    ensures { OnOk result (tokens.new.items ≡ tokens.old.items ++ post_step_tokens step.now) }
{
    match step {
        PostStep::Index(opening, index, closing) => {
            put(tokens, opening)?;
            put_expr(tokens, index.get())?;
            put(tokens, closing)
        }
        PostStep::Step(operator) => put(tokens, operator),
    }
}

#[cycle(put_expressions)]
fn put_primary(tokens: &mut Vec<Token>, primary: &Primary) -> Result<(), Memory>
    ensures { OnOk result (tokens.new.items ≡ tokens.old.items ++ primary_tokens primary.now) }
{
    match primary {
        Primary::Name(token) => put(tokens, token),
        Primary::Number(token) => put(tokens, token),
        Primary::Paren(opening, inner, closing) => {
            put(tokens, opening)?;
            put_expr(tokens, inner.get())?;
            put(tokens, closing)
        }
        Primary::Call {
            name,
            opening,
            arguments,
            closing,
        } => {
            put(tokens, name)?;
            put(tokens, opening)?;
            if let Some(arguments) = arguments {
                put_expr(tokens, arguments.get())?;
            }
            put(tokens, closing)
        }
    }
}
