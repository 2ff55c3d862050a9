//! Which trees of expressions are proper.

ghost use Rattle.std.specs.Prelude.{◌≡◌, ◌≤◌};
ghost use Rattle.clc_tree.specs.Kinds.{rank};
ghost use Rattle.clc_proper.specs.Proper.{optional_proper, scalar_proper, fits, assign_proper, cast_proper, chain_top, post_step_proper, primary_proper, unary_proper, choice_proper, cond_proper, expr_proper, post_proper};

use clc_lexer::Token;
use clc_tree::{
    Assign, Cast, Chain, Choice, Cond, Expr, Kind, Post, PostStep, Primary, RANKS, Scalar, Unary,
    operator_rank,
};

/// No token, or one of the kind.
pub(crate) fn is_optional(kind: Kind, token: &Option<Token>) -> bool
    ensures { result ≡ optional_proper kind token.now }
{
    match token {
        None => true,
        Some(token) => kind.takes(token),
    }
}

pub(crate) fn is_scalar(scalar: &Scalar) -> bool
    ensures { result ≡ scalar_proper scalar.now }
{
    match scalar {
        Scalar::Plain(word) => Kind::PlainWord.takes(word),
        Scalar::Signed(word, base) => Kind::SignWord.takes(word)
            && is_optional(Kind::BaseWord, base),
    }
}

/// Whether an operand that needs the `top` tightest levels stands beside operators of this rank.
fn is_operand(top: Option<u8>, rank: u8) -> bool
    ensures { result ≡ fits top rank }
{
    match top {
        None => false,
        Some(top) => top <= rank,
    }
}

#[cycle(check_expressions)]
pub(crate) fn is_expr(expr: &Expr) -> bool
    ensures { result ≡ expr_proper expr.now }
{
    if !is_assign(&expr.first) {
        return false;
    }
    for step in expr.rest.as_slice() {
        if !(Kind::Comma.takes(&step.comma) && is_assign(&step.value)) {
            return false;
        }
    }
    true
}

#[cycle(check_expressions)]
pub(crate) fn is_assign(assign: &Assign) -> bool
    ensures { result ≡ assign_proper assign.now }
{
    match assign {
        Assign::Cond(cond) => is_cond(cond),
        Assign::Set(place, operator, value) => {
            is_unary(place) && Kind::Assignment.takes(operator) && is_assign(value.get())
        }
    }
}

#[cycle(check_expressions)]
fn is_cond(cond: &Cond) -> bool
    ensures { result ≡ cond_proper cond.now }
{
    if !is_operand(chain_top(&cond.test), RANKS) {
        return false;
    }
    match &cond.choice {
        None => true,
        Some(choice) => is_choice(choice.get()),
    }
}

#[cycle(check_expressions)]
fn is_choice(choice: &Choice) -> bool
    ensures { result ≡ choice_proper choice.now }
{
    Kind::Question.takes(&choice.question)
        && is_expr(&choice.yes)
        && Kind::Colon.takes(&choice.colon)
        && is_cond(&choice.no)
}

/// How many of the tightest levels the operators of the chain need: 0 for an operand alone. None where it isn't proper.
#[cycle(check_expressions)]
fn chain_top(chain: &Chain) -> Option<u8>
    ensures { result ≡ chain_top chain.now }
{
    match chain {
        Chain::One(operand) => { if is_cast(operand) { Some(0) } else { None } }
        Chain::Level(first, rest) => {
            let rest = rest.as_slice();
            let rank = match rest {
                [] => return None,
                [step, ..] => operator_rank(&step.operator),
            };
            if !is_operand(chain_top(first.get()), rank) {
                return None;
            }
            for step in rest {
                if !(operator_rank(&step.operator) == rank
                    && is_operand(chain_top(&step.operand), rank))
                {
                    return None;
                }
            }
            Some(rank + 1)
        }
    }
}

#[cycle(check_expressions)]
fn is_cast(cast: &Cast) -> bool
    ensures { result ≡ cast_proper cast.now }
{
    match cast {
        Cast::To {
            opening,
            target,
            closing,
            operand,
        } => {
            Kind::LeftParen.takes(opening)
                && is_scalar(target)
                && Kind::RightParen.takes(closing)
                && is_cast(operand.get())
        }
        Cast::Of(unary) => is_unary(unary),
    }
}

#[cycle(check_expressions)]
fn is_unary(unary: &Unary) -> bool
    ensures { result ≡ unary_proper unary.now }
{
    match unary {
        Unary::Post(post) => is_post(post),
        Unary::Step(operator, operand) => Kind::Step.takes(operator) && is_unary(operand.get()),
        Unary::Prefix(operator, operand) => Kind::Prefix.takes(operator) && is_cast(operand.get()),
    }
}

#[cycle(check_expressions)]
fn is_post(post: &Post) -> bool
    ensures { result ≡ post_proper post.now }
{
    if !is_primary(&post.primary) {
        return false;
    }
    for step in post.rest.as_slice() {
        if !is_post_step(step) {
            return false;
        }
    }
    true
}

#[cycle(check_expressions)]
fn is_post_step(step: &PostStep) -> bool
    ensures { result ≡ post_step_proper step.now }
{
    match step {
        PostStep::Index(opening, index, closing) => {
            Kind::LeftBracket.takes(opening)
                && is_expr(index.get())
                && Kind::RightBracket.takes(closing)
        }
        PostStep::Step(operator) => Kind::Step.takes(operator),
    }
}

#[cycle(check_expressions)]
fn is_primary(primary: &Primary) -> bool
    ensures { result ≡ primary_proper primary.now }
{
    match primary {
        Primary::Name(token) => Kind::Name.takes(token),
        Primary::Number(token) => Kind::Number.takes(token),
        Primary::Paren(opening, inner, closing) => {
            Kind::LeftParen.takes(opening)
                && is_expr(inner.get())
                && Kind::RightParen.takes(closing)
        }
        Primary::Call {
            name,
            opening,
            arguments,
            closing,
        } => {
            if !(Kind::Name.takes(name) && Kind::LeftParen.takes(opening)) {
                return false;
            }
            match arguments {
                None => Kind::RightParen.takes(closing),
                Some(arguments) => is_expr(arguments.get()) && Kind::RightParen.takes(closing),
            }
        }
    }
}
