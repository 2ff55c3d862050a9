//! Expressions, rule by rule. `room` is how many depths are left here, and `inner` how many are left one level deeper. A part is
//! kept in a box while more is read that may fail, so that dropping it there is no matter of its form.

ghost use Rattle.std.specs.Prelude.{◌≡◌, ◌<◌, ◌≤◌, IfOk, IfErr};
ghost use Rattle.clc_tree.specs.ExpressionRules as spec;
ghost use Rattle.clc_parser.specs.Reads.{Reads, IsBare};

use crate::tokens::{Stop, Tokens};
use clc_lexer::Token;
use clc_tree::{
    Assign, Cast, Chain, ChainStep, Choice, CommaStep, Cond, Expr, Kind, Post, PostStep, Primary,
    RANKS, Scalar, Unary,
};
use sqlite_items::{Boxed, Items};
use std::alloc::Global;

/// A type of numbers.
#[tactic(auto, unfolding(crate::specs::ExpressionRules::scalar))]
pub fn scalar(tokens: &mut Tokens<'_>, room: u32) -> Result<Scalar, Stop>
    ensures { Reads (spec.scalar room tokens.old.left.now) result tokens.new.left.now }
{
    if tokens.sees(Kind::SignWord) {
        let sign = tokens.one(room, Kind::SignWord)?;
        if tokens.sees(Kind::BaseWord) {
            let base = tokens.one(room, Kind::BaseWord)?;
            return Ok(Scalar::Signed(sign, Some(base)));
        }
        return Ok(Scalar::Signed(sign, None));
    }
    Ok(Scalar::Plain(tokens.one(room, Kind::PlainWord)?))
}

/// `assign {"," assign}`
#[cycle(rules)]
pub fn expr(alloc: Global, tokens: &mut Tokens<'_>, room: u32) -> Result<Expr, Stop>
    ensures { Reads ((spec.levels room).expr tokens.old.left.now) result tokens.new.left.now }
{
    if room == 0 {
        return Err(tokens.deny(Kind::ExprStart));
    }
    expression(alloc, tokens, room - 1)
}

#[cycle(rules)]
fn lower_assign(alloc: Global, tokens: &mut Tokens<'_>, room: u32) -> Result<Assign, Stop>
    ensures { Reads ((spec.levels room).assign tokens.old.left.now) result tokens.new.left.now }
{
    if room == 0 {
        return Err(tokens.deny(Kind::ExprStart));
    }
    assign(alloc, tokens, room - 1)
}

#[cycle(rules)]
fn lower_cond(alloc: Global, tokens: &mut Tokens<'_>, room: u32) -> Result<Cond, Stop>
    ensures { Reads ((spec.levels room).cond tokens.old.left.now) result tokens.new.left.now }
{
    if room == 0 {
        return Err(tokens.deny(Kind::ExprStart));
    }
    conditional(alloc, tokens, room - 1)
}

#[cycle(rules)]
fn lower_cast(alloc: Global, tokens: &mut Tokens<'_>, room: u32) -> Result<Cast, Stop>
    ensures { Reads ((spec.levels room).cast tokens.old.left.now) result tokens.new.left.now }
{
    if room == 0 {
        return Err(tokens.deny(Kind::ExprStart));
    }
    cast(alloc, tokens, room - 1)
}

#[cycle(rules)]
fn lower_unary(alloc: Global, tokens: &mut Tokens<'_>, room: u32) -> Result<Unary, Stop>
    ensures { Reads ((spec.levels room).unary tokens.old.left.now) result tokens.new.left.now }
{
    if room == 0 {
        return Err(tokens.deny(Kind::ExprStart));
    }
    unary(alloc, tokens, room - 1)
}

#[cycle(rules)]
#[tactic(auto, unfolding(crate::specs::ExpressionRules::expression))]
pub fn expression(alloc: Global, tokens: &mut Tokens<'_>, inner: u32) -> Result<Expr, Stop>
    ensures { Reads (spec.expression inner (spec.levels inner) tokens.old.left.now) result tokens.new.left.now }
{
    let first = Boxed::new(alloc, assign(alloc, tokens, inner)?)?;
    let rest = commas(alloc, tokens, inner)?;
    let first = first.into_inner();
    Ok(Expr { first, rest })
}

#[cycle(rules)]
fn commas(alloc: Global, tokens: &mut Tokens<'_>, inner: u32) -> Result<Items<CommaStep>, Stop>
    ensures { Reads (spec.commas inner (spec.levels inner) tokens.old.left.now) result tokens.new.left.now }
{
    let mut rest = Items::new(alloc);
    'turns: while tokens.sees(Kind::Comma) {
        rest.push(comma_step(alloc, tokens, inner)?)?;
    }
    Ok(rest)
}

#[cycle(rules)]
#[tactic(auto, unfolding(crate::specs::ExpressionRules::comma_step))]
fn comma_step(alloc: Global, tokens: &mut Tokens<'_>, inner: u32) -> Result<CommaStep, Stop>
    ensures { Reads (spec.comma_step inner (spec.levels inner) tokens.old.left.now) result tokens.new.left.now }
{
    let comma = tokens.take(Kind::Comma)?;
    let value = assign(alloc, tokens, inner)?;
    Ok(CommaStep { comma, value })
}

/// `cond | unary asgop assign`: an assignment operator may stand only after a unary expression alone.
#[cycle(rules)]
#[tactic(auto, unfolding(crate::specs::ExpressionRules::assign))]
pub fn assign(alloc: Global, tokens: &mut Tokens<'_>, inner: u32) -> Result<Assign, Stop>
    ensures { Reads (spec.assign inner (spec.levels inner) tokens.old.left.now) result tokens.new.left.now }
{
    let value = conditional(alloc, tokens, inner)?;
    if !tokens.sees(Kind::Assignment) {
        return Ok(Assign::Cond(value));
    }
    match lone_unary(value) {
        Bare::Other(value) => Ok(Assign::Cond(value)),
        Bare::Lone(place) => {
            let place = Boxed::new(alloc, place)?;
            let operator = tokens.take(Kind::Assignment)?;
            let value = Boxed::new(alloc, lower_assign(alloc, tokens, inner)?)?;
            Ok(Assign::Set(place.into_inner(), operator, value))
        }
    }
}

/// A conditional, sorted by what it is.
#[derive(Drop)]
enum Bare {
    /// A unary expression alone.
    Lone(Unary),
    Other(Cond),
}

#[tactic(auto, unfolding(crate::specs::ExpressionRules::bare))]
fn lone_unary(value: Cond) -> Bare
    ensures { IsBare value result }
{
    let Cond { test, choice } = value;
    if choice.is_some() {
        return Bare::Other(Cond { test, choice });
    }
    match test {
        Chain::One(Cast::Of(place)) => Bare::Lone(place),
        test => Bare::Other(Cond { test, choice }),
    }
}

#[cycle(rules)]
#[tactic(auto, unfolding(crate::specs::ExpressionRules::conditional))]
fn conditional(alloc: Global, tokens: &mut Tokens<'_>, inner: u32) -> Result<Cond, Stop>
    ensures { Reads (spec.conditional inner (spec.levels inner) tokens.old.left.now) result tokens.new.left.now }
{
    let test = chain(alloc, tokens, inner, RANKS)?;
    if !tokens.sees(Kind::Question) {
        return Ok(Cond { test, choice: None });
    }
    let test = Boxed::new(alloc, test)?;
    let question = tokens.take(Kind::Question)?;
    let choice = Some(Boxed::new(alloc, choice_from(alloc, tokens, inner, question)?)?);
    let test = test.into_inner();
    Ok(Cond { test, choice })
}

/// The two parts of a conditional, after the `?`.
#[cycle(rules)]
#[tactic(auto, unfolding(crate::specs::ExpressionRules::choice_from))]
fn choice_from(
    alloc: Global,
    tokens: &mut Tokens<'_>,
    inner: u32,
    question: Token,
) -> Result<Choice, Stop>
    ensures { Reads (spec.choice_from inner (spec.levels inner) question tokens.old.left.now) result tokens.new.left.now }
{
    let yes = Boxed::new(alloc, expr(alloc, tokens, inner)?)?;
    let colon = tokens.one(inner, Kind::Colon)?;
    let no = lower_cond(alloc, tokens, inner)?;
    let yes = yes.into_inner();
    Ok(Choice {
        question,
        yes,
        colon,
        no,
    })
}

/// An operand with the operators of the `levels` tightest levels.
#[cycle(rules)]
fn chain(alloc: Global, tokens: &mut Tokens<'_>, inner: u32, levels: u8) -> Result<Chain, Stop>
    requires { levels ≤ 10 }
    ensures { Reads (spec.chain inner (spec.levels inner) levels tokens.old.left.now) result tokens.new.left.now }
{
    let mut chain = operand(alloc, tokens, inner)?;
    'levels: for rank in 0..levels {
        let rest = chain_steps(alloc, tokens, inner, rank)?;
        chain = joined(alloc, chain, rest)?;
    }
    Ok(chain)
}

#[cycle(rules)]
#[tactic(auto, unfolding(crate::specs::ExpressionRules::chain))]
fn operand(alloc: Global, tokens: &mut Tokens<'_>, inner: u32) -> Result<Chain, Stop>
    ensures { Reads (spec.chain inner (spec.levels inner) 0 tokens.old.left.now) result tokens.new.left.now }
{
    Ok(Chain::One(cast(alloc, tokens, inner)?))
}

fn joined(alloc: Global, first: Chain, rest: Items<ChainStep>) -> Result<Chain, Stop>
    ensures ok { IfOk result (λ chain. chain ≡ spec.joined first rest) }
    ensures err { IfErr result (λ stop. stop ≡ Stop.Memory) }
{
    if rest.is_empty() {
        return Ok(first);
    }
    Ok(Chain::Level(Boxed::new(alloc, first)?, rest))
}

#[cycle(rules)]
fn chain_steps(
    alloc: Global,
    tokens: &mut Tokens<'_>,
    inner: u32,
    rank: u8,
) -> Result<Items<ChainStep>, Stop>
    requires { rank < 10 }
    ensures { Reads (spec.chain_steps inner (spec.levels inner) rank tokens.old.left.now) result tokens.new.left.now }
{
    let mut rest = Items::new(alloc);
    'turns: while tokens.sees(Kind::Rank(rank)) {
        rest.push(chain_step(alloc, tokens, inner, rank)?)?;
    }
    Ok(rest)
}

#[cycle(rules)]
fn chain_step(
    alloc: Global,
    tokens: &mut Tokens<'_>,
    inner: u32,
    rank: u8,
) -> Result<ChainStep, Stop>
    requires { rank < 10 }
    ensures { Reads (spec.chain_step inner (spec.levels inner) rank tokens.old.left.now) result tokens.new.left.now }
{
    let operator = tokens.take(Kind::Rank(rank))?;
    let operand = chain(alloc, tokens, inner, rank)?;
    Ok(ChainStep { operator, operand })
}

#[cycle(rules)]
#[tactic(auto, unfolding(crate::specs::ExpressionRules::cast))]
fn cast(alloc: Global, tokens: &mut Tokens<'_>, inner: u32) -> Result<Cast, Stop>
    ensures { Reads (spec.cast inner (spec.levels inner) tokens.old.left.now) result tokens.new.left.now }
{
    if tokens.sees(Kind::LeftParen) {
        let opening = tokens.take(Kind::LeftParen)?;
        return cast_from(alloc, tokens, inner, opening);
    }
    Ok(Cast::Of(unary(alloc, tokens, inner)?))
}

/// A cast, or an expression in parentheses with what goes on with it, after the `(`.
#[cycle(rules)]
#[tactic(auto, unfolding(crate::specs::ExpressionRules::cast_from))]
fn cast_from(
    alloc: Global,
    tokens: &mut Tokens<'_>,
    inner: u32,
    opening: Token,
) -> Result<Cast, Stop>
    ensures { Reads (spec.cast_from inner (spec.levels inner) opening tokens.old.left.now) result tokens.new.left.now }
{
    if tokens.sees(Kind::ScalarWord) {
        let target = Boxed::new(alloc, scalar(tokens, inner)?)?;
        let closing = tokens.take(Kind::RightParen)?;
        let operand = Boxed::new(alloc, lower_cast(alloc, tokens, inner)?)?;
        let target = target.into_inner();
        return Ok(Cast::To {
            opening,
            target,
            closing,
            operand,
        });
    }
    let inside = paren_from(alloc, tokens, inner, opening)?;
    let post = post_from(alloc, tokens, inner, inside)?;
    Ok(Cast::Of(Unary::Post(post)))
}

#[cycle(rules)]
#[tactic(auto, unfolding(crate::specs::ExpressionRules::unary))]
fn unary(alloc: Global, tokens: &mut Tokens<'_>, inner: u32) -> Result<Unary, Stop>
    ensures { Reads (spec.unary inner (spec.levels inner) tokens.old.left.now) result tokens.new.left.now }
{
    if tokens.sees(Kind::Step) {
        let operator = tokens.take(Kind::Step)?;
        let place = Boxed::new(alloc, lower_unary(alloc, tokens, inner)?)?;
        return Ok(Unary::Step(operator, place));
    }
    if tokens.sees(Kind::Prefix) {
        let operator = tokens.take(Kind::Prefix)?;
        let value = Boxed::new(alloc, lower_cast(alloc, tokens, inner)?)?;
        return Ok(Unary::Prefix(operator, value));
    }
    Ok(Unary::Post(post(alloc, tokens, inner)?))
}

#[cycle(rules)]
#[tactic(auto, unfolding(crate::specs::ExpressionRules::post))]
fn post(alloc: Global, tokens: &mut Tokens<'_>, inner: u32) -> Result<Post, Stop>
    ensures { Reads (spec.post inner (spec.levels inner) tokens.old.left.now) result tokens.new.left.now }
{
    let first = primary(alloc, tokens, inner)?;
    post_from(alloc, tokens, inner, first)
}

#[cycle(rules)]
#[tactic(auto, unfolding(crate::specs::ExpressionRules::post_from))]
fn post_from(
    alloc: Global,
    tokens: &mut Tokens<'_>,
    inner: u32,
    primary: Primary,
) -> Result<Post, Stop>
    ensures { Reads (spec.post_from inner (spec.levels inner) primary tokens.old.left.now) result tokens.new.left.now }
{
    let rest = post_steps(alloc, tokens, inner)?;
    Ok(Post { primary, rest })
}

#[cycle(rules)]
fn post_steps(alloc: Global, tokens: &mut Tokens<'_>, inner: u32) -> Result<Items<PostStep>, Stop>
    ensures { Reads (spec.post_steps inner (spec.levels inner) tokens.old.left.now) result tokens.new.left.now }
{
    let mut rest = Items::new(alloc);
    'turns: while tokens.sees(Kind::PostStep) {
        rest.push(post_step(alloc, tokens, inner)?)?;
    }
    Ok(rest)
}

#[cycle(rules)]
#[tactic(auto, unfolding(crate::specs::ExpressionRules::post_step))]
fn post_step(alloc: Global, tokens: &mut Tokens<'_>, inner: u32) -> Result<PostStep, Stop>
    ensures { Reads (spec.post_step inner (spec.levels inner) tokens.old.left.now) result tokens.new.left.now }
{
    if tokens.sees(Kind::LeftBracket) {
        let opening = tokens.take(Kind::LeftBracket)?;
        let index = Boxed::new(alloc, expr(alloc, tokens, inner)?)?;
        let closing = tokens.take(Kind::RightBracket)?;
        return Ok(PostStep::Index(opening, index, closing));
    }
    Ok(PostStep::Step(tokens.take(Kind::Step)?))
}

/// An expression in parentheses, after the `(`.
#[cycle(rules)]
#[tactic(auto, unfolding(crate::specs::ExpressionRules::paren_from))]
fn paren_from(
    alloc: Global,
    tokens: &mut Tokens<'_>,
    inner: u32,
    opening: Token,
) -> Result<Primary, Stop>
    ensures { Reads (spec.paren_from inner (spec.levels inner) opening tokens.old.left.now) result tokens.new.left.now }
{
    let inside = Boxed::new(alloc, expr(alloc, tokens, inner)?)?;
    let closing = tokens.take(Kind::RightParen)?;
    Ok(Primary::Paren(opening, inside, closing))
}

#[cycle(rules)]
#[tactic(auto, unfolding(crate::specs::ExpressionRules::arguments))]
fn arguments(
    alloc: Global,
    tokens: &mut Tokens<'_>,
    inner: u32,
) -> Result<Option<Boxed<Expr>>, Stop>
    ensures { Reads (spec.arguments inner (spec.levels inner) tokens.old.left.now) result tokens.new.left.now }
{
    if tokens.sees(Kind::ExprStart) {
        return Ok(Some(Boxed::new(alloc, expr(alloc, tokens, inner)?)?));
    }
    Ok(None)
}

/// A name, or a call.
#[cycle(rules)]
#[tactic(auto, unfolding(crate::specs::ExpressionRules::named))]
fn named(alloc: Global, tokens: &mut Tokens<'_>, inner: u32) -> Result<Primary, Stop>
    ensures { Reads (spec.named inner (spec.levels inner) tokens.old.left.now) result tokens.new.left.now }
{
    let name = tokens.take(Kind::Name)?;
    if tokens.sees(Kind::LeftParen) {
        let opening = tokens.take(Kind::LeftParen)?;
        let arguments = arguments(alloc, tokens, inner)?;
        let closing = tokens.take(Kind::RightParen)?;
        return Ok(Primary::Call {
            name,
            opening,
            arguments,
            closing,
        });
    }
    Ok(Primary::Name(name))
}

#[cycle(rules)]
#[tactic(auto, unfolding(crate::specs::ExpressionRules::primary))]
fn primary(alloc: Global, tokens: &mut Tokens<'_>, inner: u32) -> Result<Primary, Stop>
    ensures { Reads (spec.primary inner (spec.levels inner) tokens.old.left.now) result tokens.new.left.now }
{
    if tokens.sees(Kind::Name) {
        return named(alloc, tokens, inner);
    }
    if tokens.sees(Kind::Number) {
        return Ok(Primary::Number(tokens.take(Kind::Number)?));
    }
    let opening = tokens.take(Kind::LeftParen)?;
    paren_from(alloc, tokens, inner, opening)
}
