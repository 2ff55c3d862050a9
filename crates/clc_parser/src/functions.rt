//! Functions and programs, rule by rule. `room` is how many depths are left here, and `inner` how many are left one level
//! deeper.

ghost use Rattle.std.specs.Prelude.{◌≡◌, ◌<◌, ◌^◌, ◌-◌};
ghost use Rattle.clc_tree.specs.ProgramRules as spec;
ghost use Rattle.clc_parser.specs.Parts as own;
ghost use Rattle.clc_parser.specs.Reads.{Reads};

use crate::declarations::{optional, pointer_from};
use crate::expressions::scalar;
use crate::statements::block;
use crate::tokens::{Stop, Tokens};
use clc_lexer::Token;
use clc_tree::{Function, Kind, Param, ParamStep, Params, Returns, Tree};
use sqlite_items::{Boxed, Items};
use std::alloc::Global;

#[tactic(auto, unfolding(crate::specs::ProgramRules::parameter))]
fn parameter(alloc: Global, tokens: &mut Tokens<'_>, room: u32) -> Result<Param, Stop>
    ensures { Reads (spec.parameter room tokens.old.left.now) result tokens.new.left.now }
{
    let constant = optional(tokens, room, Kind::Const)?;
    if tokens.sees(Kind::Space) {
        let pointer = Boxed::new(alloc, pointer_from(alloc, tokens, room, constant)?)?;
        let name = tokens.one(room, Kind::Name)?;
        return Ok(Param::Pointer(pointer.into_inner(), name));
    }
    let scalar = Boxed::new(alloc, scalar(tokens, room)?)?;
    let name = tokens.one(room, Kind::Name)?;
    Ok(Param::Value(constant, scalar.into_inner(), name))
}

#[tactic(auto, unfolding(crate::specs::ProgramRules::parameter_after))]
fn parameter_step(alloc: Global, tokens: &mut Tokens<'_>, room: u32) -> Result<ParamStep, Stop>
    ensures { Reads (spec.parameter_after room tokens.old.left.now) result tokens.new.left.now }
{
    let comma = tokens.one(room, Kind::Comma)?;
    let param = parameter(alloc, tokens, room)?;
    Ok(ParamStep { comma, param })
}

fn parameter_steps(
    alloc: Global,
    tokens: &mut Tokens<'_>,
    room: u32,
) -> Result<Items<ParamStep>, Stop>
    ensures { Reads (spec.parameters_after room tokens.old.left.now) result tokens.new.left.now }
{
    let mut rest = Items::new(alloc);
    'turns: while tokens.sees(Kind::Comma) {
        rest.push(parameter_step(alloc, tokens, room)?)?;
    }
    Ok(rest)
}

/// `["void" | params]`. They come in a box, as they are kept while the body is read.
#[tactic(auto, unfolding(crate::specs::ProgramRules::parameters))]
fn parameters(
    alloc: Global,
    tokens: &mut Tokens<'_>,
    room: u32,
) -> Result<Option<Boxed<Params>>, Stop>
    ensures { Reads (spec.parameters room tokens.old.left.now) result tokens.new.left.now }
{
    if tokens.sees(Kind::Void) {
        let word = tokens.one(room, Kind::Void)?;
        return Ok(Some(Boxed::new(alloc, Params::Void(word))?));
    }
    if !tokens.sees(Kind::DeclareStart) {
        return Ok(None);
    }
    let first = Boxed::new(alloc, parameter(alloc, tokens, room)?)?;
    let rest = parameter_steps(alloc, tokens, room)?;
    let list = Params::List(first.into_inner(), rest);
    Ok(Some(Boxed::new(alloc, list)?))
}

/// `"void" | scalar`
#[tactic(auto, unfolding(crate::specs::ProgramRules::result))]
fn returns(tokens: &mut Tokens<'_>, room: u32) -> Result<Returns, Stop>
    ensures { Reads (spec.result room tokens.old.left.now) result tokens.new.left.now }
{
    if tokens.sees(Kind::Void) {
        return Ok(Returns::Void(tokens.one(room, Kind::Void)?));
    }
    Ok(Returns::Value(scalar(tokens, room)?))
}

/// A function, after the type of its result.
fn function_from(
    alloc: Global,
    tokens: &mut Tokens<'_>,
    inner: u32,
    lead: Option<Token>,
    returns: Boxed<Returns>,
) -> Result<Function, Stop>
    ensures { Reads (own.function_from inner lead returns tokens.old.left.now) result tokens.new.left.now }
{
    let name = tokens.take(Kind::Name)?;
    let opening = tokens.take(Kind::LeftParen)?;
    let params = parameters(alloc, tokens, inner)?;
    let closing = tokens.take(Kind::RightParen)?;
    let body = block(alloc, tokens, inner)?;
    Ok(Function {
        lead,
        returns: returns.into_inner(),
        name,
        opening,
        params: params.map(Boxed::into_inner),
        closing,
        body,
    })
}

#[tactic(auto, unfolding(crate::specs::ProgramRules::function_rule))]
fn function_rule(alloc: Global, tokens: &mut Tokens<'_>, inner: u32) -> Result<Function, Stop>
    requires { inner < 2 ^ 32 - 1 }
    ensures { Reads (spec.function_rule inner tokens.old.left.now) result tokens.new.left.now }
{
    let lead = optional(tokens, inner + 1, Kind::Lead)?;
    let returns = Boxed::new(alloc, returns(tokens, inner + 1)?)?;
    function_from(alloc, tokens, inner, lead, returns)
}

fn function(alloc: Global, tokens: &mut Tokens<'_>, room: u32) -> Result<Function, Stop>
    ensures { Reads (spec.function room tokens.old.left.now) result tokens.new.left.now }
{
    if room == 0 {
        return Err(tokens.deny(Kind::FunctionStart));
    }
    function_rule(alloc, tokens, room - 1)
}

fn all_functions(alloc: Global, tokens: &mut Tokens<'_>, room: u32) -> Result<Items<Function>, Stop>
    ensures { Reads (spec.functions room tokens.old.left.now) result tokens.new.left.now }
{
    let mut all = Items::new(alloc);
    'turns: while tokens.sees(Kind::FunctionStart) {
        all.push(function(alloc, tokens, room)?)?;
    }
    Ok(all)
}

/// `{function}`. Ends before the first token that begins no function.
#[tactic(auto, unfolding(crate::specs::ProgramRules::program))]
pub fn program(alloc: Global, tokens: &mut Tokens<'_>, room: u32) -> Result<Tree, Stop>
    ensures { Reads (spec.program room tokens.old.left.now) result tokens.new.left.now }
{
    let functions = all_functions(alloc, tokens, room)?;
    Ok(Tree { functions })
}
