//! The tokens of functions and programs in order.

ghost use Rattle.std.specs.Prelude.{◌≡◌, ◌++◌, IfOk, OnOk};
ghost use Rattle.clc_tree.specs.Flat.{param_tokens, params_tokens, returns_tokens, function_tokens, flat_of};

use crate::statement_tokens::{put_block, put_pointer};
use crate::tokens::{Memory, put, put_optional, put_scalar};
use clc_lexer::Token;
use clc_tree::{Function, Param, Params, Returns, Tree};
use std::alloc::Global;

fn put_param(tokens: &mut Vec<Token>, param: &Param) -> Result<(), Memory>
    ensures { OnOk result (tokens.new.items ≡ tokens.old.items ++ param_tokens param.now) }
{
    match param {
        Param::Value(constant, scalar, name) => {
            put_optional(tokens, constant)?;
            put_scalar(tokens, scalar)?;
            put(tokens, name)
        }
        Param::Pointer(pointer, name) => {
            put_pointer(tokens, pointer)?;
            put(tokens, name)
        }
    }
}

fn put_params(tokens: &mut Vec<Token>, params: &Option<Params>) -> Result<(), Memory>
    ensures { OnOk result (tokens.new.items ≡ tokens.old.items ++ params_tokens params.now) }
{
    match params {
        None => Ok(()),
        Some(Params::Void(word)) => put(tokens, word),
        Some(Params::List(first, rest)) => {
            put_param(tokens, first)?;
            for step in rest.as_slice() {
                put(tokens, &step.comma)?;
                put_param(tokens, &step.param)?;
            }
            Ok(())
        }
    }
}

fn put_returns(tokens: &mut Vec<Token>, returns: &Returns) -> Result<(), Memory>
    ensures { OnOk result (tokens.new.items ≡ tokens.old.items ++ returns_tokens returns.now) }
{
    match returns {
        Returns::Void(word) => put(tokens, word),
        Returns::Value(scalar) => put_scalar(tokens, scalar),
    }
}

fn put_function(tokens: &mut Vec<Token>, function: &Function) -> Result<(), Memory>
    ensures { OnOk result (tokens.new.items ≡ tokens.old.items ++ function_tokens function.now) }
{
    put_optional(tokens, &function.lead)?;
    put_returns(tokens, &function.returns)?;
    put(tokens, &function.name)?;
    put(tokens, &function.opening)?;
    put_params(tokens, &function.params)?;
    put(tokens, &function.closing)?;
    put_block(tokens, &function.body)
}

/// The tokens of a tree in order, whether it is proper or not. Fails only where no memory is left.
pub fn flat(alloc: Global, tree: &Tree) -> Result<Vec<Token>, Memory>
    ensures { IfOk result (λ tokens. tokens.items ≡ flat_of tree.now) }
{
    let mut tokens = Vec::new(alloc);
    for function in tree.functions.as_slice() {
        put_function(&mut tokens, function)?;
    }
    Ok(tokens)
}
