//! Which functions and programs are proper.

ghost use Rattle.std.specs.Prelude.{◌≡◌, ◌↔◌, IsTrue, map};
ghost use Rattle.clc_proper.specs.Proper.{all, param_proper, param_step_proper, params_proper, returns_proper, function_proper, tree_proper};
ghost use Rattle.clc_tree.specs.SourceText.{IsProper};

use crate::checks::{is_optional, is_scalar};
use crate::statement_checks::{is_block, is_pointer};
use clc_tree::{Function, Kind, Param, ParamStep, Params, Returns, Tree};

fn is_param(param: &Param) -> bool
    ensures { result ≡ param_proper param.now }
{
    match param {
        Param::Value(constant, scalar, name) => {
            is_optional(Kind::Const, constant) && is_scalar(scalar) && Kind::Name.takes(name)
        }
        Param::Pointer(pointer, name) => is_pointer(pointer) && Kind::Name.takes(name),
    }
}

fn are_params(steps: &[ParamStep]) -> bool
    ensures { result ≡ all (map param_step_proper steps.now) }
{
    for step in steps {
        if !(Kind::Comma.takes(&step.comma) && is_param(&step.param)) {
            return false;
        }
    }
    true
}

fn is_params(params: &Option<Params>) -> bool
    ensures { result ≡ params_proper params.now }
{
    match params {
        None => true,
        Some(Params::Void(word)) => Kind::Void.takes(word),
        Some(Params::List(first, rest)) => is_param(first) && are_params(rest.as_slice()),
    }
}

fn is_returns(returns: &Returns) -> bool
    ensures { result ≡ returns_proper returns.now }
{
    match returns {
        Returns::Void(word) => Kind::Void.takes(word),
        Returns::Value(scalar) => is_scalar(scalar),
    }
}

fn is_function(function: &Function) -> bool
    ensures { result ≡ function_proper function.now }
{
    is_optional(Kind::Lead, &function.lead)
        && is_returns(&function.returns)
        && Kind::Name.takes(&function.name)
        && Kind::LeftParen.takes(&function.opening)
        && is_params(&function.params)
        && Kind::RightParen.takes(&function.closing)
        && is_block(&function.body)
}

fn is_tree(tree: &Tree) -> bool
    ensures { result ≡ tree_proper tree.now }
{
    for function in tree.functions.as_slice() {
        if !is_function(function) {
            return false;
        }
    }
    true
}

/// Whether each token is one that its place in the grammar takes, and levels and each `else` stand as the grammar asks.
/// Takes no memory.
pub fn proper(tree: &Tree) -> bool
    ensures { IsTrue result ↔ IsProper tree.now }
{
    is_tree(tree)
}
