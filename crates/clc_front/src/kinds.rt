//! The kinds of a function's parameters.

ghost use Rattle.std.specs.Prelude.{◌≡◌, IfOk};
ghost use Rattle.clc_front.specs.Kinds.{kind_of as kind_of_var, kinds_of as kinds_of_function, kinds_at as kinds_at_number};

use clc_types::{TFunction, Typed, Var};
use q_lane::Kind;
use std::alloc::{AllocError, Global};

fn kind_of(var: Var) -> Kind
    ensures { result ≡ kind_of_var var }
{
    match var {
        Var::Value(scalar) => Kind::Value(scalar),
        Var::Pointer { .. } | Var::Array { .. } => Kind::Pointer,
    }
}

/// The kinds of a function's parameters in their order.
fn kinds_of(alloc: Global, function: &TFunction) -> Result<Vec<Kind>, AllocError>
    ensures { IfOk result (λ kinds. kinds.items ≡ kinds_of_function function.now) }
{
    let vars = function.vars.as_slice();
    let params = vars.len().min(function.params as usize);
    let mut kinds = Vec::new(alloc);
    for var in &vars[..params] {
        kinds.push(kind_of(*var))?;
    }
    Ok(kinds)
}

/// The kinds of the parameters of the function of this number, where there is one.
#[tactic(auto, using(crate::proofs::KindsAt::kinds_there, crate::proofs::KindsAt::kinds_past))]
pub fn kinds_at(alloc: Global, typed: &Typed, number: u32) -> Result<Vec<Kind>, AllocError>
    ensures { IfOk result (λ kinds. kinds.items ≡ kinds_at_number typed.now.functions number) }
{
    let functions = typed.functions.as_slice();
    let number = number as usize;
    if number < functions.len() {
        kinds_of(alloc, &functions[number])
    } else {
        Ok(Vec::new(alloc))
    }
}
