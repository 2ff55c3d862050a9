//! The pass.

ghost use Rattle.std.specs.Prelude.{◌≡◌, ◌+◌, ◌++◌, IfOk, map, length};
ghost use Rattle.ir_build.specs.Build.{params_code, body_code, array_length as array_length_of, kind_of as kind_of_var, kinds_of};

use crate::code::statement;
use crate::pieces::{Memory, after, define};
use crate::scopes::Back;
use clc_inline::Body;
use clc_types::Var;
use item_ir::{Def, Ir, Stmt};
use q_lane::Kind;
use std::alloc::{AllocError, Global};

fn array_length(var: Var) -> u32
    ensures { result ≡ array_length_of var }
{
    match var {
        Var::Value(_) | Var::Pointer { .. } => 0,
        Var::Array { len, .. } => len,
    }
}

/// Each variable has an array of its number, without elements where it is none.
fn array_lengths(alloc: Global, vars: &[Var]) -> Result<Vec<u32>, Memory>
    ensures { IfOk result (λ lengths. lengths.items ≡ map array_length_of vars.now) }
{
    let mut lengths = Vec::new(alloc);
    for var in vars {
        lengths.push(array_length(*var))?;
    }
    Ok(lengths)
}

/// The kind of a parameter. No parameter is an array.
fn kind_of(var: Var) -> Kind
    ensures { result ≡ kind_of_var var }
{
    match var {
        Var::Value(scalar) => Kind::Value(scalar),
        Var::Pointer { .. } | Var::Array { .. } => Kind::Pointer,
    }
}

fn kinds(alloc: Global, params: &[Var]) -> Result<Vec<Kind>, Memory>
    ensures { IfOk result (λ kinds. kinds.items ≡ map kind_of_var params.now) }
{
    let mut kinds = Vec::new(alloc);
    for var in params {
        kinds.push(kind_of(*var))?;
    }
    Ok(kinds)
}

/// The kinds of the parameters, which are the first variables.
fn first_kinds(alloc: Global, vars: &[Var], params: u32) -> Result<Vec<Kind>, Memory>
    ensures { IfOk result (λ kinds. kinds.items ≡ kinds_of vars.now params) }
{
    let params = (params as usize).min(vars.len());
    kinds(alloc, &vars[..params])
}

/// The parameters are stored in their variables. What is given back is the first number that is free then.
fn store_params(out: &mut Vec<Stmt>, params: u32, k: u32) -> Result<u32, Memory>
    ensures code { IfOk result (λ next. out.new.items ≡ out.old.items ++ params_code params 0 k) }
    ensures next { IfOk result (λ next. next ≡ k + params) }
{
    let mut next = k;
    for param in 0..params {
        let value = define(out, Def::Param(param), next)?;
        out.push(Stmt::Set(param, value.val))?;
        next = value.next;
    }
    Ok(next)
}

fn count(vars: &[Var]) -> Result<u32, Memory>
    ensures { IfOk result (λ n. n ≡ length vars.now) }
{
    match u32::try_from(vars.len()) {
        Ok(count) => Ok(count),
        Err(_) => Err(AllocError),
    }
}

/// The structured form of one work-item of a kernel with this body.
///
/// # Errors
///
/// Where memory or numbers are wanting.
pub fn build(alloc: Global, body: &Body) -> Result<Ir, Memory>
    ensures code { IfOk result (λ ir. ir.body.items ≡ (body_code body.now.vars.items body.now.params body.now.body).stmts) }
    ensures vals { IfOk result (λ ir. ir.vals ≡ (body_code body.now.vars.items body.now.params body.now.body).next) }
    ensures vars { IfOk result (λ ir. ir.vars ≡ (body_code body.now.vars.items body.now.params body.now.body).next) }
    ensures arrays { IfOk result (λ ir. ir.arrays.items ≡ map array_length_of body.now.vars.items) }
    ensures kinds { IfOk result (λ ir. ir.kinds.items ≡ kinds_of body.now.vars.items body.now.params) }
{
    let vars = body.vars.as_slice();
    let result = count(vars)?;
    let back = Back {
        result: None,
        var: result,
    };
    let mut stmts = Vec::new(alloc);
    let first = store_params(&mut stmts, body.params, after(result)?)?;
    let numbers = statement(alloc, vars, back, &mut stmts, &body.body, first)?;
    Ok(Ir {
        vals: numbers,
        vars: numbers,
        arrays: array_lengths(alloc, vars)?,
        kinds: first_kinds(alloc, vars, body.params)?,
        body: stmts,
    })
}
