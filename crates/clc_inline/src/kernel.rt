//! A kernel's body, within its limits.

ghost use Rattle.std.specs.Prelude.{◌≡◌, IfOk, Some, slice_get};
ghost use Rattle.clc_inline.specs.Inlining.{just, inlined, kernel_made, params_in};
ghost use Rattle.clc_inline.specs.Inlines.{Inlines};

use crate::body::TStmt;
use crate::named::is_sound;
use crate::scopes::statement;
use crate::setting::Setting;
use crate::whole::Body;
use clc_counts::{LimitFault, kernel_tally};
use clc_types::{TFunction, Typed, Var};
use sqlite_items::at;
use std::alloc::{AllocError, Global};

/// More than any tree is deep, with its calls.
const DEPTH: u32 = 0xffff_ffff;

/// The kernel's body, with so many nodes.
fn replaced(
    alloc: Global,
    functions: &[TFunction],
    kernel: u32,
    nodes: u32,
) -> Result<Body, AllocError>
    ensures made { IfOk result (λ b. just b.body b.vars.items ≡ inlined functions.now kernel) }
    ensures params { IfOk result (λ b. b.params ≡ params_in (slice_get functions.now kernel)) }
    ensures nodes { IfOk result (λ b. b.nodes ≡ nodes) }
{
    match at(functions, kernel as usize) {
        None => Ok(Body {
            vars: Vec::new(alloc),
            params: 0,
            nodes,
            body: TStmt::Empty,
        }),
        Some(function) => body_of(alloc, functions, kernel, function, nodes),
    }
}

fn body_of(
    alloc: Global,
    functions: &[TFunction],
    kernel: u32,
    function: &TFunction,
    nodes: u32,
) -> Result<Body, AllocError>
    ensures made { IfOk result (λ b. just b.body b.vars.items ≡ kernel_made functions.now kernel (Some function.now)) }
    ensures params { IfOk result (λ b. b.params ≡ function.now.params) }
    ensures nodes { IfOk result (λ b. b.nodes ≡ nodes) }
{
    let setting = Setting {
        functions,
        callable: kernel,
        base: 0,
    };
    let mut vars = Vec::from_slice(alloc, function.vars.as_slice())?;
    let body = statement(alloc, &setting, DEPTH, &mut vars, &function.body)?;
    body_from(vars, function.params, nodes, body)
}

/// The body of these parts, where it names only what is there.
fn body_from(vars: Vec<Var>, params: u32, nodes: u32, body: TStmt) -> Result<Body, AllocError>
    ensures body { IfOk result (λ b. b.body ≡ body) }
    ensures vars { IfOk result (λ b. b.vars.items ≡ vars.items) }
    ensures params { IfOk result (λ b. b.params ≡ params) }
    ensures nodes { IfOk result (λ b. b.nodes ≡ nodes) }
{
    if is_sound(&vars, params, &body) {
        Ok(Body {
            vars,
            params,
            nodes,
            body,
        })
    } else {
        // Dropped by a call, so that no proof here looks at each form of a tree.
        drop(body);
        Err(AllocError)
    }
}

/// The kernel of this number with a scope in place of each call.
///
/// # Errors
///
/// `N1` where it has more than 16,384 nodes, else `N2` where its private arrays have more than 1,024 elements; or where
/// memory is wanting. A body that named what isn't there would be answered with `Memory` too; no typed kernel should have one, which isn't proved yet.
pub fn inline(alloc: Global, typed: &Typed, kernel: u32) -> Result<Body, LimitFault>
    ensures { Inlines typed.now.functions kernel result }
{
    let functions = typed.functions.as_slice();
    let tally = kernel_tally(alloc, functions, kernel)?;
    match replaced(alloc, functions, kernel, tally.nodes) {
        Ok(body) => Ok(body),
        Err(_) => Err(LimitFault::Memory),
    }
}
