//! The pass.

ghost use Rattle.std.specs.Prelude.{◌≡◌, ◌≤◌, ◌++◌, ◌∷◌, [], true, IfOk};
ghost use Rattle.lane_mapper.specs.Definitions.{is_definition, are_definitions};
ghost use Rattle.mask_flow.specs.Masked.{masked_item};
ghost use Rattle.mask_flow.specs.Heights.{height_all, vals_after, vars_after};

use crate::heights::height_in;
use crate::place::Place;
use crate::put::{assign, define};
use crate::writing::put_body;
use item_ir::{Def, Ir, Val};
use lane_ir::{LaneIr, LaneStmt};
use lane_mapper::LaneProlog;
use std::alloc::{AllocError, Global};

pub type Memory = AllocError;

fn number(count: u64) -> Result<u32, Memory>
    ensures { IfOk result (λ n. n ≡ count) }
{
    if count <= u64::from(u32::MAX) {
        Ok(count as u32)
    } else {
        Err(AllocError)
    }
}

/// How many values there are where statements stand in each other so deep.
fn vals_of(first: u32, height: u32) -> Result<u32, Memory>
    ensures { IfOk result (λ n. n ≡ vals_after first height) }
{
    number(u64::from(first) + (5 * u64::from(height) + 6))
}

/// How many variables there are then.
fn vars_of(vars: u32, height: u32) -> Result<u32, Memory>
    ensures { IfOk result (λ n. n ≡ vars_after vars height) }
{
    number(u64::from(vars) + (2 * u64::from(height) + 1))
}

fn put_definition(alloc: Global, out: &mut Vec<LaneStmt>, stmt: &LaneStmt) -> Result<(), AllocError>
    requires { is_definition stmt.now ≡ true }
    ensures { IfOk result (λ _. out.new.items ≡ out.old.items ++ stmt.now ∷ []) }
{
    match stmt {
        LaneStmt::Let(value, def) => define(out, *value, def.copied(alloc)?),
        _ => Ok(()),
    }
}

fn put_definitions(
    alloc: Global,
    out: &mut Vec<LaneStmt>,
    body: &[LaneStmt],
) -> Result<(), AllocError>
    requires { are_definitions body.now ≡ true }
    ensures { IfOk result (λ _. out.new.items ≡ out.old.items ++ body.now) }
{
    for stmt in body {
        put_definition(alloc, out, stmt)?;
    }
    Ok(())
}

/// The whole item, in the lanes that are live.
fn put_item(
    alloc: Global,
    out: &mut Vec<LaneStmt>,
    ir: &Ir,
    prolog: &LaneProlog,
) -> Result<(), AllocError>
    ensures { IfOk result (λ _. out.new.items ≡ out.old.items ++ masked_item prolog.now.ids.items prolog.now.live prolog.now.vals ir.now.vars ir.now.body.items) }
{
    let at = Place::outermost(prolog.vals, ir.vars)?;
    let one = Val(prolog.vals);
    define(out, one, Def::Const(1))?;
    assign(out, ir.vars, prolog.live, one)?;
    put_body(alloc, out, &prolog.ids, at, &ir.body)
}

/// A batch of items: the definitions of a prolog whose values come after the item's, and the item's statements under masks, by which each live lane is to do what its item does.
/// Which statements these are is what the clauses say; that they do so isn't proved yet.
///
/// # Errors
///
/// Where memory or numbers of values or variables are wanting.
pub fn mask(alloc: Global, ir: &Ir, prolog: &LaneProlog) -> Result<LaneIr, Memory>
    requires { ir.now.vals ≤ prolog.now.vals }
    ensures body { IfOk result (λ r. r.body.items ≡ prolog.now.body.items ++ masked_item prolog.now.ids.items prolog.now.live prolog.now.vals ir.now.vars ir.now.body.items) }
    ensures values { IfOk result (λ r. r.vals ≡ vals_after prolog.now.vals (height_all ir.now.body.items)) }
    ensures variables { IfOk result (λ r. r.vars ≡ vars_after ir.now.vars (height_all ir.now.body.items)) }
    ensures arrays { IfOk result (λ r. r.arrays.items ≡ ir.now.arrays.items) }
    ensures kinds { IfOk result (λ r. r.kinds.items ≡ ir.now.kinds.items) }
{
    let height = height_in(&ir.body)?;
    let vals = vals_of(prolog.vals, height)?;
    let vars = vars_of(ir.vars, height)?;
    let arrays = ir.arrays.clone()?;
    let kinds = ir.kinds.clone()?;
    let mut body = Vec::new(alloc);
    put_definitions(alloc, &mut body, &prolog.body)?;
    put_item(alloc, &mut body, ir, prolog)?;
    Ok(LaneIr {
        vals,
        vars,
        arrays,
        kinds,
        body,
    })
}
