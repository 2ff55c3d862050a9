//! Single statements.

ghost use Rattle.std.specs.Prelude.{◌≡◌, ◌+◌, ◌<◌, ◌^◌, ◌++◌, ◌∷◌, [], IfOk};
ghost use Rattle.lane_ir.specs.declared.form.LaneStmt.TheVariants as lane;
ghost use Rattle.mask_flow.specs.Masked.{val, under};

use crate::place::Place;
use item_ir::{Def, Val};
use lane_ir::LaneStmt;
use q_lane::Scalar;
use std::alloc::AllocError;

pub(crate) fn put(out: &mut Vec<LaneStmt>, stmt: LaneStmt) -> Result<(), AllocError>
    ensures { IfOk result (λ _. out.new.items ≡ out.old.items ++ stmt ∷ []) }
{
    out.push(stmt)?;
    Ok(())
}

pub(crate) fn define(out: &mut Vec<LaneStmt>, value: Val, def: Def) -> Result<(), AllocError>
    ensures { IfOk result (λ _. out.new.items ≡ out.old.items ++ lane.Let value def ∷ []) }
{
    put(out, LaneStmt::Let(value, def))
}

/// Sets a variable where a value isn't 0.
pub(crate) fn assign(
    out: &mut Vec<LaneStmt>,
    var: u32,
    value: Val,
    mask: Val,
) -> Result<(), AllocError>
    ensures { IfOk result (λ _. out.new.items ≡ out.old.items ++ lane.Put var value mask ∷ []) }
{
    put(out, LaneStmt::Put { var, value, mask })
}

/// Defines the first free value as the top mask.
fn put_mask(out: &mut Vec<LaneStmt>, at: Place) -> Result<Val, AllocError>
    ensures mask { IfOk result (λ m. m ≡ val at.value) }
    ensures out { IfOk result (λ _. out.new.items ≡ out.old.items ++ lane.Let (val at.value) (Def.Get at.top) ∷ []) }
{
    let mask = Val(at.value);
    define(out, mask, Def::Get(at.top))?;
    Ok(mask)
}

pub(crate) fn put_set(
    out: &mut Vec<LaneStmt>,
    at: Place,
    var: u32,
    value: Val,
) -> Result<(), AllocError>
    ensures { IfOk result (λ _. out.new.items ≡ out.old.items ++ under at (λ m. lane.Put var value m)) }
{
    let mask = put_mask(out, at)?;
    assign(out, var, value, mask)
}

pub(crate) fn put_load(
    out: &mut Vec<LaneStmt>,
    at: Place,
    elem: Scalar,
    dst: Val,
    addr: Val,
) -> Result<(), AllocError>
    ensures { IfOk result (λ _. out.new.items ≡ out.old.items ++ under at (λ m. lane.Load elem dst addr m)) }
{
    let mask = put_mask(out, at)?;
    put(
        out,
        LaneStmt::Load {
            elem,
            dst,
            addr,
            mask,
        },
    )
}

pub(crate) fn put_store(
    out: &mut Vec<LaneStmt>,
    at: Place,
    elem: Scalar,
    addr: Val,
    value: Val,
) -> Result<(), AllocError>
    ensures { IfOk result (λ _. out.new.items ≡ out.old.items ++ under at (λ m. lane.Store elem addr value m)) }
{
    let mask = put_mask(out, at)?;
    put(
        out,
        LaneStmt::Store {
            elem,
            addr,
            value,
            mask,
        },
    )
}

pub(crate) fn put_get_element(
    out: &mut Vec<LaneStmt>,
    at: Place,
    array: u32,
    dst: Val,
    index: Val,
) -> Result<(), AllocError>
    ensures { IfOk result (λ _. out.new.items ≡ out.old.items ++ under at (λ m. lane.GetElement array dst index m)) }
{
    let mask = put_mask(out, at)?;
    put(
        out,
        LaneStmt::GetElement {
            array,
            dst,
            index,
            mask,
        },
    )
}

pub(crate) fn put_set_element(
    out: &mut Vec<LaneStmt>,
    at: Place,
    array: u32,
    index: Val,
    value: Val,
) -> Result<(), AllocError>
    ensures { IfOk result (λ _. out.new.items ≡ out.old.items ++ under at (λ m. lane.PutElement array index value m)) }
{
    let mask = put_mask(out, at)?;
    put(
        out,
        LaneStmt::PutElement {
            array,
            index,
            value,
            mask,
        },
    )
}

pub(crate) fn put_clear(out: &mut Vec<LaneStmt>, at: Place, array: u32) -> Result<(), AllocError>
    ensures { IfOk result (λ _. out.new.items ≡ out.old.items ++ under at (λ m. lane.Clear array m)) }
{
    let mask = put_mask(out, at)?;
    put(out, LaneStmt::Clear { array, mask })
}
