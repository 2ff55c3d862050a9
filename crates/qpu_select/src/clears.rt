//! Registers that are cleared before an outermost statement.

ghost use Rattle.std.specs.Prelude.{◌≡◌, ◌++◌, ◌∷◌, [], ℕ, List, IfOk, map, if◌then◌else◌};
ghost use Rattle.qpu_select.specs.Code.{HasRoom};
ghost use Rattle.qpu_select.specs.Clears.{clear as clear_of, cleared, cleared_by, seen_after, namings, Marks};

use crate::naming::Naming;
use crate::namings::put_namings;
use crate::registers::Memory;
use crate::shape::Shape;
use lane_ir::LaneStmt;
use std::alloc::{AllocError, Global};
use vop_ir::{Dst, Src, Vop, copy};

/// Clears a register, where it is to be.
fn put_where(ops: &mut Vec<Vop>, is_new: bool, reg: u32) -> Result<(), Memory>
    ensures { IfOk result (λ _. ops.new.items ≡ ops.old.items ++ (if is_new then clear_of reg ∷ [] else [])) }
{
    if is_new {
        ops.push(copy(Dst::Reg(reg), Src::Small(0)))?;
    }
    Ok(())
}

/// Clears a register where it is named for the first time, and written there in some lanes only. The flags say which registers were named before.
fn put_clear(ops: &mut Vec<Vop>, flags: &mut Vec<bool>, w: Naming) -> Result<(), Memory>
    ensures code { (seen : List ℕ) → Marks flags.old.items seen
        → IfOk result (λ _. ops.new.items ≡ ops.old.items ++ map clear_of (cleared_by seen w)) }
    ensures marks { (seen : List ℕ) → Marks flags.old.items seen → IfOk result (λ _. Marks flags.new.items (w.reg ∷ seen)) }
{
    let at = w.reg as usize;
    if at >= flags.len() {
        return Err(AllocError);
    }
    let is_first = !flags[at];
    flags[at] = true;
    put_where(ops, w.in_part && is_first, w.reg)
}

/// Clears the registers that are named here for the first time, and written there in some lanes only.
fn put_clears(ops: &mut Vec<Vop>, flags: &mut Vec<bool>, list: &[Naming]) -> Result<(), Memory>
    ensures code { (seen : List ℕ) → Marks flags.old.items seen
        → IfOk result (λ _. ops.new.items ≡ ops.old.items ++ map clear_of (cleared seen list.now)) }
    ensures marks { (seen : List ℕ) → Marks flags.old.items seen → IfOk result (λ _. Marks flags.new.items (seen_after seen list.now)) }
{
    for w in list {
        put_clear(ops, flags, *w)?;
    }
    Ok(())
}

/// Clears the registers that an outermost statement names for the first time, and writes there in some lanes only.
pub fn put_cleared(
    alloc: Global,
    ops: &mut Vec<Vop>,
    flags: &mut Vec<bool>,
    h: Shape,
    stmt: &LaneStmt,
) -> Result<(), Memory>
    requires { HasRoom h }
    ensures code { (seen : List ℕ) → Marks flags.old.items seen
        → IfOk result (λ _. ops.new.items ≡ ops.old.items ++ map clear_of (cleared seen (namings h stmt.now))) }
    ensures marks { (seen : List ℕ) → Marks flags.old.items seen
        → IfOk result (λ _. Marks flags.new.items (seen_after seen (namings h stmt.now))) }
{
    let mut list = Vec::new(alloc);
    put_namings(&mut list, h, stmt)?;
    put_clears(ops, flags, &list)
}
