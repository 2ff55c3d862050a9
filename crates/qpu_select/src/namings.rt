//! The registers that a statement names.

ghost use Rattle.std.specs.Prelude.{◌≡◌, ◌++◌, ◌∷◌, [], IfOk, map};
ghost use Rattle.qpu_select.specs.Code.{HasRoom, var_reg};
ghost use Rattle.qpu_select.specs.Clears.{wholly, partly, reads, namings, namings_all};

use crate::naming::Naming;
use crate::registers::{Memory, variable};
use crate::shape::Shape;
use item_ir::Def;
use lane_ir::LaneStmt;

/// Adds registers that are read, or written in all lanes.
fn put_whole(out: &mut Vec<Naming>, regs: &[u32]) -> Result<(), Memory>
    ensures { IfOk result (λ _. out.new.items ≡ out.old.items ++ map wholly regs.now) }
{
    for reg in regs {
        out.push(Naming {
            reg: *reg,
            in_part: false,
        })?;
    }
    Ok(())
}

/// Adds two registers that are read, and one that is written in some lanes only.
fn put_part(out: &mut Vec<Naming>, a: u32, b: u32, reg: u32) -> Result<(), Memory>
    ensures { IfOk result (λ _. out.new.items ≡ out.old.items ++ wholly a ∷ wholly b ∷ partly reg ∷ []) }
{
    put_whole(out, &[a, b])?;
    out.push(Naming { reg, in_part: true })?;
    Ok(())
}

/// Adds what a definition reads.
fn put_reads(out: &mut Vec<Naming>, h: Shape, def: &Def) -> Result<(), Memory>
    requires { HasRoom h }
    ensures { IfOk result (λ _. out.new.items ≡ out.old.items ++ map wholly (reads h def.now)) }
{
    match def {
        Def::Get(u) => {
            let reg = variable(h, *u)?;
            put_whole(out, &[reg])
        }
        Def::Work { dim, .. } => put_whole(out, &[dim.0]),
        Def::Bin(_, a, b) => put_whole(out, &[a.0, b.0]),
        Def::One(_, a) => put_whole(out, &[a.0]),
        Def::Choose(c, a, b) => put_whole(out, &[c.0, a.0, b.0]),
        Def::Const(_) => put_whole(out, &[]),
        Def::Param(_) => put_whole(out, &[]),
        Def::Built { .. } => put_whole(out, &[]),
        Def::Load { .. } => put_whole(out, &[]),
        Def::Element { .. } => put_whole(out, &[]),
        Def::Flat => put_whole(out, &[]),
        Def::Items => put_whole(out, &[]),
    }
}

/// Adds what a definition reads, and the value that it defines.
fn put_defined(out: &mut Vec<Naming>, h: Shape, v: u32, def: &Def) -> Result<(), Memory>
    requires { HasRoom h }
    ensures { IfOk result (λ _. out.new.items ≡ out.old.items ++ (map wholly (reads h def.now) ++ wholly v ∷ [])) }
{
    put_reads(out, h, def)?;
    put_whole(out, &[v])
}

/// Adds what the setting of a variable names.
fn put_variable(out: &mut Vec<Naming>, h: Shape, var: u32, x: u32, m: u32) -> Result<(), Memory>
    requires { HasRoom h }
    ensures { IfOk result (λ _. out.new.items ≡ out.old.items ++ wholly x ∷ wholly m ∷ partly (var_reg h var) ∷ []) }
{
    let reg = variable(h, var)?;
    put_part(out, x, m, reg)
}

/// Adds what a statement names.
#[cycle(namings)]
pub fn put_namings(out: &mut Vec<Naming>, h: Shape, stmt: &LaneStmt) -> Result<(), Memory>
    requires { HasRoom h }
    ensures { IfOk result (λ _. out.new.items ≡ out.old.items ++ namings h stmt.now) }
{
    match stmt {
        LaneStmt::Let(v, def) => put_defined(out, h, v.0, def),
        LaneStmt::Put { var, value, mask } => put_variable(out, h, *var, value.0, mask.0),
        LaneStmt::Load {
            dst,
            addr,
            mask,
            ..
        } => put_part(out, addr.0, mask.0, dst.0),
        LaneStmt::Store {
            addr,
            value,
            mask,
            ..
        } => put_whole(out, &[addr.0, value.0, mask.0]),
        LaneStmt::GetElement {
            dst,
            index,
            mask,
            ..
        } => put_part(out, index.0, mask.0, dst.0),
        LaneStmt::PutElement {
            index,
            value,
            mask,
            ..
        } => put_whole(out, &[index.0, value.0, mask.0]),
        LaneStmt::Clear { mask, .. } => put_whole(out, &[mask.0]),
        LaneStmt::WhileAny { head, mask, body } => {
            put_all_namings(out, h, head.as_slice())?;
            put_whole(out, &[mask.0])?;
            put_all_namings(out, h, body.as_slice())
        }
    }
}

/// Adds what statements name.
#[cycle(namings)]
fn put_all_namings(out: &mut Vec<Naming>, h: Shape, body: &[LaneStmt]) -> Result<(), Memory>
    requires { HasRoom h }
    ensures { IfOk result (λ _. out.new.items ≡ out.old.items ++ namings_all h body.now) }
{
    for stmt in body {
        put_namings(out, h, stmt)?;
    }
    Ok(())
}
