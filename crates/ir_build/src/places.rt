//! Code that reads and writes a place.

ghost use Rattle.std.specs.Prelude.{◌≡◌, IfOk, ◌++◌};
ghost use Rattle.q_functions.specs.NumberFunctions.{bytes_of as bytes_of_type};
ghost use Rattle.item_meaning.specs.Operators.{scalar_of as scalar_of_type};
ghost use Rattle.ir_build.specs.Adds.{Adds, Finds};
ghost use Rattle.ir_build.specs.Code.{get_code, put_stmts, put_code, step_code, behind, moved_code};

use crate::operators::{converted, moved, stepped};
use crate::pieces::{Memory, Piece, define};
use clc_types::Ty;
use item_ir::{Def, Stmt, Val};
use item_values::scalar_of;
use q_functions::bytes_of;
use q_lane::BinOp;

/// What is read or written: a variable, an element of a private array, or what stands at an address. `Nowhere` is none of these.
#[derive(Clone, Copy, Debug, PartialEq, Eq)]
pub(crate) enum Target {
    Into(u32),
    Cell { array: u32, index: Val },
    Behind(Val),
    Nowhere,
}

/// A place that code finds, and the first number that is free after it.
#[derive(Clone, Copy, Debug, PartialEq, Eq)]
pub(crate) struct Found {
    pub to: Target,
    pub next: u32,
}

/// No place.
pub(crate) fn nowhere(k: u32) -> Found
    ensures { result ≡ record { to = Target.Nowhere; next = k } }
{
    Found {
        to: Target::Nowhere,
        next: k,
    }
}

/// The value at a place of this type.
pub(crate) fn fetch(out: &mut Vec<Stmt>, ty: Ty, to: Target, k: u32) -> Result<Piece, Memory>
    ensures { IfOk result (λ p. Adds out.old.items out.new.items p (get_code ty to k)) }
{
    match to {
        Target::Into(var) => define(out, Def::Get(var), k),
        Target::Cell { array, index } => define(out, Def::Element { array, index }, k),
        Target::Behind(addr) => define(
            out,
            Def::Load {
                elem: scalar_of(ty),
                addr,
            },
            k,
        ),
        Target::Nowhere => define(out, Def::Const(0), k),
    }
}

/// A value is stored as it is.
fn set(out: &mut Vec<Stmt>, ty: Ty, to: Target, value: Val) -> Result<(), Memory>
    ensures { IfOk result (λ _. out.new.items ≡ out.old.items ++ put_stmts ty to value.0) }
{
    match to {
        Target::Into(var) => out.push(Stmt::Set(var, value))?,
        Target::Cell { array, index } => out.push(Stmt::SetElement {
            array,
            index,
            value,
        })?,
        Target::Behind(addr) => out.push(Stmt::Store {
            elem: scalar_of(ty),
            addr,
            value,
        })?,
        Target::Nowhere => {}
    }
    Ok(())
}

/// A value is converted and stored, and that is the value.
pub(crate) fn store(
    out: &mut Vec<Stmt>,
    ty: Ty,
    to: Target,
    x: Val,
    k: u32,
) -> Result<Piece, Memory>
    ensures { IfOk result (λ p. Adds out.old.items out.new.items p (put_code ty to x.0 k)) }
{
    let value = converted(out, ty, x, k)?;
    set(out, ty, to, value.val)?;
    Ok(value)
}

/// The element of this type with the number `count`, by the pointer to the first one.
pub(crate) fn element(
    out: &mut Vec<Stmt>,
    ty: Ty,
    pointer: Val,
    count: Piece,
) -> Result<Found, Memory>
    ensures { IfOk result (λ p. Finds out.old.items out.new.items p (behind (moved_code BinOp.Add (bytes_of_type (scalar_of_type ty)) pointer.0 count.val.0 count.next))) }
{
    let size = bytes_of(scalar_of(ty));
    let address = moved(out, BinOp::Add, size, pointer, count.val, count.next)?;
    Ok(Found {
        to: Target::Behind(address.val),
        next: address.next,
    })
}

/// `++` or `--` at a place of this type. The postfix form gives the old value.
pub(crate) fn step(
    out: &mut Vec<Stmt>,
    ty: Ty,
    up: bool,
    post: bool,
    found: Found,
) -> Result<Piece, Memory>
    ensures { IfOk result (λ p. Adds out.old.items out.new.items p (step_code ty up post found.to found.next)) }
{
    let old = fetch(out, ty, found.to, found.next)?;
    let more = stepped(out, ty, up, old.val, old.next)?;
    let new = store(out, ty, found.to, more.val, more.next)?;
    if post {
        return Ok(Piece {
            val: old.val,
            next: new.next,
        });
    }
    Ok(new)
}
