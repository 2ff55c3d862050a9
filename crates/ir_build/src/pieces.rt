//! Pieces of code that are added to statements. Values and variables of the code's own are numbered by one counter.

ghost use Rattle.std.specs.Prelude.{◌≡◌, suc, IfOk, ◌++◌, ◌∷◌, []};
ghost use Rattle.ir_build.specs.Code.{one, truth_code, not_code, zero_test};
ghost use Rattle.ir_build.specs.Adds.{Adds};
ghost use Rattle.item_ir.specs.declared.form.Stmt.TheVariants.{Let};

use item_ir::{Def, Stmt, Val};
use q_lane::BinOp;
use std::alloc::AllocError;

/// Want of memory. It also stands for want of numbers, which a kernel within the limits doesn't need.
pub type Memory = AllocError;

/// What a piece of code gives: its value, and the first number that is free after it.
#[derive(Clone, Copy, Debug, PartialEq, Eq)]
pub(crate) struct Piece {
    pub val: Val,
    pub next: u32,
}

/// The number after this one.
pub(crate) fn after(number: u32) -> Result<u32, Memory>
    ensures { IfOk result (λ next. next ≡ suc number) }
{
    match number.checked_add(1) {
        Some(next) => Ok(next),
        None => Err(AllocError),
    }
}

/// Adds the definition of value k.
pub(crate) fn define(out: &mut Vec<Stmt>, def: Def, k: u32) -> Result<Piece, Memory>
    ensures { IfOk result (λ p. Adds out.old.items out.new.items p (one k def)) }
{
    out.push(Stmt::Let(Val(k), def))?;
    let next = after(k)?;
    Ok(Piece { val: Val(k), next })
}

/// 0 or 1 for whether a word isn't 0: the lesser of it and 1.
pub(crate) fn truth(out: &mut Vec<Stmt>, x: Val, k: u32) -> Result<Piece, Memory>
    ensures { IfOk result (λ p. Adds out.old.items out.new.items p (truth_code x.0 k)) }
{
    let one = define(out, Def::Const(1), k)?;
    define(out, Def::Bin(BinOp::Min(false), x, one.val), one.next)
}

/// The other truth of 0 or 1.
pub(crate) fn other_truth(out: &mut Vec<Stmt>, x: Val, k: u32) -> Result<Piece, Memory>
    ensures { IfOk result (λ p. Adds out.old.items out.new.items p (not_code x.0 k)) }
{
    let one = define(out, Def::Const(1), k)?;
    define(out, Def::Bin(BinOp::Xor, x, one.val), one.next)
}

/// Whether a word is 0.
pub(crate) fn is_zero(out: &mut Vec<Stmt>, x: Val, k: u32) -> Result<Piece, Memory>
    ensures { IfOk result (λ p. Adds out.old.items out.new.items p (zero_test x.0 k)) }
{
    let zero = define(out, Def::Const(0), k)?;
    define(out, Def::Bin(BinOp::Equal, x, zero.val), zero.next)
}
