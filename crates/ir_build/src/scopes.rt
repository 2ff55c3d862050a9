//! Code of arguments, of choices and of what declarations and returns store.

ghost use Rattle.std.specs.Prelude.{◌≡◌, suc, IfOk, ◌++◌, ◌∷◌, []};
ghost use Rattle.ir_build.specs.Adds.{Adds, Grows, Tests};
ghost use Rattle.ir_build.specs.Code.{one, none, pass_code, choice_code, truth_choice, cleared_code, given_code, back_code, held_word};
ghost use Rattle.item_ir.specs.declared.form.Stmt.TheVariants.{If, Loop};
ghost use Rattle.item_ir.specs.declared.form.Def.TheVariants as d;

use crate::pieces::{Memory, Piece, after, define};
use crate::places::{Target, store};
use crate::types::{type_of, variable_at};
use clc_types::{Ty, Var};
use item_ir::{Def, Stmt, Val};
use q_lane::Scalar;
use sqlite_items::Items;
use std::alloc::Global;

/// Where a `return` stores its value, and in which type.
#[derive(Clone, Copy, Debug, PartialEq, Eq)]
pub(crate) struct Back {
    pub result: Option<Scalar>,
    pub var: u32,
}

/// The values of arguments, and the first number that is free after them.
#[derive(Debug, Drop)]
pub(crate) struct Given {
    pub vals: Vec<Val>,
    pub next: u32,
}

/// Statements by themselves, and the first number that is free after them.
#[derive(Drop)]
pub(crate) struct Branch {
    pub stmts: Vec<Stmt>,
    pub next: u32,
}

impl Branch {
    pub(crate) fn empty(alloc: Global, k: u32) -> Branch
        ensures stmts { result.stmts.items ≡ [] }
        ensures next { result.next ≡ k }
    {
        Branch {
            stmts: Vec::new(alloc),
            next: k,
        }
    }
}

/// Statements that give a value, by themselves, and the first number that is free after them.
#[derive(Drop)]
pub(crate) struct Head {
    pub stmts: Vec<Stmt>,
    pub val: Val,
    pub next: u32,
}

/// The arguments are converted and stored in the parameters. What is given back is the first number that is free then.
pub(crate) fn pass(
    out: &mut Vec<Stmt>,
    vars: &[Var],
    params: &[u32],
    args: &[Val],
    k: u32,
) -> Result<u32, Memory>
    ensures { IfOk result (λ next. Grows out.old.items out.new.items next (pass_code vars.now params.now args.now k)) }
{
    let mut next = k;
    for i in 0..params.len().min(args.len()) {
        let ty = type_of(variable_at(vars, params[i]));
        next = store(out, ty, Target::Into(params[i]), args[i], next)?.next;
    }
    Ok(next)
}

/// A word in a variable that is the code's own, which is given back; numbers after it are free.
pub(crate) fn held(out: &mut Vec<Stmt>, word: u32, k: u32) -> Result<u32, Memory>
    ensures { IfOk result (λ var. (var ≡ suc k) × (out.new.items ≡ out.old.items ++ held_word word k)) }
{
    let word = define(out, Def::Const(word), k)?;
    out.push(Stmt::Set(word.next, word.val))?;
    Ok(word.next)
}

/// A choice of statements.
fn push_choice(out: &mut Vec<Stmt>, cond: Val, yes: Vec<Stmt>, no: Vec<Stmt>) -> Result<(), Memory>
    ensures { IfOk result (λ _. out.new.items ≡ out.old.items ++ If cond yes.items no.items ∷ []) }
{
    out.push(Stmt::If {
        cond,
        yes: Items::from_vec(yes),
        no: Items::from_vec(no),
    })?;
    Ok(())
}

/// A choice of statements, and the first number that is free after both.
pub(crate) fn choice(out: &mut Vec<Stmt>, cond: Val, yes: Branch, no: Branch) -> Result<u32, Memory>
    ensures { IfOk result (λ next. (out.new.items ≡ out.old.items ++ If cond yes.stmts.items no.stmts.items ∷ []) × (next ≡ no.next)) }
{
    let next = no.next;
    push_choice(out, cond, yes.stmts, no.stmts)?;
    Ok(next)
}

/// A choice of values, in the variable after the word that is tested.
pub(crate) fn conditional(
    out: &mut Vec<Stmt>,
    cond: Piece,
    yes: Branch,
    no: Branch,
) -> Result<Piece, Memory>
    ensures { IfOk result (λ p. Adds out.old.items out.new.items p (choice_code cond.val.0 cond.next yes.stmts.items no.stmts.items no.next)) }
{
    let next = choice(out, cond.val, yes, no)?;
    define(out, Def::Get(cond.next), next)
}

/// A choice after a word that the variable after it holds, and what that variable holds then.
pub(crate) fn choose(
    out: &mut Vec<Stmt>,
    cond: Piece,
    yes: Branch,
    no: Branch,
) -> Result<Piece, Memory>
    ensures { IfOk result (λ p. Adds out.old.items out.new.items p (truth_choice cond.val.0 cond.next yes.stmts.items no.stmts.items no.next)) }
{
    out.push(Stmt::Set(cond.next, cond.val))?;
    conditional(out, cond, yes, no)
}

/// A loop, and the first number that is free after its step.
pub(crate) fn repeat(
    out: &mut Vec<Stmt>,
    head: Head,
    body: Branch,
    step: Branch,
) -> Result<u32, Memory>
    ensures { IfOk result (λ next. (out.new.items ≡ out.old.items ++ Loop head.stmts.items head.val body.stmts.items step.stmts.items ∷ []) × (next ≡ step.next)) }
{
    let next = step.next;
    out.push(Stmt::Loop {
        head: Items::from_vec(head.stmts),
        cond: head.val,
        body: Items::from_vec(body.stmts),
        step: Items::from_vec(step.stmts),
    })?;
    Ok(next)
}

/// The head of a loop that goes on for ever.
pub(crate) fn always(alloc: Global, k: u32) -> Result<Head, Memory>
    ensures { IfOk result (λ h. Tests h (one k (d.Const 1))) }
{
    let mut stmts = Vec::new(alloc);
    let test = define(&mut stmts, Def::Const(1), k)?;
    Ok(Head {
        stmts,
        val: test.val,
        next: test.next,
    })
}

/// The head of a loop that goes on while a variable isn't 0, with the numbers after the variable's.
pub(crate) fn test_of_variable(alloc: Global, r: u32) -> Result<Head, Memory>
    ensures { IfOk result (λ h. Tests h (one (suc r) (d.Get r))) }
{
    let mut stmts = Vec::new(alloc);
    let test = define(&mut stmts, Def::Get(r), after(r)?)?;
    Ok(Head {
        stmts,
        val: test.val,
        next: test.next,
    })
}

/// A declared variable is 0 or null, and the elements of a declared array are 0.
pub(crate) fn clear(out: &mut Vec<Stmt>, declared: Var, var: u32, k: u32) -> Result<u32, Memory>
    ensures { IfOk result (λ next. Grows out.old.items out.new.items next (cleared_code declared var k)) }
{
    match declared {
        Var::Value(_) | Var::Pointer { .. } => {
            let zero = define(out, Def::Const(0), k)?;
            out.push(Stmt::Set(var, zero.val))?;
            Ok(zero.next)
        }
        Var::Array { .. } => {
            out.push(Stmt::Clear(var))?;
            Ok(k)
        }
    }
}

/// A value is stored where the scope's result stands, if it has one.
fn give(out: &mut Vec<Stmt>, back: Back, x: Val, k: u32) -> Result<u32, Memory>
    ensures { IfOk result (λ next. Grows out.old.items out.new.items next (given_code back.result back.var x.0 k)) }
{
    match back.result {
        None => Ok(k),
        Some(scalar) => Ok(store(out, Ty::Value(scalar), Target::Into(back.var), x, k)?.next),
    }
}

/// A scope is left with a value.
#[tactic(auto, using(crate::proofs::Joins::back_given))]
pub(crate) fn give_back(out: &mut Vec<Stmt>, back: Back, x: Val, k: u32) -> Result<u32, Memory>
    ensures { IfOk result (λ next. Grows out.old.items out.new.items next (back_code back (none x.0 k))) }
{
    let next = give(out, back, x, k)?;
    out.push(Stmt::Leave)?;
    Ok(next)
}
