//! From a source to a module.

ghost use Rattle.std.specs.Prelude.{◌≡◌, ◌⊎◌, ◌<◌, ℕ, Ok, Err, List, IfOk, OnOk, length};
ghost use Rattle.vc4q_module.specs.ModuleBytes.{ModuleOf, IsModule};
ghost use Rattle.promise.specs.declared.refusal.SourceRule.{SourceRule as AnyRule};
ghost use Rattle.compile_pipe.specs.Profile.{is_empty_block as is_empty_block_of, is_built as is_built_function, IsInProfile, IsFirstViolation};
ghost use Rattle.clc_front.specs.Profile.{HasKernel};
ghost use Rattle.compile_pipe.specs.EmptyCode.{empty_module};
ghost use Rattle.compile_pipe.specs.Kernels.{IsFaithful};

use crate::words::EMPTY;
use clc_front::{WantedKernel, front};
use clc_types::{TFunction, TStmt};
use promise::{Refusal, SourceRule};
use std::alloc::Global;
use vc4q_module::{Memory, Module};

/// Whether the form of a kernel is built so far: it has no parameters, and its body no statement.
fn is_built(function: &TFunction) -> bool
    ensures { result ≡ is_built_function function.now }
{
    function.params == 0
        && matches!(&function.body, TStmt::Block(statements) if statements.is_empty())
}

/// Whether the form of the wanted kernel of a source is built.
fn allow(front: &WantedKernel) -> Result<(), Refusal>
    requires { front.now.kernel < length front.now.typed.functions }
    ensures ok { OnOk result ((source kernel : List ℕ) → HasKernel source kernel front.now.typed.functions front.now.kernel → IsInProfile source kernel) }
    ensures err { (rule : AnyRule) (at : ℕ) → result ≡ Err (Refusal.Rule rule at)
        → (source kernel : List ℕ) → HasKernel source kernel front.now.typed.functions front.now.kernel → IsFirstViolation source kernel rule at }
{
    let function = &front.typed.functions.as_slice()[front.kernel as usize];
    if !is_built(function) {
        return Err(Refusal::Rule {
            rule: SourceRule::N0,
            at: function.at,
        });
    }
    Ok(())
}

/// The module of a kernel that does nothing.
#[tactic(auto, unfolding(crate::specs::EmptyCode::empty_module))]
fn empty(alloc: Global) -> Result<Module, Memory>
    ensures { IfOk result (λ m. m ≡ empty_module) }
{
    let mut words = Vec::with_capacity(alloc, EMPTY.len())?;
    words.extend_from_slice(&EMPTY)?;
    Ok(Module {
        rows: 0,
        kinds: Vec::new(alloc),
        words,
    })
}

/// The module of the kernel of this name in a source, or the first rule that is violated.
fn module_of(alloc: Global, source: &[u8], kernel: &[u8]) -> Result<Module, Refusal>
    ensures faithful { IfOk result (λ m. IsFaithful source.now kernel.now m) }
    ensures limits { IfOk result IsModule }
    ensures profile { IfOk result (λ m. IsInProfile source.now kernel.now) }
    ensures refused { (rule : AnyRule) (at : ℕ) → result ≡ Err (Refusal.Rule rule at)
        → IsFirstViolation source.now kernel.now rule at }
{
    let front = front(alloc, source, kernel)?;
    allow(&front)?;
    match empty(alloc) {
        Ok(module) => Ok(module),
        Err(_) => Err(Refusal::Memory),
    }
}

/// The module of the kernel of this name in a source.
///
/// A source is in the profile for a name where it violates no rule on bytes, of the grammar or of types, and its kernel of
/// that name has a form that is built so far: no parameters, and a body without statements. Another source is refused with
/// the first rule that it violates, at a byte counted from 0. Where memory is wanting the answer is `Memory`.
pub fn compile(alloc: Global, source: &[u8], kernel: &[u8]) -> Result<Module, Refusal>

    // A module is faithful to the kernel, and the source is in the profile.
    ensures faithful { IfOk result (λ m. IsFaithful source.now kernel.now m) }
    ensures limits { IfOk result IsModule }
    ensures profile { IfOk result (λ m. IsInProfile source.now kernel.now) }

    // A rule is the first that is violated.
    ensures refused { (rule : AnyRule) (at : ℕ) → result ≡ Err (Refusal.Rule rule at)
        → IsFirstViolation source.now kernel.now rule at }

    // Only want of memory hides the first violated rule, or a module where there is none.
    ensures violated { (rule : AnyRule) (at : ℕ) → IsFirstViolation source.now kernel.now rule at
        → (result ≡ Err (Refusal.Rule rule at)) ⊎ (result ≡ Err Refusal.Memory) }
    ensures lawful { IsInProfile source.now kernel.now
        → ((m : ModuleOf) × (result ≡ Ok m)) ⊎ (result ≡ Err Refusal.Memory) }
{
    module_of(alloc, source, kernel)
}
