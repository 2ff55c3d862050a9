//! From a source and the name of a kernel to its typed tree.

ghost use Rattle.std.specs.Prelude.{◌≡◌, ◌⊎◌, ◌<◌, ℕ, List, Ok, Err, IfOk, IfErr, OnOk, length};
ghost use Rattle.clc_counts.specs.Counts.{tally_of};
ghost use Rattle.clc_counts.specs.Limits.{IsWithin};
ghost use Rattle.clc_types.specs.declared.typed.TFunction.{TFunction};
ghost use Rattle.promise.specs.declared.refusal.SourceRule.{SourceRule as AnyRule};
ghost use Rattle.clc_front.specs.declared.wanted.WantedKernel.{WantedKernel as AnyWanted};
ghost use Rattle.clc_front.specs.Profile.{HasKernel, IsFirstViolation, IsNameOf, IsTooLarge};
ghost use Rattle.clc_front.specs.Kinds.{kinds_at as kinds_at_number};

use crate::kinds::kinds_at;
use crate::sources::typed_tree;
use clc_check::kernel as kernel_number;
use clc_counts::{LimitFault, kernel_tally};
use clc_types::{TFunction, Typed};
use promise::{Refusal, SourceRule};
use q_lane::Kind;
use std::alloc::Global;

/// The typed tree of a source, the number of its kernel of the wanted name among the functions, and the kinds of the
/// kernel's parameters in their order.
#[derive(Drop)]
pub struct WantedKernel {
    pub typed: Typed,
    pub kernel: u32,
    pub kinds: Vec<Kind>,
}

/// The typed tree of a source with the number of the kernel of this name and the kinds of its parameters, or the first rule that is
/// violated, at a byte counted from 0.
///
/// Where memory is wanting the answer is `Memory`. Whether the form of the kernel can be compiled isn't asked here.
pub fn front(alloc: Global, source: &[u8], kernel: &[u8]) -> Result<WantedKernel, Refusal>
    // The source violates no rule, and has this typed tree and this kernel.
    ensures kernel { IfOk result (λ f. HasKernel source.now kernel.now f.typed.functions f.kernel) }

    // The kernel's parameters are of these kinds.
    ensures kinds { IfOk result (λ f. f.kinds.items ≡ kinds_at_number f.typed.functions f.kernel) }

    // A rule is the first that is violated.
    ensures refused { (rule : AnyRule) (at : ℕ) → result ≡ Err (Refusal.Rule rule at)
        → IsFirstViolation source.now kernel.now rule at }

    // Only want of memory hides the first violated rule, or the kernel where there is none.
    ensures violated { (rule : AnyRule) (at : ℕ) → IsFirstViolation source.now kernel.now rule at
        → (result ≡ Err (Refusal.Rule rule at)) ⊎ (result ≡ Err Refusal.Memory) }
    ensures lawful { (functions : List TFunction) (number : ℕ) → HasKernel source.now kernel.now functions number
        → ((f : AnyWanted) × (result ≡ Ok f)) ⊎ (result ≡ Err Refusal.Memory) }
{
    found(alloc, source, kernel)
}

fn found(alloc: Global, source: &[u8], kernel: &[u8]) -> Result<WantedKernel, Refusal>
    ensures kernel { IfOk result (λ f. HasKernel source.now kernel.now f.typed.functions f.kernel) }
    ensures kinds { IfOk result (λ f. f.kinds.items ≡ kinds_at_number f.typed.functions f.kernel) }
    ensures refused { (rule : AnyRule) (at : ℕ) → result ≡ Err (Refusal.Rule rule at)
        → IsFirstViolation source.now kernel.now rule at }
{
    let typed = typed_tree(alloc, source)?;
    match kernel_number(&typed, kernel) {
        Some(kernel) => {
            limit(alloc, typed.functions.as_slice(), kernel)?;
            with_kinds(alloc, typed, kernel)
        }
        None => Err(Refusal::Rule {
            rule: SourceRule::K1,
            at: 0,
        }),
    }
}

/// Refuses a kernel with more nodes, or with more elements in its private arrays, than a kernel may have.
fn limit(alloc: Global, functions: &[TFunction], kernel: u32) -> Result<(), Refusal>
    requires { kernel < length functions.now }
    ensures ok { OnOk result (IsWithin (tally_of functions.now kernel)) }
    ensures refused { (rule : AnyRule) (at : ℕ) → result ≡ Err (Refusal.Rule rule at)
        → IsTooLarge functions.now kernel rule at }
{
    match kernel_tally(alloc, functions, kernel) {
        Ok(_) => Ok(()),
        Err(LimitFault::N1 { .. }) => Err(refused(functions, kernel, SourceRule::N1)),
        Err(LimitFault::N2 { .. }) => Err(refused(functions, kernel, SourceRule::N2)),
        Err(LimitFault::Memory) => Err(Refusal::Memory),
    }
}

/// The refusal of a kernel by this rule, at its name.
fn refused(functions: &[TFunction], kernel: u32, rule: SourceRule) -> Refusal
    requires { kernel < length functions.now }
    ensures { (at : ℕ) (other : AnyRule) → result ≡ Refusal.Rule other at → (rule ≡ other) × IsNameOf functions.now kernel at }
{
    let at = functions[kernel as usize].at;
    Refusal::Rule { rule, at }
}

/// The typed tree and the number of the kernel, with the kinds of its parameters.
fn with_kinds(alloc: Global, typed: Typed, kernel: u32) -> Result<WantedKernel, Refusal>
    ensures same { IfOk result (λ f. (f.typed.functions ≡ typed.functions) × (f.kernel ≡ kernel)) }
    ensures kinds { IfOk result (λ f. f.kinds.items ≡ kinds_at_number f.typed.functions f.kernel) }
    ensures err { IfErr result (λ e. e ≡ Refusal.Memory) }
{
    match kinds_at(alloc, &typed, kernel) {
        Ok(kinds) => Ok(WantedKernel {
            typed,
            kernel,
            kinds,
        }),
        Err(_) => Err(Refusal::Memory),
    }
}
