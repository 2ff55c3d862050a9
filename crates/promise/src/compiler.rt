//! What a compiler promises.

ghost use Rattle.std.specs.Prelude.{◌≡◌, ◌⊎◌, ℕ, Ok, Err, IfOk};
ghost use Rattle.vc4q_module.specs.ModuleBytes.{ModuleOf, IsModule};
ghost use Rattle.promise.specs.declared.refusal.SourceRule.{SourceRule as AnyRule};
ghost use Rattle.promise.specs.Language.{Language};
ghost use Rattle.promise.specs.Faithful.{IsFaithful};
ghost use Rattle.promise.specs.Laws.{HasOneViolation, KernelsAreOne};

use crate::refusal::Refusal;
use std::alloc::Global;
use vc4q_module::Module;

/// Makes modules of the sources of a language.
pub trait Compiler {
    /// Which sources are in the profile, which kernels they have, and which rules others violate first.
    ghost language: { Language };

    /// The module of the kernel of this name in a source. Another source is refused with the first
    /// rule that it violates, at a byte counted from 0. Where memory is wanting the answer is
    /// `Memory`.
    fn compile(alloc: Global, source: &[u8], kernel: &[u8]) -> Result<Module, Refusal>

        // A module is faithful to the kernel, and the source is in the profile.
        ensures faithful { IfOk result (λ m. IsFaithful language source.now kernel.now m) }
        ensures limits { IfOk result IsModule }
        ensures profile { IfOk result (λ m. language.in_profile source.now kernel.now) }

        // A rule is the first that is violated.
        ensures refused { (rule : AnyRule) (at : ℕ) → result ≡ Err (Refusal.Rule rule at)
            → language.violates_first source.now kernel.now rule at }

        // Only want of memory hides the first violated rule, or a module where there is none.
        ensures violated { (rule : AnyRule) (at : ℕ) → language.violates_first source.now kernel.now rule at
            → (result ≡ Err (Refusal.Rule rule at)) ⊎ (result ≡ Err Refusal.Memory) }
        ensures lawful { language.in_profile source.now kernel.now
            → ((m : ModuleOf) × (result ≡ Ok m)) ⊎ (result ≡ Err Refusal.Memory) };

    /// A source has one first violation at most, and none where it is in the profile.
    ghost has_one_violation: { HasOneViolation language };

    /// A source has one kernel of a name exactly where it is in the profile.
    ghost kernels_are_one: { KernelsAreOne language };
}
