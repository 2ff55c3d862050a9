//! What a judge of launches promises.

ghost use Rattle.std.specs.Prelude.{◌≡◌, ◌⊎◌, ℕ, Err, IfOk, IfErr};
ghost use Rattle.launch_file.specs.Launches.{items_of};
ghost use Rattle.launch_meaning.specs.LaunchMeaning.{IsVerdict};
ghost use Rattle.launch_meaning.specs.Small.{AreSmall};
ghost use Rattle.promise.specs.declared.refusal.SourceRule.{SourceRule as AnyRule};
ghost use Rattle.promise.specs.Kernel.{Meaning};
ghost use Rattle.promise.specs.Language.{Meanings};
ghost use Rattle.promise.specs.Laws.{MeaningsAreOne};

use crate::refusal::Refusal;
use launch_file::Launch;
use launch_meaning::{Bytes, Verdict};
use q_lane::Kind;
use std::alloc::{AllocError, Global};

/// A kernel of a source, as those take it who judge launches of it by what the source means.
pub trait JudgedKernel: Sized {
    /// Which meanings the kernels of sources have, and which rules sources without one violate first.
    ghost meanings: { Meanings };

    /// What this kernel means.
    ghost meaning: { Self → Meaning };

    /// The kernel of this name in a source. Another source is refused with the first rule that it
    /// violates, at a byte counted from 0. Where memory is wanting the answer is `Memory`.
    fn of_source(alloc: Global, source: &[u8], kernel: &[u8]) -> Result<Self, Refusal>

        // The kernel means what the source says.
        ensures means { IfOk result (λ k. meanings.means source.now kernel.now (meaning k)) }

        // A rule is the first that is violated.
        ensures refused { (rule : AnyRule) (at : ℕ) → result ≡ Err (Refusal.Rule rule at)
            → meanings.violates_first source.now kernel.now rule at }

        // Only want of memory hides the first violated rule, or the kernel where there is none.
        ensures violated { (rule : AnyRule) (at : ℕ) → meanings.violates_first source.now kernel.now rule at
            → (result ≡ Err (Refusal.Rule rule at)) ⊎ (result ≡ Err Refusal.Memory) }
        ensures lawful { (m : Meaning) → meanings.means source.now kernel.now m → IfErr result (λ e. e ≡ Refusal.Memory) };

    /// The kinds of its parameters in their order.
    fn kinds(&self) -> &[Kind]
        ensures { result.now ≡ (meaning self.now).kinds };

    /// What a launch of it does, where its buffers have these bytes and each work-item has so many
    /// turns. The only error is that memory is wanting.
    fn verdict(
        &self,
        alloc: Global,
        launch: &Launch,
        buffers: &[Bytes],
        turns: u32,
    ) -> Result<Verdict, AllocError>
        requires { AreSmall buffers.now }
        ensures { IfOk result (λ verdict. IsVerdict ((meaning self.now).item launch.now) (items_of launch.now.global) buffers.now turns verdict) };

    /// A source has one meaning of a kernel's name at most, or else one first violation at most, and not both.
    ghost meanings_are_one: { MeaningsAreOne meanings };
}
