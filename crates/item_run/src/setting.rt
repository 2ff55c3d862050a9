//! What a run of a work-item never changes.

ghost use Rattle.std.specs.Prelude.{ℕ, ◌≤◌, get_or};

use clc_types::TFunction;
use q_functions::Work;

/// The item and its launch, the functions of the source, and how many of them may be called: a function calls earlier ones alone. Sizes of
/// groups are at least 1.
#[derive(Drop)]
pub struct Setting<'a> {
    pub work: &'a Work,
    pub functions: &'a [TFunction],
    pub callable: usize,
    ghost groups: { (i : ℕ) → 1 ≤ get_or work.now.local i 1 },
}
