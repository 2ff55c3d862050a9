//! A module within its limits.

use q_lane::Kind;
use std::alloc::AllocError;
use std::marker::Model;

/// What is answered where memory is wanting.
pub type Memory = AllocError;

/// What a module file holds: the rows of scratch that each processor needs, the kinds of the parameters in
/// their order, and the words.
///
/// There are at most 262,144 rows and 16 parameters, and 1 to 16,777,216 words.
#[derive(Drop)]
pub struct Module {
    pub rows: u32,
    pub kinds: Vec<Kind>,
    pub words: Vec<u64>,
}

impl Model for Module {
    ghost use Rattle.vc4q_module.specs.ModuleBytes.{ModuleOf, IsModule};

    ghost Value = { ModuleOf };

    ghost view = { λ m. record { rows = m.rows; kinds = m.kinds.items; words = m.words.items } };

    ghost invariant = { λ m. IsModule (record { rows = m.rows; kinds = m.kinds.items; words = m.words.items }) };
}
