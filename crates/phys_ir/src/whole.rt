//! Whole programs.

ghost use Rattle.std.specs.Prelude.{IsTrue, map};
ghost use Rattle.phys_ir.specs.Leads.{exit_of, is_closed, pairs_exit};

use crate::form::{BundleBlock, PhysBlock};

/// Blocks that use `rows` rows of the scratch, entered at block 0.
#[derive(Drop)]
pub struct PhysIr {
    pub rows: u32,
    pub blocks: Vec<PhysBlock>,
    /// There is a first block, and each exit leads to a block that is there, none back to the first.
    ghost valid: { IsTrue (is_closed (map exit_of blocks.items)) },
}

/// Blocks of pairs that use `rows` rows of the scratch, entered at block 0.
#[derive(Drop)]
pub struct Bundles {
    pub rows: u32,
    pub blocks: Vec<BundleBlock>,
    /// There is a first block, and each exit leads to a block that is there, none back to the first.
    ghost valid: { IsTrue (is_closed (map pairs_exit blocks.items)) },
}
