//! The code so far.

use vop_ir::{Vop, VopBlock};

/// Blocks that are closed, the operations of the block that is still open, and how many accesses stand in them.
#[derive(Drop)]
pub struct Emitted {
    pub closed: Vec<VopBlock>,
    pub ops: Vec<Vop>,
    pub next: usize,
}
