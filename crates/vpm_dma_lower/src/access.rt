//! The code of one access.

use vop_ir::VopBlock;

/// How one access is done, over `regs` registers: it begins with its first block, and is over where an exit names the number that follows
/// its last block.
#[derive(Drop)]
pub struct Access {
    pub regs: u32,
    pub blocks: Vec<VopBlock>,
}
