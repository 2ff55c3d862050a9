//! A program over registers.

ghost use Rattle.std.specs.Prelude.{IsTrue};
ghost use Rattle.vop_ir.specs.Valid.{is_valid};

use crate::form::VopBlock;

/// Blocks over `regs` registers and `rows` rows of the scratch. Register `scratch` has the address of the scratch.
#[derive(Drop)]
pub struct VopIr {
    pub regs: u32,
    pub rows: u32,
    pub scratch: u32,
    pub blocks: Vec<VopBlock>,
    /// The program names only what is there.
    ghost valid: { IsTrue (is_valid regs scratch blocks.items) },
}
