//! Registers in files A and B, accumulators and rows of the scratch.
#![tactic(auto)]

ghost use Rattle.regfile_alloc.specs.Allocated.{AllocatesRight};
ghost use Rattle.regfile_alloc.specs.Asides.{BringFits, PutFits};
ghost use Rattle.regfile_alloc.specs.Law.{OperationLaw};
ghost use Rattle.regfile_alloc.specs.Picks.{KeepsRegisters};
ghost use Rattle.regfile_alloc.specs.Quiet.{StaysQuiet};
ghost use Rattle.regfile_alloc.specs.Rows.{RowsLaw};
ghost use Rattle.regfile_alloc.specs.Spill.{BringsRight, PutsRight};

mod allocation;
mod blocks;
mod emit;
mod facts;
mod known;
mod picks;
mod pops;
mod rows;
mod spilled;

pub use allocation::{Memory, allocate};

/// One operation, with the moves of its operands before it, does over places what it does over registers.
pub fn law_operation()
    ensures { OperationLaw }
{}

/// With at most 32 registers nothing goes to a row of the scratch, and others see the same.
pub fn law_kept()
    ensures { KeepsRegisters }
{}

/// Beside added rows of the scratch, whatever they hold, what the source does is done in the same way.
pub fn law_rows()
    ensures { RowsLaw }
{}

/// A section of its own brings a row of the scratch to a place, whatever the VPM holds.
pub fn law_bring()
    ensures { BringsRight }
{}

/// A section of its own puts what a place holds away to a row of the scratch.
pub fn law_put_away()
    ensures { PutsRight }
{}

/// Blocks of pieces that are right, with rows of the scratch between them, are steady where their source is, and others see the same.
pub fn law_allocates()
    ensures { AllocatesRight }
{}

/// The section that brings a row is a piece that fits between operations outside sections: the place then holds the register whose value the row holds.
pub fn law_bring_fits()
    ensures { BringFits }
{}

/// The section that puts a register away is a piece that fits there too: the row then holds the register, and the other rows what they held.
pub fn law_put_fits()
    ensures { PutFits }
{}

/// Outside sections nothing of the source is owned, left or due, its registers hold words, and its register of the scratch holds the scratch's start.
pub fn law_stays_quiet()
    ensures { StaysQuiet }
{}
