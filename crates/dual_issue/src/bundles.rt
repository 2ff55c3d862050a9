//! All blocks.

ghost use Rattle.std.specs.Prelude.{◌≡◌, IfOk, map};
ghost use Rattle.phys_ir.specs.Leads.{exit_of, pairs_exit};

use crate::block::pairs_of;
use phys_ir::{BundleBlock, Bundles, PhysBlock, PhysIr};
use std::alloc::{AllocError, Global};

/// Memory ran out.
pub type Memory = AllocError;

fn bundle_of(alloc: Global, block: &PhysBlock) -> Result<BundleBlock, Memory>
    ensures { IfOk result (λ b. b.exit ≡ block.now.exit) }
{
    let pairs = pairs_of(alloc, &block.ops)?;
    Ok(BundleBlock {
        pairs,
        exit: block.exit,
    })
}

fn bundles_of(alloc: Global, blocks: &[PhysBlock]) -> Result<Vec<BundleBlock>, Memory>
    ensures { IfOk result (λ v. map pairs_exit v.items ≡ map exit_of blocks.now) }
{
    let mut out: Vec<BundleBlock> = Vec::new(alloc);
    for block in blocks {
        out.push(bundle_of(alloc, block)?)?;
    }
    Ok(out)
}

/// Pairs that are meant to do what the operations do: each pair is to be what one word says, and no word of a block is to break the rules on
/// what the word before wrote. What is proved is that the rows and where each block leads stay as they are.
///
/// # Errors
///
/// Where memory is wanting.
pub fn pack(alloc: Global, ir: &PhysIr) -> Result<Bundles, Memory>
    ensures rows { IfOk result (λ b. b.rows ≡ ir.now.rows) }
    ensures exits { IfOk result (λ b. map pairs_exit b.blocks.items ≡ map exit_of ir.now.blocks.items) }
{
    Ok(Bundles {
        rows: ir.rows,
        blocks: bundles_of(alloc, &ir.blocks)?,
    })
}
