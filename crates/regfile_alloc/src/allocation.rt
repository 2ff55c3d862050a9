//! A place for each register.

ghost use Rattle.std.specs.Prelude.{◌≡◌, ◌≤◌, map, IfOk};
ghost use Rattle.vop_ir.specs.Runs.{block_from};
ghost use Rattle.phys_ir.specs.Leads.{exit_of};
ghost use Rattle.regfile_alloc.specs.Outcome.{exit_from, IsInFile};

use crate::blocks::{Ground, blocks_by};
use crate::emit::in_file;
use crate::known::Known;
use phys_ir::{PhysBlock, PhysIr};
use register_plan::{Plan, propose, simple_plan};
use std::alloc::{AllocError, Global};
use vop_ir::VopIr;

/// What is answered where memory is wanting.
pub type Memory = AllocError;

/// How many proposals are tried before the one that is always right.
const ATTEMPTS: u32 = 3;

fn ground_of<'a>(ir: &VopIr, plan: &'a Plan) -> Ground<'a> {
    Ground {
        plan,
        scratch: ir.scratch,
        first_row: ir.rows,
    }
}

fn rows_with(ir: &VopIr, plan: &Plan) -> Result<u32, Memory>
    ensures { IfOk result (λ rows. ir.now.rows ≤ rows) }
{
    ir.rows.checked_add(plan.rows).ok_or(AllocError)
}

/// These blocks with the rows of a proposal added.
fn with_rows(ir: &VopIr, plan: &Plan, blocks: Vec<PhysBlock>) -> Result<PhysIr, Memory>
    requires { map exit_of blocks.items ≡ map exit_from ir.now.blocks.items }
    ensures rows { IfOk result (λ p. ir.now.rows ≤ p.rows) }
    ensures blocks { IfOk result (λ p. p.blocks.items ≡ blocks.items) }
{
    Ok(PhysIr {
        rows: rows_with(ir, plan)?,
        blocks,
    })
}

/// The same run in files A and B, r0 to r3 and added rows of the scratch. With at most 32 registers there are no such
/// rows.
///
/// # Errors
///
/// Where memory is wanting. The last proposal always holds where sections name at most sixteen registers; one that doesn't
/// is refused, too.
pub fn allocate(alloc: Global, ir: &VopIr) -> Result<PhysIr, Memory>
    ensures rows { IfOk result (λ p. ir.now.rows ≤ p.rows) }
    ensures exits { IfOk result (λ p. map exit_of p.blocks.items ≡ map exit_from ir.now.blocks.items) }
    ensures few { ir.now.regs ≤ 32 → IfOk result (λ p. IsInFile ir.now.rows (map block_from ir.now.blocks.items) p) }
{
    if ir.regs <= 32 {
        return in_file(alloc, ir);
    }
    let mut known = Known::new(alloc, ir.regs)?;
    for _ in 0..ATTEMPTS {
        let plan = propose(alloc, ir, &known.missed)?;
        let blocks = blocks_by(alloc, &mut known, ground_of(ir, &plan), &ir.blocks)?;
        if known.is_right {
            return with_rows(ir, &plan, blocks);
        }
    }
    let plan = simple_plan(alloc, ir)?;
    let blocks = blocks_by(alloc, &mut known, ground_of(ir, &plan), &ir.blocks)?;
    if !known.is_right {
        return Err(AllocError);
    }
    with_rows(ir, &plan, blocks)
}
