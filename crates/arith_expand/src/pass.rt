//! The pass.

ghost use Rattle.std.specs.Prelude.{◌≡◌, ◌+◌, IfOk, true};
ghost use Rattle.lane_ir.specs.Batch.{counts_of};
ghost use Rattle.lane_ir.specs.Kept.{RunsAs, each_def_all};
ghost use Rattle.arith_expand.specs.Expand.{is_free};

use crate::walk::walked;
use lane_ir::{LaneIr, with_temporaries};
use std::alloc::{AllocError, Global};

/// Memory is wanting.
pub type Memory = AllocError;

/// The batch with shifts, comparisons, sums and differences in place of each quotient, remainder and number of groups. It has sixteen more
/// values, and does what the batch did where 33 tests of a loop are allowed.
///
/// # Errors
///
/// Where memory or the numbers of values run out.
pub fn expand(alloc: Global, ir: &LaneIr) -> Result<LaneIr, Memory>
    ensures values { IfOk result (λ r. r.vals ≡ ir.now.vals + 16) }
    ensures variables { IfOk result (λ r. r.vars ≡ ir.now.vars) }
    ensures arrays { IfOk result (λ r. r.arrays.items ≡ ir.now.arrays.items) }
    ensures kinds { IfOk result (λ r. r.kinds.items ≡ ir.now.kinds.items) }
    ensures undivided { IfOk result (λ r. each_def_all is_free r.body.items ≡ true) }
    ensures same { IfOk result (λ r. RunsAs (counts_of ir.now) ir.now.body.items r.body.items 33) }
{
    let vals = with_temporaries(ir.vals)?;
    let body = walked(alloc, ir.vals, &ir.body)?;
    let arrays = ir.arrays.clone()?;
    let kinds = ir.kinds.clone()?;
    Ok(LaneIr {
        vals,
        vars: ir.vars,
        arrays,
        kinds,
        body,
    })
}
