//! The pass.

ghost use Rattle.std.specs.Prelude.{◌≡◌, ◌+◌, IfOk, true};
ghost use Rattle.lane_ir.specs.Batch.{counts_of};
ghost use Rattle.lane_ir.specs.Kept.{RunsAs, each_def_all};
ghost use Rattle.lane_ir.specs.Undivided.{is_free};
ghost use Rattle.builtin_lower.specs.Lower.{is_plain};

use crate::walk::walked;
use lane_ir::{LaneIr, with_temporaries};
use std::alloc::{AllocError, Global};

/// Memory is wanting.
pub type Memory = AllocError;

/// The batch with operations of the processor alone: no built-in function of numbers, no compare, no narrowing, no count of ones, and no
/// minimum or maximum of words without a sign. It has sixteen more values, and does what the batch did. No division comes into it.
///
/// # Errors
///
/// Where memory or the numbers of values run out.
pub fn lower(alloc: Global, ir: &LaneIr) -> Result<LaneIr, Memory>
    ensures values { IfOk result (λ r. r.vals ≡ ir.now.vals + 16) }
    ensures variables { IfOk result (λ r. r.vars ≡ ir.now.vars) }
    ensures arrays { IfOk result (λ r. r.arrays.items ≡ ir.now.arrays.items) }
    ensures kinds { IfOk result (λ r. r.kinds.items ≡ ir.now.kinds.items) }
    ensures plain { IfOk result (λ r. each_def_all is_plain r.body.items ≡ true) }
    ensures undivided { IfOk result (λ r. each_def_all is_free ir.now.body.items ≡ true → each_def_all is_free r.body.items ≡ true) }
    ensures same { IfOk result (λ r. RunsAs (counts_of ir.now) ir.now.body.items r.body.items 0) }
{
    let vals = with_temporaries(ir.vals)?;
    let body = walked(alloc, ir.vals, &ir.body)?;
    let arrays = ir.arrays.clone()?;
    let kinds = ir.kinds.clone()?;
    Ok(LaneIr {
        vals,
        vars: ir.vars,
        arrays,
        kinds,
        body,
    })
}
