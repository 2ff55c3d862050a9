//! The outermost statements of a batch.

ghost use Rattle.std.specs.Prelude.{[], IfOk, map};
ghost use Rattle.vpm_dma_lower.specs.Accesses.{code_from};
ghost use Rattle.qpu_select.specs.Code.{HasRoom};
ghost use Rattle.qpu_select.specs.Clears.{emit_body};
ghost use Rattle.qpu_select.specs.Emitting.{start_of, Adds};

use crate::clears::put_cleared;
use crate::emitted::Emitted;
use crate::registers::{Memory, all};
use crate::shape::Shape;
use crate::walk::put_statement;
use lane_ir::LaneStmt;
use std::alloc::Global;
use vpm_dma_lower::Access;

/// Adds the code of a batch's statements, and before each outermost one the clears for it.
pub fn put_body(
    alloc: Global,
    out: &mut Emitted,
    h: Shape,
    list: &[Access],
    body: &[LaneStmt],
) -> Result<(), Memory>
    requires { HasRoom h }
    ensures { IfOk result (λ _. Adds (emit_body h (map code_from list.now) [] body.now (start_of out.old)) out.old out.new) }
{
    let mut flags = vec![in alloc; false; all(h) as usize]?;
    for stmt in body {
        put_cleared(alloc, &mut out.ops, &mut flags, h, stmt)?;
        put_statement(alloc, out, h, list, stmt)?;
    }
    Ok(())
}
