//! The pass.

ghost use Rattle.std.specs.Prelude.{◌≡◌, ◌+◌, ◌<◌, ◌^◌, true, IfOk};
ghost use Rattle.lane_mapper.specs.Asked.{no_uses, asked_all};
ghost use Rattle.lane_mapper.specs.Definitions.{define_within};
ghost use Rattle.lane_mapper.specs.Prolog.{val, prolog, prolog_vals, ids_from};

use crate::form::LaneProlog;
use crate::steps::{id_values, put_ids, put_live};
use crate::uses::{Uses, with_body};
use item_ir::{Ir, Val};
use std::alloc::{AllocError, Global};

pub type Memory = AllocError;

/// The first number of a value after a prolog whose first value is given, where there is room for it.
fn after_prolog(first: u32) -> Result<u32, Memory>
    ensures { IfOk result (λ n. (n ≡ first + prolog_vals) × (first + 32 < 2 ^ 32)) }
{
    if first < u32::MAX - 32 {
        Ok(first + 21)
    } else {
        Err(AllocError)
    }
}

/// The prolog of an item's batches. It defines the values from the item's own up to `vals`, and no other.
///
/// # Errors
///
/// Where memory or numbers of values are wanting.
pub fn map_ids(alloc: Global, ir: &Ir) -> Result<LaneProlog, Memory>
    ensures values { IfOk result (λ p. p.vals ≡ ir.now.vals + prolog_vals) }
    ensures body { IfOk result (λ p. p.body.items ≡ prolog ir.now.vals (asked_all no_uses ir.now.body.items)) }
    ensures own { IfOk result (λ p. define_within ir.now.vals p.vals p.body.items ≡ true) }
    ensures live { IfOk result (λ p. p.live ≡ val (ir.now.vals + 2)) }
    ensures ids { IfOk result (λ p. p.ids.items ≡ ids_from ir.now.vals) }
{
    let first = ir.vals;
    let vals = after_prolog(first)?;
    let ids = id_values(alloc, first)?;
    let uses = with_body(Uses::none(), &ir.body);
    let mut body = Vec::new(alloc);
    put_live(&mut body, first)?;
    put_ids(&mut body, first, uses)?;
    Ok(LaneProlog {
        vals,
        body,
        live: Val(first + 2),
        ids,
    })
}
