//! The limits of a kernel.

ghost use Rattle.std.specs.Prelude.{◌≡◌, IfOk};
ghost use Rattle.clc_counts.specs.Counts.{cap, tally_of};
ghost use Rattle.clc_counts.specs.Limits.{KeepsLimits};

use crate::count::count;
use crate::tally::{Tally, counted};
use clc_types::TFunction;
use std::alloc::{AllocError, Global};

/// Why a kernel is refused: it has too many nodes, or its private arrays have too many elements. A count above
/// 4,294,967,295 is given as that number.
#[derive(Clone, Copy, Debug, PartialEq, Eq)]
pub enum LimitFault {
    N1 { count: u32 },
    N2 { count: u32 },
    Memory,
}

/// The most nodes that a kernel may have, each call counted with the called function.
const NODES: u32 = 16_384;

/// The most elements that the private arrays of a kernel may have, counted in the same way.
const ELEMENTS: u32 = 1_024;

/// The nodes of the kernel and the elements of its arrays; a count above 4,294,967,295 is that number.
#[tactic(auto, using(crate::proofs::Saturates::kernel_capped))]
fn cut_tally(alloc: Global, functions: &[TFunction], kernel: u32) -> Result<Tally, AllocError>
    ensures { IfOk result (λ t. t ≡ cap (tally_of functions.now kernel)) }
{
    let tallies = count(alloc, functions)?;
    Ok(counted(&tallies, kernel))
}

/// The nodes of the kernel of this number, and the elements of its private arrays, each call counted with the called
/// function.
///
/// # Errors
///
/// `N1` where it has more than 16,384 nodes, else `N2` where its private arrays have more than 1,024 elements; or where
/// memory is wanting.
#[tactic(auto, using(crate::proofs::Within::within_limits, crate::proofs::Within::too_many_nodes, crate::proofs::Within::too_many_elements))]
pub fn kernel_tally(
    alloc: Global,
    functions: &[TFunction],
    kernel: u32,
) -> Result<Tally, LimitFault>
    ensures { KeepsLimits (tally_of functions.now kernel) result }
{
    let Ok(tally) = cut_tally(alloc, functions, kernel) else {
        return Err(LimitFault::Memory);
    };
    if tally.nodes > NODES {
        return Err(LimitFault::N1 { count: tally.nodes });
    }
    if tally.elements > ELEMENTS {
        return Err(LimitFault::N2 {
            count: tally.elements,
        });
    }
    Ok(tally)
}
