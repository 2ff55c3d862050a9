//! The code of accesses, as `select` takes it.

ghost use Rattle.std.specs.Prelude.{IsTrue, map};
ghost use Rattle.vpm_dma_lower.specs.Accesses.{code_from};
ghost use Rattle.vpm_dma_lower.specs.Valid.{are_accesses};

use crate::access::Access;

/// The code of each access of a batch, in the order of the text.
#[derive(Drop)]
pub struct AccessList {
    pub list: Vec<Access>,
    /// Each names only what is there.
    ghost valid: { IsTrue (are_accesses (map code_from list.items)) },
}
