//! Where transfers may be started.

use crate::parts::{Fault, Parts};
use crate::setups::transfer;
use crate::texts::text_of;
use std::alloc::Global;
use vpm_words::{Region, may_start};

const BUFFERS: [Region; 2] = [
    Region {
        start: 256,
        len: 64,
    },
    Region {
        start: 320,
        len: 64,
    },
];

const SCRATCH: Region = Region {
    start: 512,
    len: 64,
};

/// Whether a transfer may be started at an address.
pub fn answer(alloc: Global, parts: &mut Parts<'_>) -> Result<String, Fault> {
    parts.skip("may_start")?;
    let moved = transfer(parts)?;
    parts.skip("at")?;
    text_of(
        alloc,
        may_start(&BUFFERS, &SCRATCH, moved, parts.address()?),
    )
}
