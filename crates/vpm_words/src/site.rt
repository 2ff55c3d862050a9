//! What a run never changes for one QPU.

use crate::state::Region;
use std::marker::Model;

/// One QPU's number, its uniforms, fewer than 2^32, the buffers, and its own scratch.
#[derive(Drop)]
pub struct Site<'a> {
    pub number: u32,
    pub uniforms: &'a [u32],
    pub buffers: &'a [Region],
    pub scratch: Region,
}

impl<'a> Model for Site<'a> {
    ghost use Rattle.std.specs.Prelude.{length, ◌<◌, ◌^◌};
    ghost use Rattle.vpm_words.specs.Access.{Site as SiteOf};

    ghost Value = { SiteOf };

    ghost invariant = { λ s. length s.uniforms.now < 2 ^ 32 };

    ghost view = { λ s. record { number = s.number; uniforms = s.uniforms.now; buffers = s.buffers.now; scratch = s.scratch } };
}
