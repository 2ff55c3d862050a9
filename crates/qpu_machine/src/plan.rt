//! What a machine is begun with.

use std::marker::Model;
use vpm_words::Region;

/// The code, the number of QPUs, `per` uniforms for each QPU in turn, the memory, and the regions
/// in it.
#[derive(Drop)]
pub struct Plan {
    pub words: Vec<u64>,
    pub qpus: u32,
    pub per: u32,
    pub uniforms: Vec<u32>,
    pub memory: Vec<u8>,
    pub buffers: Vec<Region>,
    pub scratch: Vec<Region>,
}

impl Model for Plan {
    ghost use Rattle.qpu_machine.specs.Planned.{Planned};

    ghost Value = { Planned };

    ghost view = { λ p. record {
      words = p.words.items;
      qpus = p.qpus;
      per = p.per;
      uniforms = p.uniforms.items;
      memory = p.memory.items;
      buffers = p.buffers.items;
      scratch = p.scratch.items;
    } };
}

/// What registers, accumulators, flags and the VPM open with: zeros, or the numbers that a seed
/// gives.
#[derive(Clone, Copy, Debug, PartialEq, Eq)]
pub enum Fill {
    Zero,
    Seed(u64),
}

/// What a run never changes.
#[derive(Drop)]
pub struct Fixed {
    pub code: Vec<u64>,
    pub uniforms: Vec<u32>,
    pub per: u32,
    pub buffers: Vec<Region>,
    pub scratch: Vec<Region>,
}

impl Model for Fixed {
    ghost use Rattle.qpu_machine.specs.Planned.{Fixed as Constant};

    ghost Value = { Constant };

    ghost view = { λ g. record {
      code = g.code.items;
      uniforms = g.uniforms.items;
      per = g.per;
      buffers = g.buffers.items;
      scratch = g.scratch.items;
    } };
}
