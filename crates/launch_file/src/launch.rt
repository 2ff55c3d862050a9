//! What a launch file says.

use q_io::Text;
use std::alloc::AllocError;
use std::marker::Model;
use thiserror::Error;

/// A buffer: how many bytes it has, the file that it is filled from, and the file that it is written to.
#[derive(Drop)]
pub struct BufferLine {
    pub size: u32,
    pub from: Option<Text>,
    pub to: Option<Text>,
}

/// What a parameter gets: a number, or the buffer of this number.
#[derive(Clone, Copy, Debug, PartialEq, Eq)]
pub enum Arg {
    Value(i128),
    Buffer(u32),
}

/// In which order the QPUs and the transfers take their steps.
#[derive(Drop)]
pub enum Schedule {
    /// So many rounds: a step of each QPU, then one of each transfer.
    Rounds(u64),
    /// So many steps by the numbers of a seed.
    Seed { seed: u64, steps: u64 },
    /// The steps of a file's bytes, so many times over.
    File { name: Text, times: u64 },
}

/// A launch. Past its `dims` dimensions each size is 1.
#[derive(Drop)]
pub struct Launch {
    pub qpus: u32,
    pub global: [u32; 3],
    pub local: [u32; 3],
    pub dims: u32,
    pub buffers: Vec<BufferLine>,
    pub args: Vec<Arg>,
    pub schedule: Schedule,
}

impl Model for Launch {
    ghost use Rattle.launch_file.specs.Launches.{LaunchOf, IsLaunch};

    ghost Value = { LaunchOf };

    ghost view = { λ launch. record {
      qpus = launch.qpus;
      global = launch.global;
      local = launch.local;
      dims = launch.dims;
      buffers = launch.buffers.items;
      args = launch.args.items;
      schedule = launch.schedule;
    } };

    ghost invariant = { λ launch. IsLaunch (record {
      qpus = launch.qpus;
      global = launch.global;
      local = launch.local;
      dims = launch.dims;
      buffers = launch.buffers.items;
      args = launch.args.items;
      schedule = launch.schedule;
    }) };
}

/// Why there is no launch: a rule that a line violates, lines counted from 1, or no memory.
#[derive(Clone, Copy, Debug, PartialEq, Eq, Error)]
pub enum LaunchFault {
    #[error("rule")]
    Rule { rule: u8, line: u32 },
    #[error("memory")]
    Memory,
}

/// There was no memory.
pub type Memory = AllocError;
