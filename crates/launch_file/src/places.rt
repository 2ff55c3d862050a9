//! Where a launch's buffers and scratches lie in the memory.

ghost use Rattle.std.specs.Prelude.{◌≡◌, ◌+◌, ◌*◌, ◌<◌, ◌≤◌, ◌^◌, ◌∷◌, ◌++◌, [], IfOk, IfErr, IfSome, ℕ, length, slice_get};
ghost use Rattle.launch_file.specs.Launches.{IsBuffer};
ghost use Rattle.launch_file.specs.Layout.{first_start, next_start, regions, start_after, buffer_lens, scratch_lens, layout_of, most_rows};

use crate::launch::{BufferLine, Launch, Memory};
use std::alloc::{AllocError, Global};
use std::marker::Model;

/// A part of the memory: where it begins, and how many bytes it has.
#[derive(Clone, Copy, Debug, PartialEq, Eq)]
pub struct Region2 {
    pub start: u32,
    pub len: u32,
}

/// The regions of a launch's buffers and of its QPUs' scratches, each in order, and how many bytes
/// the memory has.
#[derive(Drop)]
pub struct Places {
    pub buffers: Vec<Region2>,
    pub scratch: Vec<Region2>,
    pub size: u32,
}

impl Model for Places {
    ghost use Rattle.launch_file.specs.Layout.{PlacesOf};

    ghost Value = { PlacesOf };

    ghost view = { λ places. record {
      buffers = places.buffers.items;
      scratch = places.scratch.items;
      size = places.size;
    } };
}

/// Where the first region stands.
const FIRST_START: u32 = 65_536;

/// Regions that were placed, and where the next one stands.
#[derive(Drop)]
struct Placed {
    regions: Vec<Region2>,
    next: u32,
}

/// Where the region after one stands: 64 bytes behind its end, rounded up to a multiple of 64.
fn start_behind(start: u32, len: u32) -> u32
    requires { start + len + 127 < 2 ^ 32 }
    ensures { result ≡ next_start start len }
{
    (start + len + 64).next_multiple_of(64)
}

impl Placed {
    fn new(alloc: Global, start: u32, count: usize) -> Result<Placed, AllocError>
        ensures regions { IfOk result (λ placed. placed.regions.items ≡ []) }
        ensures next { IfOk result (λ placed. placed.next ≡ start) }
    {
        Ok(Placed {
            regions: Vec::with_capacity(alloc, count)?,
            next: start,
        })
    }

    fn place(&mut self, len: u32) -> Result<(), AllocError>
        requires { self.old.next + len + 127 < 2 ^ 32 }
        ensures regions { IfOk result (λ _. self.new.regions.items ≡ self.old.regions.items ++ record { start = self.old.next; len = len } ∷ []) }
        ensures next { IfOk result (λ _. self.new.next ≡ next_start self.old.next len) }
    {
        let start = self.next;
        self.regions.push(Region2 { start, len })?;
        self.next = start_behind(start, len);
        Ok(())
    }
}

fn place_buffers(alloc: Global, buffers: &[BufferLine]) -> Result<Placed, AllocError>
    requires count { length buffers.now ≤ 16 }
    requires buffers { (i : ℕ) → IfSome (slice_get buffers.now i) IsBuffer }
    ensures regions { IfOk result (λ placed. placed.regions.items ≡ regions first_start (buffer_lens buffers.now)) }
    ensures next { IfOk result (λ placed. placed.next ≡ start_after first_start (buffer_lens buffers.now)) }
    ensures below { IfOk result (λ placed. placed.next ≤ first_start + 16 * (16777216 + 127)) }
{
    let mut placed = Placed::new(alloc, FIRST_START, buffers.len())?;
    for buffer in buffers {
        placed.place(buffer.size)?;
    }
    Ok(placed)
}

fn place_scratch(alloc: Global, start: u32, qpus: u32, rows: u32) -> Result<Placed, AllocError>
    requires qpus { qpus ≤ 12 }
    requires rows { rows ≤ most_rows }
    requires start { start ≤ first_start + 16 * (16777216 + 127) }
    ensures regions { IfOk result (λ placed. placed.regions.items ≡ regions start (scratch_lens qpus rows)) }
    ensures next { IfOk result (λ placed. placed.next ≡ start_after start (scratch_lens qpus rows)) }
{
    let mut placed = Placed::new(alloc, start, qpus as usize)?;
    for _qpu in 0..qpus {
        placed.place(64 * rows)?;
    }
    Ok(placed)
}

/// Places the buffers of a launch and the scratches of its QPUs, each of so many rows of 64 bytes.
/// Want of memory is the only error.
#[tactic(auto, unfolding(crate::specs::Layout::layout_of))]
pub fn layout(alloc: Global, launch: &Launch, rows: u32) -> Result<Places, Memory>
    requires { rows ≤ most_rows }
    ensures { IfOk result (λ places. places ≡ layout_of launch.now rows) }
{
    let buffers = place_buffers(alloc, &launch.buffers)?;
    let scratch = place_scratch(alloc, buffers.next, launch.qpus, rows)?;
    Ok(Places {
        buffers: buffers.regions,
        scratch: scratch.regions,
        size: scratch.next,
    })
}
