//! What a machine is begun with.

ghost use Rattle.std.specs.Prelude.{◌≡◌, ◌+◌, IfOk, IsTrue, length};
ghost use Rattle.qpu_machine.specs.Planned.{IsPlan};
ghost use Rattle.machine_rows.specs.Ready.{AreClear, LiesIn, ArePlaced, IsReady};

use crate::begun::Begun;
use qpu_machine::{Fill, Machine, Plan, Region};
use std::alloc::{AllocError, Global};

/// No bytes.
pub const NOWHERE: Region = Region { start: 0, len: 0 };

/// How many QPUs there are at most.
const MOST_QPUS: u32 = 12;

/// How many words the code has at most.
const MOST_WORDS: usize = 16_777_216;

/// Where buffers 0, 1 and 2 lie in the memory. A buffer that isn't named has no bytes.
#[derive(Clone, Copy)]
pub struct Places {
    pub first: Region,
    pub second: Region,
    pub third: Region,
}

/// The code, the uniforms, the memory and the buffers in it.
#[derive(Drop)]
pub struct Opening {
    pub code: Vec<u64>,
    pub per: u32,
    pub uniforms: Vec<u32>,
    pub memory: Vec<u8>,
    pub places: Places,
}

impl Opening {
    pub fn new(alloc: Global) -> Opening {
        Opening {
            code: Vec::new(alloc),
            per: 0,
            uniforms: Vec::new(alloc),
            memory: Vec::new(alloc),
            places: Places {
                first: NOWHERE,
                second: NOWHERE,
                third: NOWHERE,
            },
        }
    }
}

fn end(region: Region) -> u64
    ensures { result ≡ region.start + region.len }
{
    u64::from(region.start) + u64::from(region.len)
}

/// Whether no byte lies in both.
fn are_apart(one: Region, other: Region) -> bool
    ensures { IsTrue result → AreClear one other }
{
    one.len == 0
        || other.len == 0
        || end(one) <= u64::from(other.start)
        || end(other) <= u64::from(one.start)
}

fn lies_in(region: Region, memory: &[u8]) -> bool
    ensures { IsTrue result → LiesIn (length memory.now) region }
{
    end(region) <= memory.len() as u64
}

/// Whether the buffers lie in the memory and apart.
fn are_placed(places: &Places, memory: &[u8]) -> bool
    ensures { IsTrue result → ArePlaced (length memory.now) places.now }
{
    let Places {
        first,
        second,
        third,
    } = *places;
    let within = lies_in(first, memory) && lies_in(second, memory) && lies_in(third, memory);
    within && are_apart(first, second) && are_apart(first, third) && are_apart(second, third)
}

/// Whether so many QPUs can run the code with these uniforms, and the buffers lie where they may.
fn is_ready(opening: &Opening, qpus: u32) -> bool
    ensures { IsTrue result → IsReady opening.now qpus }
{
    if qpus < 1 || qpus > MOST_QPUS {
        return false;
    }
    let per = opening.per;
    opening.uniforms.len() as u64 == u64::from(qpus) * u64::from(per)
        && !opening.code.is_empty()
        && opening.code.len() <= MOST_WORDS
        && opening.memory.len() <= u32::MAX as usize
        && are_placed(&opening.places, &opening.memory)
}

fn plan(alloc: Global, opening: &Opening, qpus: u32) -> Result<Plan, AllocError>
    requires { IsReady opening.now qpus }
    ensures plan { IfOk result IsPlan }
    ensures count { IfOk result (λ plan. plan.qpus ≡ qpus) }
    ensures buffers { IfOk result (λ plan. length plan.buffers ≡ 3) }
{
    let Places {
        first,
        second,
        third,
    } = opening.places;
    Ok(Plan {
        words: opening.code.as_slice().to_vec(alloc)?,
        qpus,
        per: opening.per,
        uniforms: opening.uniforms.as_slice().to_vec(alloc)?,
        memory: opening.memory.as_slice().to_vec(alloc)?,
        buffers: [first, second, third].to_vec(alloc)?,
        scratch: vec![in alloc; NOWHERE; qpus as usize]?,
    })
}

/// So many QPUs at the opening, if a machine can be begun with it.
#[tactic(auto, unfolding(qpu_machine::specs::Opening::opening))]
pub fn begin(
    alloc: Global,
    opening: &Opening,
    qpus: u32,
    fill: Fill,
) -> Result<Option<Begun>, AllocError> {
    if !is_ready(opening, qpus) {
        return Ok(None);
    }
    let plan = plan(alloc, opening, qpus)?;
    let machine = Machine::begin(alloc, plan, fill)?;
    Ok(Some(Begun::new(machine, qpus)))
}
