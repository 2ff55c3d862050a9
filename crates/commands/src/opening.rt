//! The machine of a module and a launch before its first step.

ghost use Rattle.std.specs.Prelude.{◌≡◌, ◌+◌, ◌<◌, ◌≤◌, ◌^◌, [], length, map, replicate, IfOk, OnOk};
ghost use Rattle.launch_file.specs.Launches.{IsLaunch};
ghost use Rattle.launch_file.specs.Layout.{ArePlaces, buffer_lens, layout_of, most_rows};
ghost use Rattle.vc4q_module.specs.ModuleBytes.{IsModule};
ghost use Rattle.promise.specs.Openings.{gap, with_region, with_regions, memory_of, all_uniforms, region_of, plan_for, AreAllBytes};
ghost use Rattle.launch_file.specs.Laws.{Fits};
ghost use Rattle.commands.specs.Openings.{empty_scratch, opening_for};

use launch_file::{Launch, Places, Region2, layout, uniforms};
use q_io::Text;
use qpu_machine::{Fill, Machine, Plan, Region};
use std::alloc::{AllocError, Global};
use vc4q_module::Module;

/// Where the first region stands.
const FIRST_START: usize = 65_536;

/// What bytes outside regions hold.
const GAP: u8 = 165;

/// So many bytes are between regions at least, and regions begin at multiples of it.
const APART: usize = 64;

const ROW_BYTES: usize = 64;

/// The uniforms before those of the arguments.
const WORK_UNIFORMS: u32 = 12;

/// So many bytes outside regions.
#[tactic(auto, unfolding(promise::specs::Openings::gap))]
fn gap_bytes(alloc: Global, size: usize) -> Result<Vec<u8>, AllocError>
    ensures { IfOk result (λ bytes. bytes.items ≡ gap size) }
{
    Ok(vec![in alloc; GAP; size]?)
}

/// Puts a region behind the memory, and the gap behind it.
#[tactic(auto, unfolding(promise::specs::Openings::with_region, promise::specs::Openings::gap))]
fn put_region(memory: &mut Vec<u8>, bytes: &[u8]) -> Result<(), AllocError>
    ensures { OnOk result (memory.new.items ≡ with_region memory.old.items bytes.now) }
{
    memory.extend_from_slice(bytes)?;
    let next = (memory.len() + APART).next_multiple_of(APART);
    memory.resize(next, GAP)
}

/// Puts buffers behind the memory.
#[tactic(auto, unfolding(promise::specs::Openings::with_regions))]
fn put_buffers(memory: &mut Vec<u8>, buffers: &[Text]) -> Result<(), AllocError>
    ensures { OnOk result (memory.new.items ≡ with_regions memory.old.items buffers.now) }
{
    for buffer in buffers {
        put_region(memory, buffer.as_bytes())?;
    }
    Ok(())
}

/// Puts so many scratches behind the memory.
#[tactic(auto, unfolding(promise::specs::Openings::with_regions))]
fn put_scratches(memory: &mut Vec<u8>, scratch: &[u8], qpus: u32) -> Result<(), AllocError>
    ensures { OnOk result (memory.new.items ≡ with_regions memory.old.items (replicate qpus scratch.now)) }
{
    for _qpu in 0..qpus {
        put_region(memory, scratch)?;
    }
    Ok(())
}

/// The memory of a launch.
#[tactic(auto, unfolding(promise::specs::Openings::memory_of, crate::specs::Openings::empty_scratch))]
fn memory_for(alloc: Global, buffers: &[Text], qpus: u32, rows: u32) -> Result<Vec<u8>, AllocError>
    ensures { IfOk result (λ memory. memory.items ≡ memory_of buffers.now (replicate qpus (empty_scratch rows))) }
{
    let scratch = vec![in alloc; 0u8; ROW_BYTES * rows as usize]?;
    let mut memory = gap_bytes(alloc, FIRST_START)?;
    put_buffers(&mut memory, buffers)?;
    put_scratches(&mut memory, &scratch, qpus)?;
    Ok(memory)
}

/// The uniforms of QPU 0, 1 and so on.
#[tactic(auto, using(crate::proofs::OpeningSteps::uniforms_more), unfolding(promise::specs::Openings::all_uniforms))]
fn uniforms_for(alloc: Global, launch: &Launch, places: &Places) -> Result<Vec<u32>, AllocError>
    requires { ArePlaces launch.now places.now }
    ensures { IfOk result (λ words. words.items ≡ all_uniforms launch.now places.now) }
{
    let mut words = Vec::new(alloc);
    for qpu in 0..launch.qpus {
        let more = uniforms(alloc, launch, places, qpu)?;
        words.extend_from_slice(&more)?;
    }
    Ok(words)
}

/// The regions, as the machine has them.
fn regions_for(alloc: Global, places: &[Region2]) -> Result<Vec<Region>, AllocError>
    ensures { IfOk result (λ regions. regions.items ≡ map region_of places.now) }
{
    let mut regions = Vec::with_capacity(alloc, places.len())?;
    for place in places {
        regions.push(Region {
            start: place.start,
            len: place.len,
        })?;
    }
    Ok(regions)
}

/// What the machine of a module and a launch is begun with, where the buffers have these bytes.
#[tactic(auto, unfolding(promise::specs::Openings::plan_for))]
fn plan(
    alloc: Global,
    module: Module,
    launch: &Launch,
    buffers: &[Text],
) -> Result<Plan, AllocError>
    requires code { IsModule «module» }
    requires fits { Fits launch.now «module».kinds [] }
    ensures { IfOk result (λ plan. plan ≡ plan_for «module» launch.now buffers.now (replicate launch.now.qpus (empty_scratch «module».rows))) }
{
    let places = layout(alloc, launch, module.rows)?;
    let uniforms = uniforms_for(alloc, launch, &places)?;
    let memory = memory_for(alloc, buffers, launch.qpus, module.rows)?;
    let buffers = regions_for(alloc, &places.buffers)?;
    let scratch = regions_for(alloc, &places.scratch)?;
    Ok(Plan {
        words: module.words,
        qpus: launch.qpus,
        per: WORK_UNIFORMS + launch.args.len() as u32,
        uniforms,
        memory,
        buffers,
        scratch,
    })
}

/// The machine of a module and a launch before its first step.
#[tactic(auto, unfolding(crate::specs::Openings::opening_for))]
pub fn open(
    alloc: Global,
    module: Module,
    launch: &Launch,
    buffers: &[Text],
) -> Result<Machine, AllocError>
    requires code { IsModule «module» }
    requires fits { Fits launch.now «module».kinds [] }
    requires sizes { map length buffers.now ≡ buffer_lens launch.now.buffers }
    requires bytes { AreAllBytes buffers.now }
    ensures { IfOk result (λ machine. machine ≡ opening_for «module» launch.now buffers.now) }
{
    let _qpus = launch.qpus;
    let plan = plan(alloc, module, launch, buffers)?;
    Machine::begin(alloc, plan, Fill::Zero)
}
