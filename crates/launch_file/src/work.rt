//! The uniforms that a QPU begins with.

ghost use Rattle.std.specs.Prelude.{◌≡◌, ◌<◌, ◌≤◌, ◌*◌, ◌+◌, ◌/◌, ◌∷◌, ◌++◌, ℕ, map, length, slice_get, IfOk, IfSome};
ghost use Rattle.launch_file.specs.Launches.{AreSizes, IsArg, items_of};
ghost use Rattle.launch_file.specs.Layout.{ArePlaces};
ghost use Rattle.launch_file.specs.Uniforms.{batches, arg_word, work_words, uniforms_of};

use crate::launch::{Arg, Launch, Memory};
use crate::places::{Places, Region2};
use std::alloc::{AllocError, Global};

/// How many items a batch has.
const BATCH: u32 = 16;

/// How many work-items a launch has.
pub fn count_items(launch: &Launch) -> u32
    ensures items { result ≡ items_of launch.now.global }
    ensures few { result ≤ 1048576 }
{
    let [x, y, z] = launch.global;
    x * y * z
}

/// The number modulo 2^32, or the address of the buffer.
#[tactic(auto, unfolding(crate::specs::Uniforms::arg_word))]
fn word_of_arg(buffers: &[Region2], arg: Arg) -> u32
    requires { IsArg (length buffers.now) arg }
    ensures { result ≡ arg_word buffers.now arg }
{
    match arg {
        Arg::Value(number) => number.rem_euclid(1 << 32) as u32,
        Arg::Buffer(i) => buffers[i as usize].start,
    }
}

/// What stands before the arguments.
#[tactic(auto, unfolding(crate::specs::Uniforms::work_words))]
fn words_of_work(
    alloc: Global,
    launch: &Launch,
    places: &Places,
    qpu: u32,
) -> Result<Vec<u32>, AllocError>
    requires { qpu < length places.now.scratch }
    ensures { IfOk result (λ words. words.items ≡ work_words launch.now places.now qpu) }
{
    let items = count_items(launch);
    let address = places.scratch[qpu as usize].start;
    let batches = items.div_ceil(BATCH);
    let mut words = Vec::from_slice(
        alloc,
        &[address, qpu, launch.qpus, batches, items, launch.dims],
    )?;
    words.extend_from_slice(&launch.global)?;
    words.extend_from_slice(&launch.local)?;
    Ok(words)
}

/// The uniforms of a QPU, where the launch lies at these places. Want of memory is the only error.
#[tactic(auto, unfolding(crate::specs::Uniforms::uniforms_of))]
pub fn uniforms(
    alloc: Global,
    launch: &Launch,
    places: &Places,
    qpu: u32,
) -> Result<Vec<u32>, Memory>
    requires places { ArePlaces launch.now places.now }
    requires qpu { qpu < launch.now.qpus }
    ensures { IfOk result (λ words. words.items ≡ uniforms_of launch.now places.now qpu) }
{
    let mut words = words_of_work(alloc, launch, places, qpu)?;
    for arg in &launch.args {
        words.push(word_of_arg(&places.buffers, *arg))?;
    }
    Ok(words)
}
