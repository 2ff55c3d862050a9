//! The verdict on a launch of a kernel.

ghost use Rattle.std.specs.Prelude.{◌≡◌, IfOk};
ghost use Rattle.launch_file.specs.Launches.{items_of};
ghost use Rattle.launch_meaning.specs.LaunchMeaning.{IsVerdict};
ghost use Rattle.launch_meaning.specs.Small.{AreSmall};
ghost use Rattle.item_meaning.specs.ItemMeaning.{item};

use crate::items::KernelItems;
use clc_types::Typed;
use launch_file::{Launch, count_items};
use launch_meaning::{Buffers, Bytes, Verdict};
use sqlite_items::Items;
use std::alloc::{AllocError, Global};

/// What a launch of the kernel of this number does, where its buffers have these bytes and each work-item has so many
/// turns. The only error is that memory is wanting.
pub fn judge(
    alloc: Global,
    typed: &Typed,
    kernel: u32,
    launch: &Launch,
    buffers: &[Bytes],
    turns: u32,
) -> Result<Verdict, AllocError>
    requires { AreSmall buffers.now }
    ensures { IfOk result (λ verdict. IsVerdict (item typed.now.functions kernel launch.now) (items_of launch.now.global) buffers.now turns verdict) }
{
    let opening = copy_of(alloc, buffers)?;
    let work = KernelItems {
        alloc,
        typed,
        kernel,
        launch,
    };
    launch_verdict::judge(alloc, &work, count_items(launch), opening, turns)
}

fn copy_of(alloc: Global, buffers: &[Bytes]) -> Result<Buffers, AllocError>
    requires { AreSmall buffers.now }
    ensures { IfOk result (λ copy. copy ≡ buffers.now) }
{
    let mut copy = Buffers::new(alloc);
    for bytes in buffers {
        copy.push(Items::from_slice(alloc, bytes.as_slice())?)?;
    }
    Ok(copy)
}
