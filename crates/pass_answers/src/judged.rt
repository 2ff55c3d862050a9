//! What a launch of a source means.

ghost use Rattle.std.specs.Prelude.{◌≡◌, ◌<◌, ◌^◌, length, IfOk, OnOk};
ghost use Rattle.launch_meaning.specs.Small.{AreSmall};

use clc_types::Typed;
use kernel_meaning::{Bytes, Verdict, judge};
use launch_file::{BufferLine, Launch};
use q_io::Text;
use sqlite_items::Items;
use std::alloc::{AllocError, Global};
use std::collections::BTreeMap;

/// Each work-item of a row may take so many turns.
const TURNS: u32 = 100_000_000;

/// The bytes, cut or filled up with zeros to a size.
fn sized(alloc: Global, bytes: &[u8], size: u32) -> Result<Bytes, AllocError>
    ensures { IfOk result (λ all. length all ≡ size) }
{
    let mut all = vec![in alloc; 0u8; size as usize]?;
    for (to, from) in all.iter_mut().zip(bytes) {
        *to = *from;
    }
    Items::from_slice(alloc, &all)
}

fn add(buffers: &mut Vec<Bytes>, bytes: Bytes) -> Result<(), AllocError>
    requires one { length bytes < 2 ^ 32 }
    requires others { AreSmall buffers.old.items }
    ensures { OnOk result (AreSmall buffers.new.items) }
{
    buffers.push(bytes)?;
    Ok(())
}

/// The buffers of a launch before it runs.
fn opening(
    alloc: Global,
    lines: &[BufferLine],
    files: &BTreeMap<Text, Vec<u8>>,
) -> Result<Vec<Bytes>, AllocError>
    ensures { IfOk result (λ v. AreSmall v.items) }
{
    let mut buffers = Vec::new(alloc);
    for line in lines {
        let bytes: &[u8] = match &line.from {
            Some(name) => match files.get(name) {
                Some(bytes) => bytes,
                None => &[],
            },
            None => &[],
        };
        add(&mut buffers, sized(alloc, bytes, line.size)?)?;
    }
    Ok(buffers)
}

/// The verdict on a launch of the kernel of this number.
pub fn verdict(
    alloc: Global,
    typed: &Typed,
    kernel: u32,
    launch: &Launch,
    files: &BTreeMap<Text, Vec<u8>>,
) -> Result<Verdict, AllocError> {
    let buffers = opening(alloc, &launch.buffers, files)?;
    judge(alloc, typed, kernel, launch, &buffers, TURNS)
}
