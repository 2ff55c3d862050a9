//! One work-item of a launch of a kernel.

ghost use Rattle.std.specs.Prelude.{◌≡◌, ℕ, suc, ◌-◌, ◌≤◌, IfOk, get_or, map};
ghost use Rattle.q_lane.specs.Numbers.{word_of as word_of_number};
ghost use Rattle.q_functions.specs.WorkFunctions.{work_of as work_of_item};
ghost use Rattle.item_meaning.specs.ItemMeaning.{item, item_end, calls_below, opening, value_of_arg as value_of_argument};

use crate::run::call_with;
use crate::setting::Setting;
use clc_types::{TFunction, Typed};
use item_meaning::Value;
use item_values::{Arrays, Running, Stop};
use launch_file::{Arg, Launch};
use launch_meaning::{Buffers, Ended, ItemEnd};
use q_functions::{Work, work_of};
use sqlite_items::Items;
use std::alloc::{AllocError, Global};

/// The number modulo 2^32.
fn word_of(number: i128) -> u32
    ensures { result ≡ word_of_number number }
{
    number.rem_euclid(0x1_0000_0000) as u32
}

fn value_of_arg(arg: Arg) -> Value
    ensures { result ≡ value_of_argument arg }
{
    match arg {
        Arg::Value(number) => Value::Num(word_of(number)),
        Arg::Buffer(buffer) => Value::At { buffer, offset: 0 },
    }
}

fn arguments(alloc: Global, args: &[Arg]) -> Result<Items<Value>, AllocError>
    ensures { IfOk result (λ values. values ≡ map value_of_argument args.now) }
{
    let mut values = Items::new(alloc);
    for arg in args {
        values.push(value_of_arg(*arg))?;
    }
    Ok(values)
}

/// Runs a kernel for one work-item, with these arguments.
fn run_kernel(
    alloc: Global,
    work: &Work,
    functions: &[TFunction],
    kernel: u32,
    args: Items<Value>,
    buffers: Buffers,
    turns: u32,
) -> Result<ItemEnd, AllocError>
    requires { (i : ℕ) → 1 ≤ get_or work.now.local i 1 }
    ensures { IfOk result (λ end. end ≡ item_end turns (calls_below work.now functions.now (suc kernel) kernel args (opening buffers turns))) }
{
    let setting = Setting {
        work,
        functions,
        callable: kernel as usize + 1,
    };
    let mut running = Running::new(alloc, Arrays::new(alloc, 0)?, buffers, turns);
    match call_with(alloc, &setting, &mut running, kernel, args) {
        Ok(_) => Ok(ended(running, turns)),
        Err(Stop::Bounds(at)) => Ok(ItemEnd::Bounds { at }),
        Err(Stop::Spent) => Ok(ItemEnd::Spent),
        Err(Stop::Memory) => Err(AllocError),
    }
}

fn ended(running: Running, turns: u32) -> ItemEnd
    ensures { result ≡ ItemEnd.Ends (record { buffers = running.buffers; marks = running.marks; turns = turns - running.left }) }
{
    let (buffers, marks, left) = running.into_parts();
    ItemEnd::Ends(Ended {
        buffers,
        marks,
        turns: turns.saturating_sub(left),
    })
}

/// The work-item of this flat id in a launch.
fn work_in(launch: &Launch, id: u32) -> Work
    ensures work { result ≡ work_of_item launch.now.dims launch.now.global launch.now.local id }
    ensures groups { (i : ℕ) → 1 ≤ get_or result.local i 1 }
{
    work_of(launch.dims, launch.global, launch.local, id)
}

/// Runs one work-item of a launch of a kernel, which is the function of this number: the item of this flat id, on the buffers that it finds,
/// with so many turns. The only error is that no memory was left.
#[tactic(auto, unfolding(item_meaning::specs::ItemMeaning::item))]
pub fn run_item(
    alloc: Global,
    typed: &Typed,
    kernel: u32,
    launch: &Launch,
    id: u32,
    buffers: Buffers,
    turns: u32,
) -> Result<ItemEnd, AllocError>
    ensures { IfOk result (λ end. end ≡ item typed.now.functions kernel launch.now id buffers turns) }
{
    let work = work_in(launch, id);
    let args = arguments(alloc, &launch.args)?;
    run_kernel(
        alloc,
        &work,
        typed.functions.as_slice(),
        kernel,
        args,
        buffers,
        turns,
    )
}
