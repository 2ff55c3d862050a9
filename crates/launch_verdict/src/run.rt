//! Runs the items of a launch one by one, and says how that ends.

ghost use Rattle.std.specs.Prelude.{IfOk};
ghost use Rattle.launch_meaning.specs.LaunchMeaning.{IsVerdict};
ghost use Rattle.launch_verdict.specs.Ran.{Ran, IsVerdictOf};

use launch_meaning::{Buffers, Clash, Ended, ItemEnd, Verdict, WorkItems};
use std::alloc::{AllocError, Global};
use touches::Touches;

/// The verdict on a launch of so many items on these buffers, where each item has so many turns. The only error is
/// that memory is wanting.
pub fn judge<W: WorkItems>(
    alloc: Global,
    work: &W,
    items: u32,
    buffers: Buffers,
    turns: u32,
) -> Result<Verdict, AllocError>
    ensures { IfOk result (λ verdict. IsVerdict (W.item work.now) items buffers turns verdict) }
{
    let mut left = buffers;
    let mut touches = Touches::new(alloc);
    let mut all = 0u64;
    for item in 0..items {
        match work.run(item, left, turns)? {
            ItemEnd::Ends(ended) => {
                touches = touches.add(item, &ended)?;
                let Ended {
                    buffers: after,
                    marks: _,
                    turns: used,
                } = ended;
                all += u64::from(used);
                left = after;
            }
            ItemEnd::Bounds { at } => return Ok(Verdict::Bounds { item, at }),
            ItemEnd::Spent => return Ok(Verdict::Spent { item }),
        }
    }
    Ok(verdict(touches.least_race(), all, left))
}

/// What is said of a launch whose items all come to their ends.
fn verdict(race: Option<Clash>, turns: u64, buffers: Buffers) -> Verdict
    ensures { IsVerdictOf race turns buffers result }
{
    match race {
        Some(clash) => Verdict::Race {
            buffer: clash.buffer,
            byte: clash.byte,
            first: clash.first,
            second: clash.second,
        },
        None => Verdict::Safe {
            turns,
            buffers: buffers.into_vec(),
        },
    }
}
