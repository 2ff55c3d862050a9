//! The work-items of a launch.

ghost use Rattle.std.specs.Prelude.{◌≡◌, IfOk};
ghost use Rattle.launch_meaning.specs.LaunchMeaning.{Item};

use crate::buffers::Buffers;
use crate::ends::ItemEnd;
use std::alloc::AllocError;

/// The work-items of a launch, which can be run.
pub trait WorkItems {
    /// What an item makes of its flat id, of the buffers that it finds and of the turns that it is given.
    ghost item: { Self → Item };

    /// Runs the item of this flat id on these buffers, with so many turns. The only error is that memory is wanting.
    fn run(&self, id: u32, buffers: Buffers, turns: u32) -> Result<ItemEnd, AllocError>
        ensures { IfOk result (λ e. e ≡ item self.now id buffers turns) };
}
