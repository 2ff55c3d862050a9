//! The work-items of a launch of a kernel.

use clc_types::Typed;
use item_run::run_item;
use launch_file::Launch;
use launch_meaning::{Buffers, ItemEnd, WorkItems};
use std::alloc::{AllocError, Global};

/// The work-items of a launch of the kernel of this number.
#[derive(Clone, Copy)]
pub(crate) struct KernelItems<'a> {
    pub(crate) alloc: Global,
    pub(crate) typed: &'a Typed,
    pub(crate) kernel: u32,
    pub(crate) launch: &'a Launch,
}

impl<'a> WorkItems for KernelItems<'a> {
    ghost use Rattle.item_meaning.specs.ItemMeaning.{item as item_of};

    ghost item = { λ k. item_of k.typed.now.functions k.kernel k.launch.now };

    fn run(&self, id: u32, buffers: Buffers, turns: u32) -> Result<ItemEnd, AllocError> {
        run_item(
            self.alloc,
            self.typed,
            self.kernel,
            self.launch,
            id,
            buffers,
            turns,
        )
    }
}
