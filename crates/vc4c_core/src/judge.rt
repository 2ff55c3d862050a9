//! The judge of this program.

ghost use Rattle.item_meaning.specs.ItemMeaning.{item as item_of};
ghost use Rattle.clc_meanings.specs.Meanings.{opencl_meanings};
ghost use Rattle.clc_meanings.proofs.OneMeaning.{meanings_are_one};

use clc_front::{WantedKernel, front};
use kernel_meaning::judge;
use launch_file::Launch;
use launch_meaning::{Bytes, Verdict};
use promise::{JudgedKernel, Refusal};
use q_lane::Kind;
use std::alloc::{AllocError, Global};

/// A kernel of a source of OpenCL C that violates no rule, with the source's typed tree.
#[derive(Drop)]
pub struct OpenClKernel {
    wanted: WantedKernel,
}

impl JudgedKernel for OpenClKernel {
    ghost meanings = { opencl_meanings };

    ghost meaning = { λ k. record { kinds = k.wanted.kinds.items; item = item_of k.wanted.typed.functions k.wanted.kernel } };

    fn of_source(alloc: Global, source: &[u8], kernel: &[u8]) -> Result<OpenClKernel, Refusal> {
        match front(alloc, source, kernel) {
            Ok(wanted) => Ok(OpenClKernel { wanted }),
            Err(refusal) => Err(refusal),
        }
    }

    fn kinds(&self) -> &[Kind] {
        self.wanted.kinds.as_slice()
    }

    fn verdict(
        &self,
        alloc: Global,
        launch: &Launch,
        buffers: &[Bytes],
        turns: u32,
    ) -> Result<Verdict, AllocError> {
        judge(
            alloc,
            &self.wanted.typed,
            self.wanted.kernel,
            launch,
            buffers,
            turns,
        )
    }

    ghost meanings_are_one = { meanings_are_one };
}
