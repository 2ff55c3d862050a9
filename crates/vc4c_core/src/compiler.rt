//! The compiler of this program.

ghost use Rattle.compile_pipe.specs.Kernels.{opencl};
ghost use Rattle.compile_pipe.proofs.Violations.{has_one_violation};
ghost use Rattle.compile_pipe.proofs.KernelLaws.{kernels_are_one};

use compile_pipe::compile;
use promise::{Compiler, Refusal};
use std::alloc::Global;
use vc4q_module::Module;

/// Compiles OpenCL C.
pub struct OpenClCompiler;

impl Compiler for OpenClCompiler {
    ghost language = { opencl };

    fn compile(alloc: Global, source: &[u8], kernel: &[u8]) -> Result<Module, Refusal> {
        compile(alloc, source, kernel)
    }

    ghost has_one_violation = { has_one_violation };

    ghost kernels_are_one = { kernels_are_one };
}
