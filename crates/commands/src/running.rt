//! The command `run`: a source is compiled, and its module is run on the buffers of a launch.

ghost use Rattle.std.specs.Prelude.{◌≡◌, ◌∷◌, [], true, IfOk};
ghost use Rattle.vc4q_module.specs.ModuleBytes.{IsModule};
ghost use Rattle.commands.specs.Plan.{no_meanings, no_sources, both, Ends};
ghost use Rattle.commands.specs.Compile.{keep_plan, run_plan};

use crate::compiling::make_module;
use crate::exec::exec_launch;
use crate::places::{say_trouble, write_place};
use crate::status::Status;
use promise::Compiler;
use q_io::{Files, Sink, Text};
use std::alloc::{AllocError, Global};
use vc4q_module::Module;

/// The names that the command has, which no buffer may be written to.
fn names_of(
    alloc: Global,
    source_name: &str,
    module_name: &str,
    launch_name: &str,
) -> Result<Vec<Text>, AllocError>
    ensures { IfOk result (λ names. names.items ≡ source_name.now ∷ module_name.now ∷ launch_name.now ∷ []) }
{
    let mut names = Vec::with_capacity(alloc, 3)?;
    names.push(Text::from_slice(alloc, source_name.as_bytes())?)?;
    names.push(Text::from_slice(alloc, module_name.as_bytes())?)?;
    names.push(Text::from_slice(alloc, launch_name.as_bytes())?)?;
    Ok(names)
}

/// Writes a module, and runs it. `taken` are the files that the command names.
#[tactic(auto, unfolding(crate::specs::Compile::keep_plan))]
fn keep_module<F: Files, S: Sink>(
    alloc: Global,
    taken: &[Text],
    module_name: &str,
    launch_name: &str,
    module: Module,
    files: &mut F,
    out: &mut S,
) -> Status
    requires { IsModule «module» }
    ensures { Ends no_sources true (keep_plan taken.now module_name.now launch_name.now «module»)
        (F.state files.old) (S.state out.old) (F.state files.new) (S.state out.new) result }
{
    let bytes = match vc4q_module::write(alloc, &module) {
        Ok(bytes) => bytes,
        Err(_) => return Status::Memory,
    };
    match write_place(files, module_name, &bytes) {
        Ok(()) => exec_launch(alloc, module, taken, launch_name, files, out),
        Err(trouble) => say_trouble(out, trouble, module_name),
    }
}

/// Compiles the kernel of a source file to a module file, and runs that by the launch file.
#[tactic(auto, unfolding(crate::specs::Compile::run_plan))]
pub fn run_file<C: Compiler, F: Files, S: Sink>(
    alloc: Global,
    source_name: &str,
    kernel: &str,
    module_name: &str,
    launch_name: &str,
    files: &mut F,
    out: &mut S,
) -> Status
    ensures { Ends (both C.language no_meanings) true (run_plan source_name.now kernel.now module_name.now launch_name.now)
        (F.state files.old) (S.state out.old) (F.state files.new) (S.state out.new) result }
{
    let taken = match names_of(alloc, source_name, module_name, launch_name) {
        Ok(taken) => taken,
        Err(_) => return Status::Memory,
    };
    match make_module::<C, F, S>(alloc, source_name, kernel, files, out) {
        Ok(module) => keep_module(alloc, &taken, module_name, launch_name, module, files, out),
        Err(status) => status,
    }
}
