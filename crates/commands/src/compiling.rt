//! The command `compile`: a module file is made of a source.

ghost use Rattle.std.specs.Prelude.{◌≡◌, true, false, IfOk, IfErr};
ghost use Rattle.vc4q_module.specs.ModuleBytes.{ModuleOf, IsModule, module_bytes};
ghost use Rattle.commands.specs.Plan.{no_meanings, no_sources, both, Plan, Ends, Leads, writes, answers, done};
ghost use Rattle.commands.specs.Compile.{compiled_line, source_plan, store_plan, compile_plan, RefusesSource};

use crate::lines::{Line, push_number, push_text};
use crate::places::{read_place, say, say_trouble, write_place};
use crate::refusals::line_of_refusal;
use crate::status::Status;
use arrayvec::ArrayVec;
use promise::{Compiler, Refusal};
use q_io::{Files, Sink};
use std::alloc::Global;
use vc4q_module::Module;

/// The most bytes of a source file.
pub const SOURCE_LIMIT: u64 = 1_048_576;

/// The line of a module that was written.
#[tactic(auto, unfolding(crate::specs::Compile::compiled_line))]
fn line_of_module(module: &Module) -> Line
    ensures { result.items ≡ compiled_line «module».now }
{
    let mut line = ArrayVec::new();
    push_text(&mut line, b"module ");
    push_number(&mut line, module.words.len() as u64);
    push_text(&mut line, b" words ");
    push_number(&mut line, u64::from(module.rows));
    push_text(&mut line, b" rows\n");
    line
}

/// Ends where the source violates a rule, or memory was wanting.
pub fn refuse_source<S: Sink>(out: &mut S, source: &[u8], refusal: Refusal) -> Status
    ensures { RefusesSource source.now refusal (S.state out.old) (S.state out.new) result }
{
    match refusal {
        Refusal::Rule { rule, at } => {
            say(out, &line_of_refusal(source, rule, at), Status::Refused)
        }
        Refusal::Memory => Status::Memory,
    }
}

/// The module of a kernel of the source in a file.
#[tactic(auto, unfolding(crate::specs::Compile::source_plan))]
pub fn make_module<C: Compiler, F: Files, S: Sink>(
    alloc: Global,
    source_name: &str,
    kernel: &str,
    files: &mut F,
    out: &mut S,
) -> Result<Module, Status>
    ensures limits { IfOk result IsModule }
    ensures ok { IfOk result (λ m. (next : ModuleOf → Plan)
        → Leads (both C.language no_meanings) true (source_plan source_name.now kernel.now next) (F.state files.old) (S.state out.old)
        (next m) (F.state files.new) (S.state out.new)) }
    ensures err { IfErr result (λ status. (next : ModuleOf → Plan)
        → Ends (both C.language no_meanings) true (source_plan source_name.now kernel.now next) (F.state files.old) (S.state out.old)
        (F.state files.new) (S.state out.new) status) }
{
    let source = match read_place(files, source_name, SOURCE_LIMIT) {
        Ok(source) => source,
        Err(trouble) => return Err(say_trouble(out, trouble, source_name)),
    };
    match C::compile(alloc, &source, kernel.as_bytes()) {
        Ok(module) => Ok(module),
        Err(refusal) => Err(refuse_source(out, &source, refusal)),
    }
}

/// Writes the bytes of a module, and its line.
fn store_bytes<F: Files, S: Sink>(
    module_name: &str,
    module: &Module,
    bytes: &[u8],
    files: &mut F,
    out: &mut S,
) -> Status
    ensures { Ends no_sources false (writes module_name.now bytes.now (answers done (compiled_line «module».now)))
        (F.state files.old) (S.state out.old) (F.state files.new) (S.state out.new) result }
{
    match write_place(files, module_name, bytes) {
        Ok(()) => say(out, &line_of_module(module), Status::Done),
        Err(trouble) => say_trouble(out, trouble, module_name),
    }
}

/// Writes a module, and its line.
#[tactic(auto, unfolding(crate::specs::Compile::store_plan))]
fn store_module<F: Files, S: Sink>(
    alloc: Global,
    module_name: &str,
    module: &Module,
    files: &mut F,
    out: &mut S,
) -> Status
    ensures { Ends no_sources true (store_plan module_name.now «module».now)
        (F.state files.old) (S.state out.old) (F.state files.new) (S.state out.new) result }
{
    match vc4q_module::write(alloc, module) {
        Ok(bytes) => store_bytes(module_name, module, &bytes, files, out),
        Err(_) => Status::Memory,
    }
}

/// Compiles the kernel of a source file to a module file.
#[tactic(auto, unfolding(crate::specs::Compile::compile_plan))]
pub fn compile_file<C: Compiler, F: Files, S: Sink>(
    alloc: Global,
    source_name: &str,
    kernel: &str,
    module_name: &str,
    files: &mut F,
    out: &mut S,
) -> Status
    ensures { Ends (both C.language no_meanings) true (compile_plan source_name.now kernel.now module_name.now)
        (F.state files.old) (S.state out.old) (F.state files.new) (S.state out.new) result }
{
    match make_module::<C, F, S>(alloc, source_name, kernel, files, out) {
        Ok(module) => store_module(alloc, module_name, &module, files, out),
        Err(status) => status,
    }
}
