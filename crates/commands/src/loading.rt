//! A command's module: read from its file.

ghost use Rattle.std.specs.Prelude.{◌≡◌, true, IfOk, IfErr};
ghost use Rattle.vc4q_module.specs.ModuleBytes.{ModuleOf, IsModule};
ghost use Rattle.commands.specs.Plan.{no_sources, Plan, Ends, Leads};
ghost use Rattle.commands.specs.Loading.{module_line, module_plan, RefusesModule};

use crate::lines::{Line, push_number, push_text};
use crate::places::{read_place, say, say_trouble};
use crate::status::Status;
use arrayvec::ArrayVec;
use q_io::{Files, Sink};
use std::alloc::Global;
use vc4q_module::{ModFault, Module};

/// 40 bytes, and 2^24 words of 8.
const MODULE_LIMIT: u64 = 134_217_768;

/// The line of a module whose first failing test has this place.
#[tactic(auto, unfolding(crate::specs::Loading::module_line))]
fn line_of_module(place: u32) -> Line
    ensures { result.items ≡ module_line place }
{
    let mut line = ArrayVec::new();
    push_text(&mut line, b"bad module ");
    push_number(&mut line, u64::from(place));
    push_text(&mut line, b"\n");
    line
}

/// Ends where the module isn't read.
fn refuse_module<S: Sink>(out: &mut S, fault: ModFault) -> Status
    ensures { RefusesModule fault (S.state out.old) (S.state out.new) result }
{
    match fault {
        ModFault::At(place) => say(out, &line_of_module(place), Status::BadModule),
        ModFault::Memory => Status::Memory,
    }
}

/// The module in a file.
#[tactic(auto, unfolding(crate::specs::Loading::module_plan))]
pub fn fill_module<F: Files, S: Sink>(
    alloc: Global,
    module_name: &str,
    files: &mut F,
    out: &mut S,
) -> Result<Module, Status>
    ensures limits { IfOk result IsModule }
    ensures ok { IfOk result (λ m. (next : ModuleOf → Plan)
        → Leads no_sources true (module_plan module_name.now next) (F.state files.old) (S.state out.old)
        (next m) (F.state files.new) (S.state out.new)) }
    ensures err { IfErr result (λ status. (next : ModuleOf → Plan)
        → Ends no_sources true (module_plan module_name.now next) (F.state files.old) (S.state out.old)
        (F.state files.new) (S.state out.new) status) }
{
    let bytes = match read_place(files, module_name, MODULE_LIMIT) {
        Ok(bytes) => bytes,
        Err(trouble) => return Err(say_trouble(out, trouble, module_name)),
    };
    match vc4q_module::read(alloc, &bytes) {
        Ok(module) => Ok(module),
        Err(fault) => Err(refuse_module(out, fault)),
    }
}
