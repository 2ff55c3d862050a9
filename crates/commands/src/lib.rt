//! The commands of the program over any compiler, any judge of launches, any files and any output.
#![tactic(auto)]

ghost use Rattle.std.specs.Prelude.{◌≡◌, ◌⊎◌, true, map, string_bytes, IfSome, None};
ghost use Rattle.q_io.specs.Rose.{Rose};
ghost use Rattle.commands.specs.Plan.{both};
ghost use Rattle.commands.specs.Commands.{plan_of, due_for, usage_line, Runs, first_written, IfCompile, IfExec, IfRun, IfJudge, IfDisasm};
ghost use Rattle.commands.specs.Due.{EndsAsMade, AnswersAsMade, OnlyWritesMade, IsQuiet, ShortOrKept};
ghost use Rattle.commands.specs.Lines.{Says};
ghost use Rattle.commands.specs.ExecClauses.{ExecAnswers};
ghost use Rattle.commands.specs.CompileClauses.{CompileAnswers, RunAnswers, CompileEnds, CompileRefuses, RunEnds, RunRefuses};
ghost use Rattle.commands.specs.JudgeClauses.{JudgeAnswers, JudgeEnds, JudgeRefuses};
ghost use Rattle.commands.specs.DisasmClauses.{DisasmAnswers, DisasmEnds};

use crate::command::{Command, command_of};
use crate::compiling::compile_file;
use crate::disasm::disasm;
use crate::exec::exec;
use crate::judging::judge_file;
use crate::places::say;
pub use crate::playing::{Ready, play};
use crate::running::run_file;
pub use crate::status::{Status, code};
use promise::{Compiler, JudgedKernel};
use q_io::{Files, Sink};
use std::alloc::Global;

mod buffers;
mod command;
mod compiling;
mod disasm;
mod exec;
mod judging;
mod launching;
mod lines;
mod loading;
mod names;
mod opening;
mod places;
mod playing;
mod refusals;
mod report;
mod running;
mod status;

const USAGE: &[u8] =
    b"usage: compile SRC KERNEL MODULE | exec MODULE LAUNCH | run SRC KERNEL MODULE LAUNCH | judge SRC KERNEL LAUNCH TURNS | disasm MODULE | demo SEED\n";

#[tactic(auto, unfolding(crate::specs::Commands::usage_line))]
fn say_usage<S: Sink>(out: &mut S) -> Status
    ensures { Says (S.state out.old) (S.state out.new) usage_line Status.Usage result }
{
    say(out, USAGE, Status::Usage)
}

fn run_words<C: Compiler, K: JudgedKernel + Drop, F: Files, S: Sink>(
    alloc: Global,
    words: &[String],
    files: &mut F,
    out: &mut S,
) -> Status
    ensures { Runs (both C.language K.meanings) (plan_of (map string_bytes words.now))
        (F.state files.old) (S.state out.old) (F.state files.new) (S.state out.new) result }
{
    match command_of(words) {
        Some(
            Command::Compile {
                source_name,
                kernel,
                module_name,
            },
        ) => compile_file::<C, F, S>(alloc, source_name, kernel, module_name, files, out),
        Some(
            Command::Exec {
                module_name,
                launch_name,
            },
        ) => exec(alloc, module_name, launch_name, files, out),
        Some(
            Command::Run {
                source_name,
                kernel,
                module_name,
                launch_name: launch,
            },
        ) => run_file::<C, F, S>(alloc, source_name, kernel, module_name, launch, files, out),
        Some(
            Command::Judge {
                source_name,
                kernel,
                launch_name,
                turns,
            },
        ) => judge_file::<K, F, S>(alloc, source_name, kernel, launch_name, turns, files, out),
        Some(Command::Disasm { module_name }) => disasm(alloc, module_name, files, out),
        None => say_usage(out),
    }
}

/// Does what the words ask for with this compiler and this judge, and answers how it went.
///
/// `compile SRC KERNEL MODULE` makes a module of a source and writes it. `exec MODULE LAUNCH` runs a
/// module by a launch, writes the buffers with an output name and then the report of the run.
/// `run SRC KERNEL MODULE LAUNCH` does the one after the other. `judge SRC KERNEL LAUNCH TURNS` tells
/// what a launch of a kernel does by the meaning of its source, where each work-item has TURNS turns:
/// that it is safe, or the first item that goes out of bounds or needs more turns, or else the least
/// race. `disasm MODULE` lists the words of a module, a line for each. All memory is taken before the
/// machine's first step.
pub fn run<C: Compiler, K: JudgedKernel + Drop, F: Files, S: Sink>(
    alloc: Global,
    words: &[String],
    files: &mut F,
    out: &mut S,
) -> Status
    // Usage is answered only where the words are of no form, and then its line is all that is done.
    ensures usage { result ≡ Status.Usage → plan_of (map string_bytes words.now) ≡ None }
    ensures no_form { plan_of (map string_bytes words.now) ≡ None
        → ((F.state files.new) ≡ (F.state files.old))
        × Says (S.state out.old) (S.state out.new) usage_line Status.Usage result }

    // A module that was written is faithful to the source that was read, and a source that is
    // refused violates the rule that its line names.
    ensures compile { IfCompile (map string_bytes words.now) (λ source_name kernel module_name.
        CompileAnswers C.language source_name kernel module_name
        (F.state files.old) (S.state out.old) (F.state files.new) (S.state out.new) result) }

    // The run's stop, a bad module and a bad launch are those of the files that were read.
    ensures exec { IfExec (map string_bytes words.now) (λ module_name launch_name.
        ExecAnswers module_name launch_name
        (F.state files.old) (S.state out.old) (F.state files.new) (S.state out.new) result) }

    // Once the module is written it stays, and the run is that of the written module. A safe launch
    // breaks no restriction, and leaves what its items leave one by one.
    ensures run { IfRun (map string_bytes words.now) (λ source_name kernel module_name launch_name.
        RunAnswers (both C.language K.meanings) source_name kernel module_name launch_name
        (F.state files.old) (S.state out.old) (F.state files.new) (S.state out.new) result) }

    // The verdict is that on the launch and the buffers that were read, by the meaning of the source that
    // was read. No file changes.
    ensures judge { IfJudge (map string_bytes words.now) (λ source_name kernel launch_name turns.
        JudgeAnswers K.meanings source_name kernel launch_name turns
        (F.state files.old) (S.state out.old) (F.state files.new) (S.state out.new) result) }

    // The lines are those of the words of the module that was read. No file changes.
    ensures disasm { IfDisasm (map string_bytes words.now) (λ module_name.
        DisasmAnswers module_name
        (F.state files.old) (S.state out.old) (F.state files.new) (S.state out.new) result) }

    // No file changes but those that are due to be written.
    ensures files { IfSome (F.state files.old).told (λ tree.
        OnlyWritesMade (both C.language K.meanings) (due_for (plan_of (map string_bytes words.now)) tree) tree (F.state files.new)) }

    // Want of memory without a counted shortage has changed no file, but for the module of a `run`,
    // and written nothing.
    ensures memory { result ≡ Status.Memory
        → ShortOrKept (first_written (map string_bytes words.now))
        (F.state files.old) (S.state out.old) (F.state files.new) (S.state out.new) }

    // A fault, a missing file and an over-long file are answered only where such a thing came in
    // this call.
    ensures read_fault { result ≡ Status.ReadFault
        → Rose (F.state files.old).read_faults (F.state files.new).read_faults }
    ensures write_fault { result ≡ Status.WriteFault
        → Rose (F.state files.old).write_faults (F.state files.new).write_faults
        ⊎ Rose (S.state out.old).faults (S.state out.new).faults }
    ensures missing { result ≡ Status.Missing
        → Rose (F.state files.old).misses (F.state files.new).misses }
    ensures too_long { result ≡ Status.TooLong
        → Rose (F.state files.old).over_long (F.state files.new).over_long }

    // Where the files are told, it ends as is due of the words with what it made, or at a
    // fault or want of memory on the way there.
    ensures due { IfSome (F.state files.old).told (λ tree.
        EndsAsMade (both C.language K.meanings) true (due_for (plan_of (map string_bytes words.now)) tree) tree
        (F.state files.old) (S.state out.old) (F.state files.new) (S.state out.new) result) }

    // Where they are told and no fault came, the status is the one that is due, or want of memory.
    ensures quiet { IfSome (F.state files.old).told (λ tree.
        IsQuiet (F.state files.old) (S.state out.old) (F.state files.new) (S.state out.new)
        → AnswersAsMade (both C.language K.meanings) (due_for (plan_of (map string_bytes words.now)) tree) result) }

    // Then a `compile` of a source in the profile comes to its end or wants memory, and so does a
    // `run` of it by a safe launch with enough rounds.
    ensures compile_ends { IfSome (F.state files.old).told (λ tree.
        IsQuiet (F.state files.old) (S.state out.old) (F.state files.new) (S.state out.new)
        → IfCompile (map string_bytes words.now) (λ source_name kernel module_name.
        CompileEnds C.language source_name kernel module_name tree result)) }
    ensures run_ends { IfSome (F.state files.old).told (λ tree.
        IsQuiet (F.state files.old) (S.state out.old) (F.state files.new) (S.state out.new)
        → IfRun (map string_bytes words.now) (λ source_name kernel module_name launch_name.
        RunEnds C.language source_name kernel module_name launch_name tree result)) }

    // A `judge` by a valid launch that fits comes to the verdict on it then, or wants memory.
    ensures judge_ends { IfSome (F.state files.old).told (λ tree.
        IsQuiet (F.state files.old) (S.state out.old) (F.state files.new) (S.state out.new)
        → IfJudge (map string_bytes words.now) (λ source_name kernel launch_name turns.
        JudgeEnds K.meanings source_name kernel launch_name turns tree (F.state files.old) result)) }

    // A `disasm` of a module lists it then, and refuses another file, or wants memory.
    ensures disasm_ends { IfSome (F.state files.old).told (λ tree.
        IsQuiet (F.state files.old) (S.state out.old) (F.state files.new) (S.state out.new)
        → IfDisasm (map string_bytes words.now) (λ module_name. DisasmEnds module_name tree result)) }

    // A source that violates a rule is refused then, or memory is wanting.
    ensures compile_refuses { IfSome (F.state files.old).told (λ tree.
        IsQuiet (F.state files.old) (S.state out.old) (F.state files.new) (S.state out.new)
        → IfCompile (map string_bytes words.now) (λ source_name kernel module_name.
        CompileRefuses C.language source_name kernel module_name tree result)) }
    ensures run_refuses { IfSome (F.state files.old).told (λ tree.
        IsQuiet (F.state files.old) (S.state out.old) (F.state files.new) (S.state out.new)
        → IfRun (map string_bytes words.now) (λ source_name kernel module_name launch_name.
        RunRefuses C.language source_name kernel module_name launch_name tree result)) }
    ensures judge_refuses { IfSome (F.state files.old).told (λ tree.
        IsQuiet (F.state files.old) (S.state out.old) (F.state files.new) (S.state out.new)
        → IfJudge (map string_bytes words.now) (λ source_name kernel launch_name turns.
        JudgeRefuses K.meanings source_name kernel launch_name tree result)) }

    // Told or not, it goes through the places in their order.
    ensures order { Runs (both C.language K.meanings) (plan_of (map string_bytes words.now))
        (F.state files.old) (S.state out.old) (F.state files.new) (S.state out.new) result }
{
    run_words::<C, K, F, S>(alloc, words, files, out)
}
