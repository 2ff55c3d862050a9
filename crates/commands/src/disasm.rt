//! The command `disasm`: the words of a module as text.

ghost use Rattle.std.specs.Prelude.{◌≡◌, true};
ghost use Rattle.q_io.specs.SinkMeaning.{SinkCountsStay, PutsAll};
ghost use Rattle.commands.specs.Plan.{no_sources, Ends};
ghost use Rattle.commands.specs.Disasm.{word_line, listing, disasm_plan};

use crate::loading::fill_module;
use crate::places::after_put;
use crate::status::Status;
use q_io::{Files, Put, Sink, put_two};
use qpu_disasm::line;
use std::alloc::Global;

/// Writes the line of a word. It takes no memory.
fn put_word<S: Sink>(out: &mut S, word: u64) -> Put
    ensures counts { SinkCountsStay (S.state out.old) (S.state out.new) }
    ensures answer { PutsAll (S.state out.old) (S.state out.new) (word_line word) result }
{
    let text = line(word);
    put_two(out, &text.bytes, b"\n")
}

/// Writes a line for each word.
fn put_words<S: Sink>(out: &mut S, words: &[u64]) -> Put
    ensures counts { SinkCountsStay (S.state out.old) (S.state out.new) }
    ensures answer { PutsAll (S.state out.old) (S.state out.new) (listing words.now) result }
{
    for word in words {
        match put_word(out, *word) {
            Put::Done => {}
            Put::Failed => return Put::Failed,
            Put::Memory => return Put::Memory,
        }
    }
    Put::Done
}

/// Lists the words of the module file.
#[tactic(auto, unfolding(crate::specs::Disasm::disasm_plan))]
pub fn disasm<F: Files, S: Sink>(
    alloc: Global,
    module_name: &str,
    files: &mut F,
    out: &mut S,
) -> Status
    ensures { Ends no_sources true (disasm_plan module_name.now)
        (F.state files.old) (S.state out.old) (F.state files.new) (S.state out.new) result }
{
    match fill_module(alloc, module_name, files, out) {
        Ok(module) => after_put(put_words(out, &module.words), Status::Done),
        Err(status) => status,
    }
}
