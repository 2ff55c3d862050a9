//! The words of bundles.

ghost use Rattle.std.specs.Prelude.{◌≡◌, ◌++◌, ◌∷◌, [], map, IfOk, OnOk};
ghost use Rattle.qpu_encode.specs.WordFields.{word_of};
ghost use Rattle.tight_words.specs.Tight.{IsTight};

use crate::layout::words_of;
use crate::leads::{leads_of, number_of};
use crate::pieces::pieces_of;
use crate::turns::tighten;
use phys_ir::Bundles;
use qpu_encode::{Instr, decode};
use std::alloc::{AllocError, Global};

/// Memory ran out.
pub type Memory = AllocError;

// The instruction of a word. Each word that is placed here is in the profile.
fn instr_at(word: u64) -> Result<Instr, Memory>
    ensures { IfOk result (λ instr. word_of instr ≡ word) }
{
    match decode(word) {
        Some(instr) => Ok(instr),
        None => Err(AllocError),
    }
}

fn put_instr(instrs: &mut Vec<Instr>, instr: Instr) -> Result<(), Memory>
    ensures { OnOk result (instrs.new.items ≡ instrs.old.items ++ instr ∷ []) }
{
    instrs.push(instr)?;
    Ok(())
}

#[tactic(auto, using(crate::proofs::Mapped::one_more, crate::proofs::Mapped::all_done))]
fn instrs_of(alloc: Global, words: &[u64]) -> Result<Vec<Instr>, Memory>
    ensures { IfOk result (λ instrs. map word_of instrs.items ≡ words.now) }
{
    let mut instrs = Vec::new(alloc);
    for word in words {
        put_instr(&mut instrs, instr_at(*word)?)?;
    }
    Ok(instrs)
}

/// The words of blocks of pairs, tight: no word of them could be spared.
///
/// # Errors
///
/// Where memory is wanting, or where a pair or a distance is one that no word says.
pub fn place(alloc: Global, bundles: &Bundles) -> Result<Vec<Instr>, Memory>
    ensures tight { IfOk result (λ instrs. IsTight (map word_of instrs.items)) }
{
    let leads = leads_of(alloc, &bundles.blocks)?;
    let pieces = pieces_of(alloc, &leads, &bundles.blocks)?;
    let mut words = words_of(alloc, &pieces)?;
    number_of(words.len())?;
    tighten(&mut words)?;
    instrs_of(alloc, &words)
}
