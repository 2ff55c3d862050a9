//! From blocks of pairs to words: labels, slots and the program end, with no word that could be spared.
#![tactic(auto)]

mod instrs;
mod layout;
mod leads;
mod pieces;
mod turns;
mod words;

pub use instrs::{Memory, place};
pub use tight_words::{loose, loose_from};
