//! What a word means, which words could be fewer, and a word that does what two do.
#![tactic(auto)]

mod code;
mod fitting;
mod laws;
mod meaning;
mod registers;
mod search;

pub use laws::law_tests;
pub use meaning::{
    AddAct, Meaning, MulAct, Reads, Source, is_nop, mean_the_same, meaning_of, same_source,
};
pub use registers::{accesses, clashes, does_set_up, free, idles, other_form, sets_flags};
pub use search::{joinable, joint, loose, loose_from, removable};
