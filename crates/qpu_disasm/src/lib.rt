//! The text of an instruction word: one line of a listing.
#![tactic(auto)]

mod laws;
mod listing;
mod names;
mod pieces;
mod units;

pub use laws::law_lines_differ;
pub use listing::{Listing, line};
