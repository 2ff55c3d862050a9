//! What a launch does, whatever its items do: they run one by one in the order of their flat ids, and a verdict says how that ends.
#![tactic(auto)]

mod buffers;
mod ends;
mod items;
mod laws;
mod verdict;

pub use buffers::{Buffers, Bytes};
pub use ends::{Ended, ItemEnd};
pub use items::WorkItems;
pub use laws::law_one_verdict;
pub use verdict::{Clash, Verdict};
