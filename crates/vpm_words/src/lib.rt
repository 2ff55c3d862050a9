//! Setup words of the VPM and of its two DMA engines, both ways, and what a peripheral access means.
#![tactic(auto)]

mod access;
mod laws;
mod moves;
mod queue;
mod regions;
mod setup;
mod site;
mod state;
mod transfer;

pub use access::{must_wait, see, use_ports, use_shared};
pub use laws::{law_cases, law_elements, law_moves, law_rules};
pub use moves::{load_element, store_element};
pub use queue::Queue;
pub use regions::may_start;
pub use setup::{
    ReadSetup, WriteSetup, load_set, parse_read, parse_write, read_set, store_set, write_set,
};
pub use site::Site;
pub use state::{Access, Element, Owner, Ports, Region, Rule, Seen, Shared};
pub use transfer::Transfer;
