//! The machine: QPUs that run instruction words one at a time, what they share, and two DMA engines
//! that move the elements of transfers, under any schedule.
#![tactic(auto)]

mod generator;
mod issue;
mod laws;
mod machine;
mod moves;
mod opening;
mod plan;
mod registers;
mod schedules;
mod state;

pub use laws::{law_range, law_runs, law_split};
pub use machine::Machine;
pub use plan::{Fill, Plan};
pub use q_lane::Lanes;
pub use state::{Counts, Effect, QpuView, Step, Stop};
pub use vpm_words::{Region, Rule};
