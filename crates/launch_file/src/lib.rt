//! Launch files: how many QPUs and items run, over which buffers, with which arguments, and under which schedule.
#![tactic(auto)]

mod body;
mod fitting;
mod head;
mod launch;
mod laws;
mod lines;
mod places;
mod reading;
mod words;
mod work;

pub use fitting::fit;
pub use launch::{Arg, BufferLine, Launch, LaunchFault, Memory, Schedule};
pub use laws::{law_fit, law_launches, law_layout, law_lines, law_uniforms};
pub use places::{Places, Region2, layout};
pub use reading::read_launch;
pub use words::number;
pub use work::{count_items, uniforms};
