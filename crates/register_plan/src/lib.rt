//! A proposal of where registers live.
//!
//! Nothing rests on it: whoever takes it follows what each place holds, and refuses a proposal that this doesn't bear out.
#![tactic(auto)]

mod arrivals;
mod flow;
mod home;
mod lives;
mod loops;
mod proposal;
mod seats;
mod sections;
mod simple;

pub use home::{Home, PLACES};
pub use proposal::{Plan, propose};
pub use simple::simple_plan;
