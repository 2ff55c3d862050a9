//! Runs one work-item of a typed program, by the program's meaning.
#![tactic(auto)]

mod calls;
mod item;
mod parens;
mod run;
mod setting;

pub use item::run_item;
pub use setting::Setting;
