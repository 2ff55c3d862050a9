//! The walk of the checker over a program: it goes from token to token and stops at its first fault.
#![tactic(auto)]

mod calls;
mod declarations;
mod expressions;
mod heights;
mod programs;
mod rules;
mod scope;
mod state;
mod statements;
mod words;

pub use programs::functions;
