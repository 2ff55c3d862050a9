//! The walk over a program answers as the typing rules say: its fault is the least one. No code stands here.
#![tactic(auto)]
