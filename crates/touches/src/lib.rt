//! Which work-items read and write each byte of a launch's buffers, and the least race between them, in time that is linear in the bytes that
//! they read and write.
#![tactic(auto)]

mod kept;
mod row;
mod table;
mod touch;

pub use kept::Touches;
