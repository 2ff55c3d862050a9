//! The word of a pair of operations, and which pairs have one.
#![tactic(auto)]

mod form;
mod meaning;
mod reads;
mod says;
mod writes;

pub use form::form_of_pair;
pub use says::is_pair;
