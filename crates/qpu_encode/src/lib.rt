//! Instruction words of the QPU and their typed form.
#![tactic(auto)]

mod codes;
mod field;
mod form;
mod instr;
mod laws;
mod operations;
mod profile;
mod words;

pub use field::Field;
pub use form::{AddOp, AddPart, BraCond, Cond, Form, Head, MulOp, MulPart};
pub use instr::Instr;
pub use laws::{law_fields, law_words};
pub use operations::{add_value, holds, mul_value, passes, rotation, small_word, unpacked};
pub use profile::is_in_profile;
pub use words::{decode, encode};
