//! What a word does to registers and peripherals.

use crate::forms::form_of;
use crate::parts::{Fault, Parts};
use crate::texts::{option_text, text_of};
use qpu_encode::Form;
use qpu_rules::{
    access_of, branches, ends, goes_out, target_of_add, target_of_mul, turns, written_by,
};
use std::alloc::Global;

/// Whether something holds of a form.
fn is_said(name: &str, form: &Form) -> Result<bool, Fault> {
    match name {
        "add_goes_out" => Ok(goes_out(target_of_add(form))),
        "mul_goes_out" => Ok(goes_out(target_of_mul(form))),
        "ends" => Ok(ends(form)),
        "branches" => Ok(branches(form)),
        "turns" => Ok(turns(form)),
        _ => Err(Fault::NoRow),
    }
}

/// What is said of a form.
pub fn answer(alloc: Global, parts: &mut Parts<'_>) -> Result<String, Fault> {
    let name = parts.text()?;
    let form = form_of(alloc, parts.rest())?;
    match name {
        "written_by" => text_of(alloc, written_by(&form)),
        "access_of" => option_text(alloc, access_of(&form)),
        "target_of_add" => text_of(alloc, target_of_add(&form)),
        "target_of_mul" => text_of(alloc, target_of_mul(&form)),
        _ => text_of(alloc, is_said(name, &form)?),
    }
}
