//! Places in the code: slots, branches to a place, and the words that may come before it.

ghost use Rattle.std.specs.Prelude.{◌≡◌, ℕ, true, false, not, ◌+◌, ◌<◌, ◌≤◌, ◌^◌, ◌&&◌, ◌||◌, ◌==◌, length};
ghost use Rattle.qpu_encode.specs.WordFields.{form_of};
ghost use Rattle.tight_words.specs.Registers.{is_branch, is_end, is_idle, writes_setup, clash};
ghost use Rattle.tight_words.specs.Code.{form_at, back, has, is_slot, lands, leads, branches_to, any_below, is_target, clash_of_jumps, setup_near};

use crate::registers::{branches, clashes, does_set_up, ends, idles};
use qpu_encode::{Field, Form, decode};

/// The word at a place.
#[tactic(auto, unfolding(crate::specs::Code::form_at))]
pub fn form(words: &[u64], i: usize) -> Option<Form>
    ensures { result ≡ form_at words.now i }
{
    match words.get(i) {
        None => None,
        Some(&word) => match decode(word) {
            None => None,
            Some(instr) => Some(instr.form),
        },
    }
}

/// The word n places before.
#[tactic(auto, unfolding(crate::specs::Code::back))]
pub fn form_back(words: &[u64], i: usize, n: usize) -> Option<Form>
    ensures { result ≡ back words.now i n }
{
    if n <= i { form(words, i - n) } else { None }
}

fn branch_there(form: &Option<Form>) -> bool
    ensures { result ≡ has is_branch form.now }
{
    match form {
        None => false,
        Some(f) => branches(f),
    }
}

fn end_there(form: &Option<Form>) -> bool
    ensures { result ≡ has is_end form.now }
{
    match form {
        None => false,
        Some(f) => ends(f),
    }
}

pub fn idle_there(form: &Option<Form>) -> bool
    ensures { result ≡ has is_idle form.now }
{
    match form {
        None => false,
        Some(f) => idles(f),
    }
}

fn setup_there(form: &Option<Form>) -> bool
    ensures { result ≡ has writes_setup form.now }
{
    match form {
        None => false,
        Some(f) => does_set_up(f),
    }
}

#[tactic(auto, unfolding(crate::specs::Code::is_slot))]
pub fn slot(words: &[u64], i: usize) -> bool
    ensures { result ≡ is_slot words.now i }
{
    let one = form_back(words, i, 1);
    let two = form_back(words, i, 2);
    ((branch_there(&one) || branch_there(&two)) || branch_there(&form_back(words, i, 3)))
        || (end_there(&one) || end_there(&two))
}

#[tactic(auto, unfolding(crate::specs::Code::setup_near))]
pub fn setups_near(words: &[u64], i: usize) -> bool
    ensures { result ≡ setup_near words.now i }
{
    (setup_there(&form_back(words, i, 1)) || setup_there(&form_back(words, i, 2)))
        || setup_there(&form_back(words, i, 3))
}

fn lands_at(words: i32, b: u64, t: u64) -> bool
    requires near { b < 2 ^ 32 }
    requires far { t < 2 ^ 33 }
    ensures { result ≡ lands words b t }
{
    let size = u64::from(words.unsigned_abs());
    if words < 0 {
        b + 4 == t + size
    } else {
        b + 4 + size == t
    }
}

fn leads_to(word: u64, b: u64, t: u64) -> bool
    requires near { b < 2 ^ 32 }
    requires far { t < 2 ^ 33 }
    ensures { result ≡ leads (form_of word) b t }
{
    if Field::<60, 4>::get(word) == 15 {
        match decode(word) {
            None => false,
            Some(instr) => match instr.form {
                Form::Bra { words, .. } => lands_at(words, b, t),
                _ => false,
            },
        }
    } else {
        false
    }
}

#[tactic(auto, unfolding(crate::specs::Code::branches_to, crate::specs::Code::form_at))]
fn jumps(words: &[u64], b: usize, t: usize) -> bool
    requires near { b < 2 ^ 32 }
    requires far { t < 2 ^ 33 }
    ensures { result ≡ branches_to words.now b t }
{
    match words.get(b) {
        None => false,
        Some(&word) => leads_to(word, b as u64, t as u64),
    }
}

/// Some branch leads to t.
#[tactic(auto, unfolding(crate::specs::Code::is_target), using(crate::proofs::Any::found, crate::proofs::Any::none_more))]
pub fn target(words: &[u64], t: usize) -> bool
    requires short { length words.now < 2 ^ 32 }
    requires far { t < 2 ^ 33 }
    ensures { result ≡ is_target words.now t }
{
    for b in 0..words.len() {
        if jumps(words, b, t) {
            return true;
        }
    }
    false
}

/// A word breaks H1 to H3 after the third slot of some branch to i.
#[tactic(auto, unfolding(crate::specs::Code::clash_of_jumps), using(crate::proofs::Any::found, crate::proofs::Any::none_more))]
pub fn clashes_of_jumps(words: &[u64], i: usize, f: &Option<Form>) -> bool
    requires short { length words.now < 2 ^ 32 }
    requires far { i < 2 ^ 33 }
    ensures { result ≡ clash_of_jumps words.now i f.now }
{
    for b in 0..words.len() {
        if jumps(words, b, i) && clashes(&form(words, b + 3), f) {
            return true;
        }
    }
    false
}
