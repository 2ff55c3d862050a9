//! The least place where a word can be saved.

ghost use Rattle.std.specs.Prelude.{◌≡◌, ℕ, true, false, not, ◌+◌, ◌<◌, ◌≤◌, ◌^◌, ◌&&◌, ◌||◌, ◌↔◌, length, is_some, IfSome, IsNone};
ghost use Rattle.tight_words.specs.Code.{is_target};
ghost use Rattle.tight_words.specs.Tight.{are_halves, may_join, joins, is_joinable, is_removable, is_loose, IsLoose, IsLeast, IsTight};

use crate::code::{clashes_of_jumps, form, form_back, idle_there, setups_near, slot, target};
use crate::fitting::forms_together;
use crate::registers::{clashes, does_set_up, halves};
use qpu_encode::Form;

// Both have at most one operation, stand in no slot and have no read setup near.
fn may_be_joined(words: &[u64], i: usize, u: &Form, v: &Form) -> bool
    requires { i < 2 ^ 32 }
    ensures { result ≡ are_halves words.now i u.now v.now }
{
    (halves(u) && halves(v))
        && (!(slot(words, i) || slot(words, i + 1)) && !(setups_near(words, i) || does_set_up(u)))
}

// The same word, unless some branch leads to the place.
fn unless_target(words: &[u64], i: usize, joint: Option<Form>) -> Option<Form>
    requires short { length words.now < 2 ^ 32 }
    requires far { i < 2 ^ 33 }
    ensures { is_some result ≡ (is_some joint && not (is_target words.now i)) }
{
    match joint {
        None => None,
        Some(j) => { if target(words, i) { None } else { Some(j) } }
    }
}

fn joined_by(words: &[u64], i: usize, u: &Form, v: &Form) -> Option<Form>
    requires short { length words.now < 2 ^ 32 }
    requires far { i < 2 ^ 32 }
    ensures { is_some result ≡ may_join words.now i u.now v.now }
{
    if may_be_joined(words, i, u, v) {
        unless_target(words, i + 1, forms_together(words, i, u, v))
    } else {
        None
    }
}

fn joined(words: &[u64], i: usize, u: &Option<Form>, v: &Option<Form>) -> Option<Form>
    requires short { length words.now < 2 ^ 32 }
    requires far { i < 2 ^ 32 }
    ensures { is_some result ≡ joins words.now i u.now v.now }
{
    match u {
        None => None,
        Some(u) => match v {
            None => None,
            Some(v) => joined_by(words, i, u, v),
        },
    }
}

/// The word that does what the words at i and i + 1 do, where these are joinable.
#[tactic(auto, unfolding(crate::specs::Tight::is_joinable))]
pub fn joint(words: &[u64], i: usize) -> Option<Form>
    requires short { length words.now < 2 ^ 32 }
    requires far { i < 2 ^ 32 }
    ensures { is_some result ≡ is_joinable words.now i }
{
    joined(words, i, &form(words, i), &form(words, i + 1))
}

/// The words at i and i + 1 are joinable.
pub fn joinable(words: &[u64], i: usize) -> bool
    requires short { length words.now < 2 ^ 32 }
    requires far { i < 2 ^ 32 }
    ensures { result ≡ is_joinable words.now i }
{
    joint(words, i).is_some()
}

/// The word at i is removable.
#[tactic(auto, unfolding(crate::specs::Tight::is_removable))]
pub fn removable(words: &[u64], i: usize) -> bool
    requires short { length words.now < 2 ^ 32 }
    requires far { i < 2 ^ 32 }
    ensures { result ≡ is_removable words.now i }
{
    let next = form(words, i + 1);
    (idle_there(&form(words, i)) && (!slot(words, i) && !setups_near(words, i)))
        && (!clashes(&form_back(words, i, 1), &next) && !clashes_of_jumps(words, i, &next))
}

fn loose_at(words: &[u64], i: usize) -> bool
    requires short { length words.now < 2 ^ 32 }
    requires far { i < 2 ^ 32 }
    ensures { result ≡ is_loose words.now i }
{
    joinable(words, i) || removable(words, i)
}

/// The least place from `start` on that is joinable or removable.
pub fn loose_from(words: &[u64], start: u32) -> Option<u32>
    requires { length words.now < 2 ^ 32 }
    ensures some { IfSome result (λ i. (start ≤ i) × (i < length words.now) × IsLoose words.now i × ((k : ℕ) → start ≤ k → k < i → ¬ (IsLoose words.now k))) }
    ensures none { IsNone result → (k : ℕ) → start ≤ k → ¬ (IsLoose words.now k) }
{
    for i in start as usize..words.len() {
        if loose_at(words, i) {
            return Some(i as u32);
        }
    }
    None
}

/// The least place that is joinable or removable.
pub fn loose(words: &[u64]) -> Option<u32>
    requires { length words.now < 2 ^ 32 }
    ensures some { IfSome result (IsLeast words.now) }
    ensures none { IsNone result ↔ IsTight words.now }
{
    for i in 0..words.len() {
        if loose_at(words, i) {
            return Some(i as u32);
        }
    }
    None
}
