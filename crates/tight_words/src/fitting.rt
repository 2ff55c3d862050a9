//! The search for a word that does two.

ghost use Rattle.std.specs.Prelude.{◌≡◌, ℕ, true, false, not, ◌+◌, ◌<◌, ◌≤◌, ◌^◌, ◌&&◌, ◌||◌, ◌==◌, length, is_some, IfSome};
ghost use Rattle.tight_words.specs.Meaning.{both, meaning, sum_reads, IsFew};
ghost use Rattle.tight_words.specs.Code.{any_below};
ghost use Rattle.tight_words.specs.Joint.{pick, word_for, is_wanted, is_read_a, is_read_b, is_useful_a, is_useful_b, stands, fits, fits_b, fits_some_b, fits_some, fit_together, fit_other, fit_second, fit_first, fit_forms};

use crate::code::{clashes_of_jumps, form, form_back};
use crate::meaning::{
    Meaning, Reads, Source, are_apart, mean_the_same, meaning_of, no_add, no_mul, same_source,
    source_a, source_b,
};
use crate::registers::{clashes, free, other_form};
use qpu_encode::{AddPart, Form, Head, MulPart, is_in_profile};

fn picked(ra: u8, s: Source) -> u8
    ensures { result ≡ pick ra s }
{
    match s {
        Source::Acc(n) => n,
        Source::Five => 5,
        _ => if same_source(source_a(ra), s) { 6 } else { 7 },
    }
}

#[tactic(auto, unfolding(crate::specs::Joint::word_for))]
fn built(m: &Meaning, small: bool, ra: u8, rb: u8, swap: bool) -> Form
    ensures { result ≡ word_for m.now small ra rb swap }
{
    let head = if small { Head::Small } else { Head::Plain };
    let add = AddPart {
        op: m.add.op,
        cond: m.add.cond,
        dst: m.add.dst,
        a: picked(ra, m.add.a),
        b: picked(ra, m.add.b),
    };
    let mul = MulPart {
        op: m.mul.op,
        cond: m.mul.cond,
        dst: m.mul.dst,
        a: picked(ra, m.mul.a),
        b: picked(ra, m.mul.b),
    };
    Form::Alu {
        head,
        unpack: m.add.unpack,
        add,
        mul,
        flags: m.flags,
        swap,
        ra,
        rb,
    }
}

fn wanted(m: &Meaning, s: Source) -> bool
    ensures { result ≡ is_wanted m.now s }
{
    (same_source(s, m.add.a) || same_source(s, m.add.b))
        || (same_source(s, m.mul.a) || same_source(s, m.mul.b))
}

// The address of nothing, or of a peripheral that is read.
fn read_at_a(reads: &Reads, x: u8) -> bool
    ensures { result ≡ is_read_a reads.now x }
{
    (x == 39 || ((x == 32 && !(reads.uniform == 0)) || (x == 48 && !(reads.row == 0))))
        || ((x == 50 && !(reads.load_wait == 0)) || (x == 51 && !(reads.lock == 0)))
}

fn read_at_b(reads: &Reads, x: u8) -> bool
    ensures { result ≡ is_read_b reads.now x }
{
    (x == 39 || ((x == 32 && !(reads.uniform == 0)) || (x == 48 && !(reads.row == 0))))
        || ((x == 50 && !(reads.store_wait == 0)) || (x == 51 && !(reads.lock == 0)))
}

#[tactic(auto, unfolding(crate::specs::Joint::is_useful_a))]
fn useful_a(m: &Meaning, ra: u8) -> bool
    ensures { result ≡ is_useful_a m.now ra }
{
    read_at_a(&m.reads, ra) || wanted(m, source_a(ra))
}

#[tactic(auto, unfolding(crate::specs::Joint::is_useful_b))]
fn useful_b(m: &Meaning, small: bool, rb: u8) -> bool
    ensures { result ≡ is_useful_b m.now small rb }
{
    (if small {
        48 <= rb && m.mul.turn == rb
    } else {
        read_at_b(&m.reads, rb)
    }) || wanted(m, source_b(small, rb))
}

#[tactic(auto, unfolding(crate::specs::Joint::stands))]
fn may_stand(words: &[u64], i: usize, m: &Meaning, j: Form) -> bool
    requires short { length words.now < 2 ^ 32 }
    requires far { i < 2 ^ 32 }
    ensures { result ≡ stands words.now i m.now j }
{
    let there = Some(j);
    ((mean_the_same(&meaning_of(&j), m) && is_in_profile(&j))
        && (!clashes(&form_back(words, i, 1), &there) && !clashes(&there, &form(words, i + 2))))
        && !clashes_of_jumps(words, i, &there)
}

#[tactic(auto, unfolding(crate::specs::Joint::fits))]
fn fit(words: &[u64], i: usize, m: &Meaning, small: bool, ra: u8, rb: u8) -> Option<Form>
    requires short { length words.now < 2 ^ 32 }
    requires far { i < 2 ^ 32 }
    ensures found { is_some result ≡ fits words.now i m.now small ra rb }
    ensures stands { IfSome result (λ j. stands words.now i m.now j ≡ true) }
{
    let straight = built(m, small, ra, rb, false);
    if may_stand(words, i, m, straight) {
        return Some(straight);
    }
    let swapped = built(m, small, ra, rb, true);
    if may_stand(words, i, m, swapped) {
        Some(swapped)
    } else {
        None
    }
}

fn fit_useful(words: &[u64], i: usize, m: &Meaning, small: bool, ra: u8, rb: u8) -> Option<Form>
    requires short { length words.now < 2 ^ 32 }
    requires far { i < 2 ^ 32 }
    ensures found { is_some result ≡ (is_useful_b m.now small rb && fits words.now i m.now small ra rb) }
    ensures stands { IfSome result (λ j. stands words.now i m.now j ≡ true) }
{
    if useful_b(m, small, rb) {
        fit(words, i, m, small, ra, rb)
    } else {
        None
    }
}

#[tactic(auto, unfolding(crate::specs::Joint::fits_b))]
fn fit_b(words: &[u64], i: usize, m: &Meaning, ra: u8, rb: u8) -> Option<Form>
    requires short { length words.now < 2 ^ 32 }
    requires far { i < 2 ^ 32 }
    ensures found { is_some result ≡ fits_b words.now i m.now ra rb }
    ensures stands { IfSome result (λ j. stands words.now i m.now j ≡ true) }
{
    match fit_useful(words, i, m, false, ra, rb) {
        Some(j) => Some(j),
        None => fit_useful(words, i, m, true, ra, rb),
    }
}

#[tactic(auto, unfolding(crate::specs::Joint::fits_some_b), using(crate::proofs::Any::found, crate::proofs::Any::none_more))]
fn fit_some_b(words: &[u64], i: usize, m: &Meaning, ra: u8) -> Option<Form>
    requires short { length words.now < 2 ^ 32 }
    requires far { i < 2 ^ 32 }
    ensures found { is_some result ≡ fits_some_b words.now i m.now ra }
    ensures stands { IfSome result (λ j. stands words.now i m.now j ≡ true) }
{
    for rb in 0..64 {
        if let Some(j) = fit_b(words, i, m, ra, rb) {
            return Some(j);
        }
    }
    None
}

fn fit_useful_a(words: &[u64], i: usize, m: &Meaning, ra: u8) -> Option<Form>
    requires short { length words.now < 2 ^ 32 }
    requires far { i < 2 ^ 32 }
    ensures found { is_some result ≡ (is_useful_a m.now ra && fits_some_b words.now i m.now ra) }
    ensures stands { IfSome result (λ j. stands words.now i m.now j ≡ true) }
{
    if useful_a(m, ra) {
        fit_some_b(words, i, m, ra)
    } else {
        None
    }
}

#[tactic(auto, unfolding(crate::specs::Joint::fits_some), using(crate::proofs::Any::found, crate::proofs::Any::none_more))]
fn fit_some(words: &[u64], i: usize, m: &Meaning) -> Option<Form>
    requires short { length words.now < 2 ^ 32 }
    requires far { i < 2 ^ 32 }
    ensures found { is_some result ≡ fits_some words.now i m.now }
    ensures stands { IfSome result (λ j. stands words.now i m.now j ≡ true) }
{
    for ra in 0..64 {
        if let Some(j) = fit_useful_a(words, i, m, ra) {
            return Some(j);
        }
    }
    None
}

fn sum_of(x: &Reads, y: &Reads) -> Reads
    requires first { IsFew x.now }
    requires second { IsFew y.now }
    ensures { result ≡ sum_reads x.now y.now }
{
    Reads {
        uniform: x.uniform + y.uniform,
        row: x.row + y.row,
        load_wait: x.load_wait + y.load_wait,
        store_wait: x.store_wait + y.store_wait,
        lock: x.lock + y.lock,
    }
}

fn both_of(u: &Meaning, v: &Meaning) -> Meaning
    requires first { IsFew u.now.reads }
    requires second { IsFew v.now.reads }
    ensures { result ≡ both u.now v.now }
{
    Meaning {
        add: if no_add(&u.add) { v.add } else { u.add },
        mul: if no_mul(&u.mul) { v.mul } else { u.mul },
        flags: u.flags || v.flags,
        reads: sum_of(&u.reads, &v.reads),
    }
}

#[tactic(auto, unfolding(crate::specs::Joint::fit_together))]
fn together(words: &[u64], i: usize, x: &Form, y: &Form) -> Option<Form>
    requires short { length words.now < 2 ^ 32 }
    requires far { i < 2 ^ 32 }
    ensures found { is_some result ≡ fit_together words.now i x.now y.now }
    ensures stands { IfSome result (λ j. stands words.now i (both (meaning x.now) (meaning y.now)) j ≡ true) }
{
    if !free(x, y) {
        return None;
    }
    let u = meaning_of(x);
    let v = meaning_of(y);
    if are_apart(&u, &v) {
        fit_some(words, i, &both_of(&u, &v))
    } else {
        None
    }
}

fn other_together(words: &[u64], i: usize, x: &Form, y: &Option<Form>) -> Option<Form>
    requires short { length words.now < 2 ^ 32 }
    requires far { i < 2 ^ 32 }
    ensures { is_some result ≡ fit_other words.now i x.now y.now }
{
    match y {
        None => None,
        Some(y) => together(words, i, x, y),
    }
}

#[tactic(auto, unfolding(crate::specs::Joint::fit_second))]
fn second_together(words: &[u64], i: usize, x: &Form, v: &Form) -> Option<Form>
    requires short { length words.now < 2 ^ 32 }
    requires far { i < 2 ^ 32 }
    ensures { is_some result ≡ fit_second words.now i x.now v.now }
{
    match together(words, i, x, v) {
        Some(j) => Some(j),
        None => other_together(words, i, x, &other_form(v)),
    }
}

fn first_together(words: &[u64], i: usize, x: &Option<Form>, v: &Form) -> Option<Form>
    requires short { length words.now < 2 ^ 32 }
    requires far { i < 2 ^ 32 }
    ensures { is_some result ≡ fit_first words.now i x.now v.now }
{
    match x {
        None => None,
        Some(x) => second_together(words, i, x, v),
    }
}

/// The word at i that does what both do.
#[tactic(auto, unfolding(crate::specs::Joint::fit_forms))]
pub fn forms_together(words: &[u64], i: usize, u: &Form, v: &Form) -> Option<Form>
    requires short { length words.now < 2 ^ 32 }
    requires far { i < 2 ^ 32 }
    ensures { is_some result ≡ fit_forms words.now i u.now v.now }
{
    match second_together(words, i, u, v) {
        Some(j) => Some(j),
        None => first_together(words, i, &other_form(u), v),
    }
}
