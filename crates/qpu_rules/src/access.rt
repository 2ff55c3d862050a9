//! The peripheral accesses of a word.

ghost use Rattle.std.specs.Prelude.{◌≡◌, is_some};
ghost use Rattle.qpu_rules.specs.Uses as uses;
ghost use Rattle.qpu_rules.specs.Uses.{access_of_read, read_access, access_of_write, write_access, accesses, count_of, sole, added, read_as, is_at, reads_uniform};

use crate::registers::{Target, address_read, target_of_add, target_of_mul, written};
use qpu_encode::Form;
use vpm_words::Access;

/// How many peripheral accesses a word has: none, one, or two and more.
#[derive(Clone, Copy, Debug, PartialEq, Eq)]
pub enum Accesses {
    Nothing,
    One(Access),
    Several,
}

const UNIFORM: u8 = 32;

const VPM: u8 = 48;

const SETUP: u8 = 49;

const TRANSFER: u8 = 50;

const MUTEX: u8 = 51;

#[tactic(auto, unfolding(crate::specs::Uses::access_of_read))]
fn access_at_read(through_b: bool, x: u8) -> Option<Access>
    ensures { result ≡ access_of_read through_b x }
{
    match x {
        UNIFORM => Some(Access::Uniform),
        VPM => Some(Access::ReadVpm),
        TRANSFER => Some(if through_b {
            Access::WaitStore
        } else {
            Access::WaitLoad
        }),
        MUTEX => Some(Access::Lock),
        _ => None,
    }
}

fn access_by_read(through_b: bool, form: &Form) -> Option<Access>
    ensures { result ≡ read_access through_b (read_as through_b form.now) }
{
    match address_read(through_b, form) {
        Some(x) => access_at_read(through_b, x),
        None => None,
    }
}

#[tactic(auto, unfolding(crate::specs::Uses::access_of_write))]
fn access_at_write(through_b: bool, x: u8) -> Option<Access>
    ensures { result ≡ access_of_write through_b x }
{
    match x {
        VPM => Some(Access::WriteVpm),
        SETUP => Some(if through_b {
            Access::WriteSet
        } else {
            Access::ReadSet
        }),
        TRANSFER => Some(if through_b {
            Access::StoreAddr
        } else {
            Access::LoadAddr
        }),
        MUTEX => Some(Access::Unlock),
        _ => None,
    }
}

fn access_by_write(target: Target) -> Option<Access>
    ensures { result ≡ write_access target }
{
    if written(target) {
        access_at_write(target.through_b, target.dst)
    } else {
        None
    }
}

/// Whether a unit writes a peripheral.
pub fn goes_out(target: Target) -> bool
    ensures { result ≡ is_some (write_access target) }
{
    access_by_write(target).is_some()
}

fn add(access: Option<Access>, others: Accesses) -> Accesses
    ensures { result ≡ added access others }
{
    match access {
        None => others,
        Some(a) => match others {
            Accesses::Nothing => Accesses::One(a),
            Accesses::One(_) | Accesses::Several => Accesses::Several,
        },
    }
}

/// The accesses of a word, one for each read and each unit that has one.
#[tactic(auto, unfolding(crate::specs::Uses::accesses), using(crate::proofs::Count::count_of_listed))]
pub fn accesses_of(form: &Form) -> Accesses
    ensures { result ≡ count_of (accesses form.now) }
{
    let by_mul = add(access_by_write(target_of_mul(form)), Accesses::Nothing);
    let by_units = add(access_by_write(target_of_add(form)), by_mul);
    let with_b = add(access_by_read(true, form), by_units);
    add(access_by_read(false, form), with_b)
}

fn only_one(accesses: Accesses) -> Option<Access>
    ensures { result ≡ sole accesses }
{
    match accesses {
        Accesses::One(access) => Some(access),
        Accesses::Nothing | Accesses::Several => None,
    }
}

/// The one access of a word; None where it has none or several.
#[tactic(auto, unfolding(crate::specs::Uses::access_of), using(crate::proofs::Count::sole_of_count))]
pub fn access_of(form: &Form) -> Option<Access>
    ensures { result ≡ uses.access_of form.now }
{
    only_one(accesses_of(form))
}

fn is_uniform(address: Option<u8>) -> bool
    ensures { result ≡ is_at 32 address }
{
    match address {
        None => false,
        Some(x) => x == UNIFORM,
    }
}

/// Whether a uniform is read, as A or B.
pub fn takes_uniform(form: &Form) -> bool
    ensures { result ≡ reads_uniform form.now }
{
    is_uniform(address_read(false, form)) || is_uniform(address_read(true, form))
}
