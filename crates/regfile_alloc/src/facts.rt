//! Which place holds which register: tables of facts, one number a place, a register's number and 1 where its value is known there, else 0.

ghost use Rattle.std.specs.Prelude.{◌≡◌, ℕ, ◌<◌, ◌-◌, ◌^◌, length, Some, true, ◌⊎◌, slice_index};
ghost use Rattle.regfile_alloc.specs.Checked.{fact, facts_of, dropped, AreSame};
ghost use Rattle.regfile_alloc.specs.Picks.{loc_of};
ghost use Rattle.regfile_alloc.specs.Code.{forget as forgotten, learn as learned, IsKnown, IsWhole};
ghost use Rattle.regfile_alloc.specs.Asides.{also as known_also};
ghost use Rattle.regfile_alloc.specs.Law.{AreAmong, drop as drop_facts};

use crate::picks::place_of;
use qpu_encode::Cond;
use vop_ir::{Dst, Src, Vop};

/// Whether the place is known to hold register r.
pub fn knows(holds: &[u32], place: usize, r: u32) -> bool
    ensures { result ≡ true → facts_of holds.now place ≡ Some r }
{
    place < holds.len() && holds[place] != 0 && holds[place] - 1 == r
}

/// Whether a register is known at its place.
pub fn is_at_home(holds: &[u32], places: &[u32], r: u32) -> bool
    ensures { result ≡ true → facts_of holds.now (loc_of places.now r) ≡ Some r }
{
    knows(holds, place_of(places, r) as usize, r)
}

/// Whether an operand is known at the place of its register.
pub fn is_known(holds: &[u32], places: &[u32], x: Src) -> bool
    ensures { result ≡ true → IsKnown (loc_of places.now) (facts_of holds.now) x }
{
    match x {
        Src::Reg(r) => is_at_home(holds, places, r),
        _ => true,
    }
}

/// Whether an operation finds its register at its place where it may leave some elements as they were.
pub fn is_whole(holds: &[u32], places: &[u32], o: Vop) -> bool
    ensures { result ≡ true → IsWhole (loc_of places.now) o (facts_of holds.now) o.dst }
{
    match o.dst {
        Dst::Reg(r) => match o.cond {
            Cond::Always => true,
            _ => is_at_home(holds, places, r),
        },
        _ => true,
    }
}

// What is left of a fact where register r is written.
fn kept_of(x: u32, r: u32) -> u32
    ensures { fact result ≡ dropped r (fact x) }
{
    if x == 0 {
        0
    } else if x - 1 == r {
        0
    } else {
        x
    }
}

/// Register r is written: each fact of it is stale.
pub fn drop_reg(holds: &mut [u32], r: u32)
    ensures { AreSame (facts_of holds.new) (drop_facts r (facts_of holds.old)) }
{
    for x in holds.iter_mut() {
        *x = kept_of(*x, r);
    }
}

/// The place is written with something else.
pub fn forget(holds: &mut [u32], place: usize)
    ensures { AreSame (facts_of holds.new) (forgotten place (facts_of holds.old)) }
{
    if place < holds.len() {
        holds[place] = 0;
    }
}

/// One place more is known to hold register r.
pub fn also(holds: &mut [u32], place: usize, r: u32)
    requires small { r < 2 ^ 32 - 1 }
    requires place { place < length holds.old }
    ensures { AreSame (facts_of holds.new) (known_also place r (facts_of holds.old)) }
{
    holds[place] = r + 1;
}

/// Whether all facts of the first table are among those of the second.
pub fn are_among(few: &[u32], many: &[u32]) -> bool
    ensures { result ≡ true → AreAmong (facts_of few.now) (facts_of many.now) }
{
    for i in 0..few.len() {
        if !is_found(few[i], many, i) {
            return false;
        }
    }
    true
}

// Whether a number of a table is 0 or stands in another table at the same place.
fn is_found(x: u32, many: &[u32], i: usize) -> bool
    ensures { result ≡ true → (x ≡ 0) ⊎ (slice_index many.now i ≡ x) }
{
    x == 0 || (i < many.len() && many[i] == x)
}

/// Register r is written at a place: no other place holds it any more.
pub fn learn(holds: &mut [u32], place: usize, r: u32)
    requires small { r < 2 ^ 32 - 1 }
    requires place { place < length holds.old }
    ensures { AreSame (facts_of holds.new) (learned place r (facts_of holds.old)) }
{
    drop_reg(holds, r);
    also(holds, place, r);
}

/// Whether a table has this place, and whether its facts may tell of register r.
pub fn is_tellable(holds: &[u32], place: usize, r: u32) -> bool
    ensures room { result ≡ true → place < length holds.now }
    ensures small { result ≡ true → r < 2 ^ 32 - 1 }
{
    place < holds.len() && r < u32::MAX
}
