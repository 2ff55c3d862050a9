//! The first byte at which two footprints conflict.

ghost use Rattle.std.specs.Prelude.{◌≡◌, ◌⊎◌, ◌<◌, ◌+◌, length, true, false, MatchBool};
ghost use Rattle.footprint.specs.Marks.{ConflictAt};
ghost use Rattle.footprint.specs.Least.{IsLeast};
ghost use Rattle.footprint.specs.Order.{IsNoLater, IsOrdered, mark_at};

use crate::marks::{Footprint, Mark};
use crate::reach::Reach;

/// A buffer and a byte of it, ordered by the buffer and then by the byte.
type Place = (u32, u32);

/// The least buffer and, in it, the least byte that one of the two writes and the other reads or writes, or `None`
/// where there is no such byte. Takes no memory, and time that is linear in the marks of both.
pub fn conflict(a: &Footprint, b: &Footprint) -> Option<(u32, u32)>
    ensures { IsLeast (ConflictAt a.now b.now) result }
{
    first_of(&a.marks, &b.marks)
}

/// Passes the marks of both in their order. The first that conflicts with one that was passed on the other side does so
/// at its first byte, and no byte before that has a conflict.
fn first_of(a: &[Mark], b: &[Mark]) -> Option<Place>
    requires a_ordered { IsOrdered a.now }
    requires b_ordered { IsOrdered b.now }
    ensures { IsLeast (ConflictAt a.now b.now) result }
{
    let mut i = 0;
    let mut j = 0;
    let mut in_a = Reach::none();
    let mut in_b = Reach::none();
    while i < a.len() || j < b.len() {
        if is_next(a, i, b, j) {
            let mark = a[i];
            if in_b.meets(&mark) {
                return Some((mark.buffer, mark.from));
            }
            in_a = in_a.with_mark(&mark);
            i += 1;
        } else {
            let mark = b[j];
            if in_a.meets(&mark) {
                return Some((mark.buffer, mark.from));
            }
            in_b = in_b.with_mark(&mark);
            j += 1;
        }
    }
    None
}

/// Whether mark i of `a` comes before mark j of `b`.
fn is_next(a: &[Mark], i: usize, b: &[Mark], j: usize) -> bool
    requires { (i < length a.now) ⊎ (j < length b.now) }
    ensures { MatchBool result
        ((i < length a.now) × (j < length b.now → IsNoLater (mark_at a.now i) (mark_at b.now j)))
        ((j < length b.now) × (i < length a.now → IsNoLater (mark_at b.now j) (mark_at a.now i))) }
{
    if i >= a.len() {
        false
    } else if j >= b.len() {
        true
    } else {
        a[i].is_no_later(&b[j])
    }
}
