//! The tests of the profile.

ghost use Rattle.std.specs.Prelude.{◌≡◌, not, slice_index};
ghost use Rattle.qpu_encode.specs.Codes.{add_code, mul_code, cond_code, head_code};
ghost use Rattle.qpu_encode.specs.WordFields.{is_selector, is_port, is_acc, is_target, is_source, is_part, is_small, is_unpack, is_flagged, is_distance};
ghost use Rattle.qpu_encode.specs.WordFields as spec;

use crate::codes::{add_code_of, cond_code_of, head_code_of, mul_code_of};
use crate::form::Form;

fn selector(x: u8) -> bool
    ensures { result ≡ is_selector x }
{
    x <= 3 || (5 <= x && x <= 7)
}

fn port(dst: u8) -> bool
    ensures { result ≡ is_port dst }
{
    48 <= dst && dst <= 51
}

fn acc(dst: u8) -> bool
    ensures { result ≡ is_acc dst }
{
    32 <= dst && dst <= 35
}

#[tactic(auto, unfolding(crate::specs::WordFields::is_target))]
fn target(through_b: bool, dst: u8, cond: u8) -> bool
    ensures { result ≡ is_target through_b dst cond }
{
    dst <= 35 || dst == 39 || ((port(dst) || (dst == 37 && through_b)) && cond == 1)
}

#[tactic(auto, unfolding(crate::specs::WordFields::is_source))]
fn source(x: u8) -> bool
    ensures { result ≡ is_source x }
{
    x <= 32 || (x == 38 || (x == 39 || (x == 48 || (x == 50 || x == 51))))
}

#[tactic(auto, unfolding(crate::specs::WordFields::is_part))]
fn part(op: u8, cond: u8, dst: u8, a: u8, b: u8) -> bool
    ensures { result ≡ is_part op cond dst a b }
{
    if op == 0 {
        cond == 0 && dst == 39 && (a == 0 && b == 0)
    } else {
        selector(a) && selector(b)
    }
}

#[tactic(auto, unfolding(crate::specs::WordFields::is_small))]
fn small_or_source(small: bool, rb: u8, op_mul: u8, flags: bool, selectors: [u8; 4]) -> bool
    ensures { result ≡ is_small small rb op_mul flags (slice_index selectors 0) (slice_index selectors 1) (slice_index selectors 2) (slice_index selectors 3) }
{
    let [add_a, add_b, mul_a, mul_b] = selectors;
    if small {
        rb <= 31
            || ((48 <= rb && rb <= 63)
                && ((!(op_mul == 0) && !flags)
                    && ((!(add_a == 7) && !(add_b == 7)) && (!(mul_a == 7) && !(mul_b == 7)))))
    } else {
        source(rb)
    }
}

#[tactic(auto, unfolding(crate::specs::WordFields::is_unpack))]
fn unpacks(unpack: u8, op_add: u8, ra: u8, selectors: [u8; 4]) -> bool
    ensures { result ≡ is_unpack unpack op_add (slice_index selectors 0) (slice_index selectors 1) ra (slice_index selectors 2) (slice_index selectors 3) }
{
    let [add_a, add_b, mul_a, mul_b] = selectors;
    unpack == 0
        || (((unpack <= 7 && !(unpack == 3)) && op_add == 21)
            && ((add_a == 6 && add_b == 6) && (ra <= 31 && (!(mul_a == 6) && !(mul_b == 6)))))
}

#[tactic(auto, unfolding(crate::specs::WordFields::is_flagged))]
fn flagged(flags: bool, op_add: u8, cond_add: u8, op_mul: u8, cond_mul: u8) -> bool
    ensures { result ≡ is_flagged flags op_add cond_add op_mul cond_mul }
{
    !flags
        || (if op_add == 0 {
            !(op_mul == 0) && cond_mul == 1
        } else {
            cond_add == 1
        })
}

#[tactic(auto, unfolding(crate::specs::WordFields::is_distance))]
fn distance(words: i32) -> bool
    ensures { result ≡ is_distance words }
{
    -0x1000_0000 <= words && words < 0x1000_0000
}

/// The form is in the profile.
#[tactic(auto, unfolding(crate::specs::WordFields::is_in_profile))]
pub fn is_in_profile(form: &Form) -> bool
    ensures { result ≡ spec.is_in_profile form.now }
{
    match *form {
        Form::Alu {
            head,
            unpack,
            add,
            mul,
            flags,
            swap,
            ra,
            rb,
        } => {
            let aop = add_code_of(add.op);
            let mop = mul_code_of(mul.op);
            let acond = cond_code_of(add.cond);
            let mcond = cond_code_of(mul.cond);
            let small = head_code_of(head) == 13;
            let selectors = [add.a, add.b, mul.a, mul.b];
            ((part(aop, acond, add.dst, add.a, add.b) && part(mop, mcond, mul.dst, mul.a, mul.b))
                && (target(swap, add.dst, acond) && target(!swap, mul.dst, mcond)))
                && ((!(add.dst == mul.dst && acc(add.dst)) && source(ra))
                    && (small_or_source(small, rb, mop, flags, selectors)
                        && (unpacks(unpack, aop, ra, selectors)
                            && flagged(flags, aop, acond, mop, mcond))))
        }
        Form::Ldi {
            add_cond,
            mul_cond,
            swap,
            add_dst,
            mul_dst,
            value,
        } => {
            let acond = cond_code_of(add_cond);
            let mcond = cond_code_of(mul_cond);
            (target(swap, add_dst, acond) && target(!swap, mul_dst, mcond))
                && !(add_dst == mul_dst && acc(add_dst))
        }
        Form::Bra { cond: _, words } => distance(words),
    }
}
