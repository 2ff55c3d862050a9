//! Which operands of an operation are copied first, so that one word can say the rest.

ghost use Rattle.std.specs.Prelude.{◌≡◌, ℕ, ◌<◌, get_or, length, IfOk, ◌++◌, ◌∷◌, []};
ghost use Rattle.regfile_alloc.specs.Code.{src_in as src_over, dst_in as dst_over, move as move_of};
ghost use Rattle.regfile_alloc.specs.Picks.{within as within_places, loc_of, is_acc as is_acc_place, reads_a as reads_as_a, reads_b as reads_as_b, is_word as is_a_word, turns as is_turned, same_src, clash as clashes, loads_word as loads_a_word, is_private as is_private_source, needs_copy as needs_a_copy, needs_first as needs_the_first, needs_second as needs_the_second, copy_place as place_of_copy, IsSrcPlace, IsDstPlace};

use qpu_encode::{AddOp, Cond};
use register_plan::PLACES;
use vop_ir::{Dst, Op, Src, Turn, Vop};

/// r0 and r1 take copies.
pub const FIRST_COPY: u32 = 64;

pub const SECOND_COPY: u32 = 65;

/// A place that there is.
pub fn within(place: u32) -> u32
    ensures value { result ≡ within_places place }
    ensures place { result < 68 }
{
    if place < PLACES { place } else { 0 }
}

/// The place of a register.
pub fn place_of(places: &[u32], r: u32) -> u32
    ensures value { result ≡ loc_of places.now r }
    ensures place { result < 68 }
{
    within(places.get(r as usize).copied().unwrap_or(0))
}

pub fn src_in(places: &[u32], x: Src) -> Src
    ensures value { result ≡ src_over (loc_of places.now) x }
    ensures place { IsSrcPlace result }
{
    match x {
        Src::Reg(r) => Src::Reg(place_of(places, r)),
        other => other,
    }
}

pub fn dst_in(places: &[u32], x: Dst) -> Dst
    ensures value { result ≡ dst_over (loc_of places.now) x }
    ensures place { IsDstPlace result }
{
    match x {
        Dst::Reg(r) => Dst::Reg(place_of(places, r)),
        other => other,
    }
}

pub fn copy_to(place: u32, x: Src) -> Vop
    ensures { result ≡ move_of place x }
{
    Vop {
        op: Op::Add(AddOp::Or),
        cond: Cond::Always,
        flags: false,
        dst: Dst::Reg(place),
        a: x,
        b: x,
        turn: Turn::Not,
        unpack: 0,
    }
}

pub fn is_acc(x: Src) -> bool
    ensures { result ≡ is_acc_place x }
{
    match x {
        Src::Reg(p) => p >= 64,
        _ => false,
    }
}

pub fn reads_a(x: Src) -> bool
    ensures { result ≡ reads_as_a x }
{
    match x {
        Src::Reg(p) => p < 32,
        Src::Elem => true,
        _ => false,
    }
}

pub fn reads_b(x: Src) -> bool
    ensures { result ≡ reads_as_b x }
{
    match x {
        Src::Reg(p) => 32 <= p && p < 64,
        Src::Small(_) => true,
        Src::Qpu => true,
        _ => false,
    }
}

pub fn is_word(x: Src) -> bool
    ensures { result ≡ is_a_word x }
{
    match x {
        Src::Word(_) => true,
        _ => false,
    }
}

pub fn is_private(x: Src) -> bool
    ensures { result ≡ is_private_source x }
{
    match x {
        Src::Uniform => false,
        Src::Vpm => false,
        _ => true,
    }
}

pub fn turns(t: Turn) -> bool
    ensures { result ≡ is_turned t }
{
    match t {
        Turn::Not => false,
        _ => true,
    }
}

pub fn loads_word(o: Vop) -> bool
    ensures { result ≡ loads_a_word o }
{
    match o.op {
        Op::Add(AddOp::Or) => !o.flags,
        _ => false,
    }
}

pub fn clash(a: Src, b: Src) -> bool
    ensures { result ≡ clashes a b }
{
    (reads_a(a) && reads_a(b)) || (reads_b(a) && reads_b(b))
}

/// Whether the one operand that stands on both sides is copied.
pub fn needs_copy(o: Vop, a: Src) -> bool
    ensures { result ≡ needs_a_copy o a }
{
    (o.unpack != 0 && !reads_a(a))
        || ((turns(o.turn) && !is_acc(a)) || (is_word(a) && !loads_word(o)))
}

/// Whether the first of two operands is copied.
pub fn needs_first(o: Vop, a: Src) -> bool
    ensures { result ≡ needs_the_first o a }
{
    (turns(o.turn) && !is_acc(a)) || is_word(a)
}

/// Whether the second of two operands is copied.
pub fn needs_second(o: Vop, a: Src, b: Src) -> bool
    ensures { result ≡ needs_the_second o a b }
{
    (turns(o.turn) && !is_acc(b)) || (is_word(b) || clash(a, b))
}

/// The place for the one copy of two equal operands.
pub fn copy_place(spare: u32, o: Vop) -> u32
    ensures { result ≡ place_of_copy spare o }
{
    if o.unpack == 0 { FIRST_COPY } else { spare }
}

pub fn is_same(a: Src, b: Src) -> bool
    ensures { result ≡ same_src a b }
{
    match a {
        Src::Reg(x) => match b {
            Src::Reg(y) => x == y,
            _ => false,
        },
        Src::Small(x) => match b {
            Src::Small(y) => x == y,
            _ => false,
        },
        Src::Word(x) => match b {
            Src::Word(y) => x == y,
            _ => false,
        },
        Src::Uniform => matches!(b, Src::Uniform),
        Src::Elem => matches!(b, Src::Elem),
        Src::Qpu => matches!(b, Src::Qpu),
        Src::Vpm => matches!(b, Src::Vpm),
    }
}
