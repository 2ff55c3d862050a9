//! The reads of a word: what its operands ask for, and the addresses that give it.

ghost use Rattle.std.specs.Prelude.{◌≡◌, ◌+◌, ◌*◌, ◌^◌, ◌<◌};
ghost use Rattle.pair_words.specs.Reads as spec;

use phys_ir::{PSrc, Pair, Pop};
use tight_words::is_nop;
use vop_ir::{Op, Turn};

/// What operands ask of a word: an address through A, one through B, the code of a small immediate, and an address of a peripheral that
/// either port gives.
#[derive(Clone, Copy, Debug, PartialEq, Eq)]
pub struct Asked {
    pub a: Option<u8>,
    pub b: Option<u8>,
    pub small: Option<u8>,
    pub either: Option<u8>,
}

/// The read addresses of a word. `small`: `rb` is the code of a small immediate. `in_b`: a peripheral that either port gives is read
/// through B.
#[derive(Clone, Copy, Debug, PartialEq, Eq)]
pub struct Ports {
    pub ra: u8,
    pub rb: u8,
    pub small: bool,
    pub in_b: bool,
}

/// The address that is read or written for nothing.
pub const NOWHERE: u8 = 39;

const UNIFORM: u8 = 32;

const NUMBER: u8 = 38;

const VPM: u8 = 48;

const WAIT: u8 = 50;

const MUTEX: u8 = 51;

const BY_FIVE: u8 = 48;

fn nothing() -> Asked
    ensures { result ≡ spec.nothing }
{
    Asked {
        a: None,
        b: None,
        small: None,
        either: None,
    }
}

fn through_a(address: u8) -> Asked
    ensures { result ≡ spec.through_a address }
{
    Asked {
        a: Some(address),
        b: None,
        small: None,
        either: None,
    }
}

fn through_b(address: u8) -> Asked
    ensures { result ≡ spec.through_b address }
{
    Asked {
        a: None,
        b: Some(address),
        small: None,
        either: None,
    }
}

fn through_either(address: u8) -> Asked
    ensures { result ≡ spec.through_either address }
{
    Asked {
        a: None,
        b: None,
        small: None,
        either: Some(address),
    }
}

fn immediate(code: u8) -> Asked
    ensures { result ≡ spec.immediate code }
{
    Asked {
        a: None,
        b: None,
        small: Some(code),
        either: None,
    }
}

/// The code of a small immediate: five bits of the number.
fn small_code(number: i8) -> u8
    ensures { result ≡ spec.small_code number }
{
    let size = number.unsigned_abs();
    if number < 0 {
        31 - (size - 1) % 32
    } else {
        size % 32
    }
}

fn asked_by(operand: PSrc) -> Asked
    ensures { result ≡ spec.asked_by operand }
{
    match operand {
        PSrc::A(r) => through_a(r.number),
        PSrc::B(r) => through_b(r.number),
        PSrc::Acc(_) => nothing(),
        PSrc::Small(number) => immediate(small_code(number)),
        PSrc::Word(_) => nothing(),
        PSrc::Uniform => through_either(UNIFORM),
        PSrc::Elem => through_a(NUMBER),
        PSrc::Qpu => through_b(NUMBER),
        PSrc::Vpm => through_either(VPM),
    }
}

fn or_else(x: Option<u8>, other: Option<u8>) -> Option<u8>
    ensures { result ≡ spec.or_else x other }
{
    match x {
        Some(address) => Some(address),
        None => other,
    }
}

// What both ask, where they agree or only one asks.
fn joined(x: Asked, other: Asked) -> Asked
    ensures { result ≡ spec.joined x other }
{
    Asked {
        a: or_else(x.a, other.a),
        b: or_else(x.b, other.b),
        small: or_else(x.small, other.small),
        either: or_else(x.either, other.either),
    }
}

fn asked_by_pop(pop: &Pop) -> Asked
    ensures { result ≡ spec.asked_by_op pop.now pop.now.op }
{
    match pop.op {
        Op::Add(op) => {
            if is_nop(op) {
                nothing()
            } else {
                joined(asked_by(pop.a), asked_by(pop.b))
            }
        }
        Op::Mul(_) => joined(asked_by(pop.a), asked_by(pop.b)),
        Op::Lock => through_either(MUTEX),
        Op::WaitLoad => through_a(WAIT),
        Op::WaitStore => through_b(WAIT),
    }
}

fn asked_by_part(part: &Option<Pop>) -> Asked
    ensures { result ≡ spec.asked_by_part part.now }
{
    match part {
        None => nothing(),
        Some(pop) => asked_by_pop(pop),
    }
}

/// The code of a rotation, from 48 to 63.
pub fn turn_code(turn: Turn) -> Option<u8>
    ensures { result ≡ spec.turn_code turn }
{
    match turn {
        Turn::Not => None,
        Turn::By(number) => Some(BY_FIVE + number % 16),
        Turn::ByFive => Some(BY_FIVE),
    }
}

fn asked_by_turn(part: &Option<Pop>) -> Asked
    ensures { result ≡ spec.asked_by_turn part.now }
{
    match part {
        None => nothing(),
        Some(pop) => Asked {
            a: None,
            b: None,
            small: turn_code(pop.turn),
            either: None,
        },
    }
}

/// What all operands of a pair ask, and the rotation.
#[tactic(auto, unfolding(crate::specs::Reads::asked_by_pair))]
fn asked_by_pair(pair: &Pair) -> Asked
    ensures { result ≡ spec.asked_by_pair pair.now }
{
    let by_operands = joined(asked_by_part(&pair.add), asked_by_part(&pair.mul));
    joined(asked_by_turn(&pair.mul), by_operands)
}

fn or_nowhere(address: Option<u8>) -> u8
    ensures { result ≡ spec.or_nowhere address }
{
    match address {
        Some(x) => x,
        None => NOWHERE,
    }
}

fn is_asked(address: Option<u8>) -> bool
    ensures { result ≡ spec.is_asked address }
{
    match address {
        Some(_) => true,
        None => false,
    }
}

#[tactic(auto, unfolding(crate::specs::Reads::ports_by))]
fn ports_by(asked: Asked) -> Ports
    ensures { result ≡ spec.ports_by asked }
{
    let in_b = is_asked(asked.a);
    let small = is_asked(asked.small);
    let a = if in_b { asked.a } else { asked.either };
    let b = if in_b {
        or_else(asked.b, asked.either)
    } else {
        asked.b
    };
    Ports {
        ra: or_nowhere(a),
        rb: or_nowhere(or_else(asked.small, b)),
        small,
        in_b,
    }
}

/// The addresses that a pair's word reads.
#[tactic(auto, unfolding(crate::specs::Reads::ports_of))]
pub fn ports_of(pair: &Pair) -> Ports
    ensures { result ≡ spec.ports_of pair.now }
{
    ports_by(asked_by_pair(pair))
}

// The selector of a peripheral that either port gives.
fn selector_of_port(in_b: bool) -> u8
    ensures { result ≡ spec.selector_of_port in_b }
{
    if in_b { 7 } else { 6 }
}

/// The selector of an operand.
pub fn selector(in_b: bool, operand: PSrc) -> u8
    ensures { result ≡ spec.selector in_b operand }
{
    match operand {
        PSrc::A(_) => 6,
        PSrc::B(_) => 7,
        PSrc::Acc(r) => r.number,
        PSrc::Small(_) => 7,
        PSrc::Word(_) => 0,
        PSrc::Uniform => selector_of_port(in_b),
        PSrc::Elem => 6,
        PSrc::Qpu => 7,
        PSrc::Vpm => selector_of_port(in_b),
    }
}

/// The selector of the mutex or of a wait.
pub fn selector_of_op(in_b: bool, op: Op) -> u8
    ensures { result ≡ spec.selector_of_op in_b op }
{
    match op {
        Op::Add(_) => 0,
        Op::Mul(_) => 0,
        Op::Lock => selector_of_port(in_b),
        Op::WaitLoad => 6,
        Op::WaitStore => 7,
    }
}
