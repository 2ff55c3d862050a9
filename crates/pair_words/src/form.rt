//! The word of a pair.

ghost use Rattle.std.specs.Prelude.{◌≡◌, ◌||◌};
ghost use Rattle.pair_words.specs.PairForm as spec;

use crate::reads::{NOWHERE, Ports, ports_of, selector, selector_of_op};
use crate::writes::{address_of, swaps};
use phys_ir::{PSrc, Pair, Pop};
use qpu_encode::{AddOp, AddPart, Cond, Form, Head, MulOp, MulPart};
use tight_words::is_nop;
use vop_ir::Op;

fn no_add() -> AddPart
    ensures { result ≡ spec.no_add }
{
    AddPart {
        op: AddOp::Nop,
        cond: Cond::Never,
        dst: NOWHERE,
        a: 0,
        b: 0,
    }
}

fn no_mul() -> MulPart
    ensures { result ≡ spec.no_mul }
{
    MulPart {
        op: MulOp::Nop,
        cond: Cond::Never,
        dst: NOWHERE,
        a: 0,
        b: 0,
    }
}

fn add_by(in_b: bool, pop: &Pop, op: AddOp) -> AddPart
    ensures { result ≡ spec.add_by in_b pop.now op }
{
    AddPart {
        op,
        cond: pop.cond,
        dst: address_of(pop.dst),
        a: selector(in_b, pop.a),
        b: selector(in_b, pop.b),
    }
}

// The mutex or a wait: its read is taken twice by an `or`.
fn add_by_read(selector: u8, pop: &Pop) -> AddPart
    ensures { result ≡ spec.add_by_read selector pop.now }
{
    AddPart {
        op: AddOp::Or,
        cond: pop.cond,
        dst: address_of(pop.dst),
        a: selector,
        b: selector,
    }
}

fn add_of(in_b: bool, pop: &Pop) -> AddPart
    ensures { result ≡ spec.add_of in_b pop.now pop.now.op }
{
    match pop.op {
        Op::Add(op) => {
            if is_nop(op) {
                no_add()
            } else {
                add_by(in_b, pop, op)
            }
        }
        Op::Mul(_) => no_add(),
        Op::Lock => add_by_read(selector_of_op(in_b, Op::Lock), pop),
        Op::WaitLoad => add_by_read(selector_of_op(in_b, Op::WaitLoad), pop),
        Op::WaitStore => add_by_read(selector_of_op(in_b, Op::WaitStore), pop),
    }
}

fn add_part(in_b: bool, part: &Option<Pop>) -> AddPart
    ensures { result ≡ spec.add_part in_b part.now }
{
    match part {
        None => no_add(),
        Some(pop) => add_of(in_b, pop),
    }
}

fn mul_of(in_b: bool, pop: &Pop) -> MulPart
    ensures { result ≡ spec.mul_of in_b pop.now pop.now.op }
{
    match pop.op {
        Op::Mul(op) => MulPart {
            op,
            cond: pop.cond,
            dst: address_of(pop.dst),
            a: selector(in_b, pop.a),
            b: selector(in_b, pop.b),
        },
        Op::Add(_) => no_mul(),
        Op::Lock => no_mul(),
        Op::WaitLoad => no_mul(),
        Op::WaitStore => no_mul(),
    }
}

fn mul_part(in_b: bool, part: &Option<Pop>) -> MulPart
    ensures { result ≡ spec.mul_part in_b part.now }
{
    match part {
        None => no_mul(),
        Some(pop) => mul_of(in_b, pop),
    }
}

fn unpack_of(part: &Option<Pop>) -> u8
    ensures { result ≡ spec.unpack_of part.now }
{
    match part {
        None => 0,
        Some(pop) => pop.unpack,
    }
}

fn flags_of(part: &Option<Pop>) -> bool
    ensures { result ≡ spec.flags_of part.now }
{
    match part {
        None => false,
        Some(pop) => pop.flags,
    }
}

fn head_by(small: bool) -> Head
    ensures { result ≡ spec.head_by small }
{
    if small { Head::Small } else { Head::Plain }
}

fn form_at_ports(pair: &Pair, ports: Ports) -> Form
    ensures { result ≡ spec.form_at_ports pair.now ports }
{
    Form::Alu {
        head: head_by(ports.small),
        unpack: unpack_of(&pair.add),
        add: add_part(ports.in_b, &pair.add),
        mul: mul_part(ports.in_b, &pair.mul),
        flags: flags_of(&pair.add) || flags_of(&pair.mul),
        swap: swaps(pair),
        ra: ports.ra,
        rb: ports.rb,
    }
}

fn load_form(pair: &Pair, pop: &Pop, value: u32) -> Form
    ensures { result ≡ spec.load_form pair.now pop.now value }
{
    Form::Ldi {
        add_cond: pop.cond,
        mul_cond: Cond::Never,
        swap: swaps(pair),
        add_dst: address_of(pop.dst),
        mul_dst: NOWHERE,
        value,
    }
}

fn form_by(pair: &Pair, pop: &Pop) -> Form
    ensures { result ≡ spec.form_by pair.now pop.now pop.now.a }
{
    match pop.a {
        PSrc::Word(value) => load_form(pair, pop, value),
        PSrc::A(_) => form_at_ports(pair, ports_of(pair)),
        PSrc::B(_) => form_at_ports(pair, ports_of(pair)),
        PSrc::Acc(_) => form_at_ports(pair, ports_of(pair)),
        PSrc::Small(_) => form_at_ports(pair, ports_of(pair)),
        PSrc::Uniform => form_at_ports(pair, ports_of(pair)),
        PSrc::Elem => form_at_ports(pair, ports_of(pair)),
        PSrc::Qpu => form_at_ports(pair, ports_of(pair)),
        PSrc::Vpm => form_at_ports(pair, ports_of(pair)),
    }
}

/// The word of a pair. It says the pair where one word can say it (`is_pair`).
#[tactic(auto, unfolding(crate::specs::PairForm::form_of_pair))]
pub fn form_of_pair(pair: &Pair) -> Form
    ensures { result ≡ spec.form_of_pair pair.now }
{
    match &pair.add {
        None => form_at_ports(pair, ports_of(pair)),
        Some(pop) => form_by(pair, pop),
    }
}
