//! What a pair means, said of the word that is to say it.

ghost use Rattle.std.specs.Prelude.{◌≡◌, ◌+◌, ◌<◌, ◌||◌};
ghost use Rattle.pair_words.specs.PairMeaning as spec;

use crate::reads::{NOWHERE, turn_code};
use crate::writes::{address_of, side_of};
use phys_ir::{PDst, PSrc, Pair, Pop};
use qpu_encode::{AddOp, Cond, MulOp};
use tight_words::{AddAct, Meaning, MulAct, Reads, Source, is_nop};
use vop_ir::{Op, Turn};

fn number_of(small: i8) -> u32
    ensures { result ≡ spec.number_of small }
{
    let size = u32::from(small.unsigned_abs());
    if small < 0 {
        u32::MAX - (size - 1)
    } else {
        size
    }
}

fn source_of(operand: PSrc) -> Source
    ensures { result ≡ spec.source_of operand }
{
    match operand {
        PSrc::A(r) => Source::FileA(r.number),
        PSrc::B(r) => Source::FileB(r.number),
        PSrc::Acc(r) => Source::Acc(r.number),
        PSrc::Small(number) => Source::Constant(number_of(number)),
        PSrc::Word(value) => Source::Constant(value),
        PSrc::Uniform => Source::Uniform,
        PSrc::Elem => Source::Element,
        PSrc::Qpu => Source::Qpu,
        PSrc::Vpm => Source::Row,
    }
}

fn is_through_b(dst: PDst) -> bool
    ensures { result ≡ spec.is_through_b dst }
{
    match side_of(dst) {
        Some(through_b) => through_b,
        None => false,
    }
}

fn no_add() -> AddAct
    ensures { result ≡ spec.no_add }
{
    AddAct {
        op: AddOp::Nop,
        unpack: 0,
        cond: Cond::Never,
        dst: NOWHERE,
        side: false,
        a: Source::Acc(0),
        b: Source::Acc(0),
    }
}

fn no_mul() -> MulAct
    ensures { result ≡ spec.no_mul }
{
    MulAct {
        op: MulOp::Nop,
        turn: 0,
        cond: Cond::Never,
        dst: NOWHERE,
        side: false,
        a: Source::Acc(0),
        b: Source::Acc(0),
    }
}

fn add_by(pop: &Pop, op: AddOp) -> AddAct
    ensures { result ≡ spec.add_by pop.now op }
{
    AddAct {
        op,
        unpack: pop.unpack,
        cond: pop.cond,
        dst: address_of(pop.dst),
        side: is_through_b(pop.dst),
        a: source_of(pop.a),
        b: source_of(pop.b),
    }
}

// The mutex and the waits read as 0.
fn add_by_read(pop: &Pop) -> AddAct
    ensures { result ≡ spec.add_by_read pop.now }
{
    AddAct {
        op: AddOp::Or,
        unpack: 0,
        cond: pop.cond,
        dst: address_of(pop.dst),
        side: is_through_b(pop.dst),
        a: Source::Constant(0),
        b: Source::Constant(0),
    }
}

fn add_of(pop: &Pop) -> AddAct
    ensures { result ≡ spec.add_of pop.now pop.now.op }
{
    match pop.op {
        Op::Add(op) => add_by(pop, op),
        Op::Mul(_) => no_add(),
        Op::Lock => add_by_read(pop),
        Op::WaitLoad => add_by_read(pop),
        Op::WaitStore => add_by_read(pop),
    }
}

fn add_part(part: &Option<Pop>) -> AddAct
    ensures { result ≡ spec.add_part part.now }
{
    match part {
        None => no_add(),
        Some(pop) => add_of(pop),
    }
}

fn or_none(code: Option<u8>) -> u8
    ensures { result ≡ spec.or_none code }
{
    match code {
        Some(x) => x,
        None => 0,
    }
}

fn mul_of(pop: &Pop) -> MulAct
    ensures { result ≡ spec.mul_of pop.now pop.now.op }
{
    match pop.op {
        Op::Mul(op) => MulAct {
            op,
            turn: or_none(turn_code(pop.turn)),
            cond: pop.cond,
            dst: address_of(pop.dst),
            side: is_through_b(pop.dst),
            a: source_of(pop.a),
            b: source_of(pop.b),
        },
        Op::Add(_) => no_mul(),
        Op::Lock => no_mul(),
        Op::WaitLoad => no_mul(),
        Op::WaitStore => no_mul(),
    }
}

fn mul_part(part: &Option<Pop>) -> MulAct
    ensures { result ≡ spec.mul_part part.now }
{
    match part {
        None => no_mul(),
        Some(pop) => mul_of(pop),
    }
}

fn counted(x: bool) -> u8
    ensures counts { result ≡ spec.count x }
    ensures most { result < 2 }
{
    if x { 1 } else { 0 }
}

fn is_uniform(operand: PSrc) -> bool
    ensures { result ≡ spec.is_uniform operand }
{
    matches!(operand, PSrc::Uniform)
}

fn is_row(operand: PSrc) -> bool
    ensures { result ≡ spec.is_row operand }
{
    matches!(operand, PSrc::Vpm)
}

fn is_lock(op: Op) -> bool
    ensures { result ≡ spec.is_lock op }
{
    matches!(op, Op::Lock)
}

fn is_load_wait(op: Op) -> bool
    ensures { result ≡ spec.is_load_wait op }
{
    matches!(op, Op::WaitLoad)
}

fn is_store_wait(op: Op) -> bool
    ensures { result ≡ spec.is_store_wait op }
{
    matches!(op, Op::WaitStore)
}

// Both operands of one operation take one uniform, or one row.
fn reads_of(part: &Option<Pop>) -> Reads
    ensures is { result ≡ spec.reads_of part.now }
    ensures few { spec.AreFew result }
{
    match part {
        None => Reads {
            uniform: 0,
            row: 0,
            load_wait: 0,
            store_wait: 0,
            lock: 0,
        },
        Some(pop) => Reads {
            uniform: counted(is_uniform(pop.a) || is_uniform(pop.b)),
            row: counted(is_row(pop.a) || is_row(pop.b)),
            load_wait: counted(is_load_wait(pop.op)),
            store_wait: counted(is_store_wait(pop.op)),
            lock: counted(is_lock(pop.op)),
        },
    }
}

fn sum_of(x: Reads, y: Reads) -> Reads
    requires first { spec.AreFew x }
    requires second { spec.AreFew y }
    ensures { result ≡ spec.sum_of x y }
{
    Reads {
        uniform: x.uniform + y.uniform,
        row: x.row + y.row,
        load_wait: x.load_wait + y.load_wait,
        store_wait: x.store_wait + y.store_wait,
        lock: x.lock + y.lock,
    }
}

fn flags_of(part: &Option<Pop>) -> bool
    ensures { result ≡ spec.flags_of part.now }
{
    match part {
        None => false,
        Some(pop) => pop.flags,
    }
}

/// What a pair means, as what a word means is said.
#[tactic(auto, unfolding(crate::specs::PairMeaning::meaning_of_pair))]
pub fn meaning_of_pair(pair: &Pair) -> Meaning
    ensures { result ≡ spec.meaning_of_pair pair.now }
{
    Meaning {
        add: add_part(&pair.add),
        mul: mul_part(&pair.mul),
        flags: flags_of(&pair.add) || flags_of(&pair.mul),
        reads: sum_of(reads_of(&pair.add), reads_of(&pair.mul)),
    }
}

// By how many elements a rotation may turn.
fn is_turn_in_range(turn: Turn) -> bool
    ensures { result ≡ spec.is_turn_in_range turn }
{
    match turn {
        Turn::Not => true,
        Turn::By(number) => 1 <= number && number <= 15,
        Turn::ByFive => true,
    }
}

fn is_unturned(turn: Turn) -> bool
    ensures { result ≡ spec.is_unturned turn }
{
    matches!(turn, Turn::Not)
}

fn suits_add_unit(op: Op) -> bool
    ensures { result ≡ spec.suits_add_unit op }
{
    match op {
        Op::Add(op) => !is_nop(op),
        Op::Mul(_) => false,
        Op::Lock => true,
        Op::WaitLoad => true,
        Op::WaitStore => true,
    }
}

fn suits_mul_unit(op: Op) -> bool
    ensures { result ≡ spec.suits_mul_unit op }
{
    match op {
        Op::Mul(op) => !matches!(op, MulOp::Nop),
        Op::Add(_) => false,
        Op::Lock => false,
        Op::WaitLoad => false,
        Op::WaitStore => false,
    }
}

fn is_add(part: &Option<Pop>) -> bool
    ensures { result ≡ spec.is_add part.now }
{
    match part {
        None => true,
        Some(pop) => suits_add_unit(pop.op) && is_unturned(pop.turn),
    }
}

fn is_acc(operand: PSrc) -> bool
    ensures { result ≡ spec.is_acc operand }
{
    matches!(operand, PSrc::Acc(_))
}

// What is rotated stands in accumulators.
fn turns_right(pop: &Pop) -> bool
    ensures { result ≡ spec.turns_right pop.now }
{
    is_unturned(pop.turn) || (is_turn_in_range(pop.turn) && (is_acc(pop.a) && is_acc(pop.b)))
}

fn is_mul(part: &Option<Pop>) -> bool
    ensures { result ≡ spec.is_mul part.now }
{
    match part {
        None => true,
        Some(pop) => suits_mul_unit(pop.op) && (turns_right(pop) && pop.unpack == 0),
    }
}

// Flags come from the add unit where it has an operation.
fn is_flagged(pair: &Pair) -> bool
    ensures { result ≡ spec.is_flagged pair.now.add pair.now.mul }
{
    match pair.add {
        None => true,
        Some(_) => !flags_of(&pair.mul),
    }
}

fn is_port(dst: PDst) -> bool
    ensures { result ≡ spec.is_port dst }
{
    match dst {
        PDst::Vpm => true,
        PDst::ReadSet => true,
        PDst::WriteSet => true,
        PDst::LoadAddr => true,
        PDst::StoreAddr => true,
        PDst::Unlock => true,
        PDst::A(_) => false,
        PDst::B(_) => false,
        PDst::Acc(_) => false,
        PDst::Five => false,
        PDst::Nowhere => false,
    }
}

fn writes_port(part: &Option<Pop>) -> bool
    ensures { result ≡ spec.writes_port part.now }
{
    match part {
        None => false,
        Some(pop) => is_port(pop.dst),
    }
}

fn total(reads: Reads) -> u8
    requires { spec.AreFew reads }
    ensures is { result ≡ spec.total reads }
    ensures most { result < 6 }
{
    (reads.uniform + reads.row) + ((reads.load_wait + reads.store_wait) + reads.lock)
}

// How many accesses of peripherals a part has.
fn accesses_of(part: &Option<Pop>) -> u8
    ensures is { result ≡ spec.accesses_of part.now }
    ensures most { result < 7 }
{
    total(reads_of(part)) + counted(writes_port(part))
}

/// Each part suits its unit, the flags come from the part that sets them, and they have one access of a peripheral at most.
#[tactic(auto, unfolding(crate::specs::PairMeaning::is_in_place))]
pub fn is_in_place(pair: &Pair) -> bool
    ensures { result ≡ spec.is_in_place pair.now }
{
    ((is_add(&pair.add) && is_mul(&pair.mul)) && is_flagged(pair))
        && accesses_of(&pair.add) + accesses_of(&pair.mul) <= 1
}
