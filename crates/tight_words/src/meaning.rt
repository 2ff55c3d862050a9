//! What a word means, whichever ports and addresses say it.

ghost use Rattle.std.specs.Prelude.{◌≡◌, true, false, not, ◌<◌, ◌&&◌, ◌==◌};
ghost use Rattle.qpu_encode.specs.Codes.{add_code, mul_code, cond_code};
ghost use Rattle.tight_words.specs.Meaning.{same, read_a, read_b, operand, is_sided, side, turn, is_small, is_nop, is_mul_nop, count, reads_of, add_act, mul_act, meaning, same_add, same_mul, same_reads, same_meaning, same_bool, apart, no_meaning, small_number, IsFew};

use qpu_encode::{AddOp, AddPart, Cond, Form, Head, MulOp, MulPart};

/// Where an operand comes from. All ways to say one constant are one source.
#[derive(Clone, Copy)]
pub enum Source {
    Acc(u8),
    Five,
    FileA(u8),
    FileB(u8),
    Element,
    Qpu,
    Uniform,
    Row,
    Constant(u32),
}

/// What the add unit does. `side`: the destination is that of file B, where files differ.
#[derive(Clone, Copy)]
pub struct AddAct {
    pub op: AddOp,
    pub unpack: u8,
    pub cond: Cond,
    pub dst: u8,
    pub side: bool,
    pub a: Source,
    pub b: Source,
}

/// What the mul unit does. `turn`: the code of its rotation, or 0.
#[derive(Clone, Copy)]
pub struct MulAct {
    pub op: MulOp,
    pub turn: u8,
    pub cond: Cond,
    pub dst: u8,
    pub side: bool,
    pub a: Source,
    pub b: Source,
}

/// How often a word reads each of the peripherals.
#[derive(Clone, Copy)]
pub struct Reads {
    pub uniform: u8,
    pub row: u8,
    pub load_wait: u8,
    pub store_wait: u8,
    pub lock: u8,
}

#[derive(Clone, Copy)]
pub struct Meaning {
    pub add: AddAct,
    pub mul: MulAct,
    pub flags: bool,
    pub reads: Reads,
}

/// Both are one source.
pub fn same_source(x: Source, y: Source) -> bool
    ensures { result ≡ same x y }
{
    match x {
        Source::Acc(m) => match y {
            Source::Acc(n) => m == n,
            _ => false,
        },
        Source::Five => matches!(y, Source::Five),
        Source::FileA(m) => match y {
            Source::FileA(n) => m == n,
            _ => false,
        },
        Source::FileB(m) => match y {
            Source::FileB(n) => m == n,
            _ => false,
        },
        Source::Element => matches!(y, Source::Element),
        Source::Qpu => matches!(y, Source::Qpu),
        Source::Uniform => matches!(y, Source::Uniform),
        Source::Row => matches!(y, Source::Row),
        Source::Constant(m) => match y {
            Source::Constant(n) => m == n,
            _ => false,
        },
    }
}

pub fn source_a(x: u8) -> Source
    ensures { result ≡ read_a x }
{
    if x <= 31 {
        Source::FileA(x)
    } else if x == 32 {
        Source::Uniform
    } else if x == 38 {
        Source::Element
    } else if x == 48 {
        Source::Row
    } else {
        Source::Constant(0)
    }
}

fn small_value(x: u8) -> u32
    ensures { result ≡ small_number x }
{
    let low = u32::from(x % 32);
    if low <= 15 { low } else { low + 0xffff_ffe0 }
}

pub fn source_b(small: bool, x: u8) -> Source
    ensures { result ≡ read_b small x }
{
    if small {
        Source::Constant(small_value(x))
    } else if x <= 31 {
        Source::FileB(x)
    } else if x == 32 {
        Source::Uniform
    } else if x == 38 {
        Source::Qpu
    } else if x == 48 {
        Source::Row
    } else {
        Source::Constant(0)
    }
}

pub fn source_at(small: bool, ra: u8, rb: u8, selector: u8) -> Source
    ensures { result ≡ operand small ra rb selector }
{
    if selector <= 3 {
        Source::Acc(selector)
    } else if selector == 5 {
        Source::Five
    } else if selector == 6 {
        source_a(ra)
    } else {
        source_b(small, rb)
    }
}

pub fn sided(dst: u8) -> bool
    ensures { result ≡ is_sided dst }
{
    dst <= 31 || dst == 37 || dst == 49 || dst == 50
}

pub fn is_small_head(head: Head) -> bool
    ensures { result ≡ is_small head }
{
    matches!(head, Head::Small)
}

pub fn turn_of(small: bool, rb: u8) -> u8
    ensures { result ≡ turn small rb }
{
    if small && 48 <= rb { rb } else { 0 }
}

fn counted(x: bool) -> u8
    ensures counts { result ≡ count x }
    ensures most { result < 2 }
{
    if x { 1 } else { 0 }
}

fn reads_at(small: bool, ra: u8, rb: u8) -> Reads
    ensures is { result ≡ reads_of small ra rb }
    ensures few { IsFew result }
{
    let uniform = counted(ra == 32);
    let uniform_b = counted(!small && rb == 32);
    let row = counted(ra == 48);
    let row_b = counted(!small && rb == 48);
    let lock = counted(ra == 51);
    let lock_b = counted(!small && rb == 51);
    Reads {
        uniform: uniform + uniform_b,
        row: row + row_b,
        load_wait: counted(ra == 50),
        store_wait: counted(!small && rb == 50),
        lock: lock + lock_b,
    }
}

fn add_of(unpack: u8, add: &AddPart, swap: bool, small: bool, ra: u8, rb: u8) -> AddAct
    ensures { result ≡ add_act unpack add.now swap small ra rb }
{
    AddAct {
        op: add.op,
        unpack,
        cond: add.cond,
        dst: add.dst,
        side: sided(add.dst) && swap,
        a: source_at(small, ra, rb, add.a),
        b: source_at(small, ra, rb, add.b),
    }
}

fn mul_of(mul: &MulPart, swap: bool, small: bool, ra: u8, rb: u8) -> MulAct
    ensures { result ≡ mul_act mul.now swap small ra rb }
{
    MulAct {
        op: mul.op,
        turn: turn_of(small, rb),
        cond: mul.cond,
        dst: mul.dst,
        side: sided(mul.dst) && !swap,
        a: source_at(small, ra, rb, mul.a),
        b: source_at(small, ra, rb, mul.b),
    }
}

fn nothing() -> Meaning
    ensures { result ≡ no_meaning }
{
    Meaning {
        add: AddAct {
            op: AddOp::Nop,
            unpack: 0,
            cond: Cond::Never,
            dst: 39,
            side: false,
            a: Source::Acc(0),
            b: Source::Acc(0),
        },
        mul: MulAct {
            op: MulOp::Nop,
            turn: 0,
            cond: Cond::Never,
            dst: 39,
            side: false,
            a: Source::Acc(0),
            b: Source::Acc(0),
        },
        flags: false,
        reads: Reads {
            uniform: 0,
            row: 0,
            load_wait: 0,
            store_wait: 0,
            lock: 0,
        },
    }
}

/// The meaning of an ALU word.
#[tactic(auto, unfolding(crate::specs::Meaning::meaning))]
pub fn meaning_of(form: &Form) -> Meaning
    ensures is { result ≡ meaning form.now }
    ensures few { IsFew result.reads }
{
    match *form {
        Form::Alu {
            head,
            unpack,
            add,
            mul,
            flags,
            swap,
            ra,
            rb,
        } => {
            let small = is_small_head(head);
            Meaning {
                add: add_of(unpack, &add, swap, small, ra, rb),
                mul: mul_of(&mul, swap, small, ra, rb),
                flags,
                reads: reads_at(small, ra, rb),
            }
        }
        _ => nothing(),
    }
}

/// The add unit has no operation.
pub fn is_nop(op: AddOp) -> bool
    ensures { result ≡ is_nop op }
{
    matches!(op, AddOp::Nop)
}

pub fn no_add(add: &AddAct) -> bool
    ensures { result ≡ is_nop add.now.op }
{
    matches!(add.op, AddOp::Nop)
}

pub fn no_mul(mul: &MulAct) -> bool
    ensures { result ≡ is_mul_nop mul.now.op }
{
    matches!(mul.op, MulOp::Nop)
}

fn add_number(op: AddOp) -> u8
    ensures { result ≡ add_code op }
{
    op as u8
}

fn mul_number(op: MulOp) -> u8
    ensures { result ≡ mul_code op }
{
    op as u8
}

pub fn cond_number(cond: Cond) -> u8
    ensures { result ≡ cond_code cond }
{
    cond as u8
}

fn same_flag(x: bool, y: bool) -> bool
    ensures { result ≡ same_bool x y }
{
    if x { y } else { !y }
}

fn same_add_act(x: &AddAct, y: &AddAct) -> bool
    ensures { result ≡ same_add x.now y.now }
{
    let (p, q) = (add_number(x.op), add_number(y.op));
    let (c, d) = (cond_number(x.cond), cond_number(y.cond));
    ((p == q && x.unpack == y.unpack) && (c == d && x.dst == y.dst))
        && (same_flag(x.side, y.side) && (same_source(x.a, y.a) && same_source(x.b, y.b)))
}

fn same_mul_act(x: &MulAct, y: &MulAct) -> bool
    ensures { result ≡ same_mul x.now y.now }
{
    let (p, q) = (mul_number(x.op), mul_number(y.op));
    let (c, d) = (cond_number(x.cond), cond_number(y.cond));
    ((p == q && x.turn == y.turn) && (c == d && x.dst == y.dst))
        && (same_flag(x.side, y.side) && (same_source(x.a, y.a) && same_source(x.b, y.b)))
}

fn reads_alike(x: &Reads, y: &Reads) -> bool
    ensures { result ≡ same_reads x.now y.now }
{
    (x.uniform == y.uniform && x.row == y.row)
        && ((x.load_wait == y.load_wait && x.store_wait == y.store_wait) && x.lock == y.lock)
}

/// Both mean the same.
pub fn mean_the_same(x: &Meaning, y: &Meaning) -> bool
    ensures { result ≡ same_meaning x.now y.now }
{
    (reads_alike(&x.reads, &y.reads) && same_flag(x.flags, y.flags))
        && (same_add_act(&x.add, &y.add) && same_mul_act(&x.mul, &y.mul))
}

/// One word may hold both meanings.
pub fn are_apart(u: &Meaning, v: &Meaning) -> bool
    ensures { result ≡ apart u.now v.now }
{
    let u_add = !no_add(&u.add);
    let v_add = !no_add(&v.add);
    let u_mul = !no_mul(&u.mul);
    let v_mul = !no_mul(&v.mul);
    (!(u_add && v_add) && !(u_mul && v_mul))
        && (!((u.flags && !u_add) && v_add) && !((v.flags && !v_add) && u_add))
}
