//! The operations of definitions.

ghost use Rattle.std.specs.Prelude.{◌≡◌, ◌+◌, ◌<◌, ◌^◌, ◌++◌, IfOk};
ghost use Rattle.qpu_select.specs.Code.{HasRoom, constant as constant_of, moves, asks as asks_of, compares as compares_of, move_where_zero as move_where_zero_of, move_where_set as move_where_set_of, unit_op as unit_op_of, two_ops, one_ops, choose_ops, size_ops, work_ops, flat_ops, let_ops, put_ops};

use crate::registers::{Memory, batch, dims, global, items, local, param, temporary, variable};
use crate::shape::Shape;
use item_ir::Def;
use q_functions::WorkFunction;
use q_lane::{BinOp, UnOp};
use qpu_encode::{AddOp, MulOp};
use vop_ir::{Dst, Op, Src, Vop, copy, flagged, plain, where_set, where_zero};

const OR: Op = Op::Add(AddOp::Or);

/// A word as an operand, by itself where it is small.
pub fn constant(word: u32) -> Src
    ensures { result ≡ constant_of word }
{
    if word < 16 {
        Src::Small(word as i8)
    } else if word >= 0xFFFF_FFF0 {
        Src::Small(-1 - ((0xFFFF_FFFF - word) as i8))
    } else {
        Src::Word(word)
    }
}

fn move_to(d: u32, a: u32) -> Vop
    ensures { result ≡ moves d a }
{
    copy(Dst::Reg(d), Src::Reg(a))
}

/// Z stands where the register is 0.
pub fn asks(r: u32) -> Vop
    ensures { result ≡ asks_of r }
{
    flagged(OR, Dst::Nowhere, Src::Reg(r), Src::Reg(r))
}

/// Z stands where the register is 1.
fn is_one(r: u32) -> Vop
    ensures { result ≡ compares_of r 1 }
{
    flagged(
        Op::Add(AddOp::Xor),
        Dst::Nowhere,
        Src::Reg(r),
        Src::Small(1),
    )
}

/// Z stands where the register is 2.
fn is_two(r: u32) -> Vop
    ensures { result ≡ compares_of r 2 }
{
    flagged(
        Op::Add(AddOp::Xor),
        Dst::Nowhere,
        Src::Reg(r),
        Src::Small(2),
    )
}

fn move_where_zero(d: u32, a: u32) -> Vop
    ensures { result ≡ move_where_zero_of d a }
{
    where_zero(OR, Dst::Reg(d), Src::Reg(a), Src::Reg(a))
}

fn move_where_set(d: u32, a: u32) -> Vop
    ensures { result ≡ move_where_set_of d a }
{
    where_set(OR, Dst::Reg(d), Src::Reg(a), Src::Reg(a))
}

/// Adds operations.
pub fn put(ops: &mut Vec<Vop>, more: &[Vop]) -> Result<(), Memory>
    ensures { IfOk result (λ _. ops.new.items ≡ ops.old.items ++ more.now) }
{
    ops.extend_from_slice(more)?;
    Ok(())
}

/// The operation of a unit that an operation on two words is, where it is one.
fn unit_op(op: BinOp) -> Option<Op>
    ensures { result ≡ unit_op_of op }
{
    match op {
        BinOp::Add => Some(Op::Add(AddOp::Add)),
        BinOp::Sub => Some(Op::Add(AddOp::Sub)),
        BinOp::Mul => Some(Op::Add(AddOp::Mul32)),
        BinOp::MulHi(true) => Some(Op::Add(AddOp::MulHs)),
        BinOp::MulHi(false) => Some(Op::Add(AddOp::MulHu)),
        BinOp::And => Some(Op::Add(AddOp::And)),
        BinOp::Or => Some(Op::Add(AddOp::Or)),
        BinOp::Xor => Some(Op::Add(AddOp::Xor)),
        BinOp::Shl => Some(Op::Add(AddOp::Shl)),
        BinOp::Shr => Some(Op::Add(AddOp::Shr)),
        BinOp::Sar => Some(Op::Add(AddOp::Asr)),
        BinOp::Min(true) => Some(Op::Add(AddOp::Min)),
        BinOp::Max(true) => Some(Op::Add(AddOp::Max)),
        BinOp::Mul24 => Some(Op::Mul(MulOp::Mul24)),
        BinOp::Min(false) | BinOp::Max(false) => None,
        BinOp::Div(_) | BinOp::Rem(_) | BinOp::Less(_) | BinOp::Equal => None,
    }
}

/// An operation on two values.
fn put_two(ops: &mut Vec<Vop>, v: u32, op: Option<Op>, a: u32, b: u32) -> Result<(), Memory>
    ensures { IfOk result (λ _. ops.new.items ≡ ops.old.items ++ two_ops v op a b) }
{
    match op {
        None => put(ops, &[]),
        Some(op) => put(ops, &[plain(op, Dst::Reg(v), Src::Reg(a), Src::Reg(b))]),
    }
}

/// An operation on one value.
fn put_one(ops: &mut Vec<Vop>, v: u32, op: UnOp, a: u32) -> Result<(), Memory>
    ensures { IfOk result (λ _. ops.new.items ≡ ops.old.items ++ one_ops v op a) }
{
    let (to, from) = (Dst::Reg(v), Src::Reg(a));
    match op {
        UnOp::Not => put(ops, &[plain(Op::Add(AddOp::Not), to, from, from)]),
        UnOp::Neg => put(ops, &[plain(Op::Add(AddOp::Sub), to, Src::Small(0), from)]),
        UnOp::Clz => put(ops, &[plain(Op::Add(AddOp::Clz), to, from, from)]),
        UnOp::Popcount | UnOp::Narrow(_) => put(ops, &[]),
    }
}

/// Value `a` where value `c` isn't 0, and `b` elsewhere.
fn put_choice(ops: &mut Vec<Vop>, v: u32, c: u32, a: u32, b: u32) -> Result<(), Memory>
    ensures { IfOk result (λ _. ops.new.items ≡ ops.old.items ++ choose_ops v c a b) }
{
    if b == v {
        put(ops, &[asks(c), move_where_set(v, a)])
    } else if a == v {
        put(ops, &[asks(c), move_where_zero(v, b)])
    } else {
        put(ops, &[asks(c), move_to(v, b), move_where_set(v, a)])
    }
}

/// The size, of those from register `first` on, of the dimension in register `d`.
fn sizes(t: u32, first: u32, v: u32, d: u32) -> [Vop; 8]
    requires { first + 8 < 2 ^ 32 }
    ensures { result ≡ size_ops t first v d }
{
    [
        copy(Dst::Reg(t), Src::Small(1)),
        asks(d),
        move_where_zero(t, first),
        is_one(d),
        move_where_zero(t, first + 1),
        is_two(d),
        move_where_zero(t, first + 2),
        move_to(v, t),
    ]
}

/// A number of the work.
fn put_work(ops: &mut Vec<Vop>, h: Shape, v: u32, which: WorkFunction, d: u32) -> Result<(), Memory>
    requires { HasRoom h }
    ensures { IfOk result (λ _. ops.new.items ≡ ops.old.items ++ work_ops h v which d) }
{
    match which {
        WorkFunction::WorkDim => put(ops, &[move_to(v, dims(h))]),
        WorkFunction::GlobalSize => put(ops, &sizes(temporary(h), global(h), v, d)),
        WorkFunction::LocalSize => put(ops, &sizes(temporary(h), local(h), v, d)),
        WorkFunction::GlobalId
        | WorkFunction::LocalId
        | WorkFunction::GroupId
        | WorkFunction::NumGroups => put(ops, &[]),
    }
}

/// The flat ids of the batch.
fn flat(h: Shape, v: u32) -> [Vop; 2]
    requires { HasRoom h }
    ensures { result ≡ flat_ops h v }
{
    [
        plain(
            Op::Add(AddOp::Shl),
            Dst::Reg(v),
            Src::Reg(batch(h)),
            Src::Small(4),
        ),
        plain(Op::Add(AddOp::Add), Dst::Reg(v), Src::Reg(v), Src::Elem),
    ]
}

/// What defines value `v`.
pub fn put_let(ops: &mut Vec<Vop>, h: Shape, v: u32, def: &Def) -> Result<(), Memory>
    requires { HasRoom h }
    ensures { IfOk result (λ _. ops.new.items ≡ ops.old.items ++ let_ops h v def.now) }
{
    match def {
        Def::Const(x) => put(ops, &[copy(Dst::Reg(v), constant(*x))]),
        Def::Param(p) => {
            let r = param(h, *p)?;
            put(ops, &[move_to(v, r)])
        }
        Def::Work { which, dim } => put_work(ops, h, v, *which, dim.0),
        Def::Get(u) => {
            let r = variable(h, *u)?;
            put(ops, &[move_to(v, r)])
        }
        Def::Bin(op, a, b) => put_two(ops, v, unit_op(*op), a.0, b.0),
        Def::One(op, a) => put_one(ops, v, *op, a.0),
        Def::Choose(c, a, b) => put_choice(ops, v, c.0, a.0, b.0),
        Def::Flat => put(ops, &flat(h, v)),
        Def::Items => put(ops, &[move_to(v, items(h))]),
        Def::Built { .. } => put(ops, &[]),
        Def::Load { .. } => put(ops, &[]),
        Def::Element { .. } => put(ops, &[]),
    }
}

/// Variable `u` becomes value `x` where the mask isn't 0.
pub fn put_put(ops: &mut Vec<Vop>, h: Shape, u: u32, x: u32, mask: u32) -> Result<(), Memory>
    requires { HasRoom h }
    ensures { IfOk result (λ _. ops.new.items ≡ ops.old.items ++ put_ops h u x mask) }
{
    let r = variable(h, u)?;
    put(ops, &[asks(mask), move_where_set(r, x)])
}
