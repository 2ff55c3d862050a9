//! Operations as code is made of them.

ghost use Rattle.std.specs.Prelude.{◌≡◌};
ghost use Rattle.vop_ir.specs.Operations as operations;

use crate::form::{Dst, Op, Src, Turn, Vop};
use qpu_encode::{AddOp, Cond};

pub fn plain(op: Op, dst: Dst, a: Src, b: Src) -> Vop
    ensures { result ≡ operations.plain op dst a b }
{
    Vop {
        op,
        cond: Cond::Always,
        flags: false,
        dst,
        a,
        b,
        turn: Turn::Not,
        unpack: 0,
    }
}

/// The same, and it sets the flags.
pub fn flagged(op: Op, dst: Dst, a: Src, b: Src) -> Vop
    ensures { result ≡ operations.flagged op dst a b }
{
    Vop {
        flags: true,
        ..plain(op, dst, a, b)
    }
}

/// In the elements where Z stands.
pub fn where_zero(op: Op, dst: Dst, a: Src, b: Src) -> Vop
    ensures { result ≡ operations.where_zero op dst a b }
{
    Vop {
        cond: Cond::Zs,
        ..plain(op, dst, a, b)
    }
}

/// In the elements where Z doesn't stand.
pub fn where_set(op: Op, dst: Dst, a: Src, b: Src) -> Vop
    ensures { result ≡ operations.where_set op dst a b }
{
    Vop {
        cond: Cond::Zc,
        ..plain(op, dst, a, b)
    }
}

/// A copy to a register or a peripheral.
pub fn copy(dst: Dst, a: Src) -> Vop
    ensures { result ≡ operations.copy dst a }
{
    plain(Op::Add(AddOp::Or), dst, a, a)
}
