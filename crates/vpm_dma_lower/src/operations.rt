//! Operations of an access.

ghost use Rattle.std.specs.Prelude.{◌≡◌};
ghost use Rattle.vpm_dma_lower.specs.Code as code;

use crate::names::Names;
use qpu_encode::{AddOp, MulOp};
use vop_ir::{Dst, Op, Src, Turn, Vop, copy, flagged, plain};

pub fn lock() -> Vop
    ensures { result ≡ code.lock }
{
    plain(Op::Lock, Dst::Nowhere, Src::Small(0), Src::Small(0))
}

pub fn unlock() -> Vop
    ensures { result ≡ code.unlock }
{
    copy(Dst::Unlock, Src::Small(0))
}

pub fn wait_load() -> Vop
    ensures { result ≡ code.wait_load }
{
    plain(Op::WaitLoad, Dst::Nowhere, Src::Small(0), Src::Small(0))
}

pub fn wait_store() -> Vop
    ensures { result ≡ code.wait_store }
{
    plain(Op::WaitStore, Dst::Nowhere, Src::Small(0), Src::Small(0))
}

pub fn idle() -> Vop
    ensures { result ≡ code.idle }
{
    plain(
        Op::Add(AddOp::Nop),
        Dst::Nowhere,
        Src::Small(0),
        Src::Small(0),
    )
}

/// The element of `a` in the lane that r5 says, in lane 0.
pub fn turned(dst: Dst, a: Src) -> Vop
    ensures { result ≡ code.turned dst a }
{
    Vop {
        turn: Turn::ByFive,
        ..plain(Op::Mul(MulOp::V8Min), dst, a, a)
    }
}

/// Lane l gets what lane l - n has.
pub fn turned_by(dst: Dst, a: Src, n: u8) -> Vop
    ensures { result ≡ code.turned_by dst a n }
{
    Vop {
        turn: Turn::By(n),
        ..plain(Op::Mul(MulOp::V8Min), dst, a, a)
    }
}

/// Z stands in the lane that register `lane` says, alone.
pub fn find(r: Names, dst: Dst) -> Vop
    ensures { result ≡ code.find r dst }
{
    flagged(Op::Add(AddOp::Sub), dst, Src::Elem, Src::Reg(r.lane))
}

/// Z stands where the mask is 0.
pub fn masks(r: Names) -> Vop
    ensures { result ≡ code.masks r }
{
    flagged(
        Op::Add(AddOp::Or),
        Dst::Nowhere,
        Src::Reg(r.mask),
        Src::Reg(r.mask),
    )
}
