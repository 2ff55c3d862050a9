//! The mutex sections of an access, and the operations round them.

ghost use Rattle.std.specs.Prelude.{◌≡◌, ◌++◌};
ghost use Rattle.vpm_dma_lower.specs.Code as code;

use crate::elements::{load_base, size_src, store_base, take_by, take_op};
use crate::names::Names;
use crate::operations::{
    find, idle, lock, masks, turned, turned_by, unlock, wait_load, wait_store,
};
use q_lane::Scalar;
use qpu_encode::AddOp;
use vop_ir::{Dst, Op, Src, Vop, copy, flagged, plain, where_set, where_zero};

const ADD: Op = Op::Add(AddOp::Add);

const SUB: Op = Op::Add(AddOp::Sub);

const SHL: Op = Op::Add(AddOp::Shl);

const SHR: Op = Op::Add(AddOp::Shr);

const OR: Op = Op::Add(AddOp::Or);

/// One row is to be read, row 0.
const ONE_ROW: u32 = 0x10_1A00;

/// Rows are written from row 0 on.
const FIRST_ROW: u32 = 0x1A00;

/// Z stands in a lane if the mask's word of the lane in turn is 0, and else in none.
pub fn asks(r: Names) -> [Vop; 3]
    ensures { result ≡ code.asks r }
{
    let test = Src::Reg(r.test);
    [
        find(r, Dst::Reg(r.test)),
        where_zero(OR, Dst::Reg(r.test), Src::Reg(r.mask), Src::Reg(r.mask)),
        flagged(OR, Dst::Nowhere, test, test),
    ]
}

/// One element from the address in the lane in turn to the same lane of the value.
pub fn load_section(elem: Scalar, r: Names) -> [Vop; 12]
    ensures { result ≡ code.load_section elem r }
{
    [
        plain(SUB, Dst::Five, Src::Small(0), Src::Reg(r.lane)),
        turned(Dst::Reg(r.at), Src::Reg(r.addr)),
        lock(),
        plain(
            ADD,
            Dst::ReadSet,
            Src::Word(load_base(elem) + (1 << 20)),
            Src::Reg(r.lane),
        ),
        copy(Dst::LoadAddr, Src::Reg(r.at)),
        wait_load(),
        copy(Dst::ReadSet, Src::Word(ONE_ROW)),
        idle(),
        idle(),
        find(r, Dst::Nowhere),
        where_zero(
            Op::Add(take_op(elem)),
            Dst::Reg(r.value),
            Src::Vpm,
            take_by(elem),
        ),
        unlock(),
    ]
}

/// One element from the lane in turn of the value to the address in that lane.
pub fn store_section(elem: Scalar, r: Names) -> [Vop; 10]
    ensures { result ≡ code.store_section elem r }
{
    [
        plain(SUB, Dst::Five, Src::Small(0), Src::Reg(r.lane)),
        turned(Dst::Reg(r.at), Src::Reg(r.addr)),
        plain(SHL, Dst::Reg(r.test), Src::Reg(r.lane), Src::Small(3)),
        lock(),
        copy(Dst::WriteSet, Src::Word(FIRST_ROW)),
        copy(Dst::Vpm, Src::Reg(r.value)),
        plain(
            ADD,
            Dst::WriteSet,
            Src::Word(store_base(elem) + (1 << 16)),
            Src::Reg(r.test),
        ),
        copy(Dst::StoreAddr, Src::Reg(r.at)),
        wait_store(),
        unlock(),
    ]
}

/// The next lane; Z stands everywhere after the last.
pub fn steps_on(r: Names) -> [Vop; 2]
    ensures { result ≡ code.steps_on r }
{
    let lane = Src::Reg(r.lane);
    [
        plain(ADD, Dst::Reg(r.lane), lane, Src::Small(1)),
        flagged(ADD, Dst::Nowhere, lane, Src::Small(-16)),
    ]
}

/// The bits of the lanes that are on, and Z in all lanes where one transfer serves them.
pub fn compares(elem: Scalar, r: Names) -> [Vop; 13]
    ensures { result ≡ code.compares elem r }
{
    let (test, at) = (Src::Reg(r.test), Src::Reg(r.at));
    [
        masks(r),
        copy(Dst::Reg(r.lane), Src::Small(0)),
        where_set(OR, Dst::Reg(r.lane), Src::Small(1), Src::Small(1)),
        turned_by(Dst::Reg(r.at), Src::Reg(r.lane), 1),
        plain(SUB, Dst::Reg(r.at), Src::Small(1), at),
        turned_by(Dst::Reg(r.test), Src::Reg(r.addr), 1),
        plain(SUB, Dst::Reg(r.test), Src::Reg(r.addr), test),
        plain(SUB, Dst::Reg(r.test), test, size_src(elem)),
        plain(OR, Dst::Reg(r.test), test, at),
        where_zero(OR, Dst::Reg(r.test), Src::Small(0), Src::Small(0)),
        flagged(OR, Dst::Nowhere, Src::Elem, Src::Elem),
        where_zero(OR, Dst::Reg(r.test), Src::Small(0), Src::Small(0)),
        flagged(OR, Dst::Nowhere, test, test),
    ]
}

/// The sum over all lanes, in each lane.
pub fn sums(r: Names) -> [Vop; 8]
    ensures { result ≡ code.sums r }
{
    let lane = Src::Reg(r.lane);
    let turn = Dst::Reg(r.at);
    let add = plain(ADD, Dst::Reg(r.lane), lane, Src::Reg(r.at));
    [
        turned_by(turn, lane, 8),
        add,
        turned_by(turn, lane, 4),
        add,
        turned_by(turn, lane, 2),
        add,
        turned_by(turn, lane, 1),
        add,
    ]
}

/// The elements of the lanes that are on, by one load from lane 0's address on.
pub fn joined_load(elem: Scalar, r: Names) -> [Vop; 12]
    ensures { result ≡ code.load_length r ++ code.joined_load elem r }
{
    [
        plain(SHL, Dst::Reg(r.at), Src::Reg(r.lane), Src::Small(-4)),
        plain(SHR, Dst::Reg(r.at), Src::Reg(r.at), Src::Small(8)),
        lock(),
        plain(
            ADD,
            Dst::ReadSet,
            Src::Word(load_base(elem)),
            Src::Reg(r.at),
        ),
        copy(Dst::LoadAddr, Src::Reg(r.addr)),
        wait_load(),
        copy(Dst::ReadSet, Src::Word(ONE_ROW)),
        idle(),
        idle(),
        masks(r),
        where_set(
            Op::Add(take_op(elem)),
            Dst::Reg(r.value),
            Src::Vpm,
            take_by(elem),
        ),
        unlock(),
    ]
}

/// The elements of the lanes that are on, by one store from lane 0's address on.
pub fn joined_store(elem: Scalar, r: Names) -> [Vop; 8]
    ensures { result ≡ code.store_length r ++ code.joined_store elem r }
{
    [
        plain(SHL, Dst::Reg(r.at), Src::Reg(r.lane), Src::Small(-16)),
        lock(),
        copy(Dst::WriteSet, Src::Word(FIRST_ROW)),
        copy(Dst::Vpm, Src::Reg(r.value)),
        plain(
            ADD,
            Dst::WriteSet,
            Src::Word(store_base(elem)),
            Src::Reg(r.at),
        ),
        copy(Dst::StoreAddr, Src::Reg(r.addr)),
        wait_store(),
        unlock(),
    ]
}
