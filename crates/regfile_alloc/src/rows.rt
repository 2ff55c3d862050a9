//! Rows of the scratch: the section that brings one to a place, and the section that puts one away.

ghost use Rattle.std.specs.Prelude.{◌≡◌, ◌<◌, map, IfOk, ◌++◌};
ghost use Rattle.phys_ir.specs.Places.{vop_of};
ghost use Rattle.regfile_alloc.specs.Spill as spill;

use crate::picks::{SECOND_COPY, copy_to};
use crate::pops::put_all;
use phys_ir::Pop;
use qpu_encode::{AddOp, Cond};
use std::alloc::AllocError;
use vop_ir::{Dst, Op, Src, Turn, Vop};

/// Sixteen words of row 0 are loaded, and stored.
const LOAD_ROW: u32 = 0x8001_1000;

const STORE_ROW: u32 = 0x8090_4000;

/// One row is to be read, row 0; and rows are written from row 0 on.
const READ_ONE: u32 = 0x0010_1A00;

const WRITE_FIRST: u32 = 0x1A00;

fn plain(op: Op, dst: Dst, a: Src, b: Src) -> Vop
    ensures { result ≡ spill.plain op dst a b }
{
    Vop {
        op,
        cond: Cond::Always,
        flags: false,
        dst,
        a,
        b,
        turn: Turn::Not,
        unpack: 0,
    }
}

fn alone(op: Op) -> Vop
    ensures { result ≡ spill.alone op }
{
    plain(op, Dst::Nowhere, Src::Small(0), Src::Small(0))
}

fn word_to(dst: Dst, word: u32) -> Vop
    ensures { result ≡ spill.word_to dst word }
{
    plain(Op::Add(AddOp::Or), dst, Src::Word(word), Src::Word(word))
}

fn start_load(base: u32) -> Vop
    ensures { result ≡ spill.start_load base }
{
    plain(
        Op::Add(AddOp::Add),
        Dst::LoadAddr,
        Src::Reg(base),
        Src::Reg(SECOND_COPY),
    )
}

fn start_store(base: u32) -> Vop
    ensures { result ≡ spill.start_store base }
{
    plain(
        Op::Add(AddOp::Add),
        Dst::StoreAddr,
        Src::Reg(base),
        Src::Reg(SECOND_COPY),
    )
}

fn give(place: u32) -> Vop
    ensures { result ≡ spill.give place }
{
    plain(
        Op::Add(AddOp::Or),
        Dst::Vpm,
        Src::Reg(place),
        Src::Reg(place),
    )
}

/// The row at an offset of the scratch, whose start is in the place `base`, goes to a place.
fn bring(base: u32, place: u32, offset: u32) -> [Vop; 11]
    ensures { result ≡ spill.bring base place offset }
{
    [
        copy_to(SECOND_COPY, Src::Word(offset)),
        alone(Op::Lock),
        word_to(Dst::ReadSet, LOAD_ROW),
        start_load(base),
        alone(Op::WaitLoad),
        word_to(Dst::ReadSet, READ_ONE),
        alone(Op::Add(AddOp::Nop)),
        alone(Op::Add(AddOp::Nop)),
        alone(Op::Add(AddOp::Nop)),
        copy_to(place, Src::Vpm),
        word_to(Dst::Unlock, 0),
    ]
}

/// What a place holds goes to the row at an offset of the scratch.
fn put_away(base: u32, place: u32, offset: u32) -> [Vop; 8]
    ensures { result ≡ spill.put_away base place offset }
{
    [
        copy_to(SECOND_COPY, Src::Word(offset)),
        alone(Op::Lock),
        word_to(Dst::WriteSet, WRITE_FIRST),
        give(place),
        word_to(Dst::WriteSet, STORE_ROW),
        start_store(base),
        alone(Op::WaitStore),
        word_to(Dst::Unlock, 0),
    ]
}

pub fn put_bring(out: &mut Vec<Pop>, base: u32, place: u32, offset: u32) -> Result<(), AllocError>
    requires base { base < 68 }
    requires place { place < 68 }
    ensures { IfOk result (λ _. map vop_of out.new.items ≡ map vop_of out.old.items ++ spill.bring base place offset) }
{
    put_all(out, &bring(base, place, offset))
}

pub fn put_put_away(
    out: &mut Vec<Pop>,
    base: u32,
    place: u32,
    offset: u32,
) -> Result<(), AllocError>
    requires base { base < 68 }
    requires place { place < 68 }
    ensures { IfOk result (λ _. map vop_of out.new.items ≡ map vop_of out.old.items ++ spill.put_away base place offset) }
{
    put_all(out, &put_away(base, place, offset))
}
