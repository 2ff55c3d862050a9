//! The blocks of an access.

ghost use Rattle.std.specs.Prelude.{◌≡◌, ◌+◌, ◌*◌, ◌<◌, ◌^◌, [], ◌∷◌, ◌++◌, IfOk, map};
ghost use Rattle.vop_ir.specs.Runs.{block_from};
ghost use Rattle.vpm_dma_lower.specs.Code as code;

use crate::names::Names;
use crate::operations::masks;
use crate::parts::{
    asks, compares, joined_load, joined_store, load_section, steps_on, store_section, sums,
};
use q_lane::Scalar;
use qpu_encode::{AddOp, BraCond};
use std::alloc::{AllocError, Global};
use vop_ir::{Dst, Exit, Op, Src, Vop, VopBlock, copy, flagged, plain};

/// A block with these operations, and then those.
fn block(alloc: Global, first: &[Vop], then: &[Vop], exit: Exit) -> Result<VopBlock, AllocError>
    ensures { IfOk result (λ b. block_from b ≡ record { ops = first.now ++ then.now; exit = exit }) }
{
    let mut ops = Vec::new(alloc);
    ops.extend_from_slice(first)?;
    ops.extend_from_slice(then)?;
    Ok(VopBlock { ops, exit })
}

/// The blocks from block `e` on that do an access by one transfer where that serves, and else lane by lane, and go on at block `out`.
fn core(
    alloc: Global,
    e: u32,
    out: u32,
    elem: Scalar,
    r: Names,
    first: &[Vop],
    joined: &[Vop],
    single: &[Vop],
) -> Result<Vec<VopBlock>, AllocError>
    requires { e + 6 < 2 ^ 32 }
    ensures { IfOk result (λ v. map block_from v.items ≡ code.core e out elem r first.now joined.now single.now) }
{
    Ok(vec![in alloc;
        block(
            alloc,
            first,
            &[masks(r)],
            Exit::Branch {
                cond: BraCond::AnyNz,
                yes: e + 1,
                no: out
            }
        )?,
        block(
            alloc,
            &compares(elem, r),
            &[],
            Exit::Branch {
                cond: BraCond::AllZ,
                yes: e + 2,
                no: e + 3
            }
        )?,
        block(alloc, &sums(r), joined, Exit::Jump(out))?,
        block(
            alloc,
            &[copy(Dst::Reg(r.lane), Src::Small(0))],
            &[],
            Exit::Jump(e + 4)
        )?,
        block(
            alloc,
            &asks(r),
            &[],
            Exit::Branch {
                cond: BraCond::AllNz,
                yes: e + 5,
                no: e + 6
            }
        )?,
        block(alloc, single, &[], Exit::Jump(e + 6))?,
        block(
            alloc,
            &steps_on(r),
            &[],
            Exit::Branch {
                cond: BraCond::AnyNz,
                yes: e + 4,
                no: out
            }
        )?,
    ]?)
}

/// The copies of what an access names, in its own registers.
fn brings_in(vals: u32, addr: u32, value: u32, mask: u32) -> [Vop; 3]
    requires { vals + 7 < 2 ^ 32 }
    ensures { result ≡ code.brings_in vals addr value mask }
{
    [
        copy(Dst::Reg(vals + 1), Src::Reg(addr)),
        copy(Dst::Reg(vals + 2), Src::Reg(value)),
        copy(Dst::Reg(vals + 3), Src::Reg(mask)),
    ]
}

/// The own registers of an access, above that of the scratch.
fn own(vals: u32) -> Names
    requires { vals + 7 < 2 ^ 32 }
    ensures { result ≡ code.own vals }
{
    Names {
        addr: vals + 1,
        value: vals + 2,
        mask: vals + 3,
        lane: vals + 4,
        test: vals + 5,
        at: vals + 6,
    }
}

/// The code of a load.
pub fn load_blocks(
    alloc: Global,
    vals: u32,
    elem: Scalar,
    dst: u32,
    addr: u32,
    mask: u32,
) -> Result<Vec<VopBlock>, AllocError>
    requires { vals + 7 < 2 ^ 32 }
    ensures { IfOk result (λ v. map block_from v.items ≡ code.load_blocks 0 vals elem dst addr mask) }
{
    let r = own(vals);
    let first = brings_in(vals, addr, dst, mask);
    let mut blocks = core(
        alloc,
        0,
        7,
        elem,
        r,
        &first,
        &joined_load(elem, r),
        &load_section(elem, r),
    )?;
    blocks.push(block(
        alloc,
        &[copy(Dst::Reg(dst), Src::Reg(vals + 2))],
        &[],
        Exit::Jump(8),
    )?)?;
    Ok(blocks)
}

/// The code of a store.
pub fn store_blocks(
    alloc: Global,
    vals: u32,
    elem: Scalar,
    addr: u32,
    value: u32,
    mask: u32,
) -> Result<Vec<VopBlock>, AllocError>
    requires { vals + 7 < 2 ^ 32 }
    ensures { IfOk result (λ v. map block_from v.items ≡ code.store_blocks 0 vals elem addr value mask) }
{
    let r = own(vals);
    let first = brings_in(vals, addr, value, mask);
    core(
        alloc,
        0,
        7,
        elem,
        r,
        &first,
        &joined_store(elem, r),
        &store_section(elem, r),
    )
}

/// The address of a lane's word of an element of an array that begins at row `row` of the scratch, and copies of the other values.
fn finds_element(vals: u32, row: u32, index: u32, value: u32, mask: u32) -> [Vop; 7]
    requires room { vals + 7 < 2 ^ 32 }
    requires row { 64 * row < 2 ^ 32 }
    ensures { result ≡ code.finds_element vals row index value mask }
{
    let addr = vals + 1;
    let other = vals + 2;
    [
        plain(
            Op::Add(AddOp::Shl),
            Dst::Reg(addr),
            Src::Elem,
            Src::Small(2),
        ),
        plain(
            Op::Add(AddOp::Add),
            Dst::Reg(addr),
            Src::Reg(addr),
            Src::Reg(vals),
        ),
        plain(
            Op::Add(AddOp::Add),
            Dst::Reg(addr),
            Src::Reg(addr),
            Src::Word(64 * row),
        ),
        plain(
            Op::Add(AddOp::Shl),
            Dst::Reg(other),
            Src::Reg(index),
            Src::Small(6),
        ),
        plain(
            Op::Add(AddOp::Add),
            Dst::Reg(addr),
            Src::Reg(addr),
            Src::Reg(other),
        ),
        copy(Dst::Reg(other), Src::Reg(value)),
        copy(Dst::Reg(vals + 3), Src::Reg(mask)),
    ]
}

/// The code that takes an element of a private array that begins at row `row` of the scratch.
pub fn get_blocks(
    alloc: Global,
    vals: u32,
    row: u32,
    dst: u32,
    index: u32,
    mask: u32,
) -> Result<Vec<VopBlock>, AllocError>
    requires room { vals + 7 < 2 ^ 32 }
    requires row { 64 * row < 2 ^ 32 }
    ensures { IfOk result (λ v. map block_from v.items ≡ code.get_blocks 0 vals row dst index mask) }
{
    let r = own(vals);
    let first = finds_element(vals, row, index, dst, mask);
    let mut blocks = core(
        alloc,
        0,
        7,
        Scalar::Int,
        r,
        &first,
        &joined_load(Scalar::Int, r),
        &load_section(Scalar::Int, r),
    )?;
    blocks.push(block(
        alloc,
        &[copy(Dst::Reg(dst), Src::Reg(vals + 2))],
        &[],
        Exit::Jump(8),
    )?)?;
    Ok(blocks)
}

/// The code that sets an element of a private array that begins at row `row` of the scratch.
pub fn put_blocks(
    alloc: Global,
    vals: u32,
    row: u32,
    index: u32,
    value: u32,
    mask: u32,
) -> Result<Vec<VopBlock>, AllocError>
    requires room { vals + 7 < 2 ^ 32 }
    requires row { 64 * row < 2 ^ 32 }
    ensures { IfOk result (λ v. map block_from v.items ≡ code.put_blocks 0 vals row index value mask) }
{
    let r = own(vals);
    let first = finds_element(vals, row, index, value, mask);
    core(
        alloc,
        0,
        7,
        Scalar::Int,
        r,
        &first,
        &joined_store(Scalar::Int, r),
        &store_section(Scalar::Int, r),
    )
}

/// The operations before the first row is cleared, and Z in all lanes where there is none.
fn clear_first(vals: u32, row: u32, len: u32, mask: u32) -> [Vop; 7]
    requires room { vals + 7 < 2 ^ 32 }
    requires row { 64 * row < 2 ^ 32 }
    ensures { result ≡ code.clear_first vals row len mask }
{
    let (addr, count) = (vals + 1, vals + 7);
    [
        plain(
            Op::Add(AddOp::Shl),
            Dst::Reg(addr),
            Src::Elem,
            Src::Small(2),
        ),
        plain(
            Op::Add(AddOp::Add),
            Dst::Reg(addr),
            Src::Reg(addr),
            Src::Reg(vals),
        ),
        plain(
            Op::Add(AddOp::Add),
            Dst::Reg(addr),
            Src::Reg(addr),
            Src::Word(64 * row),
        ),
        copy(Dst::Reg(vals + 2), Src::Small(0)),
        copy(Dst::Reg(vals + 3), Src::Reg(mask)),
        copy(Dst::Reg(count), Src::Small(0)),
        flagged(
            Op::Add(AddOp::Sub),
            Dst::Nowhere,
            Src::Reg(count),
            Src::Word(len),
        ),
    ]
}

/// The operations after a row: the next row, and Z in all lanes after the last.
fn clear_next(vals: u32, len: u32) -> [Vop; 3]
    requires { vals + 7 < 2 ^ 32 }
    ensures { result ≡ code.clear_next vals len }
{
    let (addr, count) = (vals + 1, vals + 7);
    [
        plain(
            Op::Add(AddOp::Add),
            Dst::Reg(addr),
            Src::Reg(addr),
            Src::Word(64),
        ),
        plain(
            Op::Add(AddOp::Add),
            Dst::Reg(count),
            Src::Reg(count),
            Src::Small(1),
        ),
        flagged(
            Op::Add(AddOp::Sub),
            Dst::Nowhere,
            Src::Reg(count),
            Src::Word(len),
        ),
    ]
}

/// The code that clears a private array of `len` elements that begins at row `row` of the scratch.
pub fn clear_blocks(
    alloc: Global,
    vals: u32,
    row: u32,
    len: u32,
    mask: u32,
) -> Result<Vec<VopBlock>, AllocError>
    requires room { vals + 7 < 2 ^ 32 }
    requires row { 64 * row < 2 ^ 32 }
    ensures { IfOk result (λ v. map block_from v.items ≡ code.clear_blocks 0 vals row len mask) }
{
    let r = own(vals);
    let while_left = Exit::Branch {
        cond: BraCond::AnyNz,
        yes: 1,
        no: 9,
    };
    let mut blocks = core(
        alloc,
        1,
        8,
        Scalar::Int,
        r,
        &[],
        &joined_store(Scalar::Int, r),
        &store_section(Scalar::Int, r),
    )?;
    blocks.insert(
        0,
        block(alloc, &clear_first(vals, row, len, mask), &[], while_left)?,
    )?;
    blocks.push(block(alloc, &clear_next(vals, len), &[], while_left)?)?;
    Ok(blocks)
}
