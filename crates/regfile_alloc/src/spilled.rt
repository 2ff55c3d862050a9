//! The registers of an operation, or of a section, that are in rows.

use qpu_encode::Cond;
use register_plan::Home;
use std::alloc::{AllocError, Global};
use vop_ir::{Dst, Op, Src, Vop};

/// A register in a row: whether what it held before is looked at, and whether it is written.
#[derive(Clone, Copy, Debug, PartialEq, Eq)]
pub struct Spilled {
    pub register: u32,
    pub row: u32,
    pub is_read: bool,
    pub is_written: bool,
}

fn find(list: &[Spilled], r: u32) -> Option<usize> {
    for (index, spilled) in list.iter().enumerate() {
        if spilled.register == r {
            return Some(index);
        }
    }
    None
}

fn row_of(homes: &[Home], r: u32) -> Option<u32> {
    match homes.get(r as usize).copied() {
        Some(Home::Row(row)) => Some(row),
        _ => None,
    }
}

fn add(list: &mut Vec<Spilled>, new: Spilled) -> Result<(), AllocError> {
    match find(list, new.register) {
        Some(index) if index < list.len() => {
            let old = list[index];
            list[index] = Spilled {
                is_read: old.is_read || (new.is_read && !old.is_written),
                is_written: old.is_written || new.is_written,
                ..old
            };
        }
        _ => list.push(new)?,
    }
    Ok(())
}

fn name_source(list: &mut Vec<Spilled>, homes: &[Home], x: Src) -> Result<(), AllocError> {
    if let Src::Reg(register) = x {
        if let Some(row) = row_of(homes, register) {
            add(
                list,
                Spilled {
                    register,
                    row,
                    is_read: true,
                    is_written: false,
                },
            )?;
        }
    }
    Ok(())
}

// A conditional write may leave some elements as they were.
fn name_target(
    list: &mut Vec<Spilled>,
    homes: &[Home],
    cond: Cond,
    x: Dst,
) -> Result<(), AllocError> {
    if let Dst::Reg(register) = x {
        if let Some(row) = row_of(homes, register) {
            add(
                list,
                Spilled {
                    register,
                    row,
                    is_read: !matches!(cond, Cond::Always),
                    is_written: true,
                },
            )?;
        }
    }
    Ok(())
}

/// The registers of these operations that are in rows.
pub fn spilled_of(alloc: Global, homes: &[Home], ops: &[Vop]) -> Result<Vec<Spilled>, AllocError> {
    let mut list = Vec::new(alloc);
    for op in ops {
        name_source(&mut list, homes, op.a)?;
        name_source(&mut list, homes, op.b)?;
        name_target(&mut list, homes, op.cond, op.dst)?;
    }
    Ok(list)
}

// The operations up to the release, or all.
fn up_to_release(ops: &[Vop]) -> &[Vop] {
    for (index, op) in ops.iter().enumerate() {
        if matches!(op.dst, Dst::Unlock) {
            return &ops[..index + 1];
        }
    }
    ops
}

/// The first operation, or the section that it begins.
pub fn group_of(ops: &[Vop]) -> &[Vop] {
    match ops {
        [] => ops,
        [first, ..] => {
            if matches!(first.op, Op::Lock) {
                up_to_release(ops)
            } else {
                &ops[..1]
            }
        }
    }
}
