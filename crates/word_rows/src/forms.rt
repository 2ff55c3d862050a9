//! Forms of words and their text.
//!
//! An ALU word is its head with the read addresses, then the add unit and the mul unit; a load immediate its value, then where each unit
//! writes; a branch its condition and distance. A unit is its operation and condition, its write address and its two selectors. An unpack,
//! the flags and the swap are written only where they are set.

use crate::parts::{Fault, Parts, cut};
use qpu_encode::{AddOp, AddPart, BraCond, Cond, Form, Head, MulOp, MulPart};
use std::alloc::{AllocError, Global};

pub const ADD_OPS: [AddOp; 17] = [
    AddOp::Nop,
    AddOp::Add,
    AddOp::Sub,
    AddOp::Shr,
    AddOp::Asr,
    AddOp::Ror,
    AddOp::Shl,
    AddOp::Min,
    AddOp::Max,
    AddOp::And,
    AddOp::Or,
    AddOp::Xor,
    AddOp::Not,
    AddOp::Clz,
    AddOp::Mul32,
    AddOp::MulHs,
    AddOp::MulHu,
];

pub const MUL_OPS: [MulOp; 3] = [MulOp::Nop, MulOp::Mul24, MulOp::V8Min];

pub const CONDITIONS: [Cond; 6] = [
    Cond::Never,
    Cond::Always,
    Cond::Zs,
    Cond::Zc,
    Cond::Ns,
    Cond::Nc,
];

pub const BRANCH_CONDITIONS: [BraCond; 9] = [
    BraCond::AllZ,
    BraCond::AllNz,
    BraCond::AnyZ,
    BraCond::AnyNz,
    BraCond::AllN,
    BraCond::AllNn,
    BraCond::AnyN,
    BraCond::AnyNn,
    BraCond::Always,
];

const HEADS: [Head; 3] = [Head::Plain, Head::End, Head::Small];

fn mark(is_set: bool, name: &'static str) -> &'static str {
    if is_set { name } else { "" }
}

fn unpack_text(alloc: Global, unpack: u8) -> Result<String, AllocError> {
    if unpack == 0 {
        Ok(String::new(alloc))
    } else {
        format!(in alloc; " unpack {unpack}")
    }
}

fn add_text(alloc: Global, part: &AddPart) -> Result<String, AllocError> {
    let AddPart {
        op,
        cond,
        dst,
        a,
        b,
    } = *part;
    format!(in alloc; "{op:?} {cond:?} {dst} {a} {b}")
}

fn mul_text(alloc: Global, part: &MulPart) -> Result<String, AllocError> {
    let MulPart {
        op,
        cond,
        dst,
        a,
        b,
    } = *part;
    format!(in alloc; "{op:?} {cond:?} {dst} {a} {b}")
}

/// The text of a form.
pub fn form_text(alloc: Global, form: &Form) -> Result<String, AllocError> {
    match *form {
        Form::Alu {
            head,
            unpack,
            add,
            mul,
            flags,
            swap,
            ra,
            rb,
        } => {
            let unpack = unpack_text(alloc, unpack)?;
            let flags = mark(flags, " sf");
            let swap = mark(swap, " ws");
            let add = add_text(alloc, &add)?;
            let mul = mul_text(alloc, &mul)?;
            format!(in alloc; "{head:?} {ra} {rb}{unpack}{flags}{swap}, {add}, {mul}")
        }
        Form::Ldi {
            add_cond,
            mul_cond,
            swap,
            add_dst,
            mul_dst,
            value,
        } => {
            let swap = mark(swap, " ws");
            format!(in alloc;
                "load {value:08x}{swap}, {add_cond:?} {add_dst}, {mul_cond:?} {mul_dst}"
            )
        }
        Form::Bra { cond, words } => format!(in alloc; "branch {cond:?} {words}"),
    }
}

fn condition_and_address(alloc: Global, text: &str) -> Result<(Cond, u8), Fault> {
    let mut parts = Parts::new(text);
    let cond = parts.one_of(alloc, &CONDITIONS)?;
    let address = parts.number()?;
    parts.end()?;
    Ok((cond, address))
}

fn load(alloc: Global, first: &str, units: &str) -> Result<Form, Fault> {
    let mut parts = Parts::new(first);
    parts.skip("load")?;
    let value = parts.word()?;
    let swap = match parts.rest() {
        "ws" => true,
        "" => false,
        _ => return Err(Fault::NoRow),
    };
    let (add, mul) = cut(units)?;
    let (add_cond, add_dst) = condition_and_address(alloc, add)?;
    let (mul_cond, mul_dst) = condition_and_address(alloc, mul)?;
    Ok(Form::Ldi {
        add_cond,
        mul_cond,
        swap,
        add_dst,
        mul_dst,
        value,
    })
}

fn add_unit(alloc: Global, text: &str) -> Result<AddPart, Fault> {
    let mut parts = Parts::new(text);
    let op = parts.one_of(alloc, &ADD_OPS)?;
    let cond = parts.one_of(alloc, &CONDITIONS)?;
    let dst = parts.number()?;
    let a = parts.number()?;
    let b = parts.number()?;
    parts.end()?;
    Ok(AddPart {
        op,
        cond,
        dst,
        a,
        b,
    })
}

fn mul_unit(alloc: Global, text: &str) -> Result<MulPart, Fault> {
    let mut parts = Parts::new(text);
    let op = parts.one_of(alloc, &MUL_OPS)?;
    let cond = parts.one_of(alloc, &CONDITIONS)?;
    let dst = parts.number()?;
    let a = parts.number()?;
    let b = parts.number()?;
    parts.end()?;
    Ok(MulPart {
        op,
        cond,
        dst,
        a,
        b,
    })
}

// Without an unpack, flags and a swap.
fn alu(alloc: Global, first: &str, units: &str) -> Result<Form, Fault> {
    let mut parts = Parts::new(first);
    let head = parts.one_of(alloc, &HEADS)?;
    let ra = parts.number()?;
    let rb = parts.number()?;
    let (add, mul) = cut(units)?;
    parts.end()?;
    Ok(Form::Alu {
        head,
        unpack: 0,
        add: add_unit(alloc, add)?,
        mul: mul_unit(alloc, mul)?,
        flags: false,
        swap: false,
        ra,
        rb,
    })
}

fn branch(alloc: Global, text: &str) -> Result<Form, Fault> {
    let mut parts = Parts::new(text);
    parts.skip("branch")?;
    let cond = parts.one_of(alloc, &BRANCH_CONDITIONS)?;
    match parts.rest().parse::<i32>() {
        Ok(words) => Ok(Form::Bra { cond, words }),
        Err(_) => Err(Fault::NoRow),
    }
}

/// The form of a text. It need not be in the profile.
pub fn form_of(alloc: Global, text: &str) -> Result<Form, Fault> {
    let Some((first, units)) = text.split_once(", ") else {
        return branch(alloc, text);
    };
    if text.starts_with("load ") {
        load(alloc, first, units)
    } else {
        alu(alloc, first, units)
    }
}
