//! Words that hold no operation of a pair.

use qpu_encode::{
    AddOp, AddPart, BraCond, Cond, Form, Head, Instr, MulOp, MulPart, encode, is_in_profile,
};
use std::alloc::AllocError;

/// The address that is read or written for nothing.
const NOWHERE: u8 = 39;

/// A word that does nothing, with this head.
pub fn blank(head: Head) -> Form {
    let add = AddPart {
        op: AddOp::Nop,
        cond: Cond::Never,
        dst: NOWHERE,
        a: 0,
        b: 0,
    };
    let mul = MulPart {
        op: MulOp::Nop,
        cond: Cond::Never,
        dst: NOWHERE,
        a: 0,
        b: 0,
    };
    Form::Alu {
        head,
        unpack: 0,
        add,
        mul,
        flags: false,
        swap: false,
        ra: NOWHERE,
        rb: NOWHERE,
    }
}

/// The instruction of a form. None is outside the profile that is made here of blocks of pairs that words can say; another one is
/// answered as want of memory.
pub fn instr_of(form: Form) -> Result<Instr, AllocError> {
    if is_in_profile(&form) {
        Ok(Instr { form })
    } else {
        Err(AllocError)
    }
}

/// Puts the word of a form at the end.
pub fn put(words: &mut Vec<u64>, form: Form) -> Result<(), AllocError> {
    words.push(encode(&instr_of(form)?))?;
    Ok(())
}

/// The condition that holds where this one doesn't. There is none of `Always`.
pub fn negated(cond: BraCond) -> BraCond {
    match cond {
        BraCond::AllZ => BraCond::AnyNz,
        BraCond::AllNz => BraCond::AnyZ,
        BraCond::AnyZ => BraCond::AllNz,
        BraCond::AnyNz => BraCond::AllZ,
        BraCond::AllN => BraCond::AnyNn,
        BraCond::AllNn => BraCond::AnyN,
        BraCond::AnyN => BraCond::AllNn,
        BraCond::AnyNn => BraCond::AllN,
        BraCond::Always => BraCond::Always,
    }
}
