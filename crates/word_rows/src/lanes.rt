//! Operations on words.

use crate::parts::{Fault, Parts};
use crate::texts::word_text;
use q_lane::{BinOp, Scalar, UnOp, apply, apply_one};
use std::alloc::Global;

pub const ON_TWO: [BinOp; 23] = [
    BinOp::Add,
    BinOp::Sub,
    BinOp::Mul,
    BinOp::MulHi(false),
    BinOp::MulHi(true),
    BinOp::Div(false),
    BinOp::Div(true),
    BinOp::Rem(false),
    BinOp::Rem(true),
    BinOp::And,
    BinOp::Or,
    BinOp::Xor,
    BinOp::Shl,
    BinOp::Shr,
    BinOp::Sar,
    BinOp::Min(false),
    BinOp::Min(true),
    BinOp::Max(false),
    BinOp::Max(true),
    BinOp::Less(false),
    BinOp::Less(true),
    BinOp::Equal,
    BinOp::Mul24,
];

const ON_ONE: [UnOp; 10] = [
    UnOp::Not,
    UnOp::Neg,
    UnOp::Clz,
    UnOp::Popcount,
    UnOp::Narrow(Scalar::Char),
    UnOp::Narrow(Scalar::Uchar),
    UnOp::Narrow(Scalar::Short),
    UnOp::Narrow(Scalar::Ushort),
    UnOp::Narrow(Scalar::Int),
    UnOp::Narrow(Scalar::Uint),
];

/// What an operation gives of its words.
pub fn answer(alloc: Global, parts: &mut Parts<'_>) -> Result<String, Fault> {
    let word = match parts.text()? {
        "apply" => {
            let op = parts.one_of(alloc, &ON_TWO)?;
            let a = parts.word()?;
            apply(op, a, parts.word()?)
        }
        "apply_one" => {
            let op = parts.one_of(alloc, &ON_ONE)?;
            apply_one(op, parts.word()?)
        }
        _ => return Err(Fault::NoRow),
    };
    word_text(alloc, word)
}
