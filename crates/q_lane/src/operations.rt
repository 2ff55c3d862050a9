//! The names of the operations on words.

use crate::kinds::Scalar;

/// An operation on two words. Where it has a flag, `true` reads both words as signed.
#[derive(Clone, Copy, Debug, PartialEq, Eq)]
pub enum BinOp {
    Add,
    Sub,
    Mul,
    MulHi(bool),
    Div(bool),
    Rem(bool),
    And,
    Or,
    Xor,
    Shl,
    Shr,
    Sar,
    Min(bool),
    Max(bool),
    Less(bool),
    Equal,
    Mul24,
}

/// An operation on one word.
#[derive(Clone, Copy, Debug, PartialEq, Eq)]
pub enum UnOp {
    Not,
    Neg,
    Clz,
    Popcount,
    Narrow(Scalar),
}
