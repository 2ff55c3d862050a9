//! The typed form of a word.

/// Operations of the add unit, each with its number. `Mul32`, `MulHs` and `MulHu` are this project's own.
#[derive(Clone, Copy, Debug, PartialEq, Eq)]
pub enum AddOp {
    Nop = 0,
    Add = 12,
    Sub = 13,
    Shr = 14,
    Asr = 15,
    Ror = 16,
    Shl = 17,
    Min = 18,
    Max = 19,
    And = 20,
    Or = 21,
    Xor = 22,
    Not = 23,
    Clz = 24,
    Mul32 = 25,
    MulHs = 26,
    MulHu = 27,
}

/// Operations of the mul unit, each with its number.
#[derive(Clone, Copy, Debug, PartialEq, Eq)]
pub enum MulOp {
    Nop = 0,
    Mul24 = 2,
    V8Min = 4,
}

/// Conditions on an element's flags: Z set, Z clear, N set and N clear.
#[derive(Clone, Copy, Debug, PartialEq, Eq)]
pub enum Cond {
    Never = 0,
    Always = 1,
    Zs = 2,
    Zc = 3,
    Ns = 4,
    Nc = 5,
}

/// Conditions of a branch, on the flags of all elements or of some element.
#[derive(Clone, Copy, Debug, PartialEq, Eq)]
pub enum BraCond {
    AllZ = 0,
    AllNz = 1,
    AnyZ = 2,
    AnyNz = 3,
    AllN = 4,
    AllNn = 5,
    AnyN = 6,
    AnyNn = 7,
    Always = 15,
}

/// What the signal of an ALU word says: nothing, the end of the program, or that `rb` is a small
/// immediate and no read address.
#[derive(Clone, Copy, Debug, PartialEq, Eq)]
pub enum Head {
    Plain = 1,
    End = 3,
    Small = 13,
}

/// What the add unit does: its operation, the elements that it writes, the address that they go to
/// and the selectors of its two operands.
#[derive(Clone, Copy, Debug, PartialEq, Eq)]
pub struct AddPart {
    pub op: AddOp,
    pub cond: Cond,
    pub dst: u8,
    pub a: u8,
    pub b: u8,
}

/// What the mul unit does.
#[derive(Clone, Copy, Debug, PartialEq, Eq)]
pub struct MulPart {
    pub op: MulOp,
    pub cond: Cond,
    pub dst: u8,
    pub a: u8,
    pub b: u8,
}

/// The fields of a word by kind of word: an ALU word, a load immediate and a branch. `flags` is sf,
/// `swap` is ws, `ra` and `rb` are the read addresses. A branch goes to its own place plus 4 plus
/// `words`.
#[derive(Clone, Copy, Debug, PartialEq, Eq)]
pub enum Form {
    Alu {
        head: Head,
        unpack: u8,
        add: AddPart,
        mul: MulPart,
        flags: bool,
        swap: bool,
        ra: u8,
        rb: u8,
    },
    Ldi {
        add_cond: Cond,
        mul_cond: Cond,
        swap: bool,
        add_dst: u8,
        mul_dst: u8,
        value: u32,
    },
    Bra {
        cond: BraCond,
        words: i32,
    },
}
