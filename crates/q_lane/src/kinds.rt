//! What a lane's word stands for.

/// A type of whole numbers of OpenCL C. `Int` and `Uint` have 32 bits, `Short` and `Ushort` 16, `Char` and `Uchar` 8.
#[derive(Clone, Copy, Debug, PartialEq, Eq)]
pub enum Scalar {
    Char,
    Uchar,
    Short,
    Ushort,
    Int,
    Uint,
}

/// A number of a type, or the address of one.
#[derive(Clone, Copy, Debug, PartialEq, Eq)]
pub enum Kind {
    Value(Scalar),
    Pointer,
}
