//! The names of the built-in functions.

/// A function of numbers (OpenCL C 1.2, 6.12.3).
#[derive(Clone, Copy, Debug, PartialEq, Eq)]
pub enum NumberFunction {
    Min,
    Max,
    Clamp,
    Abs,
    AbsDiff,
    Mul24,
    MulHi,
    Rotate,
    Clz,
    Popcount,
    AddSat,
    SubSat,
}

/// A function that a work-item asks about its launch (OpenCL C 1.2, 6.12.1).
#[derive(Clone, Copy, Debug, PartialEq, Eq)]
pub enum WorkFunction {
    WorkDim,
    GlobalId,
    GlobalSize,
    LocalId,
    LocalSize,
    GroupId,
    NumGroups,
}
