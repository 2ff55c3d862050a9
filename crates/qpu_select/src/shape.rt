//! How many registers a batch's program has of each sort.

/// How many values, parameters and variables a batch has.
#[derive(Clone, Copy, Debug, PartialEq, Eq)]
pub struct Shape {
    pub vals: u32,
    pub params: u32,
    pub vars: u32,
}
