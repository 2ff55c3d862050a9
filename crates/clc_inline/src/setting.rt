//! What stays the same in the body of one function.

use clc_types::TFunction;

/// The functions of the source, how many of them may be called, and the number that the function's first variable has.
#[derive(Drop)]
pub(crate) struct Setting<'a> {
    pub functions: &'a [TFunction],
    pub callable: u32,
    pub base: u32,
}
