//! What a statement names.

/// A register that a statement names, and whether it is written there in some lanes only.
#[derive(Clone, Copy, Debug, PartialEq, Eq)]
pub struct Naming {
    pub reg: u32,
    pub in_part: bool,
}
