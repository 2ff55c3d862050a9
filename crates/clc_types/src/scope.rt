//! What is declared in the open blocks.

use crate::forms::{Home, Named};
use crate::typed::Var;
use indexmap::IndexMap;
use sqlite_items::Items;

/// The names that a block declares.
pub type Names = IndexMap<Vec<u8>, Named>;

/// The open blocks, the innermost one and those outside it, and the function in which they stand.
#[derive(Drop)]
pub struct Scope {
    pub outer: Items<IndexMap<Vec<u8>, Named>>,
    pub inner: IndexMap<Vec<u8>, Named>,
    pub home: Home,
}

/// What the walk over statements carries: the open blocks, the function's variables so far, and the number of the
/// next token.
#[derive(Drop)]
pub struct State {
    pub scope: Scope,
    pub vars: Items<Var>,
    pub at: u32,
}
