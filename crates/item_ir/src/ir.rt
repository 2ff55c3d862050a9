//! One work-item.

ghost use Rattle.std.specs.Prelude.{IsTrue, length};
ghost use Rattle.item_ir.specs.Valid.{counted, is_item};

use crate::form::Stmt;
use q_lane::Kind;

/// One work-item of a kernel. Values, variables, private arrays and parameters are numbered from 0.
#[derive(Drop)]
pub struct Ir {
    /// How many values there are.
    pub vals: u32,
    /// How many variables there are.
    pub vars: u32,
    /// The lengths of the private arrays, in elements.
    pub arrays: Vec<u32>,
    /// The kinds of the parameters.
    pub kinds: Vec<Kind>,
    pub body: Vec<Stmt>,
    /// The body names only what is there.
    ghost valid: { IsTrue (is_item (counted vals vars (length arrays.items) (length kinds.items)) body.items) },
}
