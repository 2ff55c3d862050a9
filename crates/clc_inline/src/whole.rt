//! A kernel's body without calls.

ghost use Rattle.std.specs.Prelude.{IsTrue};
ghost use Rattle.clc_inline.specs.Named.{is_named};

use crate::body::TStmt;
use clc_types::Var;

/// A kernel whose calls have become scopes. Its first `params` variables are its parameters; `nodes` counts its nodes, those of a called
/// function as often as it is called.
#[derive(Drop)]
pub struct Body {
    pub vars: Vec<Var>,
    pub params: u32,
    pub nodes: u32,
    pub body: TStmt,
    /// The body names only what is there.
    ghost valid: { IsTrue (is_named vars.items params body) },
}
