//! Trees of a program in OpenCL C, the kinds of their tokens, and the grammar.
#![tactic(auto)]

mod expressions;
mod functions;
mod kinds;
mod statements;

pub use expressions::{
    Assign, Cast, Chain, ChainStep, Choice, CommaStep, Cond, Expr, Post, PostStep, Primary, Scalar,
    Unary,
};
pub use functions::{Function, Param, ParamStep, Params, Returns, Tree};
pub use kinds::{Kind, RANKS, operator_rank, rank};
pub use statements::{
    Block, BlockPart, Declare, Do, Else, For, ForStart, If, Init, Item, ItemStep, Pointer, Stmt,
    While,
};
