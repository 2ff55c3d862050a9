//! Trees of functions and of whole programs (C99, 6.9; OpenCL C 1.2, 6.7 and 6.8).

use crate::expressions::Scalar;
use crate::statements::{Block, Pointer};
use clc_lexer::Token;
use sqlite_items::Items;

/// `["const"] scalar name | pointer name`
#[derive(Drop)]
pub enum Param {
    Value(Option<Token>, Scalar, Token),
    Pointer(Pointer, Token),
}

/// `"," param`
#[derive(Drop)]
pub struct ParamStep {
    pub comma: Token,
    pub param: Param,
}

/// `"void" | param {"," param}`
#[derive(Drop)]
pub enum Params {
    Void(Token),
    List(Param, Items<ParamStep>),
}

/// `"void" | scalar`
#[derive(Drop)]
pub enum Returns {
    Void(Token),
    Value(Scalar),
}

/// `["kernel" | "__kernel" | "inline"] ("void" | scalar) name "(" ["void" | params] ")" block`
#[derive(Drop)]
pub struct Function {
    pub lead: Option<Token>,
    pub returns: Returns,
    pub name: Token,
    pub opening: Token,
    pub params: Option<Params>,
    pub closing: Token,
    pub body: Block,
}

/// A whole program: `{function}`
#[derive(Drop)]
pub struct Tree {
    pub functions: Items<Function>,
}
