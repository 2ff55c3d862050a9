//! What the checker knows of names and expressions while it walks.

use crate::type_rule::TypeRule;
use crate::typed::{Builtin, TExpr};
use clc_lexer::Mark;
use q_lane::Scalar;
use sqlite_items::{Boxed, Items};

/// A violated rule, with the number of its token.
#[derive(Clone, Copy)]
pub struct Fault {
    pub token: u32,
    pub rule: TypeRule,
}

/// The address space of a pointer's elements (OpenCL C 1.2, 6.5).
#[derive(Clone, Copy, PartialEq, Eq)]
pub enum Space {
    Global,
    Constant,
}

/// What a declaration says of its name. A `fixed` variable may not be written, nor the elements of a `fixed` array;
/// the elements of a `constant` pointer are const.
#[derive(Clone, Copy)]
pub enum Shape {
    Value {
        scalar: Scalar,
        fixed: bool,
    },
    Pointer {
        space: Space,
        constant: bool,
        elem: Scalar,
        fixed: bool,
    },
    Array {
        elem: Scalar,
        len: u32,
        fixed: bool,
    },
}

/// The type of an expression, with all that the rules look at.
#[derive(Clone, Copy)]
pub enum Kind {
    Void,
    Value(Scalar),
    Pointer {
        space: Space,
        constant: bool,
        elem: Scalar,
    },
    /// An array, by the number of its variable.
    Array {
        var: u32,
        elem: Scalar,
    },
}

/// What an assignment may do with an expression, parentheses aside: it is no place, it may be written, or it is const.
#[derive(Clone, Copy)]
pub enum Place {
    Nowhere,
    Writable,
    Constant,
}

/// What a name stands for. Variables and functions are given by their numbers.
#[derive(Clone, Copy)]
pub enum Named {
    Variable(u32, Shape),
    Function(u32),
    Builtin(Builtin),
}

/// An expression with its type, and as a place. The typed expression of an array's name never stays in a tree.
#[derive(Drop)]
pub struct Form {
    pub expr: Boxed<TExpr>,
    pub kind: Kind,
    pub place: Place,
}

/// The part of a chain up to some operand: its type, its first operand, and the operators with the others.
#[derive(Drop)]
pub struct Sofar {
    pub kind: Kind,
    pub first: Boxed<TExpr>,
    pub rest: Items<(Mark, TExpr)>,
}

/// An argument of a call, with the number of its first token.
#[derive(Drop)]
pub struct Argument {
    pub place: u32,
    pub kind: Kind,
    pub expr: Boxed<TExpr>,
}

/// What a call must know of a function.
#[derive(Drop)]
pub struct Signature {
    pub kernel: bool,
    pub result: Option<Scalar>,
    pub params: Items<Shape>,
}

/// What a function's body stands among: the functions up to and with this one, the heights of those before it, and
/// what it returns. The height of a function is 1 where it calls no other function of the source, and else one more
/// than the greatest height of those.
#[derive(Drop)]
pub struct Home {
    pub functions: Items<Signature>,
    pub heights: Items<u32>,
    pub result: Option<Scalar>,
}
