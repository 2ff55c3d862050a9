//! A typed tree: each name is replaced by what it stands for, and each expression has its type.

ghost use Rattle.std.specs.Prelude.{◌≡◌, true};
ghost use Rattle.clc_types.specs.Names.{spelling as spelling_of, builtin_of};
ghost use Rattle.clc_types.specs.WellTyped.{is_well_typed};

use crate::type_rule::TypeRule;
use clc_lexer::{Mark, Text};
use q_lane::Scalar;
use sqlite_items::{Boxed, Items};

/// A variable: a number, a pointer to numbers, or an array of the work-item's own. The elements of a pointer that is
/// `constant` may not be written.
#[derive(Clone, Copy, Debug, PartialEq, Eq)]
pub enum Var {
    Value(Scalar),
    Pointer { elem: Scalar, constant: bool },
    Array { elem: Scalar, len: u32 },
}

/// The type of an expression (OpenCL C 1.2, 6.1 and 6.5).
#[derive(Clone, Copy, Debug, PartialEq, Eq)]
pub enum Ty {
    Void,
    Value(Scalar),
    Pointer { elem: Scalar, constant: bool },
}

/// A function that every source may call (OpenCL C 1.2, 6.12.1 and 6.12.3).
#[derive(Clone, Copy, Debug, PartialEq, Eq)]
pub enum Builtin {
    GetWorkDim,
    GetGlobalId,
    GetGlobalSize,
    GetLocalId,
    GetLocalSize,
    GetGroupId,
    GetNumGroups,
    Min,
    Max,
    Clamp,
    Abs,
    AbsDiff,
    Mul24,
    MulHi,
    Rotate,
    Clz,
    Popcount,
    AddSat,
    SubSat,
}

impl Builtin {
    pub const ALL: [Builtin; 19] = [
        Builtin::GetWorkDim,
        Builtin::GetGlobalId,
        Builtin::GetGlobalSize,
        Builtin::GetLocalId,
        Builtin::GetLocalSize,
        Builtin::GetGroupId,
        Builtin::GetNumGroups,
        Builtin::Min,
        Builtin::Max,
        Builtin::Clamp,
        Builtin::Abs,
        Builtin::AbsDiff,
        Builtin::Mul24,
        Builtin::MulHi,
        Builtin::Rotate,
        Builtin::Clz,
        Builtin::Popcount,
        Builtin::AddSat,
        Builtin::SubSat,
    ];

    /// The name by which it is called.
    pub fn spelling(self) -> &'static [u8]
        ensures { result.now ≡ spelling_of self }
    {
        match self {
            Builtin::GetWorkDim => b"get_work_dim",
            Builtin::GetGlobalId => b"get_global_id",
            Builtin::GetGlobalSize => b"get_global_size",
            Builtin::GetLocalId => b"get_local_id",
            Builtin::GetLocalSize => b"get_local_size",
            Builtin::GetGroupId => b"get_group_id",
            Builtin::GetNumGroups => b"get_num_groups",
            Builtin::Min => b"min",
            Builtin::Max => b"max",
            Builtin::Clamp => b"clamp",
            Builtin::Abs => b"abs",
            Builtin::AbsDiff => b"abs_diff",
            Builtin::Mul24 => b"mul24",
            Builtin::MulHi => b"mul_hi",
            Builtin::Rotate => b"rotate",
            Builtin::Clz => b"clz",
            Builtin::Popcount => b"popcount",
            Builtin::AddSat => b"add_sat",
            Builtin::SubSat => b"sub_sat",
        }
    }

    /// The built-in function of the name.
    pub fn named(name: &[u8]) -> Option<Builtin>
        ensures { result ≡ builtin_of name.now }
    {
        for which in Builtin::ALL {
            if which.spelling() == name {
                return Some(which);
            }
        }
        None
    }
}

/// An expression. `at` is the offset in the source of the first byte of its first token.
#[cycle(expression)]
#[derive(Drop)]
pub struct TExpr {
    pub at: u32,
    pub ty: Ty,
    pub node: Node,
}

/// What an expression does. Variables and functions are given by their numbers.
#[cycle(expression)]
#[derive(Drop)]
pub enum Node {
    /// A number, as a word.
    Number(u32),
    /// A number or pointer variable.
    Name(u32),
    /// An element through a pointer.
    Index {
        base: Boxed<TExpr>,
        index: Boxed<TExpr>,
    },
    /// An element of an array variable.
    Element {
        array: u32,
        index: Boxed<TExpr>,
    },
    /// What a pointer points to.
    Deref(Boxed<TExpr>),
    /// `+`, `-`, `~` or `!` of a number.
    Prefix {
        op: Mark,
        arg: Boxed<TExpr>,
    },
    /// `++` where `up` holds, else `--`; after its place where `post` holds.
    Step {
        place: Boxed<TExpr>,
        up: bool,
        post: bool,
    },
    /// A number read in the type of this expression.
    Cast(Boxed<TExpr>),
    /// An expression in parentheses.
    Paren(Boxed<TExpr>),
    /// Operands of one level with the operators between them, from left to right; the comma is one of the operators.
    Chain {
        first: Boxed<TExpr>,
        rest: Items<(Mark, TExpr)>,
    },
    /// `first ? second : third`
    Cond(Boxed<TExpr>, Boxed<TExpr>, Boxed<TExpr>),
    /// `place op value`, where `op` is one of the assignment operators.
    Assign {
        place: Boxed<TExpr>,
        op: Mark,
        value: Boxed<TExpr>,
    },
    /// A call of a function of the source.
    Call {
        function: u32,
        args: Items<TExpr>,
    },
    /// A call of a built-in function that works in the type `work`.
    Builtin {
        which: Builtin,
        work: Scalar,
        args: Items<TExpr>,
    },
}

/// A statement, or the declaration of one variable.
#[cycle(statement)]
#[derive(Drop)]
pub enum TStmt {
    Block(Items<TStmt>),
    Declare {
        var: u32,
        init: Option<TExpr>,
    },
    Eval(TExpr),
    Empty,
    If {
        cond: TExpr,
        yes: Boxed<TStmt>,
        no: Option<Boxed<TStmt>>,
    },
    While {
        cond: TExpr,
        body: Boxed<TStmt>,
    },
    Do {
        body: Boxed<TStmt>,
        cond: TExpr,
    },
    For {
        init: Items<TStmt>,
        cond: Option<TExpr>,
        step: Option<TExpr>,
        body: Boxed<TStmt>,
    },
    Break,
    Continue,
    Return(Option<TExpr>),
}

/// A function. `at` is the offset of the first byte of its name, and the first `params` of its variables are its
/// parameters. The body is a block.
#[derive(Drop)]
pub struct TFunction {
    pub name: Text,
    pub at: u32,
    pub kernel: bool,
    pub result: Option<Scalar>,
    pub params: u32,
    pub vars: Items<Var>,
    pub body: TStmt,
}

/// A well-typed program: each expression has the type that its operands give it, and each number names what its place
/// takes. Calls name functions by their number in the list.
#[derive(Drop)]
pub struct Typed {
    pub functions: Items<TFunction>,
    pub ghost well_typed: { is_well_typed functions ≡ true },
}

/// Why a program has no typed tree.
#[derive(Clone, Copy, Debug, PartialEq, Eq)]
pub enum TypeFault {
    /// The first violated rule, and the number of the token at which it is violated. The lesser token comes first, and
    /// then the rule that stands first.
    Rule { rule: TypeRule, token: u32 },
    /// No memory was left.
    Memory,
}
