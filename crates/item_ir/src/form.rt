//! The form.

ghost use Rattle.std.specs.Prelude.{◌≡◌, IfOk};

use q_functions::{NumberFunction, WorkFunction};
use q_lane::{BinOp, Scalar, UnOp};
use sqlite_items::Items;
use std::alloc::{AllocError, Global};

/// The number of a value.
#[derive(Clone, Copy, Debug, PartialEq, Eq)]
pub struct Val(pub u32);

/// What defines a value. Values are words.
#[derive(Debug, Drop)]
pub enum Def {
    /// This word.
    Const(u32),
    /// The parameter of this number, an address where it is a pointer.
    Param(u32),
    /// A number of the work, for the dimension that `dim` says.
    Work {
        which: WorkFunction,
        dim: Val,
    },
    /// The variable of this number.
    Get(u32),
    Bin(BinOp, Val, Val),
    One(UnOp, Val),
    /// A function of numbers, which works in the type `work`.
    Built {
        which: NumberFunction,
        work: Scalar,
        args: Items<Val>,
    },
    /// The second where the first isn't 0, else the third.
    Choose(Val, Val, Val),
    /// The element of this type that stands at an address.
    Load {
        elem: Scalar,
        addr: Val,
    },
    /// An element of a private array.
    Element {
        array: u32,
        index: Val,
    },
    /// The flat id of a lane of a batch, with or without an item.
    Flat,
    /// The number of items.
    Items,
}

impl Def {
    /// The same definition.
    pub fn copied(&self, alloc: Global) -> Result<Def, AllocError>
        ensures { IfOk result (λ d. d ≡ self.now) }
    {
        Ok(match self {
            Def::Const(x) => Def::Const(*x),
            Def::Param(p) => Def::Param(*p),
            Def::Work { which, dim } => Def::Work {
                which: *which,
                dim: *dim,
            },
            Def::Get(v) => Def::Get(*v),
            Def::Bin(op, a, b) => Def::Bin(*op, *a, *b),
            Def::One(op, a) => Def::One(*op, *a),
            Def::Built { which, work, args } => Def::Built {
                which: *which,
                work: *work,
                args: Items::from_slice(alloc, args.as_slice())?,
            },
            Def::Choose(c, a, b) => Def::Choose(*c, *a, *b),
            Def::Load { elem, addr } => Def::Load {
                elem: *elem,
                addr: *addr,
            },
            Def::Element { array, index } => Def::Element {
                array: *array,
                index: *index,
            },
            Def::Flat => Def::Flat,
            Def::Items => Def::Items,
        })
    }
}

/// A statement. `Leave` ends the innermost scope, the whole item being the outermost.
#[cycle(statement)]
#[derive(Drop)]
pub enum Stmt {
    Let(Val, Def),
    /// A variable becomes a value.
    Set(u32, Val),
    Store {
        elem: Scalar,
        addr: Val,
        value: Val,
    },
    SetElement {
        array: u32,
        index: Val,
        value: Val,
    },
    /// All elements of the array become 0.
    Clear(u32),
    If {
        cond: Val,
        yes: Items<Stmt>,
        no: Items<Stmt>,
    },
    /// The head, and while `cond` isn't 0 then, the body, the step and the head again.
    Loop {
        head: Items<Stmt>,
        cond: Val,
        body: Items<Stmt>,
        step: Items<Stmt>,
    },
    Scope(Items<Stmt>),
    Leave,
    /// Ends the innermost loop.
    Break,
    /// Goes on with the step of the innermost loop.
    Continue,
}
