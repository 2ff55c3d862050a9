//! An operation with its word, and its forms on either unit.

use pair_words::{form_of_pair, is_pair};
use phys_ir::{PSrc, Pair, Pop};
use qpu_encode::{AddOp, Form, MulOp};
use tight_words::{accesses, free};
use vop_ir::{Op, Turn};

/// An operation, and the word that does it alone.
#[derive(Clone, Copy)]
pub struct Item {
    pub pop: Pop,
    pub form: Form,
}

fn is_for_mul_unit(op: Op) -> bool {
    matches!(op, Op::Mul(_))
}

/// The operation alone in its pair.
pub fn alone(pop: &Pop) -> Pair {
    if is_for_mul_unit(pop.op) {
        Pair {
            add: None,
            mul: Some(*pop),
        }
    } else {
        Pair {
            add: Some(*pop),
            mul: None,
        }
    }
}

pub fn item_of(pop: &Pop) -> Item {
    let pair = alone(pop);
    let form = form_of_pair(&pair);
    Item { pop: *pop, form }
}

// The operation takes an operand as it is.
fn is_move(pop: &Pop) -> bool {
    pop.a == pop.b && pop.unpack == 0 && matches!(pop.turn, Turn::Not)
}

fn with_op(pop: &Pop, op: Op) -> Pop {
    Pop {
        op,
        cond: pop.cond,
        flags: pop.flags,
        dst: pop.dst,
        a: pop.a,
        b: pop.b,
        turn: pop.turn,
        unpack: pop.unpack,
    }
}

/// The operation as one of the add unit: a move of the mul unit is an `or`.
pub fn for_add_unit(pop: &Pop) -> Option<Pop> {
    match pop.op {
        Op::Add(_) => Some(*pop),
        Op::Lock => Some(*pop),
        Op::WaitLoad => Some(*pop),
        Op::WaitStore => Some(*pop),
        Op::Mul(op) => {
            if matches!(op, MulOp::V8Min) && is_move(pop) {
                Some(with_op(pop, Op::Add(AddOp::Or)))
            } else {
                None
            }
        }
    }
}

fn is_word(operand: PSrc) -> bool {
    matches!(operand, PSrc::Word(_))
}

/// The operation as one of the mul unit: an `or` that moves is a `v8min`.
pub fn for_mul_unit(pop: &Pop) -> Option<Pop> {
    match pop.op {
        Op::Mul(_) => Some(*pop),
        Op::Add(op) => {
            if matches!(op, AddOp::Or) && (is_move(pop) && !is_word(pop.a)) {
                Some(with_op(pop, Op::Mul(MulOp::V8Min)))
            } else {
                None
            }
        }
        Op::Lock => None,
        Op::WaitLoad => None,
        Op::WaitStore => None,
    }
}

fn pair_of(add: Option<Pop>, mul: Option<Pop>) -> Option<Pair> {
    let pair = Pair { add, mul };
    if add.is_some() && mul.is_some() && is_pair(&pair) {
        Some(pair)
    } else {
        None
    }
}

/// The pair that does the one on the add unit and the other on the mul unit.
pub fn pair_on_units(add: &Pop, mul: &Pop) -> Option<Pair> {
    pair_of(for_add_unit(add), for_mul_unit(mul))
}

/// The second may be done before the first. An access passes nothing and nothing passes it.
pub fn passes(first: &Item, second: &Item) -> bool {
    (!accesses(&first.form) && !accesses(&second.form))
        && (free(&first.form, &second.form) && free(&second.form, &first.form))
}
