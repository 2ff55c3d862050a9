//! Which pairs one word says.

ghost use Rattle.std.specs.Prelude.{◌≡◌, ◌&&◌};
ghost use Rattle.pair_words.specs.PairSaid as spec;
ghost use Rattle.qpu_encode.specs.WordFields.{is_in_profile};

use crate::form::form_of_pair;
use crate::meaning::{is_in_place, meaning_of_pair};
use phys_ir::{PSrc, Pair, Pop};
use qpu_encode::{AddOp, Form, is_in_profile};
use tight_words::{mean_the_same, meaning_of};
use vop_ir::Op;

fn is_word(operand: PSrc, value: u32) -> bool
    ensures { result ≡ spec.is_word operand value }
{
    match operand {
        PSrc::Word(other) => other == value,
        PSrc::A(_) => false,
        PSrc::B(_) => false,
        PSrc::Acc(_) => false,
        PSrc::Small(_) => false,
        PSrc::Uniform => false,
        PSrc::Elem => false,
        PSrc::Qpu => false,
        PSrc::Vpm => false,
    }
}

fn is_or(op: Op) -> bool
    ensures { result ≡ spec.is_or op }
{
    match op {
        Op::Add(op) => matches!(op, AddOp::Or),
        Op::Mul(_) => false,
        Op::Lock => false,
        Op::WaitLoad => false,
        Op::WaitStore => false,
    }
}

// The operation loads this word into all elements, and does nothing besides.
fn loads(pop: &Pop, value: u32) -> bool
    ensures { result ≡ spec.loads pop.now value }
{
    (is_or(pop.op) && !pop.flags)
        && ((is_word(pop.a, value) && is_word(pop.b, value)) && pop.unpack == 0)
}

fn loads_alone(pair: &Pair, value: u32) -> bool
    ensures { result ≡ spec.loads_alone pair.now.add pair.now.mul value }
{
    match &pair.add {
        None => false,
        Some(pop) => match &pair.mul {
            None => loads(pop, value),
            Some(_) => false,
        },
    }
}

fn says(pair: &Pair, form: &Form) -> bool
    ensures { result ≡ spec.says pair.now form.now }
{
    match *form {
        Form::Alu { .. } => mean_the_same(&meaning_of(form), &meaning_of_pair(pair)),
        Form::Ldi { value, .. } => loads_alone(pair, value),
        Form::Bra { .. } => false,
    }
}

/// One word says the pair: each part suits its unit, and the pair's word is in the profile and means what the pair means.
#[tactic(auto, unfolding(crate::specs::PairSaid::is_pair))]
pub fn is_pair(pair: &Pair) -> bool
    ensures { result ≡ spec.is_pair pair.now }
{
    let form = form_of_pair(pair);
    is_in_place(pair) && (is_in_profile(&form) && says(pair, &form))
}
