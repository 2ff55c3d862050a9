//! What the restrictions remember of the words that a QPU did before, and what a word adds to it.

ghost use Rattle.std.specs.Prelude.{◌≡◌, ◌≤◌};
ghost use Rattle.qpu_rules.specs.Uses as uses;

use crate::registers::{file_write, target_of_add, target_of_mul, writes_at};
use qpu_encode::Form;

/// What a QPU's words before this one leave to watch for.
///
/// `file_a` and `file_b` are the registers of the files that the word before wrote, bit i of `accs` is set where it wrote accumulator
/// i, and `five` where it wrote r5. `slots` is the number of words that are left in delay slots, `ending` of those after a program end,
/// and `age` the number of words done since the last read setup of rows, up to 3.
#[derive(Clone, Copy, Debug, PartialEq, Eq)]
pub struct Recent {
    pub file_a: Option<u8>,
    pub file_b: Option<u8>,
    pub accs: u8,
    pub five: bool,
    pub slots: u8,
    pub ending: u8,
    pub age: u8,
}

/// What a word writes, as far as the next one must watch for it.
///
/// The fields are those of `Recent` with the same names.
#[derive(Clone, Copy, Debug, PartialEq, Eq)]
pub struct Written {
    pub file_a: Option<u8>,
    pub file_b: Option<u8>,
    pub accs: u8,
    pub five: bool,
}

// The addresses of r0, which r1 to r3 follow, and of r5.
const ACC: u8 = 32;

const FIVE: u8 = 37;

fn bit_for(is_set: bool) -> u8
    ensures value { result ≡ uses.bit is_set }
    ensures most { result ≤ 1 }
{
    if is_set { 1 } else { 0 }
}

#[tactic(auto, unfolding(crate::specs::Uses::accs_written, crate::specs::Uses::writes_acc))]
fn accs_write(form: &Form) -> u8
    ensures { result ≡ uses.accs_written form.now }
{
    let add = target_of_add(form);
    let mul = target_of_mul(form);
    let r0 = bit_for(writes_at(ACC, add, mul));
    let r1 = bit_for(writes_at(ACC + 1, add, mul));
    let r2 = bit_for(writes_at(ACC + 2, add, mul));
    let r3 = bit_for(writes_at(ACC + 3, add, mul));
    r0 + 2 * r1 + 4 * r2 + 8 * r3
}

#[tactic(auto, unfolding(crate::specs::Uses::five_written))]
fn five_write(form: &Form) -> bool
    ensures { result ≡ uses.five_written form.now }
{
    writes_at(FIVE, target_of_add(form), target_of_mul(form))
}

/// What a word writes that the next one must watch for.
#[tactic(auto, unfolding(crate::specs::Uses::written_by))]
pub fn written_by(form: &Form) -> Written
    ensures { result ≡ uses.written_by form.now }
{
    Written {
        file_a: file_write(false, form),
        file_b: file_write(true, form),
        accs: accs_write(form),
        five: five_write(form),
    }
}
