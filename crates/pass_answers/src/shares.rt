//! What the words of a module are spent on.

use qpu_encode::{AddOp, Form, Head, MulOp, decode};
use tight_words::idles;

/// How many words do nothing, how many have an operation on both units, how many stand behind a branch or a program end before it takes effect,
/// and how many of these do nothing.
#[derive(Clone, Copy, Debug, PartialEq, Eq)]
pub struct Shares {
    pub idle: u32,
    pub pairs: u32,
    pub slots: u32,
    pub idle_slots: u32,
}

/// How many words behind this one are done before it takes effect.
fn slots_behind(form: &Form) -> u32 {
    match form {
        Form::Bra { .. } => 3,
        Form::Alu {
            head: Head::End,
            ..
        } => 2,
        _ => 0,
    }
}

fn is_pair(form: &Form) -> bool {
    match form {
        Form::Alu { add, mul, .. } => {
            !matches!(add.op, AddOp::Nop) && !matches!(mul.op, MulOp::Nop)
        }
        _ => false,
    }
}

/// The count, and one more where the word is such a word.
fn counted(count: u32, is_one: bool) -> u32 {
    if is_one {
        count.saturating_add(1)
    } else {
        count
    }
}

impl Shares {
    fn none() -> Shares {
        Shares {
            idle: 0,
            pairs: 0,
            slots: 0,
            idle_slots: 0,
        }
    }

    /// With one word more, which may stand in a slot.
    fn with(self, form: &Form, is_slot: bool) -> Shares {
        let is_idle = idles(form);
        Shares {
            idle: counted(self.idle, is_idle),
            pairs: counted(self.pairs, is_pair(form)),
            slots: counted(self.slots, is_slot),
            idle_slots: counted(self.idle_slots, is_slot && is_idle),
        }
    }
}

/// What these words are spent on.
pub fn shares_of(words: &[u64]) -> Shares {
    let mut shares = Shares::none();
    let mut slots_left = 0u32;
    for word in words {
        if let Some(instr) = decode(*word) {
            shares = shares.with(&instr.form, slots_left != 0);
            slots_left = slots_left.saturating_sub(1).max(slots_behind(&instr.form));
        }
    }
    shares
}
