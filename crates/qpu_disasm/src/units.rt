//! What a line says of the units of a word, and what it ends with.

ghost use Rattle.std.specs.Prelude.{◌≡◌, ◌+◌, ◌≤◌, ◌<◌, ◌++◌};
ghost use Rattle.arrayvec.specs.ArrayVec.{array_vec_len};
ghost use Rattle.qpu_disasm.specs.Listing.{write_text, operands_text, add_text, mul_text, tail_text};

use crate::names::{name_of_add, name_of_cond, name_of_mul};
use crate::pieces::{Line, push_number, push_selector, push_target, push_text};
use qpu_encode::{AddOp, AddPart, Cond, MulOp, MulPart};

/// Appends the condition of a unit and where it writes.
#[tactic(auto, unfolding(crate::specs::Listing::write_text))]
pub fn push_write(line: &mut Line, cond: Cond, through_b: bool, dst: u8)
    requires { array_vec_len line.old + 13 ≤ 128 }
    ensures items { line.new.items ≡ line.old.items ++ write_text cond through_b dst }
    ensures len { array_vec_len line.new ≤ array_vec_len line.old + 13 }
{
    push_text(line, name_of_cond(cond));
    push_text(line, b" ");
    push_target(line, through_b, dst);
}

// Appends what follows the name of an operation.
#[tactic(auto, unfolding(crate::specs::Listing::operands_text))]
fn push_operands(line: &mut Line, cond: Cond, through_b: bool, dst: u8, a: u8, b: u8)
    requires { array_vec_len line.old + 26 ≤ 128 }
    ensures items { line.new.items ≡ line.old.items ++ operands_text cond through_b dst a b }
    ensures len { array_vec_len line.new ≤ array_vec_len line.old + 26 }
{
    push_text(line, b".");
    push_write(line, cond, through_b, dst);
    push_text(line, b", ");
    push_selector(line, a);
    push_text(line, b", ");
    push_selector(line, b);
}

/// Appends what the add unit does.
#[tactic(auto, using(crate::proofs::Operations::add_acts), unfolding(crate::specs::Listing::add_text))]
pub fn push_add(line: &mut Line, through_b: bool, add: &AddPart)
    requires { array_vec_len line.old + 31 ≤ 128 }
    ensures items { line.new.items ≡ line.old.items ++ add_text through_b add.now }
    ensures len { array_vec_len line.new ≤ array_vec_len line.old + 31 }
{
    push_text(line, name_of_add(add.op));
    match add.op {
        AddOp::Nop => {}
        _ => push_operands(line, add.cond, through_b, add.dst, add.a, add.b),
    }
}

/// Appends what the mul unit does.
#[tactic(auto, using(crate::proofs::Operations::mul_acts), unfolding(crate::specs::Listing::mul_text))]
pub fn push_mul(line: &mut Line, through_b: bool, mul: &MulPart)
    requires { array_vec_len line.old + 31 ≤ 128 }
    ensures items { line.new.items ≡ line.old.items ++ mul_text through_b mul.now }
    ensures len { array_vec_len line.new ≤ array_vec_len line.old + 31 }
{
    push_text(line, name_of_mul(mul.op));
    match mul.op {
        MulOp::Nop => {}
        _ => push_operands(line, mul.cond, through_b, mul.dst, mul.a, mul.b),
    }
}

/// Appends what stands at the end.
#[tactic(auto, unfolding(crate::specs::Listing::tail_text))]
pub fn push_tail(line: &mut Line, unpack: u8, flags: bool, swap: bool)
    requires { array_vec_len line.old + 13 ≤ 128 }
    ensures items { line.new.items ≡ line.old.items ++ tail_text unpack flags swap }
    ensures len { array_vec_len line.new ≤ array_vec_len line.old + 13 }
{
    if unpack != 0 {
        push_text(line, b" un=");
        push_number(line, unpack);
    }
    if flags {
        push_text(line, b" sf");
    }
    if swap {
        push_text(line, b" ws");
    }
}
