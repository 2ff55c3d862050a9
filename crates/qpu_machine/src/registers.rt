//! What a word does to the registers of its QPU.

ghost use Rattle.std.specs.Prelude.{◌≡◌, ◌<◌, ◌≤◌, ◌^◌, ◌==◌, nat_le, length, is_some};
ghost use Rattle.q_lane.specs.Vectors.{lanes, lane};
ghost use Rattle.qpu_encode.specs.Operations.{add_value, mul_value, unpacked};
ghost use Rattle.qpu_machine.specs.Operations.{splat, read_a, read_b, operand, unpacked_each, add_result, mul_result, turned, results, outgoing, written, write_register, after_write, after_flags, sets_flags, flagged, regs_after};

use crate::state::Regs;
use q_lane::Lanes;
use qpu_encode::{
    AddOp, AddPart, Cond, Form, Head, MulOp, MulPart, add_value, mul_value, passes, rotation,
    small_word, unpacked,
};
use qpu_rules::{Target, goes_out, target_of_add, target_of_mul, turns};

/// What the two units give.
#[derive(Clone, Copy)]
pub struct Results {
    pub add: [u32; 16],
    pub mul: [u32; 16],
}

fn numbers() -> [u32; 16]
    ensures { result ≡ lanes 16 (λ i. i) }
{
    [0, 1, 2, 3, 4, 5, 6, 7, 8, 9, 10, 11, 12, 13, 14, 15]
}

pub fn spread(word: u32) -> [u32; 16]
    ensures { result ≡ splat word }
{
    [word; 16]
}

#[tactic(auto, unfolding(crate::specs::Operations::read_a))]
fn value_a(regs: &Regs, incoming: &[u32; 16], x: u8) -> [u32; 16]
    ensures { result ≡ read_a regs.now incoming.now x }
{
    if x <= 31 {
        regs.a[usize::from(x)].words
    } else if x == 38 {
        numbers()
    } else if x == 39 {
        spread(0)
    } else {
        *incoming
    }
}

#[tactic(auto, unfolding(crate::specs::Operations::read_b))]
fn value_b(regs: &Regs, number: u32, incoming: &[u32; 16], small: bool, x: u8) -> [u32; 16]
    ensures { result ≡ read_b regs.now number incoming.now small x }
{
    if small {
        spread(small_word(x))
    } else if x <= 31 {
        regs.b[usize::from(x)].words
    } else if x == 38 {
        spread(number)
    } else if x == 39 {
        spread(0)
    } else {
        *incoming
    }
}

#[tactic(auto, unfolding(crate::specs::Operations::operand))]
fn select(regs: &Regs, a: &[u32; 16], b: &[u32; 16], x: u8) -> [u32; 16]
    ensures { result ≡ operand regs.now a.now b.now x }
{
    if x <= 3 {
        regs.acc[usize::from(x)].words
    } else if x == 5 {
        regs.five.words
    } else if x == 6 {
        *a
    } else {
        *b
    }
}

fn unpack_lanes(unpack: u8, xs: &[u32; 16]) -> [u32; 16]
    ensures { result ≡ lanes 16 (λ i. unpacked unpack (lane xs.now i)) }
{
    let mut words = [0; 16];
    for i in 0..16 {
        words[i] = unpacked(unpack, xs[i]);
    }
    words
}

#[tactic(auto, unfolding(crate::specs::Operations::unpacked_each))]
fn unpack_each(unpack: u8, xs: &[u32; 16]) -> [u32; 16]
    ensures { result ≡ unpacked_each unpack xs.now }
{
    if unpack == 0 {
        *xs
    } else {
        unpack_lanes(unpack, xs)
    }
}

// The operation is the same for all lanes: with its name written out at the call, the loop holds no choice.
#[inline(always)]
fn add_each(op: AddOp, xs: &[u32; 16], ys: &[u32; 16]) -> [u32; 16]
    ensures { result ≡ lanes 16 (λ i. add_value op (lane xs.now i) (lane ys.now i)) }
{
    let mut words = [0; 16];
    for i in 0..16 {
        words[i] = add_value(op, xs[i], ys[i]);
    }
    words
}

fn add_lanes(op: AddOp, xs: &[u32; 16], ys: &[u32; 16]) -> [u32; 16]
    ensures { result ≡ lanes 16 (λ i. add_value op (lane xs.now i) (lane ys.now i)) }
{
    match op {
        AddOp::Nop => add_each(AddOp::Nop, xs, ys),
        AddOp::Add => add_each(AddOp::Add, xs, ys),
        AddOp::Sub => add_each(AddOp::Sub, xs, ys),
        AddOp::Shr => add_each(AddOp::Shr, xs, ys),
        AddOp::Asr => add_each(AddOp::Asr, xs, ys),
        AddOp::Ror => add_each(AddOp::Ror, xs, ys),
        AddOp::Shl => add_each(AddOp::Shl, xs, ys),
        AddOp::Min => add_each(AddOp::Min, xs, ys),
        AddOp::Max => add_each(AddOp::Max, xs, ys),
        AddOp::And => add_each(AddOp::And, xs, ys),
        AddOp::Or => add_each(AddOp::Or, xs, ys),
        AddOp::Xor => add_each(AddOp::Xor, xs, ys),
        AddOp::Not => add_each(AddOp::Not, xs, ys),
        AddOp::Clz => add_each(AddOp::Clz, xs, ys),
        AddOp::Mul32 => add_each(AddOp::Mul32, xs, ys),
        AddOp::MulHs => add_each(AddOp::MulHs, xs, ys),
        AddOp::MulHu => add_each(AddOp::MulHu, xs, ys),
    }
}

#[inline(always)]
fn mul_each(op: MulOp, xs: &[u32; 16], ys: &[u32; 16]) -> [u32; 16]
    ensures { result ≡ lanes 16 (λ i. mul_value op (lane xs.now i) (lane ys.now i)) }
{
    let mut words = [0; 16];
    for i in 0..16 {
        words[i] = mul_value(op, xs[i], ys[i]);
    }
    words
}

fn mul_lanes(op: MulOp, xs: &[u32; 16], ys: &[u32; 16]) -> [u32; 16]
    ensures { result ≡ lanes 16 (λ i. mul_value op (lane xs.now i) (lane ys.now i)) }
{
    match op {
        MulOp::Nop => mul_each(MulOp::Nop, xs, ys),
        MulOp::Mul24 => mul_each(MulOp::Mul24, xs, ys),
        MulOp::V8Min => mul_each(MulOp::V8Min, xs, ys),
    }
}

#[tactic(auto, unfolding(crate::specs::Operations::add_result))]
fn add_unit(regs: &Regs, a: &[u32; 16], b: &[u32; 16], part: &AddPart) -> [u32; 16]
    ensures { result ≡ add_result regs.now a.now b.now part.now }
{
    add_lanes(
        part.op,
        &select(regs, a, b, part.a),
        &select(regs, a, b, part.b),
    )
}

#[tactic(auto, unfolding(crate::specs::Operations::mul_result))]
fn mul_unit(regs: &Regs, a: &[u32; 16], b: &[u32; 16], part: &MulPart) -> [u32; 16]
    ensures { result ≡ mul_result regs.now a.now b.now part.now }
{
    mul_lanes(
        part.op,
        &select(regs, a, b, part.a),
        &select(regs, a, b, part.b),
    )
}

#[tactic(auto, unfolding(crate::specs::Operations::turned))]
fn turn(is_turned: bool, code: u8, regs: &Regs, xs: &[u32; 16]) -> [u32; 16]
    ensures { result ≡ turned is_turned code regs.now xs.now }
{
    if is_turned {
        let by = rotation(code, regs.five.words[0]);
        Lanes { words: *xs }.rotate(by).words
    } else {
        *xs
    }
}

/// What both units give of the old registers.
#[tactic(auto, unfolding(crate::specs::Operations::results))]
pub fn compute(form: &Form, regs: &Regs, number: u32, incoming: &[u32; 16]) -> Results
    ensures { result ≡ results form.now regs.now number incoming.now }
{
    match *form {
        Form::Alu {
            head,
            unpack,
            add,
            mul,
            ra,
            rb,
            ..
        } => {
            let a = value_a(regs, incoming, ra);
            let b = value_b(regs, number, incoming, matches!(head, Head::Small), rb);
            Results {
                add: add_unit(regs, &unpack_each(unpack, &a), &b, &add),
                mul: turn(turns(form), rb, regs, &mul_unit(regs, &a, &b, &mul)),
            }
        }
        Form::Ldi { value, .. } => Results {
            add: spread(value),
            mul: spread(value),
        },
        Form::Bra { .. } => Results {
            add: spread(0),
            mul: spread(0),
        },
    }
}

/// What goes to a peripheral address.
#[tactic(auto, unfolding(crate::specs::Operations::outgoing))]
pub fn words_out(form: &Form, outputs: &Results) -> [u32; 16]
    ensures { result ≡ outgoing form.now outputs.now }
{
    if goes_out(target_of_add(form)) {
        outputs.add
    } else if goes_out(target_of_mul(form)) {
        outputs.mul
    } else {
        spread(0)
    }
}

#[inline(always)]
#[tactic(auto, unfolding(crate::specs::Operations::written))]
fn blend_each(
    cond: Cond,
    zero: &[bool; 16],
    neg: &[bool; 16],
    old: &[u32; 16],
    new: &[u32; 16],
) -> [u32; 16]
    ensures { result ≡ written cond zero.now neg.now old.now new.now }
{
    let mut words = [0; 16];
    for i in 0..16 {
        words[i] = if passes(cond, zero[i], neg[i]) {
            new[i]
        } else {
            old[i]
        };
    }
    words
}

fn blend(
    cond: Cond,
    zero: &[bool; 16],
    neg: &[bool; 16],
    old: &[u32; 16],
    new: &[u32; 16],
) -> [u32; 16]
    ensures { result ≡ written cond zero.now neg.now old.now new.now }
{
    match cond {
        Cond::Never => blend_each(Cond::Never, zero, neg, old, new),
        Cond::Always => blend_each(Cond::Always, zero, neg, old, new),
        Cond::Zs => blend_each(Cond::Zs, zero, neg, old, new),
        Cond::Zc => blend_each(Cond::Zc, zero, neg, old, new),
        Cond::Ns => blend_each(Cond::Ns, zero, neg, old, new),
        Cond::Nc => blend_each(Cond::Nc, zero, neg, old, new),
    }
}

#[tactic(auto, unfolding(crate::specs::Operations::after_write, crate::specs::Operations::write_register))]
fn write(target: Target, new: &[u32; 16], regs: &mut Regs)
    ensures { regs.new ≡ after_write target new.now regs.old }
{
    let Target {
        cond,
        through_b,
        dst,
    } = target;
    let x = usize::from(dst);
    if dst <= 31 {
        if through_b {
            regs.b[x].words = blend(cond, &regs.zero, &regs.neg, &regs.b[x].words, new);
        } else {
            regs.a[x].words = blend(cond, &regs.zero, &regs.neg, &regs.a[x].words, new);
        }
    } else if dst <= 35 {
        regs.acc[x - 32].words = blend(cond, &regs.zero, &regs.neg, &regs.acc[x - 32].words, new);
    } else if dst == 37 {
        regs.five.words = spread(new[0]);
    }
}

fn zeros_of(xs: &[u32; 16]) -> [bool; 16]
    ensures { result ≡ lanes 16 (λ i. lane xs.now i == 0) }
{
    let mut flags = [false; 16];
    for i in 0..16 {
        flags[i] = xs[i] == 0;
    }
    flags
}

fn negs_of(xs: &[u32; 16]) -> [bool; 16]
    ensures { result ≡ lanes 16 (λ i. nat_le (2 ^ 31) (lane xs.now i)) }
{
    let mut flags = [false; 16];
    for i in 0..16 {
        flags[i] = xs[i] >= 0x8000_0000;
    }
    flags
}

#[tactic(auto, unfolding(crate::specs::Operations::after_flags))]
fn set_flags(flags: bool, words: &[u32; 16], regs: &mut Regs)
    ensures { regs.new ≡ after_flags flags words.now regs.old }
{
    if flags {
        regs.zero = zeros_of(words);
        regs.neg = negs_of(words);
    }
}

fn flagging(form: &Form) -> bool
    ensures { result ≡ sets_flags form.now }
{
    match *form {
        Form::Alu { flags, .. } => flags,
        Form::Ldi { .. } | Form::Bra { .. } => false,
    }
}

fn result_flagged(form: &Form, outputs: &Results) -> [u32; 16]
    ensures { result ≡ flagged form.now outputs.now }
{
    match *form {
        Form::Alu { add, .. } => {
            if matches!(add.op, AddOp::Nop) {
                outputs.mul
            } else {
                outputs.add
            }
        }
        Form::Ldi { .. } | Form::Bra { .. } => outputs.add,
    }
}

/// The writes of both units and the flags.
#[tactic(auto, unfolding(crate::specs::Operations::regs_after))]
pub fn commit(form: &Form, outputs: &Results, regs: &mut Regs)
    ensures { regs.new ≡ regs_after form.now outputs.now regs.old }
{
    write(target_of_add(form), &outputs.add, regs);
    write(target_of_mul(form), &outputs.mul, regs);
    set_flags(flagging(form), &result_flagged(form, outputs), regs);
}
