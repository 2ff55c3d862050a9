//! The registers and the peripherals of a word, and the three rules that look at the word before.

ghost use Rattle.std.specs.Prelude.{◌≡◌, true, false, not, ◌<◌, ◌&&◌, ◌||◌, ◌==◌};
ghost use Rattle.qpu_encode.specs.Codes.{cond_code};
ghost use Rattle.tight_words.specs.Meaning.{turn, is_nop, is_mul_nop};
ghost use Rattle.tight_words.specs.Registers.{first_target, second_target, register_at, written, is_this, writes, is_setup, writes_setup, is_port_read, is_port_write, has_access, uses, on_flags, looks_at_flags, sets_flags, is_end, is_end_head, is_branch, is_still, is_idle, is_half, is_or, is_min, no_add_part, no_mul_part, other, reads_fresh, turns_fresh, is_old, clash, uses_this, is_free};

use crate::meaning::{
    Source, cond_number, is_nop, is_small_head, same_source, source_a, source_at, source_b, turn_of,
};
use qpu_encode::{AddOp, AddPart, Cond, Form, Head, MulOp, MulPart};

/// Where a unit writes.
#[derive(Clone, Copy)]
pub struct Target {
    pub through_b: bool,
    pub dst: u8,
    pub cond: Cond,
}

fn target_one(form: &Form) -> Target
    ensures { result ≡ first_target form.now }
{
    match *form {
        Form::Alu { add, swap, .. } => Target {
            through_b: swap,
            dst: add.dst,
            cond: add.cond,
        },
        Form::Ldi {
            add_cond,
            swap,
            add_dst,
            ..
        } => Target {
            through_b: swap,
            dst: add_dst,
            cond: add_cond,
        },
        Form::Bra { .. } => Target {
            through_b: false,
            dst: 39,
            cond: Cond::Never,
        },
    }
}

fn target_two(form: &Form) -> Target
    ensures { result ≡ second_target form.now }
{
    match *form {
        Form::Alu { mul, swap, .. } => Target {
            through_b: !swap,
            dst: mul.dst,
            cond: mul.cond,
        },
        Form::Ldi {
            mul_cond,
            swap,
            mul_dst,
            ..
        } => Target {
            through_b: !swap,
            dst: mul_dst,
            cond: mul_cond,
        },
        Form::Bra { .. } => Target {
            through_b: true,
            dst: 39,
            cond: Cond::Never,
        },
    }
}

fn register(through_b: bool, dst: u8) -> Option<Source>
    ensures { result ≡ register_at through_b dst }
{
    if dst <= 31 {
        Some(if through_b {
            Source::FileB(dst)
        } else {
            Source::FileA(dst)
        })
    } else if dst <= 35 && 32 <= dst {
        Some(Source::Acc(dst - 32))
    } else if dst == 37 {
        Some(Source::Five)
    } else {
        None
    }
}

#[tactic(auto, unfolding(crate::specs::Registers::written))]
fn written_by(t: &Target) -> Option<Source>
    ensures { result ≡ written t.now }
{
    if cond_number(t.cond) == 0 {
        None
    } else {
        register(t.through_b, t.dst)
    }
}

fn this(register: Option<Source>, s: Source) -> bool
    ensures { result ≡ is_this register s }
{
    match register {
        None => false,
        Some(r) => same_source(r, s),
    }
}

#[tactic(auto, unfolding(crate::specs::Registers::writes))]
fn does_write(form: &Form, s: Source) -> bool
    ensures { result ≡ writes form.now s }
{
    this(written_by(&target_one(form)), s) || this(written_by(&target_two(form)), s)
}

fn setup_at(t: &Target) -> bool
    ensures { result ≡ is_setup t.now }
{
    (!(cond_number(t.cond) == 0) && t.dst == 49) && !t.through_b
}

/// The word writes a read setup.
#[tactic(auto, unfolding(crate::specs::Registers::writes_setup))]
pub fn does_set_up(form: &Form) -> bool
    ensures { result ≡ writes_setup form.now }
{
    setup_at(&target_one(form)) || setup_at(&target_two(form))
}

fn port_read(x: u8) -> bool
    ensures { result ≡ is_port_read x }
{
    (x == 32 || x == 48) || (x == 50 || x == 51)
}

fn port_write(t: &Target) -> bool
    ensures { result ≡ is_port_write t.now }
{
    !(cond_number(t.cond) == 0) && (48 <= t.dst && t.dst <= 51)
}

/// The word has a peripheral access.
#[tactic(auto, unfolding(crate::specs::Registers::has_access))]
pub fn accesses(form: &Form) -> bool
    ensures { result ≡ has_access form.now }
{
    match *form {
        Form::Alu {
            head,
            add,
            mul,
            swap,
            ra,
            rb,
            ..
        } => {
            let one = Target {
                through_b: swap,
                dst: add.dst,
                cond: add.cond,
            };
            let two = Target {
                through_b: !swap,
                dst: mul.dst,
                cond: mul.cond,
            };
            (port_read(ra) || (!is_small_head(head) && port_read(rb)))
                || (port_write(&one) || port_write(&two))
        }
        Form::Ldi {
            add_cond,
            mul_cond,
            swap,
            add_dst,
            mul_dst,
            ..
        } => {
            let one = Target {
                through_b: swap,
                dst: add_dst,
                cond: add_cond,
            };
            let two = Target {
                through_b: !swap,
                dst: mul_dst,
                cond: mul_cond,
            };
            port_write(&one) || port_write(&two)
        }
        Form::Bra { .. } => false,
    }
}

fn nop_mul(op: MulOp) -> bool
    ensures { result ≡ is_mul_nop op }
{
    matches!(op, MulOp::Nop)
}

#[tactic(auto, unfolding(crate::specs::Registers::uses))]
fn does_use(form: &Form, s: Source) -> bool
    ensures { result ≡ uses form.now s }
{
    match *form {
        Form::Alu {
            head,
            add,
            mul,
            ra,
            rb,
            ..
        } => {
            let small = is_small_head(head);
            let [aa, ab] = [
                source_at(small, ra, rb, add.a),
                source_at(small, ra, rb, add.b),
            ];
            let [ma, mb] = [
                source_at(small, ra, rb, mul.a),
                source_at(small, ra, rb, mul.b),
            ];
            ((same_source(source_a(ra), s) || same_source(source_b(small, rb), s))
                || (!is_nop(add.op) && (same_source(aa, s) || same_source(ab, s))))
                || ((!nop_mul(mul.op) && (same_source(ma, s) || same_source(mb, s)))
                    || (turn_of(small, rb) == 48 && same_source(Source::Five, s)))
        }
        _ => false,
    }
}

fn flagged(cond: Cond) -> bool
    ensures { result ≡ on_flags cond }
{
    2 <= cond_number(cond)
}

#[tactic(auto, unfolding(crate::specs::Registers::looks_at_flags))]
fn looks(form: &Form) -> bool
    ensures { result ≡ looks_at_flags form.now }
{
    let one = target_one(form);
    let two = target_two(form);
    flagged(one.cond) || flagged(two.cond)
}

/// The word sets flags.
pub fn sets_flags(form: &Form) -> bool
    ensures { result ≡ sets_flags form.now }
{
    match *form {
        Form::Alu { flags, .. } => flags,
        _ => false,
    }
}

fn end_head(head: Head) -> bool
    ensures { result ≡ is_end_head head }
{
    matches!(head, Head::End)
}

pub fn ends(form: &Form) -> bool
    ensures { result ≡ is_end form.now }
{
    match *form {
        Form::Alu { head, .. } => end_head(head),
        _ => false,
    }
}

pub fn branches(form: &Form) -> bool
    ensures { result ≡ is_branch form.now }
{
    matches!(*form, Form::Bra { .. })
}

fn still(nop: bool, cond: Cond, dst: u8) -> bool
    ensures { result ≡ is_still nop cond dst }
{
    (nop || cond_number(cond) == 0) || dst == 39
}

/// The word does nothing.
#[tactic(auto, unfolding(crate::specs::Registers::is_idle))]
pub fn idles(form: &Form) -> bool
    ensures { result ≡ is_idle form.now }
{
    match *form {
        Form::Alu {
            head,
            add,
            mul,
            flags,
            ..
        } => {
            (!end_head(head) && (!flags && !accesses(form)))
                && (still(is_nop(add.op), add.cond, add.dst)
                    && still(nop_mul(mul.op), mul.cond, mul.dst))
        }
        _ => false,
    }
}

#[tactic(auto, unfolding(crate::specs::Registers::is_half))]
pub fn halves(form: &Form) -> bool
    ensures { result ≡ is_half form.now }
{
    match *form {
        Form::Alu { head, add, mul, .. } => (!end_head(head) && !idles(form))
            && (is_nop(add.op) || nop_mul(mul.op)),
        _ => false,
    }
}

fn is_or_op(op: AddOp) -> bool
    ensures { result ≡ is_or op }
{
    matches!(op, AddOp::Or)
}

fn is_min_op(op: MulOp) -> bool
    ensures { result ≡ is_min op }
{
    matches!(op, MulOp::V8Min)
}

fn empty_add() -> AddPart
    ensures { result ≡ no_add_part }
{
    AddPart {
        op: AddOp::Nop,
        cond: Cond::Never,
        dst: 39,
        a: 0,
        b: 0,
    }
}

fn empty_mul() -> MulPart
    ensures { result ≡ no_mul_part }
{
    MulPart {
        op: MulOp::Nop,
        cond: Cond::Never,
        dst: 39,
        a: 0,
        b: 0,
    }
}

/// The same move on the other unit.
#[tactic(auto, unfolding(crate::specs::Registers::other))]
pub fn other_form(form: &Form) -> Option<Form>
    ensures { result ≡ other form.now }
{
    match *form {
        Form::Alu {
            head,
            unpack,
            add,
            mul,
            flags,
            swap,
            ra,
            rb,
        } => {
            let small = is_small_head(head);
            let add_same = same_source(
                source_at(small, ra, rb, add.a),
                source_at(small, ra, rb, add.b),
            );
            let mul_same = same_source(
                source_at(small, ra, rb, mul.a),
                source_at(small, ra, rb, mul.b),
            );
            if (is_or_op(add.op) && nop_mul(mul.op)) && (unpack == 0 && add_same) {
                let part = MulPart {
                    op: MulOp::V8Min,
                    cond: add.cond,
                    dst: add.dst,
                    a: add.a,
                    b: add.b,
                };
                Some(Form::Alu {
                    head,
                    unpack,
                    add: empty_add(),
                    mul: part,
                    flags,
                    swap: !swap,
                    ra,
                    rb,
                })
            } else if (is_min_op(mul.op) && is_nop(add.op))
                && (turn_of(small, rb) == 0 && mul_same)
            {
                let part = AddPart {
                    op: AddOp::Or,
                    cond: mul.cond,
                    dst: mul.dst,
                    a: mul.a,
                    b: mul.b,
                };
                Some(Form::Alu {
                    head,
                    unpack,
                    add: part,
                    mul: empty_mul(),
                    flags,
                    swap: !swap,
                    ra,
                    rb,
                })
            } else {
                None
            }
        }
        _ => None,
    }
}

#[tactic(auto, unfolding(crate::specs::Registers::reads_fresh))]
fn fresh_read(before: &Form, form: &Form) -> bool
    ensures { result ≡ reads_fresh before.now form.now }
{
    match *form {
        Form::Alu { head, ra, rb, .. } => {
            does_write(before, source_a(ra))
                || does_write(before, source_b(is_small_head(head), rb))
        }
        _ => false,
    }
}

fn old(before: &Form, s: u8) -> bool
    ensures { result ≡ is_old before.now s }
{
    s <= 3 && !does_write(before, Source::Acc(s))
}

#[tactic(auto, unfolding(crate::specs::Registers::turns_fresh))]
fn fresh_turn(before: &Form, form: &Form) -> bool
    ensures { result ≡ turns_fresh before.now form.now }
{
    match *form {
        Form::Alu { head, mul, rb, .. } => {
            let turn = turn_of(is_small_head(head), rb);
            (!(turn == 0) && !(old(before, mul.a) && old(before, mul.b)))
                || (turn == 48 && does_write(before, Source::Five))
        }
        _ => false,
    }
}

/// The second breaks H1, H2 or H3 right after the first.
pub fn clashes(before: &Option<Form>, form: &Option<Form>) -> bool
    ensures { result ≡ clash before.now form.now }
{
    match before {
        None => false,
        Some(p) => match form {
            None => false,
            Some(f) => fresh_read(p, f) || fresh_turn(p, f),
        },
    }
}

fn touches(form: &Form, register: Option<Source>) -> bool
    ensures { result ≡ uses_this form.now register }
{
    match register {
        None => false,
        Some(s) => does_use(form, s) || does_write(form, s),
    }
}

/// The second may be done with the first.
#[tactic(auto, unfolding(crate::specs::Registers::is_free))]
pub fn free(u: &Form, v: &Form) -> bool
    ensures { result ≡ is_free u.now v.now }
{
    let one = touches(v, written_by(&target_one(u)));
    let two = touches(v, written_by(&target_two(u)));
    (!one && !two)
        && (!(sets_flags(u) && (looks(v) || sets_flags(v))) && !(accesses(u) && accesses(v)))
}
