//! The registers that a word reads and writes.

ghost use Rattle.std.specs.Prelude.{◌≡◌, ◌||◌};
ghost use Rattle.qpu_rules.specs.Uses.{is_small, is_never, is_end, is_branch, is_written, is_written_at, add_target, mul_target, read_as, register, file_read, written_in, file_written, writes_file, rotates, rotates_by_five};

use qpu_encode::{Cond, Form, Head};

/// Where a unit writes: in which elements, through file A or B, at which address.
#[derive(Clone, Copy, Debug, PartialEq, Eq)]
pub struct Target {
    pub cond: Cond,
    pub through_b: bool,
    pub dst: u8,
}

// The address of a write that goes nowhere.
const NOWHERE: u8 = 39;

pub fn small(head: Head) -> bool
    ensures { result ≡ is_small head }
{
    matches!(head, Head::Small)
}

fn never(cond: Cond) -> bool
    ensures { result ≡ is_never cond }
{
    matches!(cond, Cond::Never)
}

/// Whether a unit writes in any element, as far as its condition says.
pub fn written(target: Target) -> bool
    ensures { result ≡ is_written target }
{
    !never(target.cond)
}

/// Whether one of the two units writes this address.
pub fn writes_at(x: u8, add: Target, mul: Target) -> bool
    ensures { result ≡ is_written_at x add || is_written_at x mul }
{
    (written(add) && add.dst == x) || (written(mul) && mul.dst == x)
}

/// Where the add unit writes.
pub fn target_of_add(form: &Form) -> Target
    ensures { result ≡ add_target form.now }
{
    match *form {
        Form::Alu { add, swap, .. } => Target {
            cond: add.cond,
            through_b: swap,
            dst: add.dst,
        },
        Form::Ldi {
            add_cond,
            swap,
            add_dst,
            ..
        } => Target {
            cond: add_cond,
            through_b: swap,
            dst: add_dst,
        },
        Form::Bra { .. } => Target {
            cond: Cond::Never,
            through_b: false,
            dst: NOWHERE,
        },
    }
}

/// Where the mul unit writes.
pub fn target_of_mul(form: &Form) -> Target
    ensures { result ≡ mul_target form.now }
{
    match *form {
        Form::Alu { mul, swap, .. } => Target {
            cond: mul.cond,
            through_b: !swap,
            dst: mul.dst,
        },
        Form::Ldi {
            mul_cond,
            swap,
            mul_dst,
            ..
        } => Target {
            cond: mul_cond,
            through_b: !swap,
            dst: mul_dst,
        },
        Form::Bra { .. } => Target {
            cond: Cond::Never,
            through_b: true,
            dst: NOWHERE,
        },
    }
}

/// The address that is read as A or as B.
pub fn address_read(through_b: bool, form: &Form) -> Option<u8>
    ensures { result ≡ read_as through_b form.now }
{
    match *form {
        Form::Alu { head, ra, rb, .. } => {
            if !through_b {
                Some(ra)
            } else if small(head) {
                None
            } else {
                Some(rb)
            }
        }
        Form::Ldi { .. } | Form::Bra { .. } => None,
    }
}

fn register_at(x: u8) -> Option<u8>
    ensures { result ≡ register x }
{
    if x < 32 { Some(x) } else { None }
}

/// The register of file A or B that the word reads.
pub fn register_read(through_b: bool, form: &Form) -> Option<u8>
    ensures { result ≡ file_read through_b form.now }
{
    match address_read(through_b, form) {
        Some(x) => register_at(x),
        None => None,
    }
}

fn register_written(through_b: bool, target: Target) -> Option<u8>
    ensures { result ≡ written_in through_b target }
{
    if target.through_b == through_b && written(target) {
        register_at(target.dst)
    } else {
        None
    }
}

/// The register of file A or B that the word writes.
#[tactic(auto, unfolding(crate::specs::Uses::file_written))]
pub fn file_write(through_b: bool, form: &Form) -> Option<u8>
    ensures { result ≡ file_written through_b form.now }
{
    match register_written(through_b, target_of_add(form)) {
        Some(x) => Some(x),
        None => register_written(through_b, target_of_mul(form)),
    }
}

/// Whether a register of a file is written.
pub fn file_writer(form: &Form) -> bool
    ensures { result ≡ writes_file form.now }
{
    file_write(false, form).is_some() || file_write(true, form).is_some()
}

/// Whether the word is a program end.
pub fn ends(form: &Form) -> bool
    ensures { result ≡ is_end form.now }
{
    match *form {
        Form::Alu { head, .. } => matches!(head, Head::End),
        Form::Ldi { .. } | Form::Bra { .. } => false,
    }
}

/// Whether the word is a branch.
pub fn branches(form: &Form) -> bool
    ensures { result ≡ is_branch form.now }
{
    matches!(*form, Form::Bra { .. })
}

// The first and last code of a rotation in a small immediate; the first is the one by r5.
const BY_FIVE: u8 = 48;

const LAST_CODE: u8 = 63;

/// Whether the word rotates the mul result.
pub fn turns(form: &Form) -> bool
    ensures { result ≡ rotates form.now }
{
    match *form {
        Form::Alu { head, rb, .. } => small(head) && (BY_FIVE <= rb && rb <= LAST_CODE),
        Form::Ldi { .. } | Form::Bra { .. } => false,
    }
}

/// Whether the word rotates by r5.
pub fn turns_by_five(form: &Form) -> bool
    ensures { result ≡ rotates_by_five form.now }
{
    match *form {
        Form::Alu { head, rb, .. } => small(head) && rb == BY_FIVE,
        Form::Ldi { .. } | Form::Bra { .. } => false,
    }
}
