//! Numbers of operations, conditions and signals.

ghost use Rattle.std.specs.Prelude.{◌≡◌};
ghost use Rattle.qpu_encode.specs.Codes.{add_code, mul_code, cond_code, head_code, bra_code, add_op_at, mul_op_at, cond_at, head_at, bra_at};

use crate::form::{AddOp, BraCond, Cond, Head, MulOp};

pub fn add_code_of(op: AddOp) -> u8
    ensures { result ≡ add_code op }
{
    op as u8
}

pub fn mul_code_of(op: MulOp) -> u8
    ensures { result ≡ mul_code op }
{
    op as u8
}

pub fn cond_code_of(cond: Cond) -> u8
    ensures { result ≡ cond_code cond }
{
    cond as u8
}

pub fn head_code_of(head: Head) -> u8
    ensures { result ≡ head_code head }
{
    head as u8
}

#[tactic(auto, unfolding(crate::specs::Codes::add_op_at))]
pub fn find_add_op(code: u64) -> Option<AddOp>
    ensures { result ≡ add_op_at code }
{
    match code {
        0 => Some(AddOp::Nop),
        12 => Some(AddOp::Add),
        13 => Some(AddOp::Sub),
        14 => Some(AddOp::Shr),
        15 => Some(AddOp::Asr),
        16 => Some(AddOp::Ror),
        17 => Some(AddOp::Shl),
        18 => Some(AddOp::Min),
        19 => Some(AddOp::Max),
        20 => Some(AddOp::And),
        21 => Some(AddOp::Or),
        22 => Some(AddOp::Xor),
        23 => Some(AddOp::Not),
        24 => Some(AddOp::Clz),
        25 => Some(AddOp::Mul32),
        26 => Some(AddOp::MulHs),
        27 => Some(AddOp::MulHu),
        _ => None,
    }
}

#[tactic(auto, unfolding(crate::specs::Codes::mul_op_at))]
pub fn find_mul_op(code: u64) -> Option<MulOp>
    ensures { result ≡ mul_op_at code }
{
    match code {
        0 => Some(MulOp::Nop),
        2 => Some(MulOp::Mul24),
        4 => Some(MulOp::V8Min),
        _ => None,
    }
}

#[tactic(auto, unfolding(crate::specs::Codes::cond_at))]
pub fn find_cond(code: u64) -> Option<Cond>
    ensures { result ≡ cond_at code }
{
    match code {
        0 => Some(Cond::Never),
        1 => Some(Cond::Always),
        2 => Some(Cond::Zs),
        3 => Some(Cond::Zc),
        4 => Some(Cond::Ns),
        5 => Some(Cond::Nc),
        _ => None,
    }
}

#[tactic(auto, unfolding(crate::specs::Codes::head_at))]
pub fn find_head(code: u64) -> Option<Head>
    ensures { result ≡ head_at code }
{
    match code {
        1 => Some(Head::Plain),
        3 => Some(Head::End),
        13 => Some(Head::Small),
        _ => None,
    }
}

pub fn bra_code_of(cond: BraCond) -> u8
    ensures { result ≡ bra_code cond }
{
    cond as u8
}

#[tactic(auto, unfolding(crate::specs::Codes::bra_at))]
pub fn find_bra(code: u64) -> Option<BraCond>
    ensures { result ≡ bra_at code }
{
    match code {
        0 => Some(BraCond::AllZ),
        1 => Some(BraCond::AllNz),
        2 => Some(BraCond::AnyZ),
        3 => Some(BraCond::AnyNz),
        4 => Some(BraCond::AllN),
        5 => Some(BraCond::AllNn),
        6 => Some(BraCond::AnyN),
        7 => Some(BraCond::AnyNn),
        15 => Some(BraCond::Always),
        _ => None,
    }
}
