//! Names of operations, conditions and signals.

ghost use Rattle.std.specs.Prelude.{◌≡◌, ◌≤◌, length};
ghost use Rattle.qpu_disasm.specs.Listing.{add_name, mul_name, cond_name, bra_name, head_name};

use qpu_encode::{AddOp, BraCond, Cond, Head, MulOp};

pub fn name_of_add(op: AddOp) -> &'static [u8]
    ensures name { result.now ≡ add_name op }
    ensures short { length result.now ≤ 5 }
{
    match op {
        AddOp::Nop => b"nop",
        AddOp::Add => b"add",
        AddOp::Sub => b"sub",
        AddOp::Shr => b"shr",
        AddOp::Asr => b"asr",
        AddOp::Ror => b"ror",
        AddOp::Shl => b"shl",
        AddOp::Min => b"min",
        AddOp::Max => b"max",
        AddOp::And => b"and",
        AddOp::Or => b"or",
        AddOp::Xor => b"xor",
        AddOp::Not => b"not",
        AddOp::Clz => b"clz",
        AddOp::Mul32 => b"mul32",
        AddOp::MulHs => b"mulhs",
        AddOp::MulHu => b"mulhu",
    }
}

pub fn name_of_mul(op: MulOp) -> &'static [u8]
    ensures name { result.now ≡ mul_name op }
    ensures short { length result.now ≤ 5 }
{
    match op {
        MulOp::Nop => b"nop",
        MulOp::Mul24 => b"mul24",
        MulOp::V8Min => b"v8min",
    }
}

pub fn name_of_cond(cond: Cond) -> &'static [u8]
    ensures name { result.now ≡ cond_name cond }
    ensures short { length result.now ≤ 6 }
{
    match cond {
        Cond::Never => b"never",
        Cond::Always => b"always",
        Cond::Zs => b"zs",
        Cond::Zc => b"zc",
        Cond::Ns => b"ns",
        Cond::Nc => b"nc",
    }
}

pub fn name_of_bra(cond: BraCond) -> &'static [u8]
    ensures name { result.now ≡ bra_name cond }
    ensures short { length result.now ≤ 6 }
{
    match cond {
        BraCond::AllZ => b"allz",
        BraCond::AllNz => b"allnz",
        BraCond::AnyZ => b"anyz",
        BraCond::AnyNz => b"anynz",
        BraCond::AllN => b"alln",
        BraCond::AllNn => b"allnn",
        BraCond::AnyN => b"anyn",
        BraCond::AnyNn => b"anynn",
        BraCond::Always => b"always",
    }
}

pub fn name_of_head(head: Head) -> &'static [u8]
    ensures name { result.now ≡ head_name head }
    ensures short { length result.now ≤ 3 }
{
    match head {
        Head::Plain => b"alu",
        Head::End => b"end",
        Head::Small => b"imm",
    }
}
