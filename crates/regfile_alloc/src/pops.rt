//! Operations over numbered places as operations over files and accumulators.

ghost use Rattle.std.specs.Prelude.{◌≡◌, ℕ, ◌<◌, map, IfOk, ◌++◌, ◌∷◌, []};
ghost use Rattle.phys_ir.specs.Places.{src_at, dst_at, vop_of};
ghost use Rattle.regfile_alloc.specs.Picks.{IsSrcPlace, IsDstPlace, AreInPlaces};

use phys_ir::{Acc, PDst, PSrc, Pop, RegA, RegB};
use std::alloc::AllocError;
use vop_ir::{Dst, Src, Vop};

fn psrc(x: Src) -> PSrc
    requires place { IsSrcPlace x }
    ensures { src_at result ≡ x }
{
    match x {
        Src::Reg(p) => {
            if p < 32 {
                PSrc::A(RegA { number: p as u8 })
            } else if p < 64 {
                PSrc::B(RegB {
                    number: (p - 32) as u8,
                })
            } else {
                PSrc::Acc(Acc {
                    number: (p - 64) as u8,
                })
            }
        }
        Src::Small(i) => PSrc::Small(i),
        Src::Word(w) => PSrc::Word(w),
        Src::Uniform => PSrc::Uniform,
        Src::Elem => PSrc::Elem,
        Src::Qpu => PSrc::Qpu,
        Src::Vpm => PSrc::Vpm,
    }
}

fn pdst(x: Dst) -> PDst
    requires place { IsDstPlace x }
    ensures { dst_at result ≡ x }
{
    match x {
        Dst::Reg(p) => {
            if p < 32 {
                PDst::A(RegA { number: p as u8 })
            } else if p < 64 {
                PDst::B(RegB {
                    number: (p - 32) as u8,
                })
            } else {
                PDst::Acc(Acc {
                    number: (p - 64) as u8,
                })
            }
        }
        Dst::Five => PDst::Five,
        Dst::Nowhere => PDst::Nowhere,
        Dst::Vpm => PDst::Vpm,
        Dst::ReadSet => PDst::ReadSet,
        Dst::WriteSet => PDst::WriteSet,
        Dst::LoadAddr => PDst::LoadAddr,
        Dst::StoreAddr => PDst::StoreAddr,
        Dst::Unlock => PDst::Unlock,
    }
}

pub fn pop_of(o: Vop) -> Pop
    requires dst { IsDstPlace o.dst }
    requires a { IsSrcPlace o.a }
    requires b { IsSrcPlace o.b }
    ensures { vop_of result ≡ o }
{
    Pop {
        op: o.op,
        cond: o.cond,
        flags: o.flags,
        dst: pdst(o.dst),
        a: psrc(o.a),
        b: psrc(o.b),
        turn: o.turn,
        unpack: o.unpack,
    }
}

pub fn put(out: &mut Vec<Pop>, o: Vop) -> Result<(), AllocError>
    requires dst { IsDstPlace o.dst }
    requires a { IsSrcPlace o.a }
    requires b { IsSrcPlace o.b }
    ensures { IfOk result (λ _. map vop_of out.new.items ≡ map vop_of out.old.items ++ o ∷ []) }
{
    let pop: Pop = pop_of(o);
    let _dst: PDst = pop.dst;
    let _a: PSrc = pop.a;
    out.push(pop)?;
    Ok(())
}

pub fn put_all(out: &mut Vec<Pop>, ops: &[Vop]) -> Result<(), AllocError>
    requires { AreInPlaces ops.now }
    ensures { IfOk result (λ _. map vop_of out.new.items ≡ map vop_of out.old.items ++ ops.now) }
{
    for op in ops {
        put(out, *op)?;
    }
    Ok(())
}
