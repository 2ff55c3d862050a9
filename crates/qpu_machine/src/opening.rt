//! The opening state.

ghost use Rattle.std.specs.Prelude.{◌≡◌, ◌≤◌, ◌*◌, IfOk, map};
ghost use Rattle.q_lane.specs.Vectors.{lanes};
ghost use Rattle.qpu_machine.specs.Schedules.{seed_after, draw};
ghost use Rattle.qpu_machine.specs.Opening.{opening_qpu, contents_of, zero_regs, drawn_lanes, drawn_file, drawn_regs, drawn_vpm, flags_in, numbers_each};

use crate::generator::{self, Generator};
use crate::plan::Fill;
use crate::state::{Flow, Qpu, Regs};
use q_lane::Lanes;
use qpu_rules::Written;
use std::alloc::{AllocError, Global};
use vpm_words::{Ports, Transfer};

/// What a machine opens with.
#[derive(Drop)]
pub struct Opened {
    pub qpus: Vec<Qpu>,
    pub vpm: [[u32; 16]; 64],
}

/// A QPU that has done nothing, with these registers.
#[tactic(auto, unfolding(crate::specs::Opening::opening_qpu))]
fn qpu_with(regs: Regs) -> Qpu
    ensures { result ≡ opening_qpu regs }
{
    Qpu {
        regs,
        flow: Flow {
            place: 0,
            ended: false,
            slots: 0,
            target: 0,
            ending: 0,
            issued: 0,
        },
        written: Written {
            file_a: None,
            file_b: None,
            accs: 0,
            five: false,
        },
        ports: Ports {
            taken: 0,
            read_row: 0,
            rows_left: 0,
            age: 3,
            write_row: None,
            load: None,
            store: None,
        },
    }
}

#[tactic(auto, unfolding(crate::specs::Opening::zero_regs))]
fn zero_registers() -> Regs
    ensures { result ≡ zero_regs }
{
    let zeros = Lanes { words: [0; 16] };
    Regs {
        a: [zeros; 32],
        b: [zeros; 32],
        acc: [zeros; 4],
        five: zeros,
        zero: [false; 16],
        neg: [false; 16],
    }
}

fn open_zero(alloc: Global, count: u32) -> Result<Opened, AllocError>
    ensures qpus { IfOk result (λ opened. opened.qpus.items ≡ map opening_qpu (contents_of Fill.Zero count).regs) }
    ensures vpm { IfOk result (λ opened. opened.vpm ≡ (contents_of Fill.Zero count).vpm) }
{
    let mut qpus = Vec::with_capacity(alloc, count as usize)?;
    for _index in 0..count {
        let q: Qpu = qpu_with(zero_registers());
        let ports: Ports = q.ports;
        let _store: Option<Transfer> = ports.store;
        qpus.push(q)?;
    }
    Ok(Opened {
        qpus,
        vpm: [[0; 16]; 64],
    })
}

fn draw_words(generator: &mut Generator) -> [u32; 16]
    ensures words { result ≡ lanes 16 (λ i. draw generator.old.state i) }
    ensures state { generator.new.state ≡ seed_after generator.old.state 16 }
{
    let mut words = [0; 16];
    for i in 0..16 {
        words[i] = generator::draw(generator);
    }
    words
}

fn draw_lanes(generator: &mut Generator) -> Lanes<16>
    ensures lanes { result ≡ drawn_lanes generator.old.state 0 }
    ensures state { generator.new.state ≡ seed_after generator.old.state 16 }
{
    Lanes {
        words: draw_words(generator),
    }
}

fn draw_file<const N: usize>(generator: &mut Generator) -> [Lanes<16>; N]
    requires { N ≤ 32 }
    ensures file { result ≡ drawn_file generator.old.state 0 N }
    ensures state { generator.new.state ≡ seed_after generator.old.state (16 * N) }
{
    let mut file = [Lanes { words: [0; 16] }; N];
    for r in 0..N {
        file[r] = draw_lanes(generator);
    }
    file
}

fn flags_of(word: u32) -> [bool; 16]
    ensures { result ≡ flags_in word }
{
    let mut flags = [false; 16];
    for i in 0..16 {
        flags[i] = word >> i & 1 == 1;
    }
    flags
}

#[tactic(auto, unfolding(crate::specs::Schedules::seed_after))]
fn draw_flags(generator: &mut Generator) -> [bool; 16]
    ensures flags { result ≡ flags_in (draw generator.old.state 0) }
    ensures state { generator.new.state ≡ seed_after generator.old.state 1 }
{
    flags_of(generator::draw(generator))
}

fn draw_regs(generator: &mut Generator) -> Regs
    ensures regs { result ≡ drawn_regs generator.old.state 0 }
    ensures state { generator.new.state ≡ seed_after generator.old.state numbers_each }
{
    let a = draw_file::<32>(generator);
    let b = draw_file::<32>(generator);
    let acc = draw_file::<4>(generator);
    let five = draw_lanes(generator);
    let zero = draw_flags(generator);
    let neg = draw_flags(generator);
    Regs {
        a,
        b,
        acc,
        five,
        zero,
        neg,
    }
}

fn draw_qpus(alloc: Global, generator: &mut Generator, count: u32) -> Result<Vec<Qpu>, AllocError>
    ensures qpus { IfOk result (λ qpus. qpus.items ≡ map opening_qpu (contents_of (Fill.Seed generator.old.state) count).regs) }
    ensures state { IfOk result (λ _. generator.new.state ≡ seed_after generator.old.state (numbers_each * count)) }
{
    let mut qpus = Vec::with_capacity(alloc, count as usize)?;
    for _index in 0..count {
        let q: Qpu = qpu_with(draw_regs(generator));
        let ports: Ports = q.ports;
        let _store: Option<Transfer> = ports.store;
        qpus.push(q)?;
    }
    Ok(qpus)
}

fn draw_vpm(generator: &mut Generator) -> [[u32; 16]; 64]
    ensures { result ≡ drawn_vpm generator.old.state 0 }
{
    let mut rows = [[0; 16]; 64];
    for y in 0..64 {
        rows[y] = draw_words(generator);
    }
    rows
}

fn open_seeded(alloc: Global, seed: u64, count: u32) -> Result<Opened, AllocError>
    ensures qpus { IfOk result (λ opened. opened.qpus.items ≡ map opening_qpu (contents_of (Fill.Seed seed) count).regs) }
    ensures vpm { IfOk result (λ opened. opened.vpm ≡ (contents_of (Fill.Seed seed) count).vpm) }
{
    let mut generator = Generator { state: seed };
    let qpus = draw_qpus(alloc, &mut generator, count)?;
    let vpm = draw_vpm(&mut generator);
    Ok(Opened { qpus, vpm })
}

/// So many QPUs and the VPM, with what `fill` says in them. Want of memory is the only error.
pub fn open_contents(alloc: Global, fill: Fill, count: u32) -> Result<Opened, AllocError>
    ensures qpus { IfOk result (λ opened. opened.qpus.items ≡ map opening_qpu (contents_of fill count).regs) }
    ensures vpm { IfOk result (λ opened. opened.vpm ≡ (contents_of fill count).vpm) }
{
    match fill {
        Fill::Zero => open_zero(alloc, count),
        Fill::Seed(seed) => open_seeded(alloc, seed, count),
    }
}
