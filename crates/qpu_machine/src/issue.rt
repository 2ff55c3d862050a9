//! One issue of one QPU.

ghost use Rattle.std.specs.Prelude.{◌≡◌, Some, get_or};
ghost use Rattle.q_lane.specs.Vectors.{lanes, lane};
ghost use Rattle.vpm_words.specs.Access.{incoming, row_of};
ghost use Rattle.qpu_rules.specs.Uses.{access_of};
ghost use Rattle.qpu_machine.specs.Operations.{outgoing};
ghost use Rattle.qpu_machine.specs.IssueStep.{one_more, fetched, is_taken, target_after, flow_after, recent, given, seen_by, counts_after, qpu_after, shared_after, done, tried, local};

use crate::registers::{Results, commit, compute, spread, words_out};
use crate::state::{Counts, Effect, Flow, Qpu, Regs};
use qpu_encode::{Form, Instr, decode, holds};
use qpu_rules::{Recent, access_of, branches, ends, first_broken, written_by};
use vpm_words::{Access, Ports, Rule, Shared, Site, must_wait, see, use_ports, use_shared};

#[tactic(auto, unfolding(crate::specs::IssueStep::fetched))]
fn fetch(code: &[u64], place: u32) -> Option<Instr>
    ensures { result ≡ fetched code.now place }
{
    match code.get(place as usize) {
        None => None,
        Some(word) => decode(*word),
    }
}

#[tactic(auto, unfolding(crate::specs::IssueStep::is_taken))]
fn takes(form: &Form, regs: &Regs) -> bool
    ensures { result ≡ is_taken form.now regs.now }
{
    match *form {
        Form::Bra { cond, .. } => holds(cond, &regs.zero, &regs.neg),
        Form::Alu { .. } | Form::Ldi { .. } => false,
    }
}

fn next_target(form: &Form, taken: bool, place: u32, old: u32) -> u32
    ensures { result ≡ target_after form.now taken place old }
{
    match *form {
        Form::Bra { words, .. } => {
            let past = place.wrapping_add(4);
            if taken {
                past.wrapping_add(words.cast_unsigned())
            } else {
                past
            }
        }
        Form::Alu { .. } | Form::Ldi { .. } => old,
    }
}

// How many words are done after a branch before it goes, and after a program end before the QPU has ended.
const DELAY_SLOTS: u8 = 3;

const END_SLOTS: u8 = 2;

#[tactic(auto, unfolding(crate::specs::IssueStep::flow_after))]
fn advance(form: &Form, taken: bool, flow: &mut Flow)
    ensures { flow.new ≡ flow_after form.now taken flow.old }
{
    let place = flow.place;
    flow.place = if flow.slots == 1 {
        flow.target
    } else {
        place.wrapping_add(1)
    };
    flow.ended = flow.ending == 1;
    flow.slots = if branches(form) {
        DELAY_SLOTS
    } else {
        flow.slots.saturating_sub(1)
    };
    flow.target = next_target(form, taken, place, flow.target);
    flow.ending = if ends(form) {
        END_SLOTS
    } else {
        flow.ending.saturating_sub(1)
    };
    flow.issued = flow.issued.saturating_add(1);
}

#[tactic(auto, unfolding(crate::specs::IssueStep::recent))]
fn remember(q: &Qpu) -> Recent
    ensures { result ≡ recent q.now }
{
    Recent {
        file_a: q.written.file_a,
        file_b: q.written.file_b,
        accs: q.written.accs,
        five: q.written.five,
        slots: q.flow.slots,
        ending: q.flow.ending,
        age: q.ports.age,
    }
}

fn copy_row(row: &[u32; 16]) -> [u32; 16]
    ensures { result ≡ lanes 16 (lane row.now) }
{
    let mut words = [0; 16];
    for i in 0..16 {
        words[i] = row[i];
    }
    words
}

fn row_read(ports: &Ports, vpm: &[[u32; 16]; 64]) -> [u32; 16]
    ensures { result ≡ lanes 16 (lane (row_of ports.now vpm.now)) }
{
    let row = usize::from(ports.read_row);
    if row < 64 {
        copy_row(&vpm[row])
    } else {
        spread(0)
    }
}

fn number_of(site: &Site<'_>) -> u32
    ensures { result ≡ site.now.number }
{
    site.number
}

fn next_uniform(site: &Site<'_>, ports: &Ports) -> u32
    ensures { result ≡ get_or site.now.uniforms ports.now.taken 0 }
{
    let taken = ports.taken;
    match site.uniforms.get(taken as usize) {
        Some(word) => *word,
        None => 0,
    }
}

/// What a read of a peripheral gives.
fn arriving(
    site: &Site<'_>,
    ports: &Ports,
    vpm: &[[u32; 16]; 64],
    access: Option<Access>,
) -> [u32; 16]
    ensures { result ≡ lanes 16 (incoming site.now ports.now (row_of ports.now vpm.now) access) }
{
    match access {
        None => spread(0),
        Some(access) => match access {
            Access::Uniform => spread(next_uniform(site, ports)),
            Access::ReadVpm => row_read(ports, vpm),
            _ => spread(0),
        },
    }
}

#[tactic(auto, unfolding(crate::specs::IssueStep::counts_after))]
fn count(access: Option<Access>, counts: &mut Counts)
    ensures { counts.new ≡ counts_after access counts.old }
{
    counts.issued = counts.issued.saturating_add(1);
    match access {
        Some(Access::LoadAddr) => counts.loads = counts.loads.saturating_add(1),
        Some(Access::StoreAddr) => counts.stores = counts.stores.saturating_add(1),
        _ => {}
    }
}

#[tactic(auto, unfolding(crate::specs::IssueStep::qpu_after))]
fn step_qpu(form: &Form, access: Option<Access>, value: u32, results: &Results, q: &mut Qpu)
    requires access { access ≡ access_of form.now }
    requires value { value ≡ lane (outgoing form.now results.now) 0 }
    ensures { q.new ≡ qpu_after form.now q.old results.now }
{
    let taken = takes(form, &q.regs);
    commit(form, results, &mut q.regs);
    advance(form, taken, &mut q.flow);
    q.written = written_by(form);
    use_ports(access, &mut q.ports, value);
}

/// What a word gives before it is judged: its one access, what its units give, and what goes to a peripheral.
#[derive(Clone, Copy)]
struct Given {
    access: Option<Access>,
    results: Results,
    out: [u32; 16],
}

#[tactic(auto, unfolding(crate::specs::IssueStep::given))]
fn give(site: &Site<'_>, form: &Form, q: &Qpu, vpm: &[[u32; 16]; 64]) -> Given
    ensures access { result.access ≡ access_of form.now }
    ensures results { result.results ≡ given site.now form.now q.now (row_of q.now.ports vpm.now) }
    ensures out { result.out ≡ outgoing form.now result.results }
{
    let access = access_of(form);
    let incoming = arriving(site, &q.ports, vpm, access);
    let results = compute(form, &q.regs, number_of(site), &incoming);
    let out = words_out(form, &results);
    Given {
        access,
        results,
        out,
    }
}

/// What is left of a word once it is done.
#[tactic(auto, unfolding(crate::specs::IssueStep::done, crate::specs::IssueStep::shared_after))]
fn perform(
    site: &Site<'_>,
    form: &Form,
    word: &Given,
    q: &mut Qpu,
    shared: &mut Shared,
    counts: &mut Counts,
) -> Effect
    requires access { word.now.access ≡ access_of form.now }
    requires out { word.now.out ≡ outgoing form.now word.now.results }
    ensures qpu { q.new ≡ (done site.now form.now q.old shared.old counts.old word.now.results).qpu }
    ensures shared { shared.new ≡ (done site.now form.now q.old shared.old counts.old word.now.results).shared }
    ensures counts { counts.new ≡ (done site.now form.now q.old shared.old counts.old word.now.results).counts }
    ensures effect { result ≡ (done site.now form.now q.old shared.old counts.old word.now.results).effect }
{
    use_shared(site, &q.ports, word.access, &word.out, shared);
    count(word.access, counts);
    step_qpu(form, word.access, word.out[0], &word.results, q);
    Effect::Did
}

/// A word of the profile, with what its units give.
#[tactic(auto, unfolding(crate::specs::IssueStep::tried, crate::specs::IssueStep::seen_by))]
fn try_word(
    site: &Site<'_>,
    instr: &Instr,
    word: &Given,
    q: &mut Qpu,
    shared: &mut Shared,
    counts: &mut Counts,
) -> Effect
    requires access { word.now.access ≡ access_of instr.now }
    requires out { word.now.out ≡ outgoing instr.now word.now.results }
    ensures qpu { q.new ≡ (tried site.now instr.now q.old shared.old counts.old word.now.results).qpu }
    ensures shared { shared.new ≡ (tried site.now instr.now q.old shared.old counts.old word.now.results).shared }
    ensures counts { counts.new ≡ (tried site.now instr.now q.old shared.old counts.old word.now.results).counts }
    ensures effect { result ≡ (tried site.now instr.now q.old shared.old counts.old word.now.results).effect }
{
    let seen = see(site, &q.ports, shared, word.access, word.out[0]);
    match first_broken(instr, &remember(q), &seen) {
        Some(rule) => Effect::Broken {
            rule,
            qpu: number_of(site),
            place: q.flow.place,
        },
        None => {
            if must_wait(word.access, &seen) {
                Effect::Stalled
            } else {
                perform(site, &instr.form, word, q, shared, counts)
            }
        }
    }
}

/// An issue of one QPU.
#[tactic(auto, unfolding(crate::specs::IssueStep::local, crate::specs::IssueStep::attempted))]
pub fn issue(
    code: &[u64],
    site: &Site<'_>,
    q: &mut Qpu,
    shared: &mut Shared,
    counts: &mut Counts,
) -> Effect
    ensures qpu { q.new ≡ (local code.now site.now q.old shared.old counts.old).qpu }
    ensures shared { shared.new ≡ (local code.now site.now q.old shared.old counts.old).shared }
    ensures counts { counts.new ≡ (local code.now site.now q.old shared.old counts.old).counts }
    ensures effect { result ≡ (local code.now site.now q.old shared.old counts.old).effect }
{
    if q.flow.ended {
        return Effect::Nothing;
    }
    let place = q.flow.place;
    let Some(instr) = fetch(code, place) else {
        return Effect::Broken {
            rule: Rule::H0,
            qpu: number_of(site),
            place,
        };
    };
    let word = give(site, &instr.form, q, &shared.vpm);
    try_word(site, &instr, &word, q, shared, counts)
}
