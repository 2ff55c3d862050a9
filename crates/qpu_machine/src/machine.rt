//! The machine.

ghost use Rattle.std.specs.Prelude.{◌≡◌, ◌≢◌, ◌<◌, ◌≤◌, ◌*◌, ◌+◌, ◌⊎◌, ◌↔◌, ◌&&◌, IfOk, IfSome, IsTrue, length, slice_get};
ghost use Rattle.qpu_machine.specs.Planned.{Fixed as Constant, IsPlan, bytes_of, site_of, HasSites};
ghost use Rattle.qpu_machine.specs.Opening.{opening, contents_of, opening_shared};
ghost use Rattle.qpu_machine.specs.MachineState.{stop_of, all_ended, are_idle, stop_at, view_of};
ghost use Rattle.qpu_machine.specs.MachineRun.{turn, happens, machine_run, fault_after, IsIdle, HasNothing};
ghost use Rattle.qpu_machine.specs.Schedules.{rounds_of, seeded_of, listed_of};

use crate::issue::issue;
use crate::moves::{move_load, move_store};
use crate::opening::{Opened, open_contents};
use crate::plan::{Fill, Fixed, Plan};
use crate::state::{Counts, Effect, Fault, Qpu, QpuView, Step, Stop};
use std::alloc::{AllocError, Global};
use std::marker::Model;
use vpm_words::{Queue, Shared, Site};

/// QPUs, what they share, their code, the memory, and how a run of them went so far.
#[derive(Drop)]
pub struct Machine {
    fixed: Fixed,
    qpus: Vec<Qpu>,
    shared: Shared,
    counts: Counts,
    memory: Vec<u8>,
    broken: Option<Fault>,
}

impl Model for Machine {
    ghost use Rattle.std.specs.Prelude.{length};
    ghost use Rattle.qpu_machine.specs.MachineState.{MachineState};
    ghost use Rattle.qpu_machine.specs.Planned.{IsBuilt};

    ghost Value = { MachineState };

    ghost invariant = { λ m. IsBuilt (length m.qpus.items) (length m.memory.items) m.fixed };

    ghost view = { λ m. record {
      fixed = m.fixed;
      qpus = m.qpus.items;
      shared = m.shared;
      counts = m.counts;
      memory = m.memory.items;
      broken = m.broken;
    } };
}

fn have_ended(qpus: &[Qpu]) -> bool
    ensures { result ≡ all_ended qpus.now }
{
    qpus.iter().all(|q| q.flow.ended)
}

fn is_over(shared: &Shared, qpus: &[Qpu]) -> bool
    ensures { result ≡ (are_idle shared.now && all_ended qpus.now) }
{
    (shared.loads.is_empty() && shared.stores.is_empty()) && have_ended(qpus)
}

/// What a run never changes for QPU k.
#[tactic(auto, unfolding(crate::specs::Planned::site_of))]
fn site_at(fixed: &Fixed, k: u32) -> Site<'_>
    requires uniforms { k * fixed.now.per + fixed.now.per ≤ length fixed.now.uniforms }
    requires scratch { k < length fixed.now.scratch }
    ensures { result ≡ site_of fixed.now k }
{
    let per = fixed.per as usize;
    let i = k as usize;
    let start = i * per;
    Site {
        number: k,
        uniforms: &fixed.uniforms[start..start + per],
        buffers: &fixed.buffers,
        scratch: fixed.scratch[i],
    }
}

#[tactic(auto, unfolding(crate::specs::MachineRun::turn))]
fn issue_among(
    fixed: &Fixed,
    qpus: &mut [Qpu],
    shared: &mut Shared,
    counts: &mut Counts,
    k: u32,
) -> Effect
    requires { HasSites (length qpus.old) fixed.now }
    ensures qpus { qpus.new ≡ (turn fixed.now qpus.old shared.old counts.old k).qpus }
    ensures shared { shared.new ≡ (turn fixed.now qpus.old shared.old counts.old k).shared }
    ensures counts { counts.new ≡ (turn fixed.now qpus.old shared.old counts.old k).counts }
    ensures effect { result ≡ (turn fixed.now qpus.old shared.old counts.old k).effect }
{
    let i = k as usize;
    if i >= qpus.len() {
        return Effect::Nothing;
    }
    let site = site_at(fixed, k);
    issue(&fixed.code, &site, &mut qpus[i], shared, counts)
}

fn fault_of(effect: Effect, old: Option<Fault>) -> Option<Fault>
    ensures { result ≡ fault_after effect old }
{
    match effect {
        Effect::Broken { rule, qpu, place } => Some(Fault { rule, qpu, place }),
        Effect::Did | Effect::Moved | Effect::Stalled | Effect::Nothing => old,
    }
}

fn stop(broken: Option<Fault>, over: bool) -> Stop
    ensures { result ≡ stop_at broken over }
{
    match broken {
        Some(Fault { rule, qpu, place }) => Stop::Broken { rule, qpu, place },
        None => { if over { Stop::Finished } else { Stop::Going } }
    }
}

fn view(q: &Qpu) -> QpuView
    ensures { result ≡ view_of q.now }
{
    QpuView {
        ended: q.flow.ended,
        place: q.flow.place,
        issued: q.flow.issued,
        r0: q.regs.acc[0],
    }
}

impl Machine {
    /// A machine at the opening of the plan: registers, accumulators, flags and the VPM hold what
    /// `fill` says. Want of memory is the only error, and the plan is dropped then.
    #[tactic(auto, unfolding(crate::specs::Opening::opening, crate::specs::Opening::opening_shared))]
    pub fn begin(alloc: Global, plan: Plan, fill: Fill) -> Result<Machine, AllocError>
        requires { IsPlan plan }
        ensures { IfOk result (λ machine. machine ≡ opening plan (contents_of fill plan.qpus)) }
    {
        let Plan {
            words,
            qpus: count,
            per,
            uniforms,
            memory,
            buffers,
            scratch,
        } = plan;
        let Opened { qpus, vpm } = open_contents(alloc, fill, count)?;
        Ok(Machine {
            fixed: Fixed {
                code: words,
                uniforms,
                per,
                buffers,
                scratch,
            },
            qpus,
            shared: Shared {
                vpm,
                owner: None,
                loads: Queue::new(),
                stores: Queue::new(),
            },
            counts: Counts {
                issued: 0,
                moved: 0,
                loads: 0,
                stores: 0,
            },
            memory,
            broken: None,
        })
    }

    #[tactic(auto, unfolding(crate::specs::MachineRun::happens, crate::specs::MachineRun::step_of))]
    fn take_step(&mut self, step: Step) -> Effect
        ensures state { self.new ≡ (happens self.old step).state }
        ensures effect { result ≡ (happens self.old step).effect }
    {
        if self.broken.is_some() {
            return Effect::Nothing;
        }
        match step {
            Step::Issue(k) => {
                let effect = issue_among(
                    &self.fixed,
                    &mut self.qpus,
                    &mut self.shared,
                    &mut self.counts,
                    k,
                );
                self.broken = fault_of(effect, self.broken);
                effect
            }
            Step::Load(i) => move_load(&mut self.shared, &mut self.counts, &self.memory, i),
            Step::Store(i) => move_store(&mut self.shared, &mut self.counts, &mut self.memory, i),
        }
    }

    /// One step of the system. Takes no memory.
    pub fn step(&mut self, step: Step) -> Effect
        ensures state { self.new ≡ (happens self.old step).state }
        ensures effect { result ≡ (happens self.old step).effect }

        // After `Nothing` and `Stalled` all is as before.
        ensures idle { IsIdle result → self.new ≡ self.old }

        // `Nothing` is answered exactly where the machine has stopped, the QPU isn't there or has ended,
        // or the engine has no element left.
        ensures nothing { (result ≡ Effect.Nothing)
            ↔ ((stop_of self.old ≢ Stop.Going) ⊎ HasNothing self.old step) }

        // On a machine that has stopped nothing happens.
        ensures stopped { stop_of self.old ≢ Stop.Going → result ≡ Effect.Nothing }

        // The code, the uniforms, the regions, the number of QPUs and the length of the memory never change.
        ensures fixed { self.new.fixed ≡ self.old.fixed }
        ensures count { length self.new.qpus ≡ length self.old.qpus }
        ensures size { length self.new.memory ≡ length self.old.memory }
    {
        self.take_step(step)
    }

    /// Whether the run goes on.
    #[tactic(auto, unfolding(crate::specs::MachineState::stop_of))]
    pub fn state(&self) -> Stop
        ensures { result ≡ stop_of self.now }
    {
        stop(self.broken, is_over(&self.shared, &self.qpus))
    }

    /// The bytes of buffer `i`.
    pub fn buffer(&self, i: u32) -> &[u8]
        requires { i < length self.now.fixed.buffers }
        ensures { IfSome (slice_get self.now.fixed.buffers i) (λ region. result.now ≡ bytes_of self.now.memory region) }
    {
        let fixed = &self.fixed;
        let region = fixed.buffers[i as usize];
        let start = region.start as usize;
        &self.memory[start..start + region.len as usize]
    }

    /// How many QPUs there are.
    pub(crate) fn count(&self) -> u32
        ensures { result ≡ length self.now.qpus }
    {
        self.qpus.len() as u32
    }

    /// What was done so far.
    pub fn counts(&self) -> Counts
        ensures { result ≡ self.now.counts }
    {
        self.counts
    }

    /// QPU `k` from outside.
    pub fn qpu(&self, k: u32) -> QpuView
        requires { k < length self.now.qpus }
        ensures { IfSome (slice_get self.now.qpus k) (λ q. result ≡ view_of q) }
    {
        view(&self.qpus[k as usize])
    }
}
