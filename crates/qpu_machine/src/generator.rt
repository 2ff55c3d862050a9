//! Numbers from a seed.

ghost use Rattle.std.specs.Prelude.{◌≡◌};
ghost use Rattle.qpu_machine.specs.Schedules.{next_seed, drawn};

/// The generator of seeded schedules and openings: a linear congruential one modulo 2^64, of which
/// the upper 32 bits are given.
#[derive(Clone, Copy)]
pub struct Generator {
    pub state: u64,
}

#[tactic(auto, unfolding(crate::specs::Schedules::next_seed))]
fn next_state(state: u64) -> u64
    ensures { result ≡ next_seed state }
{
    state
        .wrapping_mul(6_364_136_223_846_793_005)
        .wrapping_add(1_442_695_040_888_963_407)
}

/// The next number.
pub fn draw(generator: &mut Generator) -> u32
    ensures state { generator.new.state ≡ next_seed generator.old.state }
    ensures value { result ≡ drawn (next_seed generator.old.state) }
{
    generator.state = next_state(generator.state);
    (generator.state >> 32) as u32
}
