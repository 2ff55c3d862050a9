//! One move of one engine.

ghost use Rattle.std.specs.Prelude.{◌≡◌, ◌<◌, length};
ghost use Rattle.qpu_machine.specs.MoveStep.{load_move, store_move};

use crate::state::{Counts, Effect};
use vpm_words::{Shared, load_element, store_element};

/// A move of the load engine: of m elements left, number i is element i mod m.
#[tactic(auto, unfolding(crate::specs::MoveStep::load_move))]
pub fn move_load(shared: &mut Shared, counts: &mut Counts, memory: &[u8], i: u32) -> Effect
    ensures shared { shared.new ≡ (load_move shared.old counts.old memory.now i).shared }
    ensures counts { counts.new ≡ (load_move shared.old counts.old memory.now i).counts }
    ensures memory { memory.now ≡ (load_move shared.old counts.old memory.now i).memory }
    ensures effect { result ≡ (load_move shared.old counts.old memory.now i).effect }
{
    if shared.loads.is_empty() {
        return Effect::Nothing;
    }
    let index = i % shared.loads.len();
    let element = shared.loads.take(index);
    load_element(&element, memory, &mut shared.vpm);
    counts.moved = counts.moved.saturating_add(1);
    Effect::Moved
}

/// A move of the store engine.
#[tactic(auto, unfolding(crate::specs::MoveStep::store_move))]
pub fn move_store(shared: &mut Shared, counts: &mut Counts, memory: &mut [u8], i: u32) -> Effect
    ensures shared { shared.new ≡ (store_move shared.old counts.old memory.old i).shared }
    ensures counts { counts.new ≡ (store_move shared.old counts.old memory.old i).counts }
    ensures memory { memory.new ≡ (store_move shared.old counts.old memory.old i).memory }
    ensures effect { result ≡ (store_move shared.old counts.old memory.old i).effect }
{
    if shared.stores.is_empty() {
        return Effect::Nothing;
    }
    let index = i % shared.stores.len();
    let element = shared.stores.take(index);
    store_element(&element, &shared.vpm, memory);
    counts.moved = counts.moved.saturating_add(1);
    Effect::Moved
}
