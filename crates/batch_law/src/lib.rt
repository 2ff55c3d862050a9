//! That the code of a batch, its prolog and its items' statements under masks, does what its items do one by one. A law alone.
#![tactic(auto)]

ghost use Rattle.batch_law.specs.Law.{BatchesDoTheirItems};

use mask_law::law_items;
use prolog_law::{law_prolog, law_steps};

/// A batch of a launch does what its items do one by one, where they come to their ends and don't conflict.
pub fn law_batch()
    ensures { BatchesDoTheirItems }
{
    law_items();
    law_prolog();
    law_steps();
}
