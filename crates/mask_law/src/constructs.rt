//! The law of masking for each statement, and for the whole item.

ghost use Rattle.mask_law.specs.Constructs.{AllMasked};
ghost use Rattle.mask_law.specs.Law.{BatchesKeepItems};

use item_laws::law_local;

/// Each statement, in all lanes.
pub fn law_all()
    ensures { AllMasked }
{}

/// A batch does what its items do one by one, where they come to their ends and don't conflict: the memory is the last item's, each lane that has an item
/// makes that item's accesses, and no other makes any.
pub fn law_items()
    ensures { BatchesKeepItems }
{
    law_local();
}
