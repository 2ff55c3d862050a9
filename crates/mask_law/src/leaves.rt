//! The law of masking for ids, for accesses and for each statement without parts.

ghost use Rattle.mask_law.specs.Leaves.{IdsMasked, LoadsMasked, StoresMasked, ElementsMasked, SetElementsMasked, ClearsMasked};
ghost use Rattle.mask_law.specs.Constructs.{LeavesMasked};

/// An element of a private array, in all lanes.
pub fn law_elements()
    ensures { ElementsMasked }
{}

/// An element that is set, in all lanes.
pub fn law_set_elements()
    ensures { SetElementsMasked }
{}

/// A private array that is cleared, in all lanes.
pub fn law_clears()
    ensures { ClearsMasked }
{}

/// A load, in all lanes.
pub fn law_loads()
    ensures { LoadsMasked }
{}

/// A store, in all lanes.
pub fn law_stores()
    ensures { StoresMasked }
{}

/// An id, in all lanes.
pub fn law_ids()
    ensures { IdsMasked }
{}

/// Each statement without parts, in all lanes.
pub fn law_without_parts()
    ensures { LeavesMasked }
{}
