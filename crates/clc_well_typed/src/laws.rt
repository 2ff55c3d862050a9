//! What holds of the typed trees of proper programs, as the contract of a call that does nothing.

ghost use Rattle.clc_well_typed.specs.WellTyped.{AreWellTyped};

/// The typed tree that the typing rules give to a proper program is well typed.
pub fn law_well_typed()
    ensures { AreWellTyped }
{}
