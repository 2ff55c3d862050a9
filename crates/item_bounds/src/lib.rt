//! What every work-item of a typed program keeps, whatever it does. Laws alone.
#![tactic(auto)]

ghost use Rattle.item_bounds.specs.Laws.{ItemsStayWithin, ItemsKeepBytes, EnoughIsEnough};

/// An item that ends leaves the sizes of the buffers as they are, accesses bytes of theirs alone, and takes at most the turns that it is
/// given.
pub fn law_items_stay_within()
    ensures { ItemsStayWithin }
{}

/// An item that isn't spent does the same with more turns.
pub fn law_enough_is_enough()
    ensures { EnoughIsEnough }
{}

/// An item that ends leaves bytes where it finds bytes.
pub fn law_items_keep_bytes()
    ensures { ItemsKeepBytes }
{}
