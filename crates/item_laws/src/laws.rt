//! Laws, each the contract of a call that does nothing.

ghost use Rattle.item_laws.specs.Locality.{RunsAreLocal, RerunsAreOverlaid};
ghost use Rattle.item_laws.specs.Rows.{LoadsAreBounded, StoresAreBounded, IndicesAreBounded, ChoicesAreThose, RoundsAreCounted, LoopsAreLeft};

/// A run that ends changes only the bytes that it writes, and depends only on the bytes that it touches.
pub fn law_local()
    ensures { RunsAreLocal }
{}

/// Over another memory with the same bytes where a run reads or writes, it does the same, and the bytes that it doesn't write stay.
pub fn law_overlaid()
    ensures { RerunsAreOverlaid }
{}

/// What small pieces of code do, worked out by hand: accesses at their bounds, choices, rounds of loops, and the ways to leave loops and scopes.
pub fn law_rows()
    ensures loads { LoadsAreBounded }
    ensures stores { StoresAreBounded }
    ensures indices { IndicesAreBounded }
    ensures choices { ChoicesAreThose }
    ensures rounds { RoundsAreCounted }
    ensures left { LoopsAreLeft }
{}
