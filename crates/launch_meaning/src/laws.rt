//! Laws of the definitions. Each is a call that does nothing, and its contract is the law.

ghost use Rattle.launch_meaning.specs.Laws.{OneVerdict};

/// A launch has one verdict at most.
pub fn law_one_verdict()
    ensures { OneVerdict }
{}
