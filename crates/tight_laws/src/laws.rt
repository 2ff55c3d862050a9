//! Laws, each the contract of a call that does nothing.

ghost use Rattle.tight_laws.specs.Agreement.{ClashesBreak, AccessesAgree, KindsAgree};

/// A word of the profile clashes with the word before it exactly where it breaks H1, H2 or H3 right after it.
pub fn law_clashes()
    ensures { ClashesBreak }
{}

/// A word has a peripheral access by the tests of tight code exactly where the restrictions count one.
pub fn law_accesses()
    ensures { AccessesAgree }
{}

/// Both tell branches and program ends in the same way.
pub fn law_kinds()
    ensures { KindsAgree }
{}
