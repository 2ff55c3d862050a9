//! Laws of the definitions. Each is a call that does nothing, and its contract is the law.

ghost use Rattle.footprint.specs.Laws.{ConflictsAreMutual, ConflictsNeedAWrite, ConflictsAreOfBytes, OneLeast};

/// Two footprints conflict at the same bytes from both sides, and only at bytes that one of them writes. Only the
/// bytes that are read and written count, however they were added. At most one place is the first.
pub fn law_conflicts()
    ensures mutual { ConflictsAreMutual }
    ensures write { ConflictsNeedAWrite }
    ensures bytes { ConflictsAreOfBytes }
    ensures first { OneLeast }
{}
