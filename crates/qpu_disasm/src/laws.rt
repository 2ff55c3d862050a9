//! A law of listings, the contract of a function that does nothing.

ghost use Rattle.qpu_disasm.specs.Laws.{TextsDiffer};

/// No two words have the same text, so a word can be told from its line.
pub fn law_lines_differ()
    ensures { TextsDiffer }
{}
