//! Laws of the definitions. Each is a call that does nothing, and its contract is the law.

ghost use Rattle.qpu_rules.specs.Laws.{EarlyFirst, UniformIsRead};
ghost use Rattle.qpu_rules.specs.Restrictions.{AccsAreBits};

/// Bit i of the accumulators that a word writes is set exactly where it writes accumulator i.
pub fn law_accs()
    ensures { AccsAreBits }
{}

/// The least broken rule is that of the QPU's own words and uniforms, and where there is none, that of the word's one access.
pub fn law_early()
    ensures first { EarlyFirst }
    ensures uniform { UniformIsRead }
{}
