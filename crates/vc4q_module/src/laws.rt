//! Laws of modules and their bytes, each the contract of a function that does nothing.

ghost use Rattle.vc4q_module.specs.ModuleBytes.{IsModule};
ghost use Rattle.vc4q_module.specs.Laws.{OneSpelling, SpellingsPass, PassingSpells, SpellingLength, FourBack, EightBack};

use crate::module::Module;

/// A module is within its limits, which a caller doesn't know of one behind a reference.
pub fn law_limits(module: &Module)
    ensures { IsModule «module».now }
{
    let _rows = module.rows;
}

/// No two modules have the same bytes, and bytes have no fault exactly where they are a module's.
pub fn law_spelling()
    ensures one { OneSpelling }
    ensures passes { SpellingsPass }
    ensures spells { PassingSpells }
    ensures length { SpellingLength }
{}

/// From bytes to a number and back to the same bytes.
pub fn law_bytes()
    ensures four { FourBack }
    ensures eight { EightBack }
{}
