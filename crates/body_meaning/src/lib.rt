//! What a body without calls does for one work-item, as a definition.
#![tactic(auto)]

ghost use Rattle.body_meaning.specs.Rows.{ScopeReturns};

/// A scope takes arguments and returns a value as a call does.
pub fn row_scope()
    ensures { ScopeReturns }
{}
