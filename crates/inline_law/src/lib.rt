//! Laws of inlining: a kernel's body without calls does what the kernel does. Laws alone: each is the contract of a call that does nothing.
#![tactic(auto)]

ghost use Rattle.inline_law.specs.Inlined.{InliningKeeps, BodiesBegin};

/// What a kernel of a well-typed program is inlined to does what the kernel does, for each work-item of a
/// launch with an argument for each parameter: the same end, the same bytes, and the same turns.
pub fn law_inlined()
    ensures { InliningKeeps }
{}

/// The kernel's parameters are the body's, and its own variables are the first of the body's.
pub fn law_begins()
    ensures { BodiesBegin }
{}
