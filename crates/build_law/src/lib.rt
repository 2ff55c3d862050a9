//! That the structured form of one work-item does what the body does that it is built from. Laws alone: each is the contract of a call that does
//! nothing.
#![tactic(auto)]

ghost use Rattle.build_law.specs.Law.{CodeFollows, BodyFollows};
ghost use Rattle.build_law.specs.Launched.{ItemFollows, BuffersLieApart};

/// Where a statement ends, its code ends in the same way.
pub fn law_follows()
    ensures { CodeFollows }
{}

/// Where a body ends, its form ends.
pub fn law_whole()
    ensures { BodyFollows }
{}

/// Where a work-item of a launch comes to its end, its form does so on a memory that holds the buffers.
pub fn law_item()
    ensures { ItemFollows }
{}

/// The buffers of a valid launch lie apart.
pub fn law_apart()
    ensures { BuffersLieApart }
{}
