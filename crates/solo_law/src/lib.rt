//! The laws that carry runs of one QPU alone to every interleaving: what clean runs alone say of the
//! machine's run of one to twelve QPUs and two engines, under every schedule. Each law is a call that
//! does nothing, and its contract is the law.
#![tactic(auto)]

ghost use Rattle.solo_law.specs.Laws.{EveryRunProjects, EveryRunIsBounded, NoRunIsStuck, RoundsFinish, OpeningsStart};
ghost use Rattle.solo_law.specs.Sharing.{GroupsCommute};
ghost use Rattle.solo_law.specs.Example.{ExampleFits, FilledExampleFits, ExampleStores};

/// Let each QPU alone be clean and no two conflict. Then no run breaks a restriction; the places and
/// transfers of each QPU are the first ones of its run alone; a finished run leaves of each byte what
/// the run alone that touches it leaves; and a byte that none writes is as at the opening.
pub fn law_projects()
    ensures { EveryRunProjects }
{}

/// The effective steps are at most the issued words and moved elements of all runs alone.
pub fn law_bound()
    ensures { EveryRunIsBounded }
{}

/// Where a run isn't finished, some step is effective.
pub fn law_never_stuck()
    ensures { NoRunIsStuck }
{}

/// As many rounds of all QPUs and engines as the bound finish a run that is never broken and never
/// stuck.
pub fn law_rounds()
    ensures { RoundsFinish }
{}

/// Two changes of one group commute: sums and differences, ands, ors, exclusive ors, and the lesser or
/// the greater of words in one reading.
pub fn law_groups()
    ensures { GroupsCommute }
{}

/// An opening of the machine is a start for the laws.
pub fn law_opening()
    ensures { OpeningsStart }
{}

/// The premises of the laws hold of a program of three QPUs, each of which stores its number and 3.
pub fn law_example()
    ensures any { ExampleFits }
    ensures filled { FilledExampleFits }
    ensures stores { ExampleStores }
{}
