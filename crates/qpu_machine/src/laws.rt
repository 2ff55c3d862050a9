//! Laws of the definitions. Each is a call that does nothing, and its contract is the law.

ghost use Rattle.qpu_machine.specs.MachineRun.{RunsCompose, StoppedStays, RunsKeep};
ghost use Rattle.qpu_machine.specs.Reachable.{OpeningInRange, RunInRange, FillInRange};
ghost use Rattle.qpu_machine.specs.Laws.{SoloInRange};
ghost use Rattle.qpu_machine.specs.SoloRun.{StepSplits};

/// A run of one list of steps and then of another is the run of both, a stopped run stays as it is, and no run changes the code, the
/// uniforms, the regions, the number of QPUs or the length of the memory.
pub fn law_runs()
    ensures compose { RunsCompose }
    ensures stopped { StoppedStays }
    ensures keep { RunsKeep }
{}

/// Registers and rows of the VPM are sixteen words, and counts are in their ranges, at every opening and in every state that a run
/// reaches.
pub fn law_range()
    ensures opening { OpeningInRange }
    ensures run { RunInRange }
    ensures solo { SoloInRange }
    ensures fill { FillInRange }
{}

/// An issue is what its word wants of what is shared, performed.
pub fn law_split()
    ensures { StepSplits }
{}
