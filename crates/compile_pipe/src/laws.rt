//! Laws, each the contract of a function that does nothing.

ghost use Rattle.promise.specs.Laws.{HasOneViolation, KernelsAreOne, SafeRunsFinish};
ghost use Rattle.promise.specs.WrongModules.{WrongModules};
ghost use Rattle.compile_pipe.specs.Kernels.{opencl};
ghost use Rattle.compile_pipe.specs.Laws.{KernelLaunchesAreSafe};

/// A source has one first violation at most for a kernel's name, and none where it is in the profile.
pub fn law_violations()
    ensures { HasOneViolation opencl }
{}

/// A source has one kernel of a name exactly where it is in the profile, and each launch of it is safe.
pub fn law_kernels()
    ensures one { KernelsAreOne opencl }
    ensures safe { KernelLaunchesAreSafe }
{}

/// Where a launch is safe, as many rounds as the bound finish a run of a faithful module, and leave
/// the buffers that the items leave one by one.
pub fn law_finishes()
    ensures { SafeRunsFinish opencl }
{}

/// A module that never ends, one without a program end and one that ends in its last word are faithful
/// to no kernel.
pub fn law_wrong_modules()
    ensures { WrongModules opencl }
{}
