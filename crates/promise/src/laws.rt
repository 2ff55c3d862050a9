//! Laws, each the contract of a function that does nothing.

ghost use Rattle.promise.specs.Laws.{SettingsOpen, ValidLaunchesHaveSettings, IdleLaunchesAreSafe};

/// A machine may be begun with each setting of a module; it has the bytes of each buffer and scratch in
/// its place, and 165 in each byte outside them.
pub fn law_openings()
    ensures { SettingsOpen }
{}

/// Each valid launch of a module has a setting.
pub fn law_settings()
    ensures { ValidLaunchesHaveSettings }
{}

/// Each launch of the kernel that does nothing is safe.
pub fn law_idle_launches()
    ensures { IdleLaunchesAreSafe }
{}
