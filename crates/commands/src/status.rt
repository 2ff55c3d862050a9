//! The answers of the program.

ghost use Rattle.std.specs.Prelude.{◌≡◌};
ghost use Rattle.commands.specs.StatusCode.{code_of};

/// How a call of the program ended.
#[derive(Clone, Copy, Debug, PartialEq, Eq)]
pub enum Status {
    /// The command was done.
    Done,
    /// Memory was wanting.
    Memory,
    /// The words are of no form.
    Usage,
    /// A file couldn't be read.
    ReadFault,
    /// A file or the output couldn't be written.
    WriteFault,
    /// A file isn't there.
    Missing,
    /// A file passes its limit.
    TooLong,
    /// The source violates a rule.
    Refused,
    /// The module file isn't one.
    BadModule,
    /// The launch file violates a rule.
    BadLaunch,
    /// The run broke a restriction.
    Broken,
    /// The schedule ended before the run.
    Unfinished,
    /// The launch isn't safe.
    NotSafe,
}

/// The number of a status, from 0 in the order of the variants.
pub fn code(status: Status) -> u8
    ensures { result ≡ code_of status }
{
    status as u8
}
