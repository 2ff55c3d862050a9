//! Why a run doesn't go on.

ghost use Rattle.std.specs.Prelude.{◌≡◌};

use std::alloc::AllocError;

/// Why a run doesn't go on: its next access, which begins at this byte of the source, is out of bounds; it needs more turns; or no memory
/// was left.
#[derive(Clone, Copy, Debug, PartialEq, Eq)]
pub enum Stop {
    Bounds(u32),
    Spent,
    Memory,
}

/// Want of memory as a `Stop`, for `map_err`.
pub fn memory(_error: AllocError) -> Stop
    ensures { result ≡ Stop.Memory }
{
    Stop::Memory
}
