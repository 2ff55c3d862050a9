//! Steps of recipes.

ghost use Rattle.std.specs.Prelude.{◌≡◌};
ghost use Rattle.builtin_lower.specs.Lower.{step, copy};

use lane_ir::{Act, Source, Step};
use q_lane::BinOp;

/// A function's arguments, each read in its type.
pub(crate) const X: Source = Source::Temp(0);

pub(crate) const Y: Source = Source::Temp(1);

pub(crate) const Z: Source = Source::Temp(2);

pub(crate) fn step_to(to: u8, act: Act) -> Step
    ensures { result ≡ step to act }
{
    Step { to, act }
}

/// A word as it is.
pub(crate) fn copy_of(a: Source) -> Act
    ensures { result ≡ copy a }
{
    Act::Two(BinOp::Min(true), a, a)
}
