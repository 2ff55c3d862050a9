//! What the items so far did with one byte.

ghost use Rattle.std.specs.Prelude.{◌≡◌};
ghost use Rattle.touches.specs.Touched.{touched, first_written};

use footprint::Use;

/// What the items so far did with a byte, as far as it decides which two race at it first. They come in the order of
/// their flat ids.
#[derive(Clone, Copy)]
pub enum Touch {
    /// None read or wrote it.
    Untouched,
    /// Items read it, this one first, and none wrote it.
    OnlyRead { first: u32 },
    /// This one wrote it, and no other read or wrote it.
    OneItem { item: u32 },
    /// These two race at it, and no lesser pair does.
    Raced { first: u32, second: u32 },
}

impl Touch {
    /// What is known after an item, the last so far, read or wrote the byte too.
    pub(crate) fn touched(self, item: u32, how: Use) -> Touch
        ensures { result ≡ touched self item how }
    {
        match self {
            Touch::Untouched => match how {
                Use::Read => Touch::OnlyRead { first: item },
                Use::Write => Touch::OneItem { item },
            },
            Touch::OnlyRead { first } => match how {
                Use::Read => self,
                Use::Write => first_write(first, item),
            },
            Touch::OneItem { item: first } => {
                if first == item {
                    Touch::OneItem { item: first }
                } else {
                    Touch::Raced {
                        first,
                        second: item,
                    }
                }
            }
            Touch::Raced { .. } => self,
        }
    }
}

/// An item writes a byte that was only read before, by this one first.
fn first_write(first: u32, item: u32) -> Touch
    ensures { result ≡ first_written first item }
{
    if first == item {
        Touch::OneItem { item }
    } else {
        Touch::Raced {
            first,
            second: item,
        }
    }
}
