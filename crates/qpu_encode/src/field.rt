//! One field of a word.

ghost use Rattle.std.specs.Prelude.{◌≡◌, ◌+◌, ◌-◌, ◌*◌, ◌/◌, ◌%◌, ◌^◌, ◌<◌, ◌≤◌};
ghost use Rattle.qpu_encode.specs.WordFields.{field};

/// The field of `W` bits whose lowest bit is bit `LO`.
pub struct Field<const LO: u32, const W: u32>;

impl<const LO: u32, const W: u32> Field<LO, W> {
    /// The value of the field.
    pub fn get(word: u64) -> u64
        requires width { W ≤ 32 }
        requires within { LO + W ≤ 64 }
        requires some { 1 ≤ W }
        ensures { result ≡ field LO W word }
    {
        (word >> LO) % (1 << W)
    }

    /// The word with this value in the field.
    pub fn put(word: u64, value: u64) -> u64
        requires width { W ≤ 32 }
        requires within { LO + W ≤ 64 }
        requires some { 1 ≤ W }
        requires fits { value < 2 ^ W }
        ensures here { field LO W result ≡ value }

        // The other bits stay.
        ensures below { result % 2 ^ LO ≡ word % 2 ^ LO }
        ensures above { result / 2 ^ (LO + W) ≡ word / 2 ^ (LO + W) }
    {
        word - (Self::get(word) << LO) + (value << LO)
    }
}
