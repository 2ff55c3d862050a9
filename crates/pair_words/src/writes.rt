//! Where a word writes.

ghost use Rattle.std.specs.Prelude.{◌≡◌, ◌+◌, not};
ghost use Rattle.pair_words.specs.Writes as spec;

use crate::reads::NOWHERE;
use phys_ir::{PDst, Pair, Pop};

const ACC: u8 = 32;

const FIVE: u8 = 37;

const VPM: u8 = 48;

const SETUP: u8 = 49;

const TRANSFER: u8 = 50;

const MUTEX: u8 = 51;

/// The address of a destination.
pub fn address_of(dst: PDst) -> u8
    ensures { result ≡ spec.address_of dst }
{
    match dst {
        PDst::A(r) => r.number,
        PDst::B(r) => r.number,
        PDst::Acc(r) => ACC + r.number,
        PDst::Five => FIVE,
        PDst::Nowhere => NOWHERE,
        PDst::Vpm => VPM,
        PDst::ReadSet => SETUP,
        PDst::WriteSet => SETUP,
        PDst::LoadAddr => TRANSFER,
        PDst::StoreAddr => TRANSFER,
        PDst::Unlock => MUTEX,
    }
}

/// Whether a destination is written through B; none where either will do.
pub fn side_of(dst: PDst) -> Option<bool>
    ensures { result ≡ spec.side_of dst }
{
    match dst {
        PDst::A(_) => Some(false),
        PDst::B(_) => Some(true),
        PDst::Acc(_) => None,
        PDst::Five => Some(true),
        PDst::Nowhere => None,
        PDst::Vpm => None,
        PDst::ReadSet => Some(false),
        PDst::WriteSet => Some(true),
        PDst::LoadAddr => Some(false),
        PDst::StoreAddr => Some(true),
        PDst::Unlock => None,
    }
}

fn side_of_part(part: &Option<Pop>) -> Option<bool>
    ensures { result ≡ spec.side_of_part part.now }
{
    match part {
        None => None,
        Some(pop) => side_of(pop.dst),
    }
}

/// Whether the add unit goes through B, and so the mul unit through A.
#[tactic(auto, unfolding(crate::specs::Writes::swaps))]
pub fn swaps(pair: &Pair) -> bool
    ensures { result ≡ spec.swaps pair.now }
{
    match side_of_part(&pair.add) {
        Some(through_b) => through_b,
        None => match side_of_part(&pair.mul) {
            Some(through_b) => !through_b,
            None => false,
        },
    }
}
