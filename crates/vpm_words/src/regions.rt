//! Where a transfer may be started.

ghost use Rattle.std.specs.Prelude.{◌≡◌, ◌≤◌, ℕ, List};
ghost use Rattle.std.specs.List.{list_any};
ghost use Rattle.vpm_words.specs.Access.{fits, is_inside};

use crate::queue::size_in_bytes;
use crate::state::Region;
use crate::transfer::Transfer;

fn is_in(address: u32, bytes: u32, region: &Region) -> bool
    ensures { result ≡ is_inside address bytes region.now }
{
    let end = u64::from(region.start) + u64::from(region.len);
    region.start <= address && u64::from(address) + u64::from(bytes) <= end
}

fn is_in_one(address: u32, bytes: u32, regions: &[Region]) -> bool
    ensures { result ≡ list_any (is_inside address bytes) regions.now }
{
    regions.iter().any(|region| is_in(address, bytes, region))
}

/// Whether a transfer may be started at an address: it is a multiple of the element's size, and all
/// bytes lie in one of the buffers or in the scratch.
#[tactic(auto, unfolding(crate::specs::Access::fits))]
pub fn may_start(buffers: &[Region], scratch: &Region, transfer: Transfer, address: u32) -> bool
    ensures { (number : ℕ) (uniforms : List ℕ)
        → result ≡ fits (record { number = number; uniforms = uniforms; buffers = buffers.now; scratch = scratch.now }) transfer address }
{
    let size = u32::from(size_in_bytes(transfer.mode));
    let bytes = size * u32::from(transfer.len);
    address % size == 0 && (is_in_one(address, bytes, buffers) || is_in(address, bytes, scratch))
}
