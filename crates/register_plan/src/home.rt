//! Where a register lives.

/// Places below 32 are file A, those below 64 file B, and the others r0 to r3.
pub const PLACES: u32 = 68;

/// The registers from that of the scratch on that never go to a row.
pub const POOL: u32 = 24;

/// A place, an added row of the scratch, or nothing for a register that isn't named.
#[derive(Clone, Copy, Debug, PartialEq, Eq)]
pub enum Home {
    Place(u32),
    Row(u32),
    Nowhere,
}

/// Whether a register is in the pool, of which none goes to a row.
pub fn is_in_pool(scratch: u32, r: u32) -> bool {
    scratch <= r && r - scratch < POOL
}

/// Rows get their numbers; how many there are.
pub fn number_rows(homes: &mut [Home]) -> u32 {
    let mut rows = 0u32;
    for home in homes.iter_mut() {
        if let Home::Row(_) = *home {
            *home = Home::Row(rows);
            rows = rows.wrapping_add(1);
        }
    }
    rows
}
