//! What a peripheral access sees, whether it waits, and what it changes.

ghost use Rattle.std.specs.Prelude.{◌≡◌, ◌+◌, ◌%◌, get_or};
ghost use Rattle.vpm_words.specs.Rules.{is_waiting};
ghost use Rattle.vpm_words.specs.Access.{row_to_read, touched, started_by, owner_seen, is_row_busy, fits_if_set, value_seen, seen, older, set_read, set_write, next_row, ports_after, put_row, demand, share};

use crate::regions::may_start;
use crate::setup::{ReadSetup, WriteSetup, parse_read, parse_write};
use crate::site::Site;
use crate::state::{Access, Owner, Ports, Seen, Shared};
use crate::transfer::Transfer;

fn row_to_take(rows_left: u8, row: u8) -> Option<u8>
    ensures { result ≡ row_to_read rows_left row }
{
    if rows_left == 0 { None } else { Some(row) }
}

fn row_touched(access: Option<Access>, ports: &Ports) -> Option<u8>
    ensures { result ≡ touched access ports.now }
{
    match access {
        Some(Access::ReadVpm) => row_to_take(ports.rows_left, ports.read_row),
        Some(Access::WriteVpm) => ports.write_row,
        _ => None,
    }
}

fn setup_used(access: Option<Access>, ports: &Ports) -> Option<Transfer>
    ensures { result ≡ started_by access ports.now }
{
    match access {
        Some(Access::LoadAddr) => ports.load,
        Some(Access::StoreAddr) => ports.store,
        _ => None,
    }
}

fn owner_for(owner: Option<u32>, number: u32) -> Owner
    ensures { result ≡ owner_seen owner number }
{
    match owner {
        None => Owner::Nobody,
        Some(other) => if other == number {
            Owner::Me
        } else {
            Owner::Other
        },
    }
}

fn row_is_busy(row: Option<u8>, shared: &Shared) -> bool
    ensures { result ≡ is_row_busy row shared.now.loads shared.now.stores }
{
    match row {
        None => false,
        Some(row) => shared.loads.touches(row) || shared.stores.touches(row),
    }
}

fn fits_here(site: &Site<'_>, setup: Option<Transfer>, address: u32) -> bool
    ensures { result ≡ fits_if_set site.now setup address }
{
    match setup {
        None => true,
        Some(transfer) => may_start(site.buffers, &site.scratch, transfer, address),
    }
}

fn value_looked(access: Option<Access>, value: u32) -> u32
    ensures { result ≡ value_seen access value }
{
    match access {
        Some(Access::ReadSet | Access::WriteSet | Access::LoadAddr | Access::StoreAddr) => value,
        _ => 0,
    }
}

/// What the restrictions look at. `value` is element 0 of what the word writes to a peripheral.
#[tactic(auto, unfolding(crate::specs::Access::seen))]
pub fn see(
    site: &Site<'_>,
    ports: &Ports,
    shared: &Shared,
    access: Option<Access>,
    value: u32,
) -> Seen
    ensures { result ≡ seen site.now ports.now shared.now access value }
{
    let taken = ports.taken;
    Seen {
        uniforms: (site.uniforms.len() as u32).saturating_sub(taken),
        owner: owner_for(shared.owner, site.number),
        read_rows: ports.rows_left,
        write_set: ports.write_row.is_some(),
        load_set: ports.load.is_some(),
        store_set: ports.store.is_some(),
        load_busy: !shared.loads.is_empty(),
        store_busy: !shared.stores.is_empty(),
        row_busy: row_is_busy(row_touched(access, ports), shared),
        value: value_looked(access, value),
        fits: fits_here(site, setup_used(access, ports), value),
    }
}

/// Whether a word that breaks no rule waits.
pub fn must_wait(access: Option<Access>, seen: &Seen) -> bool
    ensures { result ≡ is_waiting access seen.now }
{
    match access {
        Some(Access::Lock) => matches!(seen.owner, Owner::Other),
        Some(Access::WaitLoad) => seen.load_busy,
        Some(Access::WaitStore) => seen.store_busy,
        _ => false,
    }
}

fn grow_older(ports: &mut Ports)
    ensures { ports.new ≡ older ports.old }
{
    ports.age = if ports.age >= 3 { 3 } else { ports.age + 1 };
}

fn after_row(row: u8) -> u8
    ensures { result ≡ (row + 1) % 64 }
{
    ((u32::from(row) + 1) % 64) as u8
}

fn after_write_row(row: Option<u8>) -> Option<u8>
    ensures { result ≡ next_row row }
{
    match row {
        None => None,
        Some(row) => Some(after_row(row)),
    }
}

fn take_read_setup(ports: &mut Ports, setup: Option<ReadSetup>)
    ensures { ports.new ≡ set_read ports.old setup }
{
    if let Some(setup) = setup {
        match setup {
            ReadSetup::Rows { row, rows } => {
                ports.read_row = row;
                ports.rows_left = rows;
                ports.age = 0;
            }
            ReadSetup::Load(transfer) => ports.load = Some(transfer),
        }
    }
}

fn take_write_setup(ports: &mut Ports, setup: Option<WriteSetup>)
    ensures { ports.new ≡ set_write ports.old setup }
{
    if let Some(setup) = setup {
        match setup {
            WriteSetup::Row(row) => ports.write_row = Some(row),
            WriteSetup::Store(transfer) => ports.store = Some(transfer),
        }
    }
}

/// What a word that is done makes of its QPU's own setups.
#[tactic(auto, unfolding(crate::specs::Access::ports_after))]
pub fn use_ports(access: Option<Access>, ports: &mut Ports, value: u32)
    ensures { ports.new ≡ ports_after access ports.old value }
{
    grow_older(ports);
    match access {
        Some(Access::Uniform) => ports.taken = ports.taken.saturating_add(1),
        Some(Access::ReadVpm) => {
            ports.read_row = after_row(ports.read_row);
            ports.rows_left = ports.rows_left.saturating_sub(1);
        }
        Some(Access::WriteVpm) => ports.write_row = after_write_row(ports.write_row),
        Some(Access::ReadSet) => take_read_setup(ports, parse_read(value)),
        Some(Access::WriteSet) => take_write_setup(ports, parse_write(value)),
        _ => {}
    }
}

fn write_row(row: Option<u8>, words: &[u32; 16], vpm: &mut [[u32; 16]; 64])
    ensures { vpm.new ≡ put_row row words.now vpm.old }
{
    if let Some(row) = row {
        if row < 64 {
            vpm[usize::from(row)] = *words;
        }
    }
}

/// What a word that is done makes of what the QPUs share. `words` are what it writes to the peripheral. The elements of a transfer
/// that it starts are queued.
pub fn use_shared(
    site: &Site<'_>,
    ports: &Ports,
    access: Option<Access>,
    words: &[u32; 16],
    shared: &mut Shared,
)
    ensures { shared.new ≡ share (demand site.now ports.now access (get_or words.now 0 0) words.now) site.now.number shared.old }
{
    match access {
        Some(Access::Lock) => shared.owner = Some(site.number),
        Some(Access::Unlock) => shared.owner = None,
        Some(Access::WriteVpm) => write_row(ports.write_row, words, &mut shared.vpm),
        Some(Access::LoadAddr) => shared.loads.start_if_set(words[0], ports.load),
        Some(Access::StoreAddr) => shared.stores.start_if_set(words[0], ports.store),
        _ => {}
    }
}
