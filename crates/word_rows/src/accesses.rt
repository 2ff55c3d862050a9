//! What an access sees, whether it waits, and what it changes.

use crate::parts::{Fault, Parts, number_of, one_called};
use crate::queues::elements_text;
use crate::texts::{Listing, option_text, text_of};
use std::alloc::Global;
use vpm_words::{
    Access, Ports, Queue, Region, Seen, Shared, Site, Transfer, must_wait, see, use_ports,
    use_shared,
};

const ACCESSES: [Access; 11] = [
    Access::Uniform,
    Access::ReadVpm,
    Access::WriteVpm,
    Access::ReadSet,
    Access::WriteSet,
    Access::LoadAddr,
    Access::StoreAddr,
    Access::WaitLoad,
    Access::WaitStore,
    Access::Lock,
    Access::Unlock,
];

const UNIFORMS: [u32; 3] = [7, 8, 9];

const BUFFERS: [Region; 1] = [Region {
    start: 256,
    len: 64,
}];

/// The row that the QPU writes next, where nothing else is said.
const WRITE_ROW: Option<u8> = Some(62);

/// What an access finds before it, as far as rows say it.
#[derive(Clone, Copy)]
struct Before {
    owner: Option<u32>,
    write_row: Option<u8>,
}

// Two words of row 9.
fn two_words() -> Transfer {
    Transfer {
        mode: 0,
        len: 2,
        row: 9,
        col: 0,
    }
}

// All setups are made.
fn set_up(write_row: Option<u8>) -> Ports {
    Ports {
        taken: 1,
        read_row: 63,
        rows_left: 2,
        age: 1,
        write_row,
        load: Some(two_words()),
        store: Some(two_words()),
    }
}

fn site() -> Site<'static> {
    Site {
        number: 2,
        uniforms: &UNIFORMS,
        buffers: &BUFFERS,
        scratch: Region {
            start: 512,
            len: 64,
        },
    }
}

fn access_called(alloc: Global, name: &str) -> Result<Option<Access>, Fault> {
    if name == "none" {
        Ok(None)
    } else {
        Ok(Some(one_called(alloc, &ACCESSES, name)?))
    }
}

/// What a row says is otherwise than that QPU 2 owns the mutex and has all setups.
fn before_access(parts: &mut Parts<'_>) -> Result<Before, Fault> {
    let mut owner = Some(2);
    let mut write_row = WRITE_ROW;
    for part in parts.rest().split_whitespace() {
        let (name, value) = part.split_once('=').ok_or(Fault::NoRow)?;
        match name {
            "owner" if value == "none" => owner = None,
            "owner" => owner = Some(u32::from(number_of(value)?)),
            "write_row" => write_row = Some(number_of(value)?),
            _ => return Err(Fault::NoRow),
        }
    }
    Ok(Before { owner, write_row })
}

fn shared_with(owner: Option<u32>) -> Shared {
    Shared {
        vpm: [[0; 16]; 64],
        owner,
        loads: Queue::new(),
        stores: Queue::new(),
    }
}

// Two words of row 9 are being loaded.
fn seen(before: &Before, access: Option<Access>, value: u32) -> Seen {
    let mut shared = shared_with(before.owner);
    shared.loads.start(256, two_words());
    see(&site(), &set_up(before.write_row), &shared, access, value)
}

fn setup_changed(
    listing: &mut Listing,
    alloc: Global,
    name: &str,
    before: Option<Transfer>,
    after: Option<Transfer>,
) -> Result<(), Fault> {
    if before == after {
        return Ok(());
    }
    let setup = option_text(alloc, after)?;
    let text = format!(in alloc; "{name} {setup}")?;
    listing.add(text.as_str())
}

fn number_changed(
    listing: &mut Listing,
    alloc: Global,
    name: &str,
    before: u32,
    after: u32,
) -> Result<(), Fault> {
    if before == after {
        return Ok(());
    }
    let text = format!(in alloc; "{name} {after}")?;
    listing.add(text.as_str())
}

/// What an access makes of its QPU's setups: what is otherwise than before.
fn ports_used(alloc: Global, access: Option<Access>, value: u32) -> Result<String, Fault> {
    let before = set_up(WRITE_ROW);
    let mut ports = set_up(WRITE_ROW);
    use_ports(access, &mut ports, value);
    let mut listing = Listing::new(alloc);
    number_changed(&mut listing, alloc, "taken", before.taken, ports.taken)?;
    number_changed(
        &mut listing,
        alloc,
        "read_row",
        u32::from(before.read_row),
        u32::from(ports.read_row),
    )?;
    number_changed(
        &mut listing,
        alloc,
        "rows_left",
        u32::from(before.rows_left),
        u32::from(ports.rows_left),
    )?;
    number_changed(
        &mut listing,
        alloc,
        "age",
        u32::from(before.age),
        u32::from(ports.age),
    )?;
    if ports.write_row != before.write_row {
        let row = option_text(alloc, ports.write_row)?;
        let text = format!(in alloc; "write_row {row}")?;
        listing.add(text.as_str())?;
    }
    setup_changed(&mut listing, alloc, "load", before.load, ports.load)?;
    setup_changed(&mut listing, alloc, "store", before.store, ports.store)?;
    listing.finish()
}

// Each row of the VPM that isn't zero as before.
fn add_rows(listing: &mut Listing, alloc: Global, vpm: &[[u32; 16]; 64]) -> Result<(), Fault> {
    let mut number = 0_u8;
    for row in vpm {
        if *row != [0; 16] {
            let text = format!(in alloc; "row {number} {row:?}")?;
            listing.add(text.as_str())?;
        }
        number = number.saturating_add(1);
    }
    Ok(())
}

fn add_elements(
    listing: &mut Listing,
    alloc: Global,
    name: &str,
    queue: &mut Queue,
) -> Result<(), Fault> {
    if queue.is_empty() {
        return Ok(());
    }
    let elements = elements_text(alloc, queue)?;
    let text = format!(in alloc; "{name} {elements}")?;
    listing.add(text.as_str())
}

/// What an access makes of what the QPUs share, where the first word that it writes is the value and the others are 7: what is otherwise
/// than before.
fn shared_used(
    alloc: Global,
    before: &Before,
    access: Option<Access>,
    value: u32,
) -> Result<String, Fault> {
    let mut words = [7; 16];
    words[0] = value;
    let mut shared = shared_with(before.owner);
    let ports = set_up(before.write_row);
    use_shared(&site(), &ports, access, &words, &mut shared);
    let mut listing = Listing::new(alloc);
    if shared.owner != before.owner {
        let owner = option_text(alloc, shared.owner)?;
        let text = format!(in alloc; "owner {owner}")?;
        listing.add(text.as_str())?;
    }
    add_rows(&mut listing, alloc, &shared.vpm)?;
    add_elements(&mut listing, alloc, "loads", &mut shared.loads)?;
    add_elements(&mut listing, alloc, "stores", &mut shared.stores)?;
    listing.finish()
}

/// What an access sees, whether it waits, or what it changes.
pub fn answer(alloc: Global, parts: &mut Parts<'_>) -> Result<String, Fault> {
    let name = parts.text()?;
    let access = access_called(alloc, parts.text()?)?;
    match name {
        "see" => {
            let value = parts.address()?;
            text_of(alloc, seen(&before_access(parts)?, access, value))
        }
        "must_wait" => {
            let seen = seen(&before_access(parts)?, access, 0);
            text_of(alloc, must_wait(access, &seen))
        }
        "use_ports" => ports_used(alloc, access, parts.word()?),
        "use_shared" => {
            let value = parts.address()?;
            shared_used(alloc, &before_access(parts)?, access, value)
        }
        _ => Err(Fault::NoRow),
    }
}
