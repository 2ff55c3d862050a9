//! How blocks go on, and what stands where they begin.

ghost use Rattle.std.specs.Prelude.{◌≡◌, IfOk};

use crate::words::negated;
use pair_words::form_of_pair;
use phys_ir::{BundleBlock, Pair};
use qpu_encode::{BraCond, Form};
use std::alloc::{AllocError, Global};
use vop_ir::Exit;

/// How a block goes on, as its words say it: into the block after it, by one branch, by a branch on flags or else into the block after
/// it, by two branches, or not at all.
#[derive(Clone, Copy)]
pub enum Way {
    Through,
    Always(u32),
    When { cond: BraCond, yes: u32 },
    Both { cond: BraCond, yes: u32, no: u32 },
    End,
}

/// Of a block: how it goes on, the block whose words stand where it begins, and the first of these unless it is a branch or an end.
#[derive(Clone, Copy)]
pub struct Lead {
    pub way: Way,
    pub landing: u32,
    pub first: Option<Form>,
}

/// The leads of the last blocks, the last block's first, of so many blocks in all.
#[derive(Drop)]
pub struct Leads {
    count: u32,
    reversed: Vec<Lead>,
}

/// The lead of a block, where it is known.
pub fn lead_of(leads: &Leads, block: u32) -> Option<Lead> {
    let after = leads.count.checked_sub(block)?;
    let back = after.checked_sub(1)?;
    match leads.reversed.get(back as usize) {
        None => None,
        Some(lead) => Some(*lead),
    }
}

fn landing_of(leads: &Leads, block: u32) -> u32 {
    match lead_of(leads, block) {
        None => block,
        Some(lead) => lead.landing,
    }
}

/// The first word where a block begins, unless it is a branch or an end.
pub fn first_of(leads: &Leads, block: u32) -> Option<Form> {
    match lead_of(leads, block) {
        None => None,
        Some(lead) => lead.first,
    }
}

fn is_always(cond: BraCond) -> bool {
    matches!(cond, BraCond::Always)
}

fn jump(leads: &Leads, next: u32, block: u32) -> Way {
    if landing_of(leads, block) == next {
        Way::Through
    } else {
        Way::Always(block)
    }
}

fn branch(leads: &Leads, next: u32, cond: BraCond, yes: u32, no: u32) -> Way {
    let at_yes = landing_of(leads, yes);
    let at_no = landing_of(leads, no);
    if at_yes == at_no || is_always(cond) {
        jump(leads, next, yes)
    } else if at_no == next {
        Way::When { cond, yes }
    } else if at_yes == next {
        Way::When {
            cond: negated(cond),
            yes: no,
        }
    } else {
        Way::Both { cond, yes, no }
    }
}

// Next is the block whose words come after this one's.
fn way_of(leads: &Leads, next: u32, exit: Exit) -> Way {
    match exit {
        Exit::Jump(block) => jump(leads, next, block),
        Exit::Branch { cond, yes, no } => branch(leads, next, cond, yes, no),
        Exit::Stop => Way::End,
    }
}

fn goes_through(way: Way) -> bool {
    matches!(way, Way::Through)
}

fn first_form(pairs: &[Pair]) -> Option<Form> {
    match pairs.first() {
        None => None,
        Some(pair) => Some(form_of_pair(pair)),
    }
}

// The lead of a block, where those of the blocks after it are known.
fn lead_before(leads: &Leads, number: u32, block: &BundleBlock) -> Lead {
    let after = number.saturating_add(1);
    let next = landing_of(leads, after);
    let way = way_of(leads, next, block.exit);
    let first = first_form(&block.pairs);
    if first.is_none() && goes_through(way) {
        Lead {
            way,
            landing: next,
            first: first_of(leads, after),
        }
    } else {
        Lead {
            way,
            landing: number,
            first,
        }
    }
}

/// A number of things as the number that labels are. There are fewer than 2^32.
pub fn number_of(many: usize) -> Result<u32, AllocError>
    ensures { IfOk result (λ number. number ≡ many) }
{
    match u32::try_from(many) {
        Ok(number) => Ok(number),
        Err(_) => Err(AllocError),
    }
}

fn put_lead(leads: &mut Leads, lead: Lead) -> Result<(), AllocError> {
    leads.reversed.push(lead)?;
    Ok(())
}

fn put_lead_of(leads: &mut Leads, blocks: &[BundleBlock], number: u32) -> Result<(), AllocError> {
    match blocks.get(number as usize) {
        None => Ok(()),
        Some(block) => {
            let lead = lead_before(leads, number, block);
            put_lead(leads, lead)
        }
    }
}

/// The leads of all blocks.
pub fn leads_of(alloc: Global, blocks: &[BundleBlock]) -> Result<Leads, AllocError> {
    let count = number_of(blocks.len())?;
    let mut leads = Leads {
        count,
        reversed: Vec::new(alloc),
    };
    for number in (0..count).rev() {
        put_lead_of(&mut leads, blocks, number)?;
    }
    Ok(leads)
}
