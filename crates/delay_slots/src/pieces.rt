//! The words of blocks, and which of them go into the slots of the branch.

use crate::leads::{Leads, Way, first_of, lead_of};
use pair_words::form_of_pair;
use phys_ir::{BundleBlock, Pair};
use qpu_encode::Form;
use std::alloc::{AllocError, Global};
use tight_words::{clashes, does_set_up, sets_flags};

/// The words of a block. The last `fill` of them stand in the slots of the branch. `pad`: a word that does nothing parts the last one
/// from the block after it.
#[derive(Drop)]
pub struct Piece {
    pub forms: Vec<Form>,
    pub way: Way,
    pub fill: u32,
    pub pad: bool,
}

fn put_form(forms: &mut Vec<Form>, form: Form) -> Result<(), AllocError> {
    forms.push(form)?;
    Ok(())
}

fn forms_of(alloc: Global, pairs: &[Pair]) -> Result<Vec<Form>, AllocError> {
    let mut forms = Vec::new(alloc);
    for pair in pairs {
        put_form(&mut forms, form_of_pair(pair))?;
    }
    Ok(forms)
}

/// The word so many before the end.
fn from_end(forms: &[Form], many: usize) -> Option<Form> {
    let place = forms.len().checked_sub(many)?;
    match forms.get(place) {
        None => None,
        Some(form) => Some(*form),
    }
}

// A word may stand after the branch that it stood before: the branch doesn't look at what it does, and no read setup stands in a slot.
fn may_follow(form: &Option<Form>) -> bool {
    match form {
        None => false,
        Some(form) => !sets_flags(form) && !does_set_up(form),
    }
}

// How many of the last words may stand in slots.
fn most_in_slots(forms: &[Form]) -> u32 {
    if !may_follow(&from_end(forms, 1)) {
        0
    } else if !may_follow(&from_end(forms, 2)) {
        1
    } else if !may_follow(&from_end(forms, 3)) {
        2
    } else {
        3
    }
}

// The last word breaks a rule where it stands right before what a block begins with.
fn clashes_with(leads: &Leads, forms: &[Form], block: u32) -> bool {
    clashes(&from_end(forms, 1), &first_of(leads, block))
}

// So many, or one fewer where the last one may not stand in the last slot.
fn unless_clash(most: u32, clash: bool) -> u32 {
    if clash { most.min(2) } else { most }
}

fn fill_of(leads: &Leads, forms: &[Form], next: u32, way: Way) -> u32 {
    match way {
        Way::Through => 0,
        Way::End => 0,
        Way::Always(block) => {
            unless_clash(most_in_slots(forms), clashes_with(leads, forms, block))
        }
        Way::When { yes, .. } => {
            let clash = clashes_with(leads, forms, yes) || clashes_with(leads, forms, next);
            unless_clash(most_in_slots(forms), clash)
        }
        Way::Both { yes, .. } => {
            unless_clash(most_in_slots(forms), clashes_with(leads, forms, yes))
        }
    }
}

fn needs_pad(leads: &Leads, forms: &[Form], next: u32, way: Way) -> bool {
    matches!(way, Way::Through) && clashes_with(leads, forms, next)
}

fn way_at(leads: &Leads, number: u32) -> Way {
    match lead_of(leads, number) {
        None => Way::End,
        Some(lead) => lead.way,
    }
}

fn piece_of(
    alloc: Global,
    leads: &Leads,
    number: u32,
    block: &BundleBlock,
) -> Result<Piece, AllocError> {
    let forms = forms_of(alloc, &block.pairs)?;
    let next = number.saturating_add(1);
    let way = way_at(leads, number);
    let fill = fill_of(leads, &forms, next, way);
    let pad = needs_pad(leads, &forms, next, way);
    Ok(Piece {
        forms,
        way,
        fill,
        pad,
    })
}

/// The words of all blocks.
pub fn pieces_of(
    alloc: Global,
    leads: &Leads,
    blocks: &[BundleBlock],
) -> Result<Vec<Piece>, AllocError> {
    let mut pieces = Vec::new(alloc);
    let mut number: u32 = 0;
    for block in blocks {
        pieces.push(piece_of(alloc, leads, number, block)?)?;
        number = number.saturating_add(1);
    }
    Ok(pieces)
}
