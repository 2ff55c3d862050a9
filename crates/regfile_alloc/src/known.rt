//! Where registers are, as far as it is known, while blocks are walked over.

ghost use Rattle.std.specs.Prelude.{◌<◌};

use crate::facts::{forget, is_at_home, is_known, is_tellable, is_whole, learn};
use crate::picks::{
    FIRST_COPY, SECOND_COPY, copy_place, is_private, is_same, needs_copy, needs_first,
    needs_second, place_of, src_in,
};
use register_plan::{Home, PLACES, Plan};
use std::alloc::{AllocError, Global};
use vop_ir::{Dst, Src, Vop};

/// The present place of each register, what each place holds, whether all that was looked at was known, and which
/// registers weren't.
#[derive(Drop)]
pub struct Known {
    pub places: Vec<u32>,
    pub holds: Vec<u32>,
    pub is_right: bool,
    pub missed: Vec<bool>,
    /// The place that was given last to what a row holds.
    pub last_temp: usize,
}

// A register of a row has no place until it is brought to one, and r1 is never known to hold a register.
fn first_place(home: Home) -> u32 {
    match home {
        Home::Place(place) => place,
        Home::Row(_) => SECOND_COPY,
        Home::Nowhere => SECOND_COPY,
    }
}

impl Known {
    /// Nothing is known of so many registers.
    pub fn new(alloc: Global, count: u32) -> Result<Known, AllocError> {
        Ok(Known {
            places: Vec::new(alloc),
            holds: vec![in alloc; 0u32; PLACES as usize]?,
            is_right: true,
            missed: vec![in alloc; false; count as usize]?,
            last_temp: 0,
        })
    }

    /// A walk by a proposal begins. What was missed before stays so.
    pub fn begin(&mut self, plan: &Plan) -> Result<(), AllocError> {
        self.is_right = true;
        self.places.clear();
        for home in &plan.homes {
            self.places.push(first_place(*home))?;
        }
        Ok(())
    }

    /// A block begins with these facts.
    pub fn open(&mut self, facts: &[u32]) -> Result<(), AllocError> {
        self.holds.clear();
        self.holds.extend_from_slice(facts)?;
        Ok(())
    }

    /// Register r isn't known where it must be.
    pub fn miss(&mut self, r: u32) {
        self.is_right = false;
        let r = r as usize;
        if r < self.missed.len() {
            self.missed[r] = true;
        }
    }

    /// Register r must be known at its place.
    pub fn need(&mut self, r: u32) {
        if !is_at_home(&self.holds, &self.places, r) {
            self.miss(r);
        }
    }

    /// Register r has another place from now on.
    pub fn move_to(&mut self, r: u32, place: u32) {
        let r = r as usize;
        if r < self.places.len() {
            self.places[r] = place;
        }
    }

    fn need_source(&mut self, x: Src) {
        if let Src::Reg(r) = x {
            if !is_known(&self.holds, &self.places, x) {
                self.miss(r);
            }
        }
    }

    fn forget_copy(&mut self, is_needed: bool, place: u32, x: Src) {
        if is_needed && is_private(x) {
            forget(&mut self.holds, place as usize);
        }
    }

    // The copies of an operation's operands are made.
    fn make_copies(&mut self, spare: u32, o: Vop) {
        let a = src_in(&self.places, o.a);
        let b = src_in(&self.places, o.b);
        if is_same(o.a, o.b) {
            self.forget_copy(needs_copy(o, a), copy_place(spare, o), a);
        } else {
            self.forget_copy(needs_first(o, a), FIRST_COPY, a);
            self.forget_copy(needs_second(o, a, b), SECOND_COPY, b);
        }
    }

    fn write(&mut self, r: u32) {
        let place = place_of(&self.places, r) as usize;
        if is_tellable(&self.holds, place, r) {
            learn(&mut self.holds, place, r);
        } else {
            self.is_right = false;
        }
    }

    /// An operation is done where its operands are.
    pub fn follow(&mut self, spare: u32, o: Vop) {
        self.make_copies(spare, o);
        self.need_source(o.a);
        self.need_source(o.b);
        if let Dst::Reg(r) = o.dst {
            if !is_whole(&self.holds, &self.places, o) {
                self.miss(r);
            }
            self.write(r);
        }
    }
}
