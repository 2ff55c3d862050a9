//! A place for each register as long as it must keep what it holds, or a row of the scratch.

use crate::arrivals::Arrival;
use crate::home::{Home, PLACES, is_in_pool};
use crate::lives::Life;
use std::alloc::{AllocError, Global};

/// Who has a place, and until when.
#[derive(Clone, Copy, Debug, PartialEq, Eq)]
pub enum Seat {
    Reserved,
    Free,
    Held { by: u32, until: usize },
}

/// How many half operations a life may have that suits an accumulator best.
const SHORT: usize = 16;

// Whether nobody holds the seat from this moment on.
fn is_free(seat: Seat, from: usize) -> bool {
    match seat {
        Seat::Reserved => false,
        Seat::Free => true,
        Seat::Held { by: _, until } => until < from,
    }
}

/// All places, where r0 and r1 take copies of operands and these are kept for other ends.
pub fn empty_seats(alloc: Global, reserved: &[u32]) -> Result<Vec<Seat>, AllocError> {
    let mut seats = Vec::new(alloc);
    for place in 0..PLACES {
        let is_taken = place == 64 || place == 65 || reserved.contains(&place);
        seats.push(if is_taken { Seat::Reserved } else { Seat::Free })?;
    }
    Ok(seats)
}

fn is_same_file(place: u32, home: Home) -> bool {
    match home {
        Home::Place(other) => (place < 32 && other < 32)
            || (32 <= place && place < 64 && 32 <= other && other < 64),
        Home::Row(_) => false,
        Home::Nowhere => false,
    }
}

// How badly a place suits a register: operands that are read together had better not lie in one file.
fn unfitness(place: u32, life: Life, partner: Home) -> u64 {
    if place >= 64 {
        return if life.to.saturating_sub(life.from) <= SHORT {
            0
        } else {
            40
        };
    }
    let crowd = if place < 32 {
        life.beside_a
    } else {
        life.beside_b
    };
    let shared = if is_same_file(place, partner) { 8 } else { 0 };
    crowd.min(15).saturating_add(10).saturating_add(shared)
}

fn home_of(homes: &[Home], r: Option<u32>) -> Home {
    match r {
        Some(r) => homes.get(r as usize).copied().unwrap_or(Home::Nowhere),
        None => Home::Nowhere,
    }
}

// The free place that suits a register best.
fn best_free(seats: &[Seat], life: Life, partner: Home) -> Option<u32> {
    let mut best = None;
    let mut least = u64::MAX;
    let mut place = 0u32;
    for seat in seats {
        if is_free(*seat, life.from) {
            let cost = unfitness(place, life, partner);
            if cost < least {
                least = cost;
                best = Some(place);
            }
        }
        place = place.wrapping_add(1);
    }
    best
}

// How much it is worth to keep a register out of rows: how often it is named in how long a time.
fn worth(life: Life, is_fixed: bool) -> u64 {
    if is_fixed {
        return u64::MAX;
    }
    let length = if life.from < life.to {
        life.to - life.from
    } else {
        1
    };
    life.weight.saturating_mul(65536) / (length as u64)
}

fn life_of(lives: &[Life], r: u32) -> Life {
    lives.get(r as usize).copied().unwrap_or(Life::unnamed())
}

/// The registers' lives, and the register of the scratch, with which the pool begins.
#[derive(Clone, Copy)]
pub struct Guests<'a> {
    pub lives: &'a [Life],
    pub scratch: u32,
}

// The holder that is worth least, if it is worth less than this.
fn least_held(seats: &[Seat], guests: Guests, bound: u64) -> Option<(u32, u32)> {
    let mut found = None;
    let mut least = bound;
    let mut place = 0u32;
    for seat in seats {
        if let Seat::Held { by, until: _ } = *seat {
            let own = worth(life_of(guests.lives, by), is_in_pool(guests.scratch, by));
            if own < least {
                least = own;
                found = Some((place, by));
            }
        }
        place = place.wrapping_add(1);
    }
    found
}

fn settle(homes: &mut [Home], r: u32, home: Home) {
    let r = r as usize;
    if r < homes.len() {
        homes[r] = home;
    }
}

fn take_seat(seats: &mut [Seat], homes: &mut [Home], place: u32, r: u32, until: usize) {
    let index = place as usize;
    if index < seats.len() {
        seats[index] = Seat::Held { by: r, until };
        settle(homes, r, Home::Place(place));
    }
}

fn seat_one(seats: &mut [Seat], homes: &mut [Home], guests: Guests, r: u32) {
    let life = life_of(guests.lives, r);
    let partner = home_of(homes, life.partner);
    if let Some(place) = best_free(seats, life, partner) {
        take_seat(seats, homes, place, r, life.to);
        return;
    }
    let own = worth(life, is_in_pool(guests.scratch, r));
    match least_held(seats, guests, own) {
        Some((place, holder)) => {
            settle(homes, holder, Home::Row(0));
            take_seat(seats, homes, place, r, life.to);
        }
        None => settle(homes, r, Home::Row(0)),
    }
}

/// Homes of all registers, where those in `in_rows` have rows. Rows aren't numbered yet.
pub fn seat_all(
    seats: &mut [Seat],
    homes: &mut [Home],
    guests: Guests,
    order: &[Arrival],
    in_rows: &[bool],
) {
    for arrival in order {
        let r = arrival.register;
        let is_row = in_rows.get(r as usize).copied().unwrap_or(false);
        if is_row && !is_in_pool(guests.scratch, r) {
            settle(homes, r, Home::Row(0));
        } else {
            seat_one(seats, homes, guests, r);
        }
    }
}
