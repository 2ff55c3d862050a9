//! Registers in the order in which they first need a place.

use crate::lives::Life;
use std::alloc::{AllocError, Global};

/// A register, and from where it needs a place.
#[derive(Clone, Copy, Debug, PartialEq, Eq, PartialOrd, Ord)]
pub struct Arrival {
    pub from: usize,
    pub register: u32,
}

/// The named registers, the one that needs a place first before the others.
pub fn arrivals(alloc: Global, lives: &[Life]) -> Result<Vec<Arrival>, AllocError> {
    let mut order = Vec::new(alloc);
    let mut register = 0u32;
    for life in lives {
        if life.is_named {
            order.push(Arrival {
                from: life.from,
                register,
            })?;
        }
        register = register.wrapping_add(1);
    }
    order.sort_unstable();
    Ok(order)
}
