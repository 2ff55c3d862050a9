//! Which items read and write which bytes.

ghost use Rattle.std.specs.Prelude.{◌≡◌, [], ◌∷◌, ◌++◌, List, length, IfOk};
ghost use Rattle.launch_meaning.specs.declared.ends.Ended.{Ended as OneEnded};

use crate::row::Row;
use crate::table::{first_race, touch_all};
use launch_meaning::{Clash, Ended};
use std::alloc::{AllocError, Global};
use std::marker::Model;

/// Which bytes of a launch's buffers its work-items read and write, as far as it decides which two of them race first.
///
/// The items are added in the order of their flat ids, from 0 on. Memory is taken for each byte up to the last of its
/// buffer that an item reads or writes.
#[derive(Drop)]
pub struct Touches {
    alloc: Global,
    rows: Vec<Row>,
}

impl Model for Touches {
    ghost use Rattle.std.specs.Prelude.{List, ◌≤◌, ◌^◌, vec_len};
    ghost use Rattle.touches.specs.declared.touch.Touch.{Touch};

    ghost Value = { List (List Touch) };

    ghost view = { λ touches. touches.rows.items };

    ghost invariant = { λ touches. vec_len touches.rows ≤ 2 ^ 32 };
}

impl Touches {
    ghost use Rattle.touches.specs.Tells.{Tells, IsLeastRaceOf};

    /// No item is added. Takes no memory; later calls take it from `alloc`.
    pub fn new(alloc: Global) -> Touches
        ensures { Tells [] result }
    {
        Touches {
            alloc,
            rows: Vec::new(alloc),
        }
    }

    /// Adds the bytes that the next item read and wrote. The only error is that memory is wanting, and then the table
    /// is gone.
    pub fn add(self, item: u32, ended: &Ended) -> Result<Touches, AllocError>
        ensures { (earlier : List OneEnded) → length earlier ≡ item → Tells earlier self
            → IfOk result (λ touches. Tells (earlier ++ ended.now ∷ []) touches) }
    {
        let Touches { alloc, mut rows } = self;
        touch_all(&mut rows, alloc, item, ended.marks.as_slice())?;
        Ok(Touches { alloc, rows })
    }

    /// The least race of the items that were added: at the least byte of the least buffer that has one, the least pair.
    pub fn least_race(&self) -> Option<Clash>
        ensures { (ended : List OneEnded) → Tells ended self.now → IsLeastRaceOf ended result }
    {
        first_race(&self.rows)
    }
}
