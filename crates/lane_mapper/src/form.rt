//! A prolog.

ghost use Rattle.std.specs.Prelude.{IsTrue, ◌&&◌};
ghost use Rattle.lane_ir.specs.Valid.{counted, is_body, is_val, are_vals};
ghost use Rattle.lane_mapper.specs.Definitions.{are_definitions};

use item_ir::Val;
use lane_ir::LaneStmt;

/// What a batch defines before its items' statements.
#[derive(Drop)]
pub struct LaneProlog {
    /// The first number of a value that is free after it.
    pub vals: u32,
    /// Definitions alone.
    pub body: Vec<LaneStmt>,
    /// The value that isn't 0 in the lanes that have an item.
    pub live: Val,
    /// The three global ids, the three local ids and the three group ids.
    pub ids: Vec<Val>,
    ghost definitions: { IsTrue (are_definitions body.items) },
    /// They name values below `vals` alone, and nothing else.
    ghost named: { IsTrue (is_body (counted vals 0 0 0) body.items) },
    ghost below: { IsTrue (is_val (counted vals 0 0 0) live && are_vals (counted vals 0 0 0) ids.items) },
}
