//! The state of a work-item that runs.

ghost use Rattle.std.specs.Prelude.{◌≡◌, ◌+◌, ◌<◌, ◌^◌, ◌%◌, ◌==◌, ◌&&◌, nat_le, [], ◌∷◌, MatchResult, OnOk, length, slice_set, slice_index_or};
ghost use Rattle.q_functions.specs.NumberFunctions.{bytes_of as bytes_of_type};
ghost use Rattle.item_meaning.specs.ItemMeaning.{opening};
ghost use Rattle.item_meaning.specs.Places.{load as load_of, store as store_of, get_element as get_element_of, set_element as set_element_of, mark as mark_of};
ghost use Rattle.item_meaning.specs.StatementMeanings.{cleared};
ghost use Rattle.item_values.specs.Answers.{Gives, TurnTaken, TurnsTaken};

use crate::operators::narrow;
use crate::rows::{Arrays, store_bytes, word_at};
use crate::stop::{Stop, memory};
use clc_types::Var;
use footprint::{Mark, Use};
use item_meaning::Value;
use launch_meaning::Buffers;
use q_functions::bytes_of;
use q_lane::Scalar;
use sqlite_items::Items;
use std::alloc::{AllocError, Global};
use std::marker::Model;

/// A work-item that runs: its variables and arrays, the buffers, the bytes that it read and wrote, and the turns that are left.
#[derive(Drop)]
pub struct Running {
    vars: Items<Value>,
    arrays: Arrays,
    buffers: Buffers,
    marks: Vec<Mark>,
    left: u32,
}

impl Model for Running {
    ghost use Rattle.std.specs.Prelude.{reverse};
    ghost use Rattle.item_meaning.specs.ItemState.{State};

    ghost Value = { State };

    ghost view = { λ r. record {
      vars = r.vars;
      arrays = r.arrays;
      buffers = r.buffers;
      marks = reverse r.marks.items;
      left = r.left;
    } };
}

/// The variables and arrays of a function.
#[derive(Drop)]
pub struct Frame {
    pub vars: Items<Value>,
    pub arrays: Arrays,
}

/// The bytes of an element: what is done with them.
fn mark(how: Use, scalar: Scalar, buffer: u32, from: u32) -> Mark
    requires { from + bytes_of_type scalar < 2 ^ 32 }
    ensures { result ≡ mark_of how scalar buffer from }
{
    Mark {
        how,
        buffer,
        from,
        to: from + bytes_of(scalar),
    }
}

/// Whether an element of this type may be accessed at this byte of a row.
fn is_in_bounds(scalar: Scalar, row: &[u8], from: u32) -> bool
    ensures { result ≡ (from % bytes_of_type scalar == 0 && nat_le (from + bytes_of_type scalar) (length row.now)) }
{
    let size = bytes_of(scalar);
    from % size == 0 && from as usize + size as usize <= row.len()
}

impl Running {
    /// An item that begins, with so many turns.
    pub fn new(alloc: Global, arrays: Arrays, buffers: Buffers, turns: u32) -> Running
        requires { arrays ≡ [] }
        ensures { result ≡ opening buffers turns }
    {
        Running {
            vars: Items::new(alloc),
            arrays,
            buffers,
            marks: Vec::new(alloc),
            left: turns,
        }
    }

    /// The buffers, the bytes that were read and written, the last ones first, and the turns that are left.
    pub fn into_parts(self) -> (Buffers, Items<Mark>, u32)
        ensures buffers { result.0 ≡ self.buffers }
        ensures marks { result.1 ≡ self.marks }
        ensures left { result.2 ≡ self.left }
    {
        let Running {
            buffers,
            mut marks,
            left,
            ..
        } = self;
        marks.reverse();
        (buffers, Items::from_vec(marks), left)
    }

    /// A node of the tree begins.
    pub fn turn(&mut self) -> Result<(), Stop>
        ensures { TurnTaken self.old result self.new }
    {
        if self.left == 0 {
            return Err(Stop::Spent);
        }
        self.left -= 1;
        Ok(())
    }

    /// So many nodes begin.
    pub fn turns(&mut self, count: usize) -> Result<(), Stop>
        ensures { TurnsTaken count self.old result self.new }
    {
        if (self.left as usize) < count {
            return Err(Stop::Spent);
        }
        self.left -= count as u32;
        Ok(())
    }

    /// The value of a variable.
    pub fn variable(&self, var: u32) -> Value
        ensures { result ≡ slice_index_or self.now.vars var Value.Null }
    {
        match self.vars.get(var as usize) {
            Some(value) => *value,
            None => Value::Null,
        }
    }

    /// Gives a variable a value.
    pub fn set_variable(&mut self, var: u32, value: Value)
        ensures { self.new ≡ record self.old { vars = slice_set self.old.vars var value } }
    {
        let i = var as usize;
        if i < self.vars.len() {
            self.vars.set(i, value);
        }
    }

    /// The element of an array.
    pub fn get_element(&self, at: u32, var: u32, index: u32) -> Result<Value, Stop>
        ensures { Gives (get_element_of at var index self.now) result self.now }
    {
        let row = self.arrays.row(var);
        if (index as usize) < row.len() {
            Ok(Value::Num(row[index as usize]))
        } else {
            Err(Stop::Bounds(at))
        }
    }

    /// Writes an element of an array.
    pub fn set_element(&mut self, at: u32, var: u32, index: u32, word: u32) -> Result<Value, Stop>
        ensures gives { Gives (set_element_of at var index word self.old) result self.new }
        ensures left { OnOk result (self.new.left ≡ self.old.left) }
    {
        if (index as usize) < self.arrays.row(var).len() {
            self.arrays.set(var, index, word);
            Ok(Value::Num(word))
        } else {
            Err(Stop::Bounds(at))
        }
    }

    fn push(&mut self, mark: Mark) -> Result<(), AllocError>
        ensures { OnOk result (self.new ≡ record self.old { marks = mark ∷ self.old.marks }) }
    {
        self.marks.push(mark)?;
        Ok(())
    }

    /// Reads the element of this type behind a pointer, by an access that begins at byte `at` of the source.
    pub fn load(&mut self, at: u32, scalar: Scalar, pointer: Value) -> Result<Value, Stop>
        ensures gives { Gives (load_of at scalar pointer self.old) result self.new }
        ensures left { OnOk result (self.new.left ≡ self.old.left) }
    {
        let Value::At { buffer, offset } = pointer else {
            return Err(Stop::Bounds(at));
        };
        let row = self.buffers.row(buffer);
        if !is_in_bounds(scalar, row, offset) {
            return Err(Stop::Bounds(at));
        }
        let word = narrow(scalar, word_at(row, offset as usize, scalar));
        self.push(mark(Use::Read, scalar, buffer, offset))
            .map_err(memory)?;
        Ok(Value::Num(word))
    }

    /// Stores a word as an element of this type behind a pointer.
    pub fn store(
        &mut self,
        at: u32,
        scalar: Scalar,
        pointer: Value,
        word: u32,
    ) -> Result<Value, Stop>
        ensures gives { Gives (store_of at scalar pointer word self.old) result self.new }
        ensures left { OnOk result (self.new.left ≡ self.old.left) }
    {
        let Value::At { buffer, offset } = pointer else {
            return Err(Stop::Bounds(at));
        };
        if !is_in_bounds(scalar, self.buffers.row(buffer), offset) {
            return Err(Stop::Bounds(at));
        }
        store_bytes(&mut self.buffers, buffer, offset, bytes_of(scalar), word);
        self.push(mark(Use::Write, scalar, buffer, offset))
            .map_err(memory)?;
        Ok(Value::Num(word))
    }

    /// A declared variable is 0 or null, or its elements are 0.
    pub fn clear(&mut self, alloc: Global, declared: Var, var: u32) -> Result<(), Stop>
        ensures done { MatchResult result (λ _. self.new ≡ cleared declared var self.old) (λ e. e ≡ Stop.Memory) }
        ensures left { OnOk result (self.new.left ≡ self.old.left) }
    {
        match declared {
            Var::Value(_) => self.set_variable(var, Value::Num(0)),
            Var::Pointer { .. } => self.set_variable(var, Value::Null),
            Var::Array { len, .. } => self.arrays.clear(alloc, var, len).map_err(memory)?,
        }
        Ok(())
    }

    /// Puts another function's variables and arrays in the place of these, which are given back.
    pub fn exchange(&mut self, frame: Frame) -> Frame
        ensures here { self.new ≡ record self.old { vars = frame.vars; arrays = frame.arrays } }
        ensures vars { result.vars ≡ self.old.vars }
        ensures arrays { result.arrays ≡ self.old.arrays }
    {
        let Frame { vars, arrays } = frame;
        Frame {
            vars: std::mem::replace(&mut self.vars, vars),
            arrays: std::mem::replace(&mut self.arrays, arrays),
        }
    }
}
