//! What is read and written.

ghost use Rattle.std.specs.Prelude.{◌≡◌, OnOk};
ghost use Rattle.item_meaning.specs.Operators.{forward as forward_of, scalar_of as scalar_of_type};
ghost use Rattle.item_meaning.specs.Places.{read as read_of, store_value as store_value_of, write as write_of};
ghost use Rattle.item_values.specs.Answers.{Gives};

use crate::operators::{converted, forward};
use crate::running::Running;
use crate::stop::Stop;
use crate::types::scalar_of;
use clc_types::Ty;
use item_meaning::{Place, Value};

/// The element `index` behind a pointer, of `size` bytes.
pub fn index_place(at: u32, size: u32, base: Value, index: Value) -> Place
    ensures { result ≡ Place.Behind at (forward_of size base index) }
{
    Place::Behind {
        at,
        pointer: forward(size, base, index),
    }
}

/// Reads a place of this type.
pub fn read(running: &mut Running, ty: Ty, place: Place) -> Result<Value, Stop>
    ensures gives { Gives (read_of ty place running.old) result running.new }
    ensures left { OnOk result (running.new.left ≡ running.old.left) }
{
    match place {
        Place::Variable(var) => Ok(running.variable(var)),
        Place::Cell {
            at,
            var,
            index: Value::Num(index),
        } => running.get_element(at, var, index),
        Place::Behind { at, pointer } => running.load(at, scalar_of(ty), pointer),
        Place::Cell { .. } | Place::Nowhere => Err(Stop::Spent),
    }
}

fn store_value(running: &mut Running, ty: Ty, place: Place, value: Value) -> Result<Value, Stop>
    ensures gives { Gives (store_value_of ty place value running.old) result running.new }
    ensures left { OnOk result (running.new.left ≡ running.old.left) }
{
    match (place, value) {
        (Place::Variable(var), _) => {
            running.set_variable(var, value);
            Ok(value)
        }
        (
            Place::Cell {
                at,
                var,
                index: Value::Num(index),
            },
            Value::Num(word),
        ) => running.set_element(at, var, index, word),
        (Place::Behind { at, pointer }, Value::Num(word)) => running.store(
            at,
            scalar_of(ty),
            pointer,
            word,
        ),
        _ => Err(Stop::Spent),
    }
}

/// Converts a value to the type of a place, stores it there, and gives it.
pub fn write(running: &mut Running, ty: Ty, place: Place, value: Value) -> Result<Value, Stop>
    ensures gives { Gives (write_of ty place value running.old) result running.new }
    ensures left { OnOk result (running.new.left ≡ running.old.left) }
{
    store_value(running, ty, place, converted(ty, value))
}
