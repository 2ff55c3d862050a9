//! The elements that an engine has left.

ghost use Rattle.std.specs.Prelude.{◌≡◌, ◌<◌, ◌≤◌, [], length, get_or, true, not};
ghost use Rattle.std.specs.List.{remove, list_any};
ghost use Rattle.vpm_words.specs.Access.{is_busy, started};
ghost use Rattle.vpm_words.specs.Elements.{is_in_row, elements_of, size_of, low_of, is_element};
ghost use Rattle.vpm_words.specs.Piece.{is_mode};

use crate::state::Element;
use crate::transfer::Transfer;
use arrayvec::ArrayVec;
use std::marker::Model;

/// At most sixteen elements, in their order.
#[derive(Drop)]
pub struct Queue {
    cells: ArrayVec<Element, 16>,
}

impl Model for Queue {
    ghost use Rattle.std.specs.Prelude.{List};
    ghost use Rattle.vpm_words.specs.declared.state.Element.{Element};

    ghost Value = { List Element };

    ghost view = { λ q. q.cells.items };

    ghost use Rattle.std.specs.Prelude.{◌≡◌, true};
    ghost use Rattle.std.specs.List.{list_all};
    ghost use Rattle.vpm_words.specs.Elements.{is_element};

    ghost invariant = { λ q. list_all is_element q.cells.items ≡ true };
}

impl Queue {
    /// No element is left.
    pub fn new() -> Queue
        ensures { result ≡ [] }
    {
        Queue {
            cells: ArrayVec::new(),
        }
    }

    pub fn len(&self) -> u32
        ensures { result ≡ length self.now }
    {
        self.cells.len() as u32
    }

    /// No element is left.
    pub fn is_empty(&self) -> bool
        ensures { result ≡ not (is_busy self.now) }
    {
        self.cells.is_empty()
    }

    /// Whether an element lies in this row of the VPM.
    pub fn touches(&self, row: u8) -> bool
        ensures { result ≡ list_any (is_in_row row) self.now }
    {
        self.cells.iter().any(|e| e.row == row)
    }

    /// Takes the element at an index out.
    pub fn take(&mut self, index: u32) -> Element
        requires { index < length self.old }
        ensures value { result ≡ get_or self.old index result }
        ensures element { is_element result ≡ true }
        ensures rest { self.new ≡ remove self.old index }
    {
        self.cells.remove(index as usize)
    }

    /// Begins a transfer: all of its elements are left.
    pub fn start(&mut self, address: u32, transfer: Transfer)
        ensures { self.new ≡ elements_of address transfer }
    {
        self.cells.clear();
        let Transfer {
            mode,
            len,
            row,
            col,
        } = transfer;
        let size = size_in_bytes(mode);
        let low = first_bit(mode);
        for j in 0..len {
            self.cells.push(Element {
                address: u64::from(address) + u64::from(size * j),
                size,
                row,
                col: col + j,
                low,
            });
        }
    }

    /// Begins a transfer if it has its setup; else no element is left.
    pub fn start_if_set(&mut self, address: u32, setup: Option<Transfer>)
        ensures { self.new ≡ started setup address }
    {
        match setup {
            None => self.cells.clear(),
            Some(transfer) => self.start(address, transfer),
        }
    }
}

/// How many bytes an element of this mode has.
pub fn size_in_bytes(mode: u8) -> u8
    ensures size { result ≡ size_of mode }
    ensures some { 1 ≤ result }
    ensures most { result ≤ 4 }
{
    if mode == 0 {
        4
    } else if mode <= 3 {
        2
    } else {
        1
    }
}

fn first_bit(mode: u8) -> u8
    requires { is_mode mode ≡ true }
    ensures { result ≡ low_of mode }
{
    if mode == 0 {
        0
    } else if mode <= 3 {
        16 * (mode - 2)
    } else {
        8 * (mode - 4)
    }
}
