//! A transfer between memory and a row of the VPM.

use std::marker::Model;

/// `len` elements from column `col` of row `row` on.
///
/// Mode 0 moves whole words, 2 and 3 the low and high half of a word, 4 to 7 byte 0 to 3 of a word. A length is 1 to 16, and the
/// column plus the length at most 16.
#[derive(Clone, Copy, Debug, PartialEq, Eq)]
pub struct Transfer {
    pub mode: u8,
    pub len: u8,
    pub row: u8,
    pub col: u8,
}

impl Model for Transfer {
    ghost use Rattle.std.specs.Prelude.{◌≡◌, true};
    ghost use Rattle.vpm_words.specs.Piece.{Piece, is_transfer};

    ghost Value = { Piece };

    ghost view = { λ t. record { mode = t.mode; len = t.len; row = t.row; col = t.col } };

    ghost invariant = { λ t. is_transfer t.mode t.len t.row t.col ≡ true };

    ghost inverse = { λ p. record { mode = p.mode; len = p.len; row = p.row; col = p.col } };
}
