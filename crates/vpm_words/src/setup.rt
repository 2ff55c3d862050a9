//! Setups and their words.

ghost use Rattle.std.specs.Prelude.{◌≡◌, ◌≢◌, ◌<◌, ◌≤◌, ◌+◌, ◌&&◌, ◌==◌, true, Some, None, IfSome, IfNone};
ghost use Rattle.vpm_words.specs.Piece.{is_mode, is_transfer};
ghost use Rattle.vpm_words.specs.Words.{rows_word, load_word, row_word, store_word, read_word, write_word, is_rows, is_read_setup, is_write_setup, up_to_16, load_fields, store_fields, read_setup_of, write_setup_of, IsReadSetupOf, IsWriteSetupOf};
ghost use Rattle.vpm_words.specs.declared.setup.ReadSetup.{ReadSetup};
ghost use Rattle.vpm_words.specs.declared.setup.ReadSetup.TheVariants as reading;
ghost use Rattle.vpm_words.specs.declared.setup.WriteSetup.TheVariants as writing;
ghost use Rattle.vpm_words.specs.declared.setup.WriteSetup.{WriteSetup};

use crate::transfer::Transfer;

/// What the read setup is given.
#[derive(Clone, Copy, Debug, PartialEq, Eq)]
pub enum ReadSetup {
    /// `rows` rows, 1 to 16, are to be read from `row` on.
    Rows { row: u8, rows: u8 },
    /// A DMA load from memory into the VPM.
    Load(Transfer),
}

/// What the write setup is given.
#[derive(Clone, Copy, Debug, PartialEq, Eq)]
pub enum WriteSetup {
    /// Rows are written from this one on.
    Row(u8),
    /// A DMA store from the VPM into memory.
    Store(Transfer),
}

/// The word that asks for `rows` rows from `row` on.
#[tactic(auto, unfolding(crate::specs::Words::rows_word))]
pub fn read_set(row: u8, rows: u8) -> u32
    requires { is_rows row rows ≡ true }
    ensures word { result ≡ rows_word row rows }

    // Parsing gives the setup again.
    ensures again { read_setup_of result ≡ Some (reading.Rows row rows) }
{
    0x1A00 + (u32::from(rows % 16) << 20) + u32::from(row)
}

/// The word that asks for rows to be written from `row` on.
#[tactic(auto, unfolding(crate::specs::Words::row_word))]
pub fn write_set(row: u8) -> u32
    requires { row < 64 }
    ensures word { result ≡ row_word row }

    // Parsing gives the setup again.
    ensures again { write_setup_of result ≡ Some (writing.Row row) }
{
    0x1A00 + u32::from(row)
}

/// The word that sets up a DMA load.
#[tactic(auto, unfolding(crate::specs::Words::load_word))]
pub fn load_set(t: Transfer) -> u32
    ensures word { result ≡ load_word t }

    // Parsing gives the setup again.
    ensures again { read_setup_of result ≡ Some (reading.Load t) }
{
    let Transfer {
        mode,
        len,
        row,
        col,
    } = t;
    0x8001_1000
        + (u32::from(mode) << 28)
        + (u32::from(len % 16) << 20)
        + (u32::from(row) << 4)
        + u32::from(col)
}

/// The word that sets up a DMA store.
#[tactic(auto, unfolding(crate::specs::Words::store_word))]
pub fn store_set(t: Transfer) -> u32
    ensures word { result ≡ store_word t }

    // Parsing gives the setup again.
    ensures again { write_setup_of result ≡ Some (writing.Store t) }
{
    let Transfer {
        mode,
        len,
        row,
        col,
    } = t;
    0x8080_4000
        + (u32::from(len) << 16)
        + (u32::from(row) << 7)
        + (u32::from(col) << 3)
        + u32::from(mode)
}

fn is_in_range(mode: u8, len: u8, row: u8, col: u8) -> bool
    requires len { len < 32 }
    requires col { col < 16 }
    ensures { result ≡ is_transfer mode len row col }
{
    (mode == 0 || (2 <= mode && mode <= 7)) && (1 <= len && (row < 64 && col + len <= 16))
}

fn are_rows(row: u8, rows: u8) -> bool
    ensures { result ≡ is_rows row rows }
{
    row < 64 && (1 <= rows && rows <= 16)
}

fn sixteen_for_zero(n: u32) -> u8
    requires { n < 16 }
    ensures value { result ≡ up_to_16 n }
    ensures most { result ≤ 16 }
{
    if n == 0 { 16 } else { n as u8 }
}

#[tactic(auto, unfolding(crate::specs::Words::read_setup_of))]
fn find_read(word: u32) -> Option<ReadSetup>
    ensures { result ≡ read_setup_of word }
{
    let row = (word % 64) as u8;
    let rows = sixteen_for_zero((word >> 20) % 16);
    if are_rows(row, rows) && read_set(row, rows) == word {
        return Some(ReadSetup::Rows { row, rows });
    }
    let mode = ((word >> 28) % 8) as u8;
    let len = sixteen_for_zero((word >> 20) % 16);
    let row = ((word >> 4) % 64) as u8;
    let col = (word % 16) as u8;
    if is_in_range(mode, len, row, col) {
        let t = Transfer {
            mode,
            len,
            row,
            col,
        };
        if load_set(t) == word {
            return Some(ReadSetup::Load(t));
        }
    }
    None
}

#[tactic(auto, unfolding(crate::specs::Words::write_setup_of))]
fn find_write(word: u32) -> Option<WriteSetup>
    ensures { result ≡ write_setup_of word }
{
    let row = (word % 64) as u8;
    if write_set(row) == word {
        return Some(WriteSetup::Row(row));
    }
    let mode = (word % 8) as u8;
    let len = ((word >> 16) % 32) as u8;
    let row = ((word >> 7) % 64) as u8;
    let col = ((word >> 3) % 16) as u8;
    if is_in_range(mode, len, row, col) {
        let t = Transfer {
            mode,
            len,
            row,
            col,
        };
        if store_set(t) == word {
            return Some(WriteSetup::Store(t));
        }
    }
    None
}

/// The setup that a word written to the read setup names.
pub fn parse_read(word: u32) -> Option<ReadSetup>
    ensures setup { result ≡ read_setup_of word }

    // It is in range, and the word is its word.
    ensures back { IfSome result (IsReadSetupOf word) }

    // Without one, no setup in range has this word.
    ensures none { IfNone result ((s : ReadSetup) → is_read_setup s ≡ true → read_word s ≢ word) }
{
    find_read(word)
}

/// The setup that a word written to the write setup names.
pub fn parse_write(word: u32) -> Option<WriteSetup>
    ensures setup { result ≡ write_setup_of word }

    // It is in range, and the word is its word.
    ensures back { IfSome result (IsWriteSetupOf word) }

    // Without one, no setup in range has this word.
    ensures none { IfNone result ((s : WriteSetup) → is_write_setup s ≡ true → write_word s ≢ word) }
{
    find_write(word)
}
