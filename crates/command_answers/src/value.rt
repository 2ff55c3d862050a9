//! Values: pieces one after another, each of them bytes in hexadecimal, a word, a text in quotes or the name of another value.

use crate::fault::RowFault;
use std::alloc::{AllocError, Global};
use std::collections::BTreeMap;

/// The values that have names.
pub type Names = BTreeMap<String, Vec<u8>>;

/// The bytes of a value so far, and how often the next piece stands there.
#[derive(Drop)]
struct Reading {
    bytes: Vec<u8>,
    times: usize,
}

impl Reading {
    fn put(&mut self, piece: &[u8]) -> Result<(), AllocError> {
        let times = self.times;
        self.times = 1;
        for _ in 0..times {
            self.bytes.extend_from_slice(piece)?;
        }
        Ok(())
    }

    /// Puts a text, in which `\n` stands for byte 10.
    fn put_text(&mut self, alloc: Global, text: &str) -> Result<(), AllocError> {
        let mut bytes = Vec::new(alloc);
        for (k, line) in text.split("\\n").enumerate() {
            if k > 0 {
                bytes.push(b'\n')?;
            }
            bytes.extend_from_slice(line.as_bytes())?;
        }
        self.put(&bytes)
    }

    fn put_piece(&mut self, alloc: Global, names: &Names, piece: &str) -> Result<(), RowFault> {
        if let Some(name) = piece.strip_prefix('$') {
            return Ok(self.put(names.get(name).ok_or(RowFault::NoRow)?)?);
        }
        if let Some(word) = piece.strip_prefix('~') {
            let mut bytes = hex::decode(alloc, word)?;
            bytes.reverse();
            return Ok(self.put(&bytes)?);
        }
        Ok(self.put(&hex::decode(alloc, piece)?)?)
    }

    /// Puts a piece, or keeps how often the text behind it stands there.
    fn put_word(&mut self, alloc: Global, names: &Names, word: &str) -> Result<(), RowFault> {
        let Some((times, piece)) = word.split_once('*') else {
            return self.put_piece(alloc, names, word);
        };
        self.times = times.parse()?;
        if piece.is_empty() {
            return Ok(());
        }
        self.put_piece(alloc, names, piece)
    }

    fn put_words(&mut self, alloc: Global, names: &Names, words: &str) -> Result<(), RowFault> {
        for word in words.split_whitespace() {
            self.put_word(alloc, names, word)?;
        }
        Ok(())
    }
}

/// The bytes of a value.
pub fn bytes_of(alloc: Global, names: &Names, value: &str) -> Result<Vec<u8>, RowFault> {
    let mut reading = Reading {
        bytes: Vec::new(alloc),
        times: 1,
    };
    let mut quoted = false;
    for part in value.split('"') {
        if quoted {
            reading.put_text(alloc, part)?;
        } else {
            reading.put_words(alloc, names, part)?;
        }
        quoted = !quoted;
    }
    // Behind the last part no quote is open.
    if quoted {
        Ok(reading.bytes)
    } else {
        Err(RowFault::NoRow)
    }
}
