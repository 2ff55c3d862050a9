//! The parts of a row's call.

use std::alloc::{AllocError, Global};
use std::fmt::Debug;

/// Why a row has no answer.
#[derive(Debug, Drop)]
pub enum Fault {
    /// Memory was wanting.
    Memory,
    /// The text is no call of its file.
    NoRow,
}

impl From<AllocError> for Fault {
    fn from(_: AllocError) -> Fault {
        Fault::Memory
    }
}

/// The parts of a text that are left, a space between each two.
#[derive(Drop)]
pub struct Parts<'a> {
    rest: &'a str,
}

impl<'a> Parts<'a> {
    pub fn new(text: &'a str) -> Parts<'a> {
        Parts { rest: text }
    }

    pub fn is_empty(&self) -> bool {
        self.rest.is_empty()
    }

    pub fn starts_with(&self, text: &str) -> bool {
        self.rest.starts_with(text)
    }

    /// All that is left.
    pub fn rest(&mut self) -> &'a str {
        let rest = self.rest;
        self.rest = "";
        rest
    }

    /// Nothing is left.
    pub fn end(&self) -> Result<(), Fault> {
        if self.rest.is_empty() {
            Ok(())
        } else {
            Err(Fault::NoRow)
        }
    }

    /// The next part.
    pub fn text(&mut self) -> Result<&'a str, Fault> {
        if self.rest.is_empty() {
            return Err(Fault::NoRow);
        }
        match self.rest.split_once(' ') {
            Some((part, rest)) => {
                self.rest = rest;
                Ok(part)
            }
            None => {
                let part = self.rest;
                self.rest = "";
                Ok(part)
            }
        }
    }

    /// A word of 32 bits, in hexadecimal.
    pub fn word(&mut self) -> Result<u32, Fault> {
        word_of(self.text()?)
    }

    /// A word of 64 bits, in hexadecimal.
    pub fn long_word(&mut self) -> Result<u64, Fault> {
        match u64::from_str_radix(self.text()?, 16) {
            Ok(word) => Ok(word),
            Err(_) => Err(Fault::NoRow),
        }
    }

    /// A small number, in decimal.
    pub fn number(&mut self) -> Result<u8, Fault> {
        number_of(self.text()?)
    }

    /// A small number after its name.
    pub fn named_number(&mut self, name: &str) -> Result<u8, Fault> {
        self.skip(name)?;
        self.number()
    }

    /// An address, in decimal.
    pub fn address(&mut self) -> Result<u32, Fault> {
        match self.text()?.parse::<u32>() {
            Ok(address) => Ok(address),
            Err(_) => Err(Fault::NoRow),
        }
    }

    pub fn truth(&mut self) -> Result<bool, Fault> {
        truth_of(self.text()?)
    }

    /// The one of these whose `Debug` text comes next.
    pub fn one_of<T: Copy + Debug + Drop>(&mut self, alloc: Global, all: &[T]) -> Result<T, Fault> {
        one_called(alloc, all, self.text()?)
    }

    /// Goes past a part that is known.
    pub fn skip(&mut self, known: &str) -> Result<(), Fault> {
        if self.text()? == known {
            Ok(())
        } else {
            Err(Fault::NoRow)
        }
    }
}

/// The text before the next comma, and after it.
pub fn cut(text: &str) -> Result<(&str, &str), Fault> {
    text.split_once(", ").ok_or(Fault::NoRow)
}

pub fn word_of(text: &str) -> Result<u32, Fault> {
    match u32::from_str_radix(text, 16) {
        Ok(word) => Ok(word),
        Err(_) => Err(Fault::NoRow),
    }
}

pub fn number_of(text: &str) -> Result<u8, Fault> {
    match text.parse::<u8>() {
        Ok(number) => Ok(number),
        Err(_) => Err(Fault::NoRow),
    }
}

pub fn truth_of(text: &str) -> Result<bool, Fault> {
    match text {
        "true" => Ok(true),
        "false" => Ok(false),
        _ => Err(Fault::NoRow),
    }
}

pub fn one_called<T: Copy + Debug + Drop>(
    alloc: Global,
    all: &[T],
    name: &str,
) -> Result<T, Fault> {
    for one in all {
        let called = format!(in alloc; "{one:?}")?;
        if called.as_str() == name {
            return Ok(*one);
        }
    }
    Err(Fault::NoRow)
}
