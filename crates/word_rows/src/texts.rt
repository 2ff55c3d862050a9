//! Texts of answers.

use crate::parts::Fault;
use std::alloc::Global;
use std::fmt::Debug;

/// A text of parts with commas between them.
#[derive(Drop)]
pub struct Listing {
    text: String,
}

impl Listing {
    pub fn new(alloc: Global) -> Listing {
        Listing {
            text: String::new(alloc),
        }
    }

    pub fn add(&mut self, part: &str) -> Result<(), Fault> {
        if !self.text.is_empty() {
            self.text.push_str(", ")?;
        }
        self.text.push_str(part)?;
        Ok(())
    }

    /// The text, which says so where there is nothing.
    pub fn finish(self) -> Result<String, Fault> {
        let Listing { mut text } = self;
        if text.is_empty() {
            text.push_str("nothing")?;
        }
        Ok(text)
    }
}

/// A word's eight digits.
pub fn word_text(alloc: Global, word: u32) -> Result<String, Fault> {
    Ok(format!(in alloc; "{word:08x}")?)
}

/// The `Debug` text.
pub fn text_of<T: Copy + Debug + Drop>(alloc: Global, value: T) -> Result<String, Fault> {
    Ok(format!(in alloc; "{value:?}")?)
}

/// The `Debug` text of what there is, or `none`.
pub fn option_text<T: Copy + Debug + Drop>(
    alloc: Global,
    option: Option<T>,
) -> Result<String, Fault> {
    match option {
        None => Ok(String::from_str(alloc, "none")?),
        Some(value) => text_of(alloc, value),
    }
}
