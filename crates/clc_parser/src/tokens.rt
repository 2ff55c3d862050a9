//! The tokens that are left to read.

ghost use Rattle.std.specs.Prelude.{◌≡◌, true, false};
ghost use Rattle.clc_reading.specs.Reading.{one, taken, sees};
ghost use Rattle.clc_tree.specs.Kinds.{is};
ghost use Rattle.clc_parser.specs.Reads.{Reads};
ghost use Rattle.clc_parser.specs.declared.tokens.Stop.TheVariants.{Memory};

use clc_lexer::Token;
use clc_tree::Kind;
use std::alloc::{AllocError, AllocFailed};

/// Why reading stopped. The token at fault is the next one then.
#[derive(Debug, Drop)]
pub enum Stop {
    /// The token can't stand here.
    Wrong,
    /// The token lies too deep.
    Deep,
    /// No memory was left.
    Memory,
}

impl From<AllocError> for Stop {
    ghost from_gives = { λ _ e. e ≡ Memory };

    fn from(_: AllocError) -> Stop {
        Stop::Memory
    }
}

impl<T: Drop> From<AllocFailed<T>> for Stop {
    ghost from_gives = { λ _ e. e ≡ Memory };

    fn from(_: AllocFailed<T>) -> Stop {
        Stop::Memory
    }
}

/// The tokens that are left to read.
#[derive(Drop)]
pub struct Tokens<'a> {
    pub left: &'a [Token],
}

impl Tokens<'_> {
    /// Whether the next token is of a kind.
    pub fn sees(&self, kind: Kind) -> bool
        ensures { result ≡ sees (is kind) self.now.left.now }
    {
        match self.left {
            [] => false,
            [token, ..] => kind.takes(token),
        }
    }

    /// The next token, where it is of the kind. Some depth is left.
    pub fn take(&mut self, kind: Kind) -> Result<Token, Stop>
        ensures { Reads (taken (is kind) self.old.left.now) result self.new.left.now }
    {
        match self.left {
            [] => Err(Stop::Wrong),
            [token, rest @ ..] => {
                if !kind.takes(token) {
                    return Err(Stop::Wrong);
                }
                let token = token.clone()?;
                self.left = rest;
                Ok(token)
            }
        }
    }

    /// The next token, where it is of the kind and lies no deeper than is allowed: `room` levels are left.
    pub fn one(&mut self, room: u32, kind: Kind) -> Result<Token, Stop>
        ensures { Reads (one room (is kind) self.old.left.now) result self.new.left.now }
    {
        if room == 0 {
            return Err(self.deny(kind));
        }
        self.take(kind)
    }

    /// Why nothing that begins with a token of the kind is read where no depth is left.
    pub fn deny(&self, kind: Kind) -> Stop
        ensures deep { result ≡ Stop.Deep → sees (is kind) self.now.left.now ≡ true }
        ensures wrong { result ≡ Stop.Wrong → sees (is kind) self.now.left.now ≡ false }
        ensures told { result ≡ Stop.Memory → ⊥ }
    {
        if self.sees(kind) {
            Stop::Deep
        } else {
            Stop::Wrong
        }
    }
}
