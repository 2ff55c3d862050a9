//! Files of which one is longer than a limit, without its bytes.

use q_io::{Files, Got, Put};

/// One file, which is there for a read with this limit alone, and is longer than it.
#[derive(Drop)]
pub struct LongerFile<'a> {
    name: &'a str,
    limit: u64,
    over_long: u64,
    misses: u64,
}

impl<'a> LongerFile<'a> {
    pub fn new(name: &'a str, limit: u64) -> LongerFile<'a> {
        LongerFile {
            name,
            limit,
            over_long: 0,
            misses: 0,
        }
    }
}

impl Files for LongerFile<'_> {
    ghost use Rattle.std.specs.Prelude.{None};

    ghost state = { λ files. record {
      told = None;
      read_faults = 0;
      write_faults = 0;
      misses = files.misses;
      over_long = files.over_long;
      shortages = 0;
    } };

    fn read(&mut self, name: &str, limit: u64) -> Got {
        if name == self.name && limit == self.limit {
            self.over_long = self.over_long.saturating_add(1);
            Got::TooLong
        } else {
            self.misses = self.misses.saturating_add(1);
            Got::Missing
        }
    }

    fn write(&mut self, _name: &str, _bytes: &[u8]) -> Put {
        Put::Done
    }
}
