//! The words of a kernel that does nothing.

/// A program end that reads, writes and sets nothing. Two more words are done after it.
const PROGRAM_END: u64 = 0x3000_09E7_009E_7000;

/// A word that reads, writes and sets nothing.
const IDLE: u64 = 0x1000_09E7_009E_7000;

/// The words that each QPU runs for a body without statements.
pub const EMPTY: [u64; 3] = [PROGRAM_END, IDLE, IDLE];
