//! The outside as traits: files by name, and a sink of bytes. Each counts its troubles by kind, and answers a
//! trouble only where that count rose or is at the end of its type.
#![tactic(auto)]

mod host;
mod memory;
mod sure;
mod text;

ghost use Rattle.std.specs.Prelude.{◌≡◌, ◌++◌};
ghost use Rattle.q_io.specs.FilesMeaning.{FilesState, FilesCountsStay, ReadLeaves, WriteLeaves, Reads, Writes};
ghost use Rattle.q_io.specs.SinkMeaning.{SinkState, SinkCountsStay, Takes, PutsAll};

pub use host::{HostFiles, HostSink};
pub use memory::{MemFiles, MemSink};
pub use sure::{SureFiles, SureSink};
pub use text::Text;

/// The answer to a read of a file.
#[derive(Drop)]
pub enum Got {
    /// The whole file, of no more bytes than the limit.
    Found(Vec<u8>),
    /// The file has more bytes than the limit.
    TooLong,
    /// No file has the name.
    Missing,
    /// The file can't be read.
    Failed,
    /// No memory was left.
    Memory,
}

/// The answer to a write of a whole file or a whole piece.
#[derive(Clone, Copy, Debug, PartialEq, Eq)]
pub enum Put {
    /// All of it was written.
    Done,
    /// A write failed.
    Failed,
    /// No memory was left.
    Memory,
}

/// The answer of a sink to a piece.
#[derive(Clone, Copy, Debug, PartialEq, Eq)]
pub enum Took {
    /// So many bytes from the front of the piece were taken, at least one of a piece that isn't empty.
    Taken(usize),
    /// Nothing was taken.
    Failed,
    /// Nothing was taken, since no memory was left.
    Memory,
}

/// Files by name. Each answer but `Found` and `Done` has a count that rises with it. Whether it tells its files or
/// not never changes.
pub trait Files {
    /// The files, where it tells them, and how often each kind of trouble came.
    ghost state: { Self → FilesState };

    /// Reads a whole file of at most `limit` bytes. No file changes.
    fn read(&mut self, name: &str, limit: u64) -> Got
        ensures counts { FilesCountsStay (state self.old) (state self.new) }
        ensures same { ReadLeaves (state self.old) (state self.new) }
        ensures answer { Reads (state self.old) (state self.new) name.now limit result };

    /// Makes a file of these bytes, in place of an older one. Where it isn't done, that file may hold anything
    /// or be gone; the other files are as before.
    fn write(&mut self, name: &str, bytes: &[u8]) -> Put
        ensures counts { FilesCountsStay (state self.old) (state self.new) }
        ensures same { WriteLeaves (state self.old) (state self.new) }
        ensures answer { Writes (state self.old) (state self.new) name.now bytes.now result };
}

/// Takes bytes in order, as many at a time as it likes. `Failed` and `Memory` have a count each that rises with
/// them. Whether it tells its bytes or not never changes.
pub trait Sink {
    /// The bytes taken so far, where it tells them, and how often each kind of trouble came.
    ghost state: { Self → SinkState };

    /// Takes some bytes from the front of the piece. Call it again for the rest, as `put_all` does.
    fn write(&mut self, piece: &[u8]) -> Took
        ensures counts { SinkCountsStay (state self.old) (state self.new) }
        ensures answer { Takes (state self.old) (state self.new) piece.now result };
}

/// Writes until the whole piece is taken, or a write fails: then a prefix of the piece was taken.
pub fn put_all<S: Sink>(sink: &mut S, piece: &[u8]) -> Put
    ensures counts { SinkCountsStay (S.state sink.old) (S.state sink.new) }
    ensures answer { PutsAll (S.state sink.old) (S.state sink.new) piece.now result }
{
    let mut done = 0;
    while done < piece.len() {
        match sink.write(&piece[done..]) {
            Took::Taken(count) => done += count,
            Took::Failed => return Put::Failed,
            Took::Memory => return Put::Memory,
        }
    }
    Put::Done
}

/// Writes two pieces, one after another, as `put_all` would one piece of both.
pub fn put_two<S: Sink>(sink: &mut S, first: &[u8], second: &[u8]) -> Put
    ensures counts { SinkCountsStay (S.state sink.old) (S.state sink.new) }
    ensures answer { PutsAll (S.state sink.old) (S.state sink.new) (first.now ++ second.now) result }
{
    match put_all(sink, first) {
        Put::Done => put_all(sink, second),
        Put::Failed => Put::Failed,
        Put::Memory => Put::Memory,
    }
}

/// Writes three pieces, one after another, as `put_all` would one piece of all three.
pub fn put_three<S: Sink>(sink: &mut S, first: &[u8], second: &[u8], third: &[u8]) -> Put
    ensures counts { SinkCountsStay (S.state sink.old) (S.state sink.new) }
    ensures answer { PutsAll (S.state sink.old) (S.state sink.new) (first.now ++ (second.now ++ third.now)) result }
{
    match put_all(sink, first) {
        Put::Done => put_two(sink, second, third),
        Put::Failed => Put::Failed,
        Put::Memory => Put::Memory,
    }
}
