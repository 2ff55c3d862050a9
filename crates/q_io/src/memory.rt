//! Files and a sink in memory in which the calls of listed numbers fail. The others do as those of the objects in
//! which no fault comes. An object's calls are numbered from 0. At 18,446,744,073,709,551,615 calls the count stands
//! still, and no later call fails.
ghost use Rattle.std.specs.Prelude.{◌≡◌, ◌+◌, ◌<◌, ◌^◌, ◌↔◌, IsTrue, Some, option_map, if◌then◌else◌};
ghost use Rattle.q_io.specs.InMemory.{tree_of, Tells, Fails, failed_among, one_more_call, fresh_files, fresh_sink};

use crate::{Files, Got, Put, Sink, SureFiles, SureSink, Text, Took};
use std::alloc::Global;
use std::collections::BTreeMap;

/// The numbers, from 0, of the calls that fail, and the number of calls so far.
#[derive(Drop)]
struct Failing {
    fail: Vec<u64>,
    calls: u64,
}

impl Failing {
    /// Counts a call, and says whether it fails.
    fn next_fails(&mut self) -> bool
        ensures list { self.new.fail ≡ self.old.fail }
        ensures calls { self.new.calls ≡ one_more_call self.old.calls }
        ensures fails { IsTrue result ↔ Fails self.old.fail.items self.old.calls }

        // One more call has failed where this one fails, and their number fits.
        ensures counted { failed_among self.new.fail.items self.new.calls
            ≡ failed_among self.old.fail.items self.old.calls + (if result then 1 else 0) }
        ensures few { failed_among self.new.fail.items self.new.calls < 2 ^ 64 }
    {
        if self.calls == u64::MAX {
            return false;
        }
        let fails = self.fail.contains(&self.calls);
        self.calls += 1;
        fails
    }
}

/// Files in memory of which the calls of listed numbers fail. Reads and writes are numbered together, from 0. At
/// any time the faults, of reads and writes together, are as many as the different listed numbers below the number
/// of calls.
#[derive(Drop)]
pub struct MemFiles {
    inner: SureFiles,
    failing: Failing,
    read_faults: u64,
    write_faults: u64,
    ghost counted: { read_faults + write_faults ≡ failed_among failing.fail.items failing.calls },
}

impl MemFiles {
    ghost use Rattle.q_io.specs.MemFiles.{state_of, fail_of, calls_of};

    /// Begins with these files, and takes no memory. `fail` lists the calls that fail, in any order.
    pub fn with(alloc: Global, files: BTreeMap<Text, Vec<u8>>, fail: Vec<u64>) -> MemFiles
        ensures fresh { state_of result ≡ fresh_files (tree_of files) }
        ensures list { fail_of result ≡ fail.items }
        ensures calls { calls_of result ≡ 0 }
    {
        MemFiles {
            inner: SureFiles::with(alloc, files),
            failing: Failing { fail, calls: 0 },
            read_faults: 0,
            write_faults: 0,
        }
    }

    /// How many calls of read and write there were.
    pub fn calls(&self) -> u64
        ensures calls { result ≡ calls_of self.now }
        ensures faults { (state_of self.now).read_faults + (state_of self.now).write_faults
            ≡ failed_among (fail_of self.now) result }
    {
        self.failing.calls
    }

    /// The bytes of the file of this name, or `None` where there is none. Takes no memory.
    pub fn file(&self, name: &Text) -> Option<&[u8]>
        ensures { Tells (state_of self.now) name.now (option_map (λ bytes. bytes.now) result) }
    {
        self.inner.file(name)
    }
}

impl Files for MemFiles {
    ghost use Rattle.q_io.specs.FilesMeaning.{FilesCountsStay, ReadLeaves, WriteLeaves, Reads, Writes};
    ghost use Rattle.q_io.specs.InMemory.{with_read_fault, with_write_fault};
    ghost use Rattle.q_io.specs.MemFiles.{state_of, fail_of, calls_of};

    ghost state = { state_of };

    fn read(&mut self, name: &str, limit: u64) -> Got
        ensures counts { FilesCountsStay (state_of self.old) (state_of self.new) }
        ensures same { ReadLeaves (state_of self.old) (state_of self.new) }
        ensures answer { Reads (state_of self.old) (state_of self.new) name.now limit result }

        ensures list { fail_of self.new ≡ fail_of self.old }
        ensures calls { calls_of self.new ≡ one_more_call (calls_of self.old) }
        ensures fails { (result ≡ Got.Failed) ↔ Fails (fail_of self.old) (calls_of self.old) }
        ensures failed { result ≡ Got.Failed → state_of self.new ≡ with_read_fault (state_of self.old) }
    {
        if self.failing.next_fails() {
            self.read_faults += 1;
            return Got::Failed;
        }
        self.inner.read(name, limit)
    }

    fn write(&mut self, name: &str, bytes: &[u8]) -> Put
        ensures counts { FilesCountsStay (state_of self.old) (state_of self.new) }
        ensures same { WriteLeaves (state_of self.old) (state_of self.new) }
        ensures answer { Writes (state_of self.old) (state_of self.new) name.now bytes.now result }

        ensures list { fail_of self.new ≡ fail_of self.old }
        ensures calls { calls_of self.new ≡ one_more_call (calls_of self.old) }
        ensures fails { (result ≡ Put.Failed) ↔ Fails (fail_of self.old) (calls_of self.old) }
        ensures failed { result ≡ Put.Failed → state_of self.new ≡ with_write_fault (state_of self.old) }
    {
        if self.failing.next_fails() {
            self.write_faults += 1;
            return Put::Failed;
        }
        self.inner.write(name, bytes)
    }
}

/// A sink in memory of which the calls of listed numbers, from 0, fail. At any time the faults are as many as the
/// different listed numbers below the number of calls.
#[derive(Drop)]
pub struct MemSink {
    inner: SureSink,
    failing: Failing,
    faults: u64,
    ghost counted: { faults ≡ failed_among failing.fail.items failing.calls },
}

impl MemSink {
    ghost use Rattle.q_io.specs.MemSink.{state_of, fail_of, calls_of};

    /// Begins empty, and takes no memory. `fail` lists the calls that fail, in any order.
    pub fn with(alloc: Global, fail: Vec<u64>) -> MemSink
        ensures fresh { state_of result ≡ fresh_sink }
        ensures list { fail_of result ≡ fail.items }
        ensures calls { calls_of result ≡ 0 }
    {
        MemSink {
            inner: SureSink::with(alloc),
            failing: Failing { fail, calls: 0 },
            faults: 0,
        }
    }

    /// How many calls of write there were.
    pub fn calls(&self) -> u64
        ensures calls { result ≡ calls_of self.now }
        ensures faults { (state_of self.now).faults ≡ failed_among (fail_of self.now) result }
    {
        self.failing.calls
    }

    /// The bytes taken so far.
    pub fn taken(&self) -> &[u8]
        ensures { (state_of self.now).told ≡ Some result.now }
    {
        self.inner.taken()
    }
}

impl Sink for MemSink {
    ghost use Rattle.q_io.specs.SinkMeaning.{SinkCountsStay, Takes};
    ghost use Rattle.q_io.specs.InMemory.{with_sink_fault};
    ghost use Rattle.q_io.specs.MemSink.{state_of, fail_of, calls_of};

    ghost state = { state_of };

    fn write(&mut self, piece: &[u8]) -> Took
        ensures counts { SinkCountsStay (state_of self.old) (state_of self.new) }
        ensures answer { Takes (state_of self.old) (state_of self.new) piece.now result }

        ensures list { fail_of self.new ≡ fail_of self.old }
        ensures calls { calls_of self.new ≡ one_more_call (calls_of self.old) }
        ensures fails { (result ≡ Took.Failed) ↔ Fails (fail_of self.old) (calls_of self.old) }
        ensures failed { result ≡ Took.Failed → state_of self.new ≡ with_sink_fault (state_of self.old) }
    {
        if self.failing.next_fails() {
            self.faults += 1;
            return Took::Failed;
        }
        self.inner.write(piece)
    }
}
