//! The places of a command: a file read, a file written, a line written.

ghost use Rattle.std.specs.Prelude.{◌≡◌, ◌<◌, ◌++◌, ℕ, slice_index, codes, OnOk, OnErr, IfOk, IfErr};
ghost use Rattle.q_io.specs.FilesMeaning.{FilesCountsStay, Spoils};
ghost use Rattle.commands.specs.Lines.{Says, SaysTrouble, status_after};
ghost use Rattle.commands.specs.Plan.{HasRead, HasWritten, ReadTrouble, WriteTrouble};

use crate::status::Status;
use q_io::{Files, Got, Put, Sink, put_all, put_three};

/// What stops a command at a read or a write.
#[derive(Clone, Copy, Debug, PartialEq, Eq)]
pub enum Trouble {
    Missing,
    TooLong,
    ReadFault,
    WriteFault,
    Memory,
}

/// Each item is a byte.
pub fn each_below(bytes: &[u8])
    ensures { (i : ℕ) → slice_index bytes.now i < 256 }
{}

/// What was read: each of it is a byte.
fn found(bytes: Vec<u8>) -> Vec<u8>
    ensures same { result.items ≡ bytes.items }
    ensures each { (i : ℕ) → slice_index result.items i < 256 }
{
    each_below(&bytes);
    bytes
}

/// Reads a file of at most `limit` bytes.
pub fn read_place<F: Files>(files: &mut F, name: &str, limit: u64) -> Result<Vec<u8>, Trouble>
    ensures counts { FilesCountsStay (F.state files.old) (F.state files.new) }
    ensures files { (F.state files.new).told ≡ (F.state files.old).told }
    ensures read { IfOk result (λ bytes.
        HasRead (F.state files.old) (F.state files.new) name.now limit bytes.items) }
    ensures trouble { IfErr result
        (ReadTrouble (F.state files.old) (F.state files.new) name.now limit) }
{
    match files.read(name, limit) {
        Got::Found(bytes) => Ok(found(bytes)),
        Got::TooLong => Err(Trouble::TooLong),
        Got::Missing => Err(Trouble::Missing),
        Got::Failed => Err(Trouble::ReadFault),
        Got::Memory => Err(Trouble::Memory),
    }
}

/// Writes a file.
pub fn write_place<F: Files>(files: &mut F, name: &str, bytes: &[u8]) -> Result<(), Trouble>
    ensures counts { FilesCountsStay (F.state files.old) (F.state files.new) }
    ensures wrote { OnOk result (HasWritten (F.state files.old) (F.state files.new) name.now bytes.now) }
    ensures spoils { OnErr result (Spoils (F.state files.old) (F.state files.new) name.now) }
    ensures trouble { IfErr result (WriteTrouble (F.state files.old) (F.state files.new)) }
{
    match files.write(name, bytes) {
        Put::Done => Ok(()),
        Put::Failed => Err(Trouble::WriteFault),
        Put::Memory => Err(Trouble::Memory),
    }
}

/// The status that is left once its line was put, or wasn't.
pub fn after_put(put: Put, status: Status) -> Status
    ensures { result ≡ status_after put status }
{
    match put {
        Put::Done => status,
        Put::Failed => Status::WriteFault,
        Put::Memory => Status::Memory,
    }
}

/// Writes a line, and answers the status that is left then.
pub fn say<S: Sink>(out: &mut S, line: &[u8], status: Status) -> Status
    ensures { Says (S.state out.old) (S.state out.new) line.now status result }
{
    after_put(put_all(out, line), status)
}

/// Writes the line of a trouble with a file. Want of memory has none.
pub fn say_trouble<S: Sink>(out: &mut S, trouble: Trouble, name: &str) -> Status
    ensures { SaysTrouble (S.state out.old) (S.state out.new) trouble name.now result }
{
    match trouble {
        Trouble::Missing => say_name(out, b"missing ", name, Status::Missing),
        Trouble::TooLong => say_name(out, b"too long ", name, Status::TooLong),
        Trouble::ReadFault => say_name(out, b"read fault ", name, Status::ReadFault),
        Trouble::WriteFault => say_name(out, b"write fault ", name, Status::WriteFault),
        Trouble::Memory => Status::Memory,
    }
}

fn say_name<S: Sink>(out: &mut S, label: &[u8], name: &str, status: Status) -> Status
    ensures { Says (S.state out.old) (S.state out.new) (label.now ++ (name.now ++ codes "\n")) status result }
{
    after_put(put_three(out, label, name.as_bytes(), b"\n"), status)
}
