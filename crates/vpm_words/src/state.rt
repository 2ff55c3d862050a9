//! What a peripheral access looks at and changes: the setups of its QPU, and what the QPUs share.

use crate::queue::Queue;
use crate::transfer::Transfer;

/// One element of a transfer: `size` bytes of memory, and as many in a word of the VPM from bit `low` on.
///
/// The address is wider than the 32 bits of a transfer's, so that each element stands where the sum says.
#[derive(Clone, Copy, Debug, Default, PartialEq, Eq)]
pub struct Element {
    pub address: u64,
    pub size: u8,
    pub row: u8,
    pub col: u8,
    pub low: u8,
}

/// Where bytes lie in the memory.
#[derive(Clone, Copy, Debug, PartialEq, Eq)]
pub struct Region {
    pub start: u32,
    pub len: u32,
}

/// A QPU's own setups.
///
/// `taken` counts its uniforms taken, `rows_left` the rows that its read setup has left from `read_row` on, and `age` the words that
/// it did since its last read setup of rows, up to 3.
#[derive(Clone, Copy, Debug, PartialEq, Eq)]
pub struct Ports {
    pub taken: u32,
    pub read_row: u8,
    pub rows_left: u8,
    pub age: u8,
    pub write_row: Option<u8>,
    pub load: Option<Transfer>,
    pub store: Option<Transfer>,
}

/// What the QPUs share, but for the memory: the VPM, the owner of the mutex, and the elements that each engine has left.
#[derive(Drop)]
pub struct Shared {
    pub vpm: [[u32; 16]; 64],
    pub owner: Option<u32>,
    pub loads: Queue,
    pub stores: Queue,
}

/// A peripheral access of a word.
#[derive(Clone, Copy, Debug, PartialEq, Eq)]
pub enum Access {
    /// Address 32 is read: the next uniform.
    Uniform,
    /// Address 48 is read: the next row of the read setup.
    ReadVpm,
    /// Address 48 is written: the next row of the write setup.
    WriteVpm,
    /// Address 49 is written through file A.
    ReadSet,
    /// Address 49 is written through file B.
    WriteSet,
    /// Address 50 is written through file A: a load starts.
    LoadAddr,
    /// Address 50 is written through file B: a store starts.
    StoreAddr,
    /// Address 50 is read as A.
    WaitLoad,
    /// Address 50 is read as B.
    WaitStore,
    /// Address 51 is read: the mutex is acquired.
    Lock,
    /// Address 51 is written: the mutex is released.
    Unlock,
}

/// Who owns the mutex, as one QPU sees it.
#[derive(Clone, Copy, Debug, PartialEq, Eq)]
pub enum Owner {
    Nobody,
    Me,
    Other,
}

/// What the restrictions on an access look at, besides the access and the age of the read setup.
///
/// `value` is element 0 of what is written to a setup or an address; `row_busy` speaks of the row that a read or write of the VPM
/// touches; `fits` is false exactly where a transfer that has its setup is started at an address that isn't a multiple of the element's
/// size, or outside the memory that it may move.
#[derive(Clone, Copy, Debug, PartialEq, Eq)]
pub struct Seen {
    pub uniforms: u32,
    pub owner: Owner,
    pub read_rows: u8,
    pub write_set: bool,
    pub load_set: bool,
    pub store_set: bool,
    pub load_busy: bool,
    pub store_busy: bool,
    pub row_busy: bool,
    pub value: u32,
    pub fits: bool,
}

/// The restrictions of the processor, in order of number.
#[derive(Clone, Copy, Debug, PartialEq, Eq)]
pub enum Rule {
    /// The place is outside the code, or the word is outside the profile.
    H0,
    /// The word reads a register of file A or B that the word before it wrote.
    H1,
    /// The word rotates, and a mul selector isn't 0 to 3 or names an accumulator that the word before it wrote.
    H2,
    /// The word rotates by r5, which the word before it wrote.
    H3,
    /// A uniform is read past the QPU's last one.
    H4,
    /// The word has two or more peripheral accesses.
    H5,
    /// A branch or program end stands in a delay slot, or in the two words after a program end.
    H6,
    /// A program end writes a register of a file, or it or one of the two words after it has a peripheral access.
    H7,
    /// The owner acquires the mutex, or a QPU that isn't the owner releases it.
    H8,
    /// A QPU that isn't the owner accesses the VPM, a setup, an address or a wait.
    H9,
    /// A row of the VPM is read or written in which an element of a transfer is left.
    H10,
    /// A transfer is started on an engine that has elements left, or the mutex is released while either has.
    H11,
    /// A transfer that has its setup is started, and its address isn't a multiple of the element's size or its bytes don't lie in one
    /// buffer or the scratch.
    H12,
    /// A read of the VPM has no row left, or comes fewer than three words after the read setup of rows.
    H13,
    /// The value of a setup is no setup's word.
    H14,
    /// The VPM is written without a write row, or a transfer is started without its setup.
    H15,
    /// Rows are asked for while rows of the last read setup are left.
    H16,
}
