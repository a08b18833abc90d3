//! The groups of a request: each names a part of a file.

use modbus_frame::Word;

/// A part of a file: so many records of it, from this one on.
#[derive(Clone, Copy, Debug, PartialEq, Eq)]
pub struct Group {
    /// Its reference type; that of records of files is 6.
    pub reference: u8,
    /// The file, from 1 on.
    pub file: Word,
    /// The first record, from 0 on.
    pub first: Word,
    /// How many records, which are registers.
    pub len: Word,
}
