//! Where records of files are (Modbus Application Protocol V1.1b3, section 6.14).
ghost use Rattle.std.specs.Prelude.{◌≡◌, ◌<◌, ◌≤◌, ◌↔◌, IsSome, IfSome};
ghost use Rattle.modbus_calls.specs.FileLimits.{last_record, most_read, IsPlace, IsRead};

use modbus_frame::Quantity;

/// The number of the last record of a file.
pub const LAST_RECORD: u16 = 0x270F;

/// How many registers a call reads at most, so that the PDU of the response has no more than 253 bytes.
pub const MAX_RECORDS_READ: Quantity = 124;

/// A record of a file, which is a register.
#[derive(Clone, Copy, Debug, PartialEq, Eq)]
pub struct FilePlace {
    /// The number of the file, from 1 on.
    pub file: u16,
    /// The number of the record, up to [`LAST_RECORD`].
    pub record_number: u16,
    ghost in_files: { 0 < file },
    ghost in_records: { record_number ≤ last_record },
}

impl FilePlace {
    /// A record of a file; `None` where the standard has no such file or record.
    pub fn new(file: u16, record_number: u16) -> Option<FilePlace>
        ensures some { IsSome result ↔ IsPlace file record_number }
        ensures file { IfSome result (λ place. place.file ≡ file) }
        ensures record_number { IfSome result (λ place. place.record_number ≡ record_number) }
    {
        if file == 0 || record_number > LAST_RECORD {
            return None;
        }
        Some(FilePlace {
            file,
            record_number,
        })
    }
}

/// Records of a file, one after another.
#[derive(Clone, Copy, Debug, PartialEq, Eq)]
pub struct FileRange {
    /// The first record.
    pub place: FilePlace,
    /// How many: from 1 to [`MAX_RECORDS_READ`].
    pub len: Quantity,
    ghost some: { 0 < len },
    ghost fits: { len ≤ most_read },
}

impl FileRange {
    /// So many records from this one on; `None` where they are none, or more than one response has.
    pub fn new(place: FilePlace, len: Quantity) -> Option<FileRange>
        ensures some { IsSome result ↔ IsRead len }
        ensures place { IfSome result (λ range. range.place ≡ place) }
        ensures len { IfSome result (λ range. range.len ≡ len) }
    {
        if len == 0 || len > MAX_RECORDS_READ {
            return None;
        }
        Some(FileRange { place, len })
    }
}
