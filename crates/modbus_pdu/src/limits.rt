//! The numbers of a PDU: its greatest size, the quantities of coils and registers of a request, the sizes of the fixed kinds and of
//! the heads of the others, and the bytes that stand for something. specs/Limits.antt has each of them once more, and every
//! definition takes it from there.
ghost use Rattle.std.specs.Prelude.{◌≡◌, ◌<◌, ◌≤◌, ◌++◌, codes, IfOk, IfErr, Some};
ghost use Rattle.std.specs.Fmt.{decimal};
ghost use Rattle.modbus_frame.specs.declared.fault.EncodeError.TheVariants as encode;
ghost use Rattle.modbus_pdu.specs.Limits.{max_pdu};

use modbus_frame::EncodeError;
use std::error::Error;
use std::fmt;

/// The most bytes of a PDU (V1.1b3, section 4.1).
pub const MAX_PDU: usize = 253;

/// The most coils or discrete inputs of one read (V1.1b3, sections 6.1 and 6.2).
pub const MAX_READ_COILS: usize = 2000;

/// The most coils of one write (V1.1b3, section 6.11).
pub const MAX_WRITE_COILS: usize = 1968;

/// The most registers of one read (V1.1b3, sections 6.3, 6.4 and 6.17).
pub const MAX_READ_REGISTERS: usize = 125;

/// The most registers of one write (V1.1b3, section 6.12).
pub const MAX_WRITE_REGISTERS: usize = 123;

/// The most registers that a read and write writes (V1.1b3, section 6.17).
pub const MAX_READ_WRITE_REGISTERS: usize = 121;

/// The most registers of a queue (V1.1b3, section 6.18).
pub const MAX_FIFO_COUNT: usize = 31;

/// The MEI type of device identification (V1.1b3, section 6.21).
pub const MEI_DEVICE_IDENTIFICATION: u8 = 0x0E;

/// The bytes of the PDU of a function code alone (V1.1b3, sections 6.7, 6.9, 6.10 and 6.13).
pub const CODE_PDU: usize = 1;

/// The bytes of the PDU of a function code and a byte: an exception (V1.1b3, section 7), or a status (section 6.7).
pub const ONE_BYTE_PDU: usize = 2;

/// The bytes of the PDU of a function code and a word: an address (V1.1b3, section 6.18).
pub const ONE_WORD_PDU: usize = 3;

/// The bytes of the PDU of a function code and two words: an address, and a quantity or a value (V1.1b3, sections 6.1 to 6.6; of a
/// response, sections 6.5, 6.6, 6.11 and 6.12).
pub const TWO_WORDS_PDU: usize = 5;

/// The bytes of the PDU of a function code and three words: an address and two masks (V1.1b3, section 6.16).
pub const THREE_WORDS_PDU: usize = 7;

/// The bytes before the coils or registers of a write: the function code, an address, a quantity and the byte count (V1.1b3,
/// sections 6.11 and 6.12).
pub const WRITE_HEAD: usize = 6;

/// The bytes before the registers of a read and write: the function code, two addresses, two quantities and the byte count (V1.1b3,
/// section 6.17).
pub const READ_WRITE_HEAD: usize = 10;

/// The bytes of the PDU of a request for device identification (V1.1b3, section 6.21).
pub const IDENTIFICATION_REQUEST: usize = 4;

/// The bytes before the coils, registers or other data of a response: the function code and the byte count (V1.1b3, sections 6.1 to
/// 6.4 and 6.17).
pub const READ_HEAD: usize = 2;

/// The bytes before the data of a server: the function code, the byte count, an id and the run indicator (V1.1b3, section 6.13).
pub(crate) const SERVER_ID_HEAD: usize = 4;

/// The bytes of a queue that its byte count does not count: the function code and the byte count (V1.1b3, section 6.18).
pub const FIFO_HEAD: usize = 3;

/// The bytes of the count of a queue's registers, which its byte count counts too (V1.1b3, section 6.18).
pub(crate) const FIFO_COUNT_SIZE: usize = 2;

/// The bytes before the objects of a device identification, the last of which is their number (V1.1b3, section 6.21).
pub const IDENTIFICATION_HEAD: usize = 7;

/// The byte of a run indicator that is on, and of a more follows that is true (V1.1b3, sections 6.13 and 6.21).
pub(crate) const FLAG_ON: u8 = 0xFF;

/// The byte of a run indicator that is off, and of a more follows that is false.
pub(crate) const FLAG_OFF: u8 = 0x00;

/// A PDU would have this many bytes, more than `MAX_PDU`.
///
/// A size above `usize::MAX` is told as `usize::MAX`.
#[derive(Clone, Copy, Debug, PartialEq, Eq)]
pub struct TooLong(pub usize);

impl fmt::Display for TooLong {
    ghost output = { λ error. Some (codes "a PDU of " ++ decimal error.0
        ++ codes " bytes exceeds " ++ decimal max_pdu ++ codes " bytes") };

    fn fmt<W: fmt::Write>(&self, f: &mut fmt::Formatter<W>) -> fmt::Result {
        write!(f, "a PDU of {} bytes exceeds {} bytes", self.0, MAX_PDU)
    }
}

impl Error for TooLong {}

impl From<TooLong> for EncodeError {
    ghost from_gives = { λ fault error. error ≡ encode.TooLong fault.0 };

    fn from(fault: TooLong) -> EncodeError {
        EncodeError::TooLong(fault.0)
    }
}

/// The size, where a PDU may have so many bytes.
#[inline]
pub(crate) fn within_limit(size: usize) -> Result<usize, TooLong>
    ensures fits { IfOk result (λ found. (found ≡ size) × (size ≤ max_pdu)) }
    ensures long { IfErr result (λ error. (max_pdu < size) × (error.0 ≡ size)) }
{
    if size <= MAX_PDU {
        Ok(size)
    } else {
        Err(TooLong(size))
    }
}
