//! What a call tells: the statuses of all exports, and the numbers of the reasons for which a PDU is refused. Each stands here alone; the
//! definitions take them from here, and the header is compared with them.
ghost use Rattle.std.specs.Prelude.{◌≡◌};
ghost use Rattle.modbus_c.specs.Status.{reason_number};

use modbus_frame::Reason;

/// A message was found, a request answered, a PDU read or written.
pub const MODBUS_DONE: u32 = 0;

/// No whole message: more bytes are waited for.
pub const MODBUS_WAITING: u32 = 1;

/// What was asked has its effect, and no answer.
pub const MODBUS_SILENT: u32 = 2;

/// The PDU is refused, for the reason that `detail` tells.
pub const MODBUS_REFUSED: u32 = 3;

/// Memory was refused.
pub const MODBUS_NO_MEMORY: u32 = 4;

/// The header of an ADU tells a length that is none.
pub const MODBUS_NO_LENGTH: u32 = 5;

/// The header of an ADU tells another protocol, `detail`.
pub const MODBUS_FOREIGN: u32 = 6;

/// No frame stands at the first twenty offsets.
pub const MODBUS_CROWD: u32 = 7;

/// An array of the caller is too short.
pub const MODBUS_NO_ROOM: u32 = 8;

/// The struct does not tell such a function.
pub const MODBUS_UNTOLD: u32 = 9;

/// The PDU would have more than 253 bytes.
pub const MODBUS_TOO_LONG: u32 = 10;

/// The reply is of another slave than was asked.
pub const MODBUS_HEADER_MISMATCH: u32 = 11;

/// The reply is of another function than was asked.
pub const MODBUS_FUNCTION_MISMATCH: u32 = 12;

/// No whole message, and no room for more bytes.
pub const MODBUS_FULL: u32 = 13;

/// The reply is of the slave and the function that were asked, and does not fit the request.
pub const MODBUS_MISMATCH: u32 = 15;

/// The reply is an exception, of the code `detail`.
pub const MODBUS_EXCEPTION: u32 = 16;

/// The number of a reason.
pub(crate) fn number_of(reason: Reason) -> u32
    ensures { result ≡ reason_number reason }
{
    match reason {
        Reason::UnexpectedEnd => 1,
        Reason::SizeExceeded => 2,
        Reason::TooShort => 3,
        Reason::InvalidQuantity => 4,
        Reason::InvalidCoil(_) => 5,
        Reason::UnsupportedMei(_) => 6,
        Reason::InvalidReadCode(_) => 7,
        Reason::InvalidConformity(_) => 8,
        Reason::InvalidRunStatus(_) => 9,
        Reason::InvalidObjectLength => 10,
        Reason::InvalidFunction(_) => 11,
        Reason::UndecodedData => 12,
    }
}

/// What the reading or the writing of a PDU comes to.
#[repr(C)]
#[derive(Clone, Copy)]
pub struct ModbusDone {
    /// One of the statuses.
    pub status: u32,
    /// The number of the reason, where the status is `MODBUS_REFUSED`; else 0.
    pub detail: u32,
    /// How many bytes were written, or 0.
    pub written: usize,
}

/// What a call tells that wrote nothing.
pub(crate) fn nothing(status: u32, detail: u32) -> ModbusDone
    ensures { result ≡ record { status = status; detail = detail; written = 0 } }
{
    ModbusDone {
        status,
        detail,
        written: 0,
    }
}
