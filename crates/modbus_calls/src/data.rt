//! The data of a response that has no layout of its own, and what a typed call makes of it.
ghost use Rattle.std.specs.Prelude.{◌≡◌, ◌+◌, ◌*◌};
ghost use Rattle.modbus_frame.specs.declared.code.FunctionCode.TheVariants as function_code;
ghost use Rattle.modbus_frame.specs.declared.response.Response.TheVariants as response_kind;
ghost use Rattle.modbus_client.specs.Typed.{pick_answer};
ghost use Rattle.modbus_calls.specs.Data.{word_of, is_busy};
ghost use Rattle.modbus_calls.specs.Picks.{pick_of, exception_status_of};

use bytes::Bytes;
use modbus_frame::{Error, FunctionCode, ProtocolError, Response, Result, Word};

/// The word of two bytes, the high one first.
pub(crate) fn word_of(high: u8, low: u8) -> Word
    ensures { result ≡ word_of high low }
{
    256 * Word::from(high) + Word::from(low)
}

/// Whether a status word says that the device is busy; `None` where it is no status.
pub(crate) fn status(high: u8, low: u8) -> Option<bool>
    ensures { result ≡ is_busy high low }
{
    if high == 0 && low == 0 {
        Some(false)
    } else if high == 0xFF && low == 0xFF {
        Some(true)
    } else {
        None
    }
}

/// The outputs that a response of Read Exception Status has.
pub(crate) fn exception_status_of(bytes: &[u8]) -> Option<u8>
    ensures { result ≡ exception_status_of bytes.now }
{
    match bytes {
        [status] => Some(*status),
        _ => None,
    }
}

/// The fault that a response is of another kind than the request of this function.
pub(crate) fn another_kind(function: FunctionCode, response: Response) -> Error
    ensures { result ≡ Error.Protocol (ProtocolError.FunctionCodeMismatch function (Ok response)) }
{
    Error::Protocol(ProtocolError::FunctionCodeMismatch {
        request: function,
        result: Ok(response),
    })
}

/// The value that was found in the data of a response of this function.
///
/// # Errors
/// `PayloadMismatch` with the response exactly where none was found.
pub(crate) fn fitting<T>(function: u8, bytes: Bytes, found: Option<T>) -> Result<T>
    ensures { let response = response_kind.Custom function bytes
        in result ≡ pick_answer (function_code.Custom function) response (pick_of found) }
{
    match found {
        Some(value) => Ok(Ok(value)),
        None => Err(Error::Protocol(ProtocolError::PayloadMismatch {
            response: Response::Custom(function, bytes),
        })),
    }
}
