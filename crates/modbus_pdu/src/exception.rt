//! Exception responses, read from PDUs and written.
//!
//! A server that refuses a request answers with the request's function code plus `EXCEPTION_BIT`, and the
//! exception code (MODBUS Application Protocol V1.1b3, section 7).
ghost use Rattle.std.specs.Prelude.{◌≡◌, ◌+◌, ◌<◌, ◌≤◌, ◌++◌, OnOk, OnErr};
ghost use Rattle.bytes.specs.Filled.{UsesSpare};
ghost use Rattle.modbus_frame.specs.Codes.{function_number};
ghost use Rattle.modbus_frame.specs.FunctionCodes.{exception_bit};
ghost use Rattle.modbus_pdu.specs.Limits.{one_byte_pdu};
ghost use Rattle.modbus_pdu.specs.ResponseOf.{exception_response_of};
ghost use Rattle.modbus_pdu.specs.ResponsePdu.{exception_pdu};

use crate::limits::ONE_BYTE_PDU;
use crate::writing::put_byte;
use bytes::BytesMut;
use modbus_frame::function_code::EXCEPTION_BIT;
use modbus_frame::{ExceptionCode, ExceptionResponse, FunctionCode, Reason};
use std::alloc::{AllocError, Global};

/// The exception of a PDU (section 7).
///
/// `UnexpectedEnd` where one of its two bytes is missing, and `InvalidFunction` with a first byte
/// below `EXCEPTION_BIT`, also where it is the only one. Bytes after the second are ignored.
#[tactic(auto, unfolding(crate::specs::ResponseOf::exception_response_of))]
pub fn decode_exception(pdu: &[u8]) -> Result<ExceptionResponse, Reason>
    ensures exception { result ≡ exception_response_of pdu.now }
{
    match pdu {
        [code, ..] if *code < EXCEPTION_BIT => Err(Reason::InvalidFunction(*code)),
        [code, exception, ..] => Ok(ExceptionResponse {
            function: FunctionCode::new(*code - EXCEPTION_BIT),
            exception: ExceptionCode::new(*exception),
        }),
        _ => Err(Reason::UnexpectedEnd),
    }
}

/// Appends the PDU of an exception, two bytes (section 7).
///
/// The one error is refused memory, which leaves the bytes of the buffer as they were and comes only where the buffer had no room
/// for both. What memory it takes is of the buffer's own allocator.
pub fn encode_exception_response_pdu(
    _alloc: Global,
    buf: &mut BytesMut,
    response: ExceptionResponse,
) -> Result<(), AllocError>
    requires { function_number response.function < exception_bit }
    ensures ok { OnOk result (buf.new.items ≡ buf.old.items ++ exception_pdu response) }
    ensures err { OnErr result (buf.new.items ≡ buf.old.items) }
    ensures spare { UsesSpare result buf.old.spare buf.new.spare one_byte_pdu }
{
    buf.reserve(ONE_BYTE_PDU)?;
    put_exception(buf, response);
    Ok(())
}

/// Appends the PDU of an exception, where the buffer has room for it.
pub(crate) fn put_exception(buf: &mut BytesMut, response: ExceptionResponse)
    requires function { function_number response.function < exception_bit }
    requires room { one_byte_pdu ≤ buf.old.spare }
    ensures items { buf.new.items ≡ buf.old.items ++ exception_pdu response }
    ensures spare { buf.new.spare + one_byte_pdu ≡ buf.old.spare }
{
    put_byte(buf, response.function.value() + EXCEPTION_BIT);
    put_byte(buf, response.exception.into());
}
