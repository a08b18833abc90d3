//! The encoders of frames: the slave address, the PDU, and the checksum of both (MODBUS over Serial Line V1.02, section 2.5.1).
ghost use Rattle.std.specs.Prelude.{◌≡◌, ◌+◌, ◌%◌, ◌/◌, ◌<◌, ◌≤◌, [], ◌∷◌, ◌++◌, length, drop, Err};
ghost use Rattle.std.specs.Result.{ForErr};
ghost use Rattle.modbus_frame.specs.Codes.{function_number};
ghost use Rattle.modbus_frame.specs.Meaning.{meaning};
ghost use Rattle.modbus_pdu.specs.Encodes.{Encodes};
ghost use Rattle.modbus_pdu.specs.RequestPdu.{request_pdu};
ghost use Rattle.modbus_pdu.specs.ResponsePdu.{response_result_pdu};
ghost use Rattle.modbus_rtu.specs.Checksum.{crc};
ghost use Rattle.modbus_rtu.specs.Frame.{frame};
ghost use Rattle.modbus_rtu.specs.Limits.{max_frame};
ghost use Rattle.modbus_frame.specs.FunctionCodes.{exception_bit};

use crate::crc::calc_crc;
use crate::length::OVERHEAD;
use bytes::BytesMut;
use modbus_frame::{EncodeError, ExceptionResponse, Request, Response, SlaveId};
use modbus_pdu::{
    put_request_pdu, put_response_result_pdu, request_pdu_size, response_result_pdu_size,
};
use std::alloc::Global;

/// Appends the checksum of the bytes from `start` on, its low byte first.
#[inline]
fn put_checksum(buf: &mut BytesMut, start: usize)
    requires start { start ≤ length buf.old.items }
    requires room { 2 ≤ buf.old.spare }
    ensures items { buf.new.items ≡ buf.old.items
        ++ crc (drop start buf.old.items) % 256 ∷ crc (drop start buf.old.items) / 256 ∷ [] }
    ensures spare { buf.new.spare + 2 ≡ buf.old.spare }
{
    let sum = calc_crc(&buf.as_slice()[start..]);
    buf.extend_reserved(&sum.to_le_bytes());
}

/// Appends the frame of a request: its slave address, its PDU, and the checksum of both.
///
/// # Errors
/// `TooLong` with the size of the PDU in bytes, exactly where that is above `MAX_PDU`. `NoMemory` where memory is refused. The
/// bytes of the buffer are then as they were.
// Taken into each caller, so that a caller which makes few kinds of requests pays for those alone.
#[inline(always)]
#[tactic(auto, unfolding(crate::specs::Frame::frame))]
pub fn encode_request_frame(
    _alloc: Global,
    slave: SlaveId,
    request: &Request<'_>,
    buf: &mut BytesMut,
) -> Result<(), EncodeError>
    ensures { Encodes (frame slave (request_pdu (meaning request.now)))
        (request_pdu (meaning request.now)) buf.old.items result buf.new.items }
{
    let pdu_len = request_pdu_size(request)?;
    // One growth for the whole frame.
    buf.reserve(pdu_len + OVERHEAD)?;
    let start = buf.len();
    buf.extend_reserved(&[slave]);
    put_request_pdu(buf, request);
    put_checksum(buf, start);
    Ok(())
}

/// Appends the frame of a response or an exception: its slave address, its PDU, and the checksum of both. The function of an
/// exception is below `EXCEPTION_BIT`.
///
/// # Errors
/// `TooLong` with the size of the PDU in bytes, exactly where that is above `MAX_PDU`. `NoMemory` where memory is refused, only
/// where the buffer had no room for the whole frame. The bytes of the buffer are then as they were.
#[inline(always)]
#[tactic(auto, unfolding(crate::specs::Frame::frame))]
pub fn encode_response_frame(
    _alloc: Global,
    slave: SlaveId,
    answer: &Result<Response, ExceptionResponse>,
    buf: &mut BytesMut,
) -> Result<(), EncodeError>
    requires { ForErr answer.now (λ refusal. function_number refusal.function < exception_bit) }
    ensures encodes { Encodes (frame slave (response_result_pdu answer.now))
        (response_result_pdu answer.now) buf.old.items result buf.new.items }
    ensures memory { result ≡ Err EncodeError.NoMemory
        → buf.old.spare < length (frame slave (response_result_pdu answer.now)) }
    ensures longest { result ≡ Err EncodeError.NoMemory → buf.old.spare < max_frame }

    // All in all the buffer has as much room as it had.
    ensures room { length buf.old.items + buf.old.spare ≤ length buf.new.items + buf.new.spare }
{
    let pdu_len = response_result_pdu_size(answer)?;
    // One growth for the whole frame.
    buf.reserve(pdu_len + OVERHEAD)?;
    let start = buf.len();
    buf.extend_reserved(&[slave]);
    put_response_result_pdu(buf, answer);
    put_checksum(buf, start);
    Ok(())
}
