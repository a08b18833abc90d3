//! The encoders of frames: a `:`, the digits of slave address, PDU and LRC, and CR and LF (MODBUS over Serial Line V1.02, section 2.5.2.1).
ghost use Rattle.std.specs.Prelude.{◌≡◌, ◌+◌, ◌*◌, ◌<◌, ◌≤◌, [], ◌∷◌, ◌++◌, length, take, drop, Err};
ghost use Rattle.std.specs.Result.{ForErr};
ghost use Rattle.modbus_frame.specs.Codes.{function_number};
ghost use Rattle.modbus_frame.specs.FunctionCodes.{exception_bit};
ghost use Rattle.modbus_frame.specs.Meaning.{meaning};
ghost use Rattle.modbus_pdu.specs.Encodes.{Encodes};
ghost use Rattle.modbus_pdu.specs.RequestPdu.{request_pdu};
ghost use Rattle.modbus_pdu.specs.ResponsePdu.{response_result_pdu};
ghost use Rattle.modbus_ascii.specs.Checksum.{lrc as check};
ghost use Rattle.modbus_ascii.specs.Encoder.{text_of, frame};
ghost use Rattle.modbus_ascii.specs.Limits.{colon, carriage_return, line_feed, max_body};

use crate::checksum::lrc;
use crate::decoder::{CARRIAGE_RETURN, COLON, LINE_FEED};
use crate::digit::digit_of;
use crate::limits::{MARKS, MAX_BODY, OVERHEAD};
use arrayvec::ArrayVec;
use bytes::BytesMut;
use modbus_frame::{EncodeError, ExceptionResponse, Request, Response, SlaveId};
use modbus_pdu::{
    put_request_pdu, put_response_result_pdu, request_pdu_size, response_result_pdu_size,
};
use std::alloc::Global;

/// Appends the digits of bytes.
#[tactic(auto, unfolding(crate::specs::Encoder::text_of))]
fn put_text(buf: &mut BytesMut, bytes: &[u8])
    requires { 2 * length bytes.now ≤ buf.old.spare }
    ensures items { buf.new.items ≡ buf.old.items ++ text_of bytes.now }
    ensures spare { buf.new.spare + 2 * length bytes.now ≡ buf.old.spare }
{
    for byte in bytes {
        buf.extend_reserved(&[digit_of(*byte / 16), digit_of(*byte % 16)]);
    }
}

/// Copies the slave address and the PDU of a frame.
fn copy_body(bytes: &[u8]) -> ArrayVec<u8, MAX_BODY>
    requires { length bytes.now ≤ max_body }
    ensures { result.items ≡ bytes.now }
{
    match ArrayVec::try_from(bytes) {
        Ok(copy) => copy,
        Err(_) => unreachable!(),
    }
}

/// Appends the frame of a slave address and a PDU.
fn put_frame(buf: &mut BytesMut, bytes: &[u8])
    requires { 2 * (length bytes.now + 1) + 3 ≤ buf.old.spare }
    ensures items { buf.new.items ≡ buf.old.items
        ++ (colon ∷ text_of (bytes.now ++ check bytes.now ∷ [])
        ++ carriage_return ∷ line_feed ∷ []) }
    ensures room { length buf.new.items + buf.new.spare ≡ length buf.old.items + buf.old.spare }
{
    let sum = lrc(bytes);
    buf.extend_reserved(&[COLON]);
    put_text(buf, bytes);
    put_text(buf, &[sum]);
    buf.extend_reserved(&[CARRIAGE_RETURN, LINE_FEED]);
}

/// Puts the frame of a slave address and a PDU in their place, which are the bytes from `start` on.
fn frame_from(buf: &mut BytesMut, start: usize)
    requires start { start ≤ length buf.old.items }
    requires fits { length buf.old.items ≤ start + max_body }
    requires room { 2 * (length (drop start buf.old.items) + 1) + 3
        ≤ length (drop start buf.old.items) + buf.old.spare }
    ensures items { let bytes = drop start buf.old.items in buf.new.items ≡ take start buf.old.items
        ++ (colon ∷ text_of (bytes ++ check bytes ∷ []) ++ carriage_return ∷ line_feed ∷ []) }
    ensures room { length buf.new.items + buf.new.spare ≡ length buf.old.items + buf.old.spare }
{
    let bytes = copy_body(&buf.as_slice()[start..]);
    buf.truncate(start);
    put_frame(buf, bytes.as_slice());
}

/// Appends the frame of a request: a `:`, the digits of its slave address, of its PDU and of the LRC of both, and CR and LF.
///
/// # Errors
/// `TooLong` with the size of the PDU in bytes, exactly where that is above `MAX_PDU`. `NoMemory` where memory is refused. The
/// bytes of the buffer are then as they were.
#[tactic(auto, unfolding(crate::specs::Encoder::frame))]
pub fn encode_request_frame(
    _alloc: Global,
    slave: SlaveId,
    request: &Request<'_>,
    buf: &mut BytesMut,
) -> Result<(), EncodeError>
    ensures { let pdu = request_pdu (meaning request.now)
        in Encodes (frame slave pdu) pdu buf.old.items result buf.new.items }
{
    let pdu_len = request_pdu_size(request)?;
    // One growth for the whole frame.
    buf.reserve(2 * (pdu_len + OVERHEAD) + MARKS)?;
    let start = buf.len();
    buf.extend_reserved(&[slave]);
    put_request_pdu(buf, request);
    frame_from(buf, start);
    Ok(())
}

/// Appends the frame of a response or an exception: a `:`, the digits of its slave address, of its PDU and of the LRC of both, and CR and
/// LF. The function of an exception is below `EXCEPTION_BIT`.
///
/// # Errors
/// `TooLong` with the size of the PDU in bytes, exactly where that is above `MAX_PDU`. `NoMemory` where memory is refused, only
/// where the buffer had no room for the whole frame. The bytes of the buffer are then as they were.
#[tactic(auto, unfolding(crate::specs::Encoder::frame))]
pub fn encode_response_frame(
    _alloc: Global,
    slave: SlaveId,
    answer: &Result<Response, ExceptionResponse>,
    buf: &mut BytesMut,
) -> Result<(), EncodeError>
    requires { ForErr answer.now (λ refusal. function_number refusal.function < exception_bit) }
    ensures encodes { let pdu = response_result_pdu answer.now
        in Encodes (frame slave pdu) pdu buf.old.items result buf.new.items }
    ensures memory { result ≡ Err EncodeError.NoMemory
        → buf.old.spare < length (frame slave (response_result_pdu answer.now)) }

    // All in all the buffer has as much room as it had.
    ensures room { length buf.old.items + buf.old.spare ≤ length buf.new.items + buf.new.spare }
{
    let pdu_len = response_result_pdu_size(answer)?;
    // One growth for the whole frame.
    buf.reserve(2 * (pdu_len + OVERHEAD) + MARKS)?;
    let start = buf.len();
    buf.extend_reserved(&[slave]);
    put_response_result_pdu(buf, answer);
    frame_from(buf, start);
    Ok(())
}
