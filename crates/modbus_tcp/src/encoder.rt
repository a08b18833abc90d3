//! ADUs, written as an MBAP header and a PDU (MODBUS Messaging on TCP/IP V1.0b, section 3.1).
ghost use Rattle.std.specs.Prelude.{◌≡◌, ◌+◌, ◌<◌, ◌≤◌, [], ◌∷◌, ◌++◌, length, Err};
ghost use Rattle.std.specs.Result.{ForErr};
ghost use Rattle.modbus_frame.specs.Codes.{function_number};
ghost use Rattle.modbus_frame.specs.FunctionCodes.{exception_bit};
ghost use Rattle.modbus_frame.specs.Meaning.{meaning};
ghost use Rattle.modbus_pdu.specs.Encodes.{Encodes};
ghost use Rattle.modbus_pdu.specs.Limits.{max_pdu};
ghost use Rattle.modbus_pdu.specs.RequestPdu.{request_pdu};
ghost use Rattle.modbus_pdu.specs.ResponsePdu.{response_result_pdu};
ghost use Rattle.modbus_pdu.specs.Word.{word};
ghost use Rattle.modbus_tcp.specs.Adu.{adu_of};
ghost use Rattle.modbus_tcp.specs.Limits.{unit_identifier, mbap_header, longest_response, modbus_protocol};

use crate::mbap::{HEADER, MODBUS, UNIT_IDENTIFIER};
use bytes::BytesMut;
use modbus_frame::{EncodeError, ExceptionResponse, Request, Response, tcp};
use modbus_pdu::{
    put_request_pdu, put_response_result_pdu, request_pdu_size, response_result_pdu_size,
};
use std::alloc::Global;

/// Appends the header of an ADU whose PDU has so many bytes (section 3.1.3).
#[inline(always)]
fn put_header(buf: &mut BytesMut, header: tcp::Header, pdu_len: usize)
    requires fits { pdu_len ≤ max_pdu }
    requires room { mbap_header ≤ buf.old.spare }
    ensures items { buf.new.items ≡ buf.old.items ++ word header.transaction_id
        ++ word modbus_protocol ++ word (pdu_len + unit_identifier) ++ header.unit_id ∷ [] }
    ensures spare { buf.new.spare + mbap_header ≡ buf.old.spare }
{
    let [t0, t1] = header.transaction_id.to_be_bytes();
    let [p0, p1] = MODBUS.to_be_bytes();
    let [l0, l1] = ((pdu_len + UNIT_IDENTIFIER) as u16).to_be_bytes();
    let start = buf.len();
    buf.advance_mut(HEADER);
    buf.as_mut_slice()[start..].copy_from_slice(&[t0, t1, p0, p1, l0, l1, header.unit_id]);
}

/// Appends the ADU of a request: the header, with its transaction and its unit identifier, and the PDU (section 3.1).
///
/// # Errors
/// `TooLong` with the size of the PDU in bytes, exactly where that is above `MAX_PDU`. `NoMemory` where memory is refused. The
/// bytes of the buffer are then as they were.
#[tactic(auto, unfolding(crate::specs::Adu::adu_of))]
pub fn encode_request_adu(
    _alloc: Global,
    header: tcp::Header,
    request: &Request<'_>,
    buf: &mut BytesMut,
) -> Result<(), EncodeError>
    ensures { Encodes (adu_of header (request_pdu (meaning request.now)))
        (request_pdu (meaning request.now)) buf.old.items result buf.new.items }
{
    let pdu_len = request_pdu_size(request)?;
    // One growth for the whole ADU.
    buf.reserve(HEADER + pdu_len)?;
    put_header(buf, header, pdu_len);
    put_request_pdu(buf, request);
    Ok(())
}

/// Appends the ADU of a response or an exception: the header, with the transaction and the unit identifier of the request, and the PDU
/// (section 3.1). The function of an exception is below `EXCEPTION_BIT`.
///
/// # Errors
/// `TooLong` with the size of the PDU in bytes, exactly where that is above `MAX_PDU`. `NoMemory` where memory is refused, only
/// where the buffer had no room for the whole ADU. The bytes of the buffer are then as they were.
#[inline(always)]
#[tactic(auto, unfolding(crate::specs::Adu::adu_of))]
pub fn encode_response_adu(
    _alloc: Global,
    header: tcp::Header,
    answer: &Result<Response, ExceptionResponse>,
    buf: &mut BytesMut,
) -> Result<(), EncodeError>
    requires { ForErr answer.now (λ refusal. function_number refusal.function < exception_bit) }
    ensures encodes { Encodes (adu_of header (response_result_pdu answer.now))
        (response_result_pdu answer.now) buf.old.items result buf.new.items }
    ensures memory { result ≡ Err EncodeError.NoMemory
        → buf.old.spare < length (adu_of header (response_result_pdu answer.now)) }
    ensures longest { result ≡ Err EncodeError.NoMemory → buf.old.spare < longest_response }

    // All in all the buffer has as much room as it had.
    ensures room { length buf.old.items + buf.old.spare ≤ length buf.new.items + buf.new.spare }
{
    let pdu_len = response_result_pdu_size(answer)?;
    // One growth for the whole ADU.
    buf.reserve(HEADER + pdu_len)?;
    put_header(buf, header, pdu_len);
    put_response_result_pdu(buf, answer);
    Ok(())
}
