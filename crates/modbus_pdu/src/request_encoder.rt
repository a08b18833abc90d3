//! Requests, written as the bytes of a PDU, and how many bytes these are.
ghost use Rattle.std.specs.Prelude.{◌≡◌, ◌≤◌, ◌+◌, ◌*◌, ◌++◌, ◌<◌, ◌^◌, ◌-◌, min, length, OnOk, OnErr, IfOk, IfErr};
ghost use Rattle.bytes.specs.Filled.{UsesSpare};
ghost use Rattle.modbus_frame.specs.Meaning.{meaning};
ghost use Rattle.modbus_pdu.specs.Encodes.{Fits, told_size};
ghost use Rattle.modbus_pdu.specs.Limits.{max_pdu};
ghost use Rattle.modbus_pdu.specs.RequestPdu.{counted_registers, request_pdu};

use crate::coils::{bool_to_coil, packed_coils_size, put_packed_coils};
use crate::limits::{
    CODE_PDU, IDENTIFICATION_REQUEST, MEI_DEVICE_IDENTIFICATION, ONE_WORD_PDU, READ_WRITE_HEAD,
    THREE_WORDS_PDU, TWO_WORDS_PDU, TooLong, WRITE_HEAD, within_limit,
};
use crate::writing::{put_byte, put_word, put_words};
use bytes::BytesMut;
use modbus_frame::{Request, Word};
use std::alloc::{AllocError, Global};

/// How many bytes the PDU of the request has, at most `MAX_PDU` (V1.1b3, section 4.1).
///
/// `TooLong` holds the size of a PDU that does not fit.
pub fn request_pdu_size(request: &Request<'_>) -> Result<usize, TooLong>
    ensures fits { IfOk result (λ size. (size ≡ length (request_pdu (meaning request.now)))
        × (size ≤ max_pdu)) }
    ensures long { IfErr result (λ error. (max_pdu < length (request_pdu (meaning request.now)))
        × (error.0 ≡ told_size (request_pdu (meaning request.now)))) }
{
    within_limit(request_len(request))
}

/// Appends the PDU of a request whose size is at most `MAX_PDU` bytes (V1.1b3, sections 6.1 to 6.6, 6.11
/// to 6.13, 6.16 to 6.18 and 6.21).
///
/// The one error is refused memory, which leaves the bytes of the buffer as they were and comes
/// only where the buffer had no room for the whole PDU.
pub fn encode_request_pdu(
    _alloc: Global,
    buf: &mut BytesMut,
    request: &Request<'_>,
) -> Result<(), AllocError>
    requires { Fits (request_pdu (meaning request.now)) }
    ensures ok { OnOk result (buf.new.items ≡ buf.old.items ++ request_pdu (meaning request.now)) }
    ensures err { OnErr result (buf.new.items ≡ buf.old.items) }
    ensures spare { UsesSpare result buf.old.spare buf.new.spare
        (length (request_pdu (meaning request.now))) }
{
    buf.reserve(request_len(request))?;
    put_request_pdu(buf, request);
    Ok(())
}

/// How many bytes the PDU of the request has, whether or not it fits, up to `usize::MAX`.
#[tactic(auto, using(crate::proofs::Sizes::sizes), unfolding(crate::specs::RequestPdu::request_pdu))]
fn request_len(request: &Request<'_>) -> usize
    ensures { result ≡ min (length (request_pdu (meaning request.now))) (2 ^ 64 - 1) }
{
    match request {
        Request::ReadCoils(_, _)
        | Request::ReadDiscreteInputs(_, _)
        | Request::ReadHoldingRegisters(_, _)
        | Request::ReadInputRegisters(_, _)
        | Request::WriteSingleCoil(_, _)
        | Request::WriteSingleRegister(_, _) => TWO_WORDS_PDU,
        Request::WriteMultipleCoils(_, coils) => WRITE_HEAD + packed_coils_size(coils.as_slice()),
        Request::WriteMultipleRegisters(_, registers) => registers
            .len()
            .saturating_mul(2)
            .saturating_add(WRITE_HEAD),
        Request::ReportServerId => CODE_PDU,
        Request::MaskWriteRegister(_, _, _) => THREE_WORDS_PDU,
        Request::ReadWriteMultipleRegisters(_, _, _, registers) => registers
            .len()
            .saturating_mul(2)
            .saturating_add(READ_WRITE_HEAD),
        Request::ReadFifoQueue(_) => ONE_WORD_PDU,
        Request::ReadDeviceIdentification(_, _) => IDENTIFICATION_REQUEST,
        Request::Custom(_, data) => data.len().saturating_add(CODE_PDU),
    }
}

/// Appends the PDU of a request whose size is at most `MAX_PDU` bytes (V1.1b3, sections 6.1 to 6.6, 6.11
/// to 6.13, 6.16 to 6.18 and 6.21), where the buffer has room for it.
#[inline(always)]
#[tactic(auto, using(crate::proofs::Sizes::sizes), unfolding(crate::specs::RequestPdu::request_pdu))]
pub fn put_request_pdu(buf: &mut BytesMut, request: &Request<'_>)
    requires fits { Fits (request_pdu (meaning request.now)) }
    requires room { length (request_pdu (meaning request.now)) ≤ buf.old.spare }
    ensures items { buf.new.items ≡ buf.old.items ++ request_pdu (meaning request.now) }
    ensures spare { buf.new.spare + length (request_pdu (meaning request.now)) ≡ buf.old.spare }
{
    put_byte(buf, request.function_code().value());
    match request {
        Request::ReadCoils(address, word)
        | Request::ReadDiscreteInputs(address, word)
        | Request::ReadHoldingRegisters(address, word)
        | Request::ReadInputRegisters(address, word)
        | Request::WriteSingleRegister(address, word) => {
            put_word(buf, *address);
            put_word(buf, *word);
        }
        Request::WriteSingleCoil(address, coil) => {
            put_word(buf, *address);
            put_word(buf, bool_to_coil(*coil));
        }
        Request::WriteMultipleCoils(address, coils) => {
            put_word(buf, *address);
            put_word(buf, coils.len() as u16);
            put_byte(buf, packed_coils_size(coils.as_slice()) as u8);
            put_packed_coils(buf, coils.as_slice());
        }
        Request::WriteMultipleRegisters(address, registers) => {
            put_word(buf, *address);
            put_registers(buf, registers.as_slice());
        }
        Request::ReportServerId => {}
        Request::MaskWriteRegister(address, and_mask, or_mask) => {
            put_word(buf, *address);
            put_word(buf, *and_mask);
            put_word(buf, *or_mask);
        }
        Request::ReadWriteMultipleRegisters(read_address, quantity, write_address, registers) => {
            put_word(buf, *read_address);
            put_word(buf, *quantity);
            put_word(buf, *write_address);
            put_registers(buf, registers.as_slice());
        }
        Request::ReadFifoQueue(address) => put_word(buf, *address),
        Request::ReadDeviceIdentification(code, id) => {
            put_byte(buf, MEI_DEVICE_IDENTIFICATION);
            put_byte(buf, code.value());
            put_byte(buf, *id);
        }
        Request::Custom(_, data) => buf.extend_reserved(data.as_slice()),
    }
}

/// Appends the number of the registers, their byte count and the registers.
fn put_registers(buf: &mut BytesMut, registers: &[Word])
    requires few { 2 * length registers.now < 256 }
    requires room { 3 + 2 * length registers.now ≤ buf.old.spare }
    ensures items { buf.new.items ≡ buf.old.items ++ counted_registers registers.now }
    ensures spare { buf.new.spare + 3 + 2 * length registers.now ≡ buf.old.spare }
{
    put_word(buf, registers.len() as u16);
    put_byte(buf, (2 * registers.len()) as u8);
    put_words(buf, registers);
}
