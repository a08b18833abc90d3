//! Responses and their sizes, written as PDUs.
//!
//! A size is told before anything is written, so an encoder takes all the memory that it needs at
//! once, and leaves the buffer as it was where there is none (MODBUS Application Protocol V1.1b3,
//! section 6).
ghost use Rattle.std.specs.Prelude.{◌≡◌, ◌+◌, ◌*◌, ◌≤◌, ◌<◌, ◌-◌, ◌^◌, ◌++◌, ◌∷◌, length, min, IfOk, IfErr, OnOk, OnErr};
ghost use Rattle.std.specs.List.{AllByRecursion};
ghost use Rattle.std.specs.Result.{ForErr};
ghost use Rattle.bytes.specs.Filled.{UsesSpare};
ghost use Rattle.modbus_frame.specs.Codes.{function_number};
ghost use Rattle.modbus_frame.specs.FunctionCodes.{exception_bit, read_fifo_queue};
ghost use Rattle.modbus_pdu.specs.Encodes.{Fits, told_size};
ghost use Rattle.modbus_pdu.specs.Fields.{packed_bytes, packed_size};
ghost use Rattle.modbus_pdu.specs.Limits.{fifo_count_size, max_pdu};
ghost use Rattle.modbus_pdu.specs.Word.{word, words};
ghost use Rattle.modbus_pdu.specs.ResponsePdu.{flag, objects, device_identification_pdu, response_pdu, response_result_pdu};

use crate::coils::{bool_to_coil, packed_coils_size, put_packed_coils};
use crate::exception::{encode_exception_response_pdu, put_exception};
use crate::limits::{
    CODE_PDU, FIFO_COUNT_SIZE, FIFO_HEAD, FLAG_OFF, FLAG_ON, IDENTIFICATION_HEAD,
    MEI_DEVICE_IDENTIFICATION, ONE_BYTE_PDU, READ_HEAD, SERVER_ID_HEAD, THREE_WORDS_PDU,
    TWO_WORDS_PDU, TooLong, within_limit,
};
use crate::writing::{put_byte, put_word, put_words};
use bytes::BytesMut;
use modbus_frame::{
    Coil, DeviceIdObject, ExceptionResponse, ReadDeviceIdentificationResponse, Response, Word,
    function_code,
};
use std::alloc::{AllocError, Global};

/// How many bytes the objects take, where usize::MAX stands for more.
#[tactic(auto, unfolding(crate::specs::ResponsePdu::objects))]
fn objects_len(found: &[DeviceIdObject]) -> usize
    ensures { result ≡ min (length (objects found.now)) (2 ^ 64 - 1) }
{
    let mut size: usize = 0;
    for object in found {
        size = size.saturating_add(2).saturating_add(object.value.len());
    }
    size
}

/// How many bytes the PDU of the response has, where usize::MAX stands for more.
#[inline(always)]
#[tactic(auto, using(crate::proofs::Sizes::sizes), unfolding(crate::specs::ResponsePdu::response_pdu, crate::specs::ResponsePdu::device_identification_pdu))]
fn response_len(response: &Response) -> usize
    ensures { result ≡ min (length (response_pdu response.now)) (2 ^ 64 - 1) }
{
    match response {
        Response::ReadCoils(coils) | Response::ReadDiscreteInputs(coils) => packed_coils_size(
            coils.as_slice(),
        ).saturating_add(READ_HEAD),
        Response::ReadInputRegisters(words)
        | Response::ReadHoldingRegisters(words)
        | Response::ReadWriteMultipleRegisters(words) => words
            .as_slice()
            .len()
            .saturating_mul(2)
            .saturating_add(READ_HEAD),
        Response::WriteSingleCoil(_, _)
        | Response::WriteMultipleCoils(_, _)
        | Response::WriteSingleRegister(_, _)
        | Response::WriteMultipleRegisters(_, _) => TWO_WORDS_PDU,
        Response::ReportServerId(_, _, extra) => extra
            .as_slice()
            .len()
            .saturating_add(SERVER_ID_HEAD),
        Response::MaskWriteRegister(_, _, _) => THREE_WORDS_PDU,
        Response::ReadFifoQueue(words) => words
            .as_slice()
            .len()
            .saturating_mul(2)
            .saturating_add(FIFO_HEAD + FIFO_COUNT_SIZE),
        Response::ReadDeviceIdentification(found) => objects_len(
            found.device_id_objects.as_slice(),
        ).saturating_add(IDENTIFICATION_HEAD),
        Response::Custom(_, data) => data.len().saturating_add(CODE_PDU),
    }
}

/// How many bytes the PDU of the response has, where they are at most `MAX_PDU` (section 4.1).
///
/// `TooLong` tells the size where it is more, and usize::MAX where it is more than that.
pub fn response_pdu_size(response: &Response) -> Result<usize, TooLong>
    ensures fits { IfOk result (λ size. (size ≡ length (response_pdu response.now))
        × (size ≤ max_pdu)) }
    ensures long { IfErr result (λ error. (max_pdu < length (response_pdu response.now))
        × (error.0 ≡ told_size (response_pdu response.now))) }
{
    within_limit(response_len(response))
}

/// How many bytes the PDU of a response or an exception has, where they are at most `MAX_PDU`
/// (section 4.1). An exception always fits.
///
/// `TooLong` tells the size where it is more, and usize::MAX where it is more than that.
pub fn response_result_pdu_size(
    answer: &Result<Response, ExceptionResponse>,
) -> Result<usize, TooLong>
    ensures fits { IfOk result (λ size. (size ≡ length (response_result_pdu answer.now))
        × (size ≤ max_pdu)) }
    ensures long { IfErr result (λ error. (max_pdu < length (response_result_pdu answer.now))
        × (error.0 ≡ told_size (response_result_pdu answer.now))) }
{
    match answer {
        Ok(response) => response_pdu_size(response),
        Err(_) => Ok(ONE_BYTE_PDU),
    }
}

/// The function code, the byte count, and the coils.
fn put_coils_read(buf: &mut BytesMut, code: u8, coils: &[Coil])
    requires fits { packed_size (length coils.now) < 256 }
    requires room { 2 + packed_size (length coils.now) ≤ buf.old.spare }
    ensures items { buf.new.items ≡ buf.old.items
        ++ code ∷ packed_size (length coils.now) ∷ packed_bytes coils.now }
    ensures spare { buf.new.spare + 2 + packed_size (length coils.now) ≡ buf.old.spare }
{
    put_byte(buf, code);
    put_byte(buf, packed_coils_size(coils) as u8);
    put_packed_coils(buf, coils);
}

/// The function code, the byte count, and the words.
fn put_words_read(buf: &mut BytesMut, code: u8, registers: &[Word])
    requires fits { 2 * length registers.now < 256 }
    requires room { 2 + 2 * length registers.now ≤ buf.old.spare }
    ensures items { buf.new.items ≡ buf.old.items
        ++ code ∷ (2 * length registers.now) ∷ words registers.now }
    ensures spare { buf.new.spare + 2 + 2 * length registers.now ≡ buf.old.spare }
{
    put_byte(buf, code);
    put_byte(buf, (2 * registers.len()) as u8);
    put_words(buf, registers);
}

/// The function code of a queue, the byte count, the count of the words, and these.
fn put_queue(buf: &mut BytesMut, registers: &[Word])
    requires fits { 2 * length registers.now < 256 }
    requires room { 5 + 2 * length registers.now ≤ buf.old.spare }
    ensures items { buf.new.items ≡ buf.old.items ++ read_fifo_queue
        ∷ word (fifo_count_size + 2 * length registers.now) ++ word (length registers.now)
        ++ words registers.now }
    ensures spare { buf.new.spare + 5 + 2 * length registers.now ≡ buf.old.spare }
{
    put_byte(buf, function_code::READ_FIFO_QUEUE);
    put_word(buf, (FIFO_COUNT_SIZE + 2 * registers.len()) as u16);
    put_word(buf, registers.len() as u16);
    put_words(buf, registers);
}

/// The byte of a flag: a run indicator, or whether more objects follow.
fn flag_byte(is_on: bool) -> u8
    ensures { result ≡ flag is_on }
{
    if is_on { FLAG_ON } else { FLAG_OFF }
}

/// Each object: its id, its length and its value.
#[tactic(auto, unfolding(crate::specs::ResponsePdu::objects))]
fn put_objects(buf: &mut BytesMut, found: &[DeviceIdObject])
    requires short { AllByRecursion (λ o. length o.value < 256) found.now }
    requires room { length (objects found.now) ≤ buf.old.spare }
    ensures items { buf.new.items ≡ buf.old.items ++ objects found.now }
    ensures spare { buf.new.spare + length (objects found.now) ≡ buf.old.spare }
{
    for object in found {
        put_byte(buf, object.id);
        put_byte(buf, object.value.len() as u8);
        buf.extend_reserved(object.value.as_slice());
    }
}

/// The PDU of a device identification.
#[tactic(auto, using(crate::proofs::WriteObjects::object_facts), unfolding(crate::specs::ResponsePdu::device_identification_pdu))]
fn put_device_identification(buf: &mut BytesMut, found: &ReadDeviceIdentificationResponse)
    requires fits { Fits (device_identification_pdu found.now) }
    requires room { length (device_identification_pdu found.now) ≤ buf.old.spare }
    ensures items { buf.new.items ≡ buf.old.items ++ device_identification_pdu found.now }
    ensures spare { buf.new.spare + length (device_identification_pdu found.now) ≡ buf.old.spare }
{
    let objects = found.device_id_objects.as_slice();
    put_byte(buf, function_code::ENCAPSULATED_INTERFACE_TRANSPORT);
    put_byte(buf, MEI_DEVICE_IDENTIFICATION);
    put_byte(buf, found.read_code.value());
    put_byte(buf, found.conformity_level.value());
    put_byte(buf, flag_byte(found.more_follows));
    put_byte(buf, found.next_object_id);
    put_byte(buf, objects.len() as u8);
    put_objects(buf, objects);
}

/// The PDU of the response, for which there is room.
#[inline(always)]
#[tactic(auto, using(crate::proofs::Sizes::sizes), unfolding(crate::specs::ResponsePdu::response_pdu))]
fn put_response(buf: &mut BytesMut, response: &Response)
    requires fits { Fits (response_pdu response.now) }
    requires room { length (response_pdu response.now) ≤ buf.old.spare }
    ensures items { buf.new.items ≡ buf.old.items ++ response_pdu response.now }
    ensures spare { buf.new.spare + length (response_pdu response.now) ≡ buf.old.spare }
{
    match response {
        Response::ReadCoils(coils) => put_coils_read(
            buf,
            function_code::READ_COILS,
            coils.as_slice(),
        ),
        Response::ReadDiscreteInputs(coils) => put_coils_read(
            buf,
            function_code::READ_DISCRETE_INPUTS,
            coils.as_slice(),
        ),
        Response::ReadHoldingRegisters(words) => put_words_read(
            buf,
            function_code::READ_HOLDING_REGISTERS,
            words.as_slice(),
        ),
        Response::ReadInputRegisters(words) => put_words_read(
            buf,
            function_code::READ_INPUT_REGISTERS,
            words.as_slice(),
        ),
        Response::WriteSingleCoil(address, coil) => {
            put_byte(buf, function_code::WRITE_SINGLE_COIL);
            put_word(buf, *address);
            put_word(buf, bool_to_coil(*coil));
        }
        Response::WriteSingleRegister(address, word) => {
            put_byte(buf, function_code::WRITE_SINGLE_REGISTER);
            put_word(buf, *address);
            put_word(buf, *word);
        }
        Response::WriteMultipleCoils(address, quantity) => {
            put_byte(buf, function_code::WRITE_MULTIPLE_COILS);
            put_word(buf, *address);
            put_word(buf, *quantity);
        }
        Response::WriteMultipleRegisters(address, quantity) => {
            put_byte(buf, function_code::WRITE_MULTIPLE_REGISTERS);
            put_word(buf, *address);
            put_word(buf, *quantity);
        }
        Response::ReportServerId(id, run, extra) => {
            put_byte(buf, function_code::REPORT_SERVER_ID);
            put_byte(buf, (2 + extra.as_slice().len()) as u8);
            put_byte(buf, *id);
            put_byte(buf, flag_byte(*run));
            buf.extend_reserved(extra.as_slice());
        }
        Response::MaskWriteRegister(address, and_mask, or_mask) => {
            put_byte(buf, function_code::MASK_WRITE_REGISTER);
            put_word(buf, *address);
            put_word(buf, *and_mask);
            put_word(buf, *or_mask);
        }
        Response::ReadWriteMultipleRegisters(words) => put_words_read(
            buf,
            function_code::READ_WRITE_MULTIPLE_REGISTERS,
            words.as_slice(),
        ),
        Response::ReadFifoQueue(words) => put_queue(buf, words.as_slice()),
        Response::ReadDeviceIdentification(found) => put_device_identification(buf, found),
        Response::Custom(code, data) => {
            put_byte(buf, *code);
            buf.extend_reserved(data.as_slice());
        }
    }
}

/// Appends the PDU of a response that fits, for which `response_pdu_size` is `Ok` (section 6).
///
/// The one error is refused memory, which leaves the bytes of the buffer as they were and comes only where the buffer had no room
/// for the whole PDU. What memory it takes is of the buffer's own allocator.
#[inline(always)]
pub fn encode_response_pdu(
    _alloc: Global,
    buf: &mut BytesMut,
    response: &Response,
) -> Result<(), AllocError>
    requires { Fits (response_pdu response.now) }
    ensures ok { OnOk result (buf.new.items ≡ buf.old.items ++ response_pdu response.now) }
    ensures err { OnErr result (buf.new.items ≡ buf.old.items) }
    ensures spare { UsesSpare result buf.old.spare buf.new.spare
        (length (response_pdu response.now)) }
{
    buf.reserve(response_len(response))?;
    put_response(buf, response);
    Ok(())
}

/// Appends the PDU of a response or an exception that fits, for which `response_result_pdu_size` is
/// `Ok` (sections 6 and 7). The function of an exception is below `EXCEPTION_BIT`.
///
/// The one error is refused memory, which leaves the bytes of the buffer as they were and comes only where the buffer had no room
/// for the whole PDU. What memory it takes is of the buffer's own allocator.
#[inline(always)]
pub fn encode_response_result_pdu(
    alloc: Global,
    buf: &mut BytesMut,
    answer: &Result<Response, ExceptionResponse>,
) -> Result<(), AllocError>
    requires function { ForErr answer.now (λ refusal.
        function_number refusal.function < exception_bit) }
    requires fits { Fits (response_result_pdu answer.now) }
    ensures ok { OnOk result (buf.new.items ≡ buf.old.items ++ response_result_pdu answer.now) }
    ensures err { OnErr result (buf.new.items ≡ buf.old.items) }
    ensures spare { UsesSpare result buf.old.spare buf.new.spare
        (length (response_result_pdu answer.now)) }
{
    match answer {
        Ok(response) => encode_response_pdu(alloc, buf, response),
        Err(refusal) => encode_exception_response_pdu(alloc, buf, *refusal),
    }
}

/// Appends the PDU of a response or an exception that fits, for which `response_result_pdu_size` is
/// `Ok` (sections 6 and 7), where the buffer has room for it. The function of an exception is below `EXCEPTION_BIT`.
#[inline(always)]
pub fn put_response_result_pdu(buf: &mut BytesMut, answer: &Result<Response, ExceptionResponse>)
    requires function { ForErr answer.now (λ refusal.
        function_number refusal.function < exception_bit) }
    requires fits { Fits (response_result_pdu answer.now) }
    requires room { length (response_result_pdu answer.now) ≤ buf.old.spare }
    ensures items { buf.new.items ≡ buf.old.items ++ response_result_pdu answer.now }
    ensures spare { buf.new.spare + length (response_result_pdu answer.now) ≡ buf.old.spare }
{
    match answer {
        Ok(response) => put_response(buf, response),
        Err(refusal) => put_exception(buf, *refusal),
    }
}
