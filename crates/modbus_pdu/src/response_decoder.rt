//! Responses, read from PDUs.
//!
//! A PDU is read from the left by a cursor. What it stands for, and which of several reasons is told,
//! is defined by places of the whole PDU (MODBUS Application Protocol V1.1b3, section 6).
ghost use Rattle.std.specs.Prelude.{◌≡◌, ◌≤◌, length, Err, IfOk, IsOk, IsOkAnd};
ghost use Rattle.modbus_pdu.specs.Decodes.{Decodes};
ghost use Rattle.modbus_pdu.specs.ResponseOf.{AnswerCarriesMemory, CarriesMemory, coils_read_of, words_read_of, queue_of, run_status_of, server_id_of, object_at, objects_at, place_after, device_identification_of, answered_by, response_of, response_result_of};

use crate::coils::decode_packed_coils;
use crate::cursor::Cursor;
use crate::exception::decode_exception;
use crate::limits::{FIFO_COUNT_SIZE, FLAG_OFF, FLAG_ON, MAX_PDU, MEI_DEVICE_IDENTIFICATION};
use crate::request_decoder::{single_coil, three_words, two_words};
use crate::words::decode_words;
use bytes::Bytes;
use modbus_frame::function_code::{self, EXCEPTION_BIT};
use modbus_frame::{
    Coils, ConformityLevel, Data, DeviceIdObject, DeviceIdObjects, PduError, ReadCode,
    ReadDeviceIdentificationResponse, Reason, Response, ResponsePdu, Words,
};
use std::alloc::Global;

/// The coils after the byte count, eight in each byte.
#[tactic(auto, unfolding(crate::specs::ResponseOf::coils_read_of))]
fn coils_read(alloc: Global, mut cursor: Cursor<'_>) -> Result<Coils, PduError>
    requires { cursor.at ≡ 1 }
    ensures value { Decodes (λ coils. coils) result (coils_read_of cursor.entry.bytes.now) }
    ensures memory { result ≡ Err PduError.NoMemory → IsOk (coils_read_of cursor.entry.bytes.now) }
{
    cursor.check_size()?;
    let count = cursor.byte()?;
    let packed = cursor.rest();
    if packed.len() < count as usize {
        return Err(PduError::Refused(Reason::TooShort));
    }
    if packed.len() > count as usize {
        return Err(PduError::Refused(Reason::UndecodedData));
    }
    Ok(decode_packed_coils(alloc, packed, 8 * count as u16)?)
}

/// The words after the byte count.
#[tactic(auto, unfolding(crate::specs::ResponseOf::words_read_of))]
fn words_read(alloc: Global, mut cursor: Cursor<'_>) -> Result<Words, PduError>
    requires { cursor.at ≡ 1 }
    ensures value { Decodes (λ words. words) result (words_read_of cursor.entry.bytes.now) }
    ensures memory { result ≡ Err PduError.NoMemory → IsOk (words_read_of cursor.entry.bytes.now) }
{
    cursor.check_size()?;
    let count = cursor.byte()? as usize;
    if count % 2 == 1 {
        return Err(PduError::Refused(Reason::InvalidQuantity));
    }
    let words = cursor.rest();
    if words.len() < count {
        return Err(PduError::Refused(Reason::UnexpectedEnd));
    }
    if words.len() > count {
        return Err(PduError::Refused(Reason::UndecodedData));
    }
    Ok(Words::new(decode_words(alloc, words, count / 2)?))
}

/// The words of a queue after the byte count and their count.
#[tactic(auto, unfolding(crate::specs::ResponseOf::queue_of))]
fn queue(alloc: Global, mut cursor: Cursor<'_>) -> Result<Words, PduError>
    requires { cursor.at ≡ 1 }
    ensures value { Decodes (λ words. words) result (queue_of cursor.entry.bytes.now) }
    ensures memory { result ≡ Err PduError.NoMemory → IsOk (queue_of cursor.entry.bytes.now) }
{
    cursor.check_size()?;
    let byte_count = cursor.word()? as usize;
    let count = cursor.word()? as usize;
    if byte_count != FIFO_COUNT_SIZE + 2 * count {
        return Err(PduError::Refused(Reason::InvalidQuantity));
    }
    let words = cursor.rest();
    if words.len() < 2 * count {
        return Err(PduError::Refused(Reason::UnexpectedEnd));
    }
    if words.len() > 2 * count {
        return Err(PduError::Refused(Reason::UndecodedData));
    }
    Ok(Words::new(decode_words(alloc, words, count)?))
}

/// Whether a run indicator is on.
fn run_status(status: u8) -> Result<bool, Reason>
    ensures { result ≡ run_status_of status }
{
    match status {
        FLAG_ON => Ok(true),
        FLAG_OFF => Ok(false),
        _ => Err(Reason::InvalidRunStatus(status)),
    }
}

/// The server's id, its run indicator, and the data after these.
#[tactic(auto, unfolding(crate::specs::ResponseOf::server_id_of))]
fn server_id(alloc: Global, mut cursor: Cursor<'_>) -> Result<(u8, bool, Data), PduError>
    requires { cursor.at ≡ 1 }
    ensures value { Decodes (λ x. (x.0, x.1, x.2)) result (server_id_of cursor.entry.bytes.now) }
    ensures memory { result ≡ Err PduError.NoMemory → IsOk (server_id_of cursor.entry.bytes.now) }
{
    cursor.check_size()?;
    let count = cursor.byte()? as usize;
    if count < 2 {
        return Err(PduError::Refused(Reason::TooShort));
    }
    let id = cursor.byte()?;
    let run = run_status(cursor.byte()?)?;
    let extra = cursor.rest();
    if extra.len() + 2 < count {
        return Err(PduError::Refused(Reason::UnexpectedEnd));
    }
    if extra.len() + 2 > count {
        return Err(PduError::Refused(Reason::UndecodedData));
    }
    Ok((id, run, Data::new(Vec::from_slice(alloc, extra)?)))
}

/// The place after the object at a place.
#[tactic(auto, unfolding(crate::specs::ResponseOf::object_at))]
fn object_end(pdu: &[u8], place: usize) -> Result<usize, Reason>
    requires { place ≤ length pdu.now }
    ensures end { result ≡ place_after (object_at place pdu.now) }
    ensures within { IfOk result (λ end. end ≤ length pdu.now) }
{
    if pdu.len() - place < 2 {
        return Err(Reason::UnexpectedEnd);
    }
    let end = place + 2 + pdu[place + 1] as usize;
    if end > pdu.len() {
        return Err(Reason::InvalidObjectLength);
    }
    Ok(end)
}

/// The place after so many objects from a place on.
fn objects_end(pdu: &[u8], place: usize, count: u8) -> Result<usize, Reason>
    requires { place ≤ length pdu.now }
    ensures { result ≡ place_after (objects_at count place pdu.now) }
{
    let mut end = place;
    for _ in 0..count {
        end = object_end(pdu, end)?;
    }
    Ok(end)
}

/// The object at the cursor, which then stands after it.
#[tactic(auto, unfolding(crate::specs::ResponseOf::object_at))]
fn next_object(pdu: &Bytes, cursor: &mut Cursor<'_>) -> Result<DeviceIdObject, PduError>
    requires { cursor.old.bytes.now ≡ pdu.now }
    ensures value { Decodes (λ object. (object, cursor.new.at)) result
        (object_at cursor.old.at pdu.now) }
    ensures bytes { cursor.new.bytes.now ≡ cursor.old.bytes.now }
{
    let id = cursor.byte()?;
    let size = cursor.byte()? as usize;
    let start = cursor.at;
    if pdu.len() - start < size {
        return Err(PduError::Refused(Reason::InvalidObjectLength));
    }
    let value = pdu.slice(start..start + size)?;
    cursor.at = start + size;
    Ok(DeviceIdObject { id, value })
}

/// So many objects from the cursor on, which then stands after them.
fn read_objects(
    alloc: Global,
    pdu: &Bytes,
    cursor: &mut Cursor<'_>,
    count: u8,
) -> Result<Vec<DeviceIdObject>, PduError>
    requires { cursor.old.bytes.now ≡ pdu.now }
    ensures value { Decodes (λ v. (v.items, cursor.new.at)) result
        (objects_at count cursor.old.at pdu.now) }
    ensures bytes { cursor.new.bytes.now ≡ cursor.old.bytes.now }
{
    let mut found = Vec::new(alloc);
    for _ in 0..count {
        let object = next_object(pdu, cursor)?;
        found.push(object)?;
    }
    Ok(found)
}

/// So many objects from the cursor on, whose values share one copy of the PDU.
fn copied_objects(
    alloc: Global,
    pdu: &[u8],
    cursor: &mut Cursor<'_>,
    count: u8,
) -> Result<Vec<DeviceIdObject>, PduError>
    requires { cursor.old.bytes.now ≡ pdu.now }
    ensures value { Decodes (λ v. (v.items, cursor.new.at)) result
        (objects_at count cursor.old.at pdu.now) }
{
    let shared = Bytes::copy_from_slice(alloc, pdu)?;
    read_objects(alloc, &shared, cursor, count)
}

/// The device identification of a PDU whose function code says that it is one.
#[tactic(auto, unfolding(crate::specs::ResponseOf::device_identification_of))]
fn device_identification(
    alloc: Global,
    pdu: &[u8],
) -> Result<ReadDeviceIdentificationResponse, PduError>
    ensures value { Decodes (λ found. found) result (device_identification_of pdu.now) }
    ensures memory { result ≡ Err PduError.NoMemory → IsOk (device_identification_of pdu.now) }
{
    let mut cursor = Cursor::new(pdu);
    let _function = cursor.byte()?;
    let mei = cursor.byte()?;
    if mei != MEI_DEVICE_IDENTIFICATION {
        return Err(PduError::Refused(Reason::UnsupportedMei(mei)));
    }
    if pdu.len() > MAX_PDU {
        return Err(PduError::Refused(Reason::SizeExceeded));
    }
    let number = cursor.byte()?;
    let Some(read_code) = ReadCode::try_from_value(number) else {
        return Err(PduError::Refused(Reason::InvalidReadCode(number)));
    };
    let number = cursor.byte()?;
    let Some(conformity_level) = ConformityLevel::try_from_value(number) else {
        return Err(PduError::Refused(Reason::InvalidConformity(number)));
    };
    let more_follows = cursor.byte()? == FLAG_ON;
    let next_object_id = cursor.byte()?;
    let count = cursor.byte()?;
    // All bytes are judged before memory is asked for.
    if objects_end(pdu, cursor.at, count)? < pdu.len() {
        return Err(PduError::Refused(Reason::UndecodedData));
    }
    let found = copied_objects(alloc, pdu, &mut cursor, count)?;
    Ok(ReadDeviceIdentificationResponse {
        read_code,
        conformity_level,
        more_follows,
        next_object_id,
        device_id_objects: DeviceIdObjects::new(found),
    })
}

/// The response of a PDU with this function code, after which the cursor stands.
#[tactic(auto, unfolding(crate::specs::ResponseOf::answered_by))]
fn answered(alloc: Global, code: u8, pdu: &[u8], cursor: Cursor<'_>) -> Result<Response, PduError>
    requires bytes { cursor.bytes.now ≡ pdu.now }
    requires at { cursor.at ≡ 1 }
    ensures value { Decodes (λ response. response) result (answered_by code pdu.now) }
    ensures memory { result ≡ Err PduError.NoMemory
        → IsOkAnd (answered_by code pdu.now) CarriesMemory }
{
    match code {
        function_code::READ_COILS => {
            let coils = coils_read(alloc, cursor)?;
            Ok(Response::ReadCoils(coils))
        }
        function_code::READ_DISCRETE_INPUTS => {
            let coils = coils_read(alloc, cursor)?;
            Ok(Response::ReadDiscreteInputs(coils))
        }
        function_code::READ_HOLDING_REGISTERS => {
            let words = words_read(alloc, cursor)?;
            Ok(Response::ReadHoldingRegisters(words))
        }
        function_code::READ_INPUT_REGISTERS => {
            let words = words_read(alloc, cursor)?;
            Ok(Response::ReadInputRegisters(words))
        }
        function_code::WRITE_SINGLE_COIL => {
            let (address, coil) = single_coil(cursor)?;
            Ok(Response::WriteSingleCoil(address, coil))
        }
        function_code::WRITE_SINGLE_REGISTER => {
            let (address, word) = two_words(cursor)?;
            Ok(Response::WriteSingleRegister(address, word))
        }
        function_code::WRITE_MULTIPLE_COILS => {
            let (address, quantity) = two_words(cursor)?;
            Ok(Response::WriteMultipleCoils(address, quantity))
        }
        function_code::WRITE_MULTIPLE_REGISTERS => {
            let (address, quantity) = two_words(cursor)?;
            Ok(Response::WriteMultipleRegisters(address, quantity))
        }
        function_code::REPORT_SERVER_ID => {
            let (id, run, extra) = server_id(alloc, cursor)?;
            Ok(Response::ReportServerId(id, run, extra))
        }
        function_code::MASK_WRITE_REGISTER => {
            let (address, and_mask, or_mask) = three_words(cursor)?;
            Ok(Response::MaskWriteRegister(address, and_mask, or_mask))
        }
        function_code::READ_WRITE_MULTIPLE_REGISTERS => {
            let words = words_read(alloc, cursor)?;
            Ok(Response::ReadWriteMultipleRegisters(words))
        }
        function_code::READ_FIFO_QUEUE => {
            let words = queue(alloc, cursor)?;
            Ok(Response::ReadFifoQueue(words))
        }
        function_code::ENCAPSULATED_INTERFACE_TRANSPORT => {
            let found = device_identification(alloc, pdu)?;
            Ok(Response::ReadDeviceIdentification(found))
        }
        _ => {
            let rest = Bytes::copy_from_slice(alloc, cursor.rest())?;
            Ok(Response::Custom(code, rest))
        }
    }
}

/// The response of a PDU (section 6), or the first reason that refuses it. The PDU is read where it lies.
///
/// Function codes that have no kind of their own give `Custom`, also those of `EXCEPTION_BIT` and above.
/// `NoMemory` comes only where memory is refused, and only where the PDU is a response that carries a list
/// or bytes of its own: a PDU that is refused needs none.
#[tactic(auto, unfolding(crate::specs::ResponseOf::response_of))]
pub fn read_response(alloc: Global, pdu: &[u8]) -> Result<Response, PduError>
    ensures response { Decodes (λ response. response) result (response_of pdu.now) }
    ensures memory { result ≡ Err PduError.NoMemory
        → IsOkAnd (response_of pdu.now) CarriesMemory }
{
    let mut cursor = Cursor::new(pdu);
    let code = cursor.byte()?;
    answered(alloc, code, pdu, cursor)
}

/// What a server's PDU stands for: a response, or from the function code `EXCEPTION_BIT` on an exception
/// (section 7). Else the first reason that refuses it. The PDU is read where it lies.
///
/// An empty PDU is `UnexpectedEnd`. `NoMemory` comes only where memory is refused, and only where the PDU
/// is a response that carries a list or bytes of its own: a PDU that is refused needs none.
#[tactic(auto, unfolding(crate::specs::ResponseOf::response_result_of))]
pub fn read_response_pdu(alloc: Global, pdu: &[u8]) -> Result<ResponsePdu, PduError>
    ensures result { Decodes (λ answer. answer.0) result (response_result_of pdu.now) }
    ensures memory { result ≡ Err PduError.NoMemory
        → IsOkAnd (response_result_of pdu.now) AnswerCarriesMemory }
{
    match pdu {
        [] => Err(PduError::Refused(Reason::UnexpectedEnd)),
        [code, ..] if *code >= EXCEPTION_BIT => {
            let refusal = decode_exception(pdu)?;
            Ok(ResponsePdu(Err(refusal)))
        }
        _ => {
            let response = read_response(alloc, pdu)?;
            Ok(ResponsePdu(Ok(response)))
        }
    }
}

/// The response of a PDU, as `read_response` reads it.
///
/// `NoMemory` comes only where memory is refused, and only where the PDU is a response that carries a list
/// or bytes of its own.
pub fn decode_response(alloc: Global, pdu: Bytes) -> Result<Response, PduError>
    ensures response { Decodes (λ response. response) result (response_of pdu) }
    ensures memory { result ≡ Err PduError.NoMemory → IsOkAnd (response_of pdu) CarriesMemory }
{
    read_response(alloc, pdu.as_slice())
}

/// What a server's PDU stands for, as `read_response_pdu` reads it: a response or an exception.
///
/// `NoMemory` comes only where memory is refused, and only where the PDU is a response that carries a list
/// or bytes of its own.
pub fn decode_response_pdu(alloc: Global, pdu: Bytes) -> Result<ResponsePdu, PduError>
    ensures result { Decodes (λ answer. answer.0) result (response_result_of pdu) }
    ensures memory { result ≡ Err PduError.NoMemory
        → IsOkAnd (response_result_of pdu) AnswerCarriesMemory }
{
    read_response_pdu(alloc, pdu.as_slice())
}
