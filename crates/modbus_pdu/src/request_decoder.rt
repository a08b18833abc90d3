//! Requests, read from the bytes of a PDU.
//!
//! A reader for each layout of fields, and one that chooses by the function code. Each answers what
//! its definition says of the places of the whole PDU.
ghost use Rattle.std.specs.Prelude.{◌≡◌, ◌≢◌, ◌<◌, IfOk, IsOk, IsOkAnd};
ghost use Rattle.modbus_frame.specs.Codes.{function_number};
ghost use Rattle.modbus_frame.specs.FunctionCodes.{exception_bit, read_coils, read_discrete_inputs, read_holding_registers, read_input_registers, write_single_coil, write_single_register};
ghost use Rattle.modbus_frame.specs.Meaning.{meaning, function_asked};
ghost use Rattle.modbus_pdu.specs.Decodes.{Decodes};
ghost use Rattle.modbus_pdu.specs.RequestOf.{CarriesList, asked_by, coils_written_of, identification_of, one_word_of, read_write_of, registers_at, request_of, single_coil_of, three_words_of, two_words_of, words_written_of};

use crate::coils::{coil_to_bool, decode_packed_coils};
use crate::cursor::Cursor;
use crate::limits::MEI_DEVICE_IDENTIFICATION;
use crate::words::decode_words;
use modbus_frame::function_code::{self, EXCEPTION_BIT};
use modbus_frame::{Address, Coil, Coils, PduError, Quantity, ReadCode, Reason, Request, Word};
use std::alloc::Global;
use std::borrow::CowSlice;

/// The request of a PDU (V1.1b3, sections 6.1 to 6.6, 6.11 to 6.13, 6.16 to 6.18 and 6.21).
///
/// A function code below `EXCEPTION_BIT` that stands for none of these kinds gives a custom request with the
/// bytes after it. Quantities of reads are not judged.
///
/// `Refused` holds the first reason not to read the PDU, in the order of its fields:
///
/// - `UnexpectedEnd`: a byte is missing;
/// - `UndecodedData`: there are bytes after the last field;
/// - `SizeExceeded`: more than `MAX_PDU` bytes, of device identification or a kind that has a byte count;
/// - `TooShort`: bytes of packed coils are missing;
/// - `InvalidQuantity`: the number of coils or registers does not agree with the byte count;
/// - `InvalidCoil`: this word stands for no coil;
/// - `UnsupportedMei`: this MEI type is not that of device identification;
/// - `InvalidReadCode`: this read code is not one of 1 to 4;
/// - `InvalidFunction`: this function code is `EXCEPTION_BIT` or above.
///
/// Memory is refused only where the PDU is a request that carries a list. The function code of a request is
/// below `EXCEPTION_BIT`.
#[inline(always)]
#[tactic(auto, using(crate::proofs::First::no_byte, crate::proofs::First::by_first))]
pub fn decode_request(alloc: Global, pdu: &[u8]) -> Result<Request<'static>, PduError>
    ensures value { Decodes meaning result (request_of pdu.now) }
    ensures memory { result ≡ Err PduError.NoMemory
        → IsOkAnd (request_of pdu.now) CarriesList }
    ensures code { IfOk result (λ request.
        function_number (function_asked (meaning request)) < exception_bit) }
{
    let mut cursor = Cursor::new(pdu);
    let code = cursor.byte()?;
    request_by_code(alloc, code, cursor)
}

/// The request that the function code asks for.
#[inline(always)]
#[tactic(auto, unfolding(crate::specs::RequestOf::asked_by))]
fn request_by_code(
    alloc: Global,
    code: u8,
    cursor: Cursor<'_>,
) -> Result<Request<'static>, PduError>
    requires { cursor.at ≡ 1 }
    ensures value { Decodes meaning result (asked_by code cursor.entry.bytes.now) }
    ensures memory { result ≡ Err PduError.NoMemory
        → IsOkAnd (asked_by code cursor.entry.bytes.now) CarriesList }
    ensures code { IfOk result (λ request.
        function_number (function_asked (meaning request)) < exception_bit) }
{
    match code {
        function_code::READ_COILS => {
            let (address, quantity) = two_words(cursor)?;
            Ok(Request::ReadCoils(address, quantity))
        }
        function_code::READ_DISCRETE_INPUTS => {
            let (address, quantity) = two_words(cursor)?;
            Ok(Request::ReadDiscreteInputs(address, quantity))
        }
        function_code::READ_HOLDING_REGISTERS => {
            let (address, quantity) = two_words(cursor)?;
            Ok(Request::ReadHoldingRegisters(address, quantity))
        }
        function_code::READ_INPUT_REGISTERS => {
            let (address, quantity) = two_words(cursor)?;
            Ok(Request::ReadInputRegisters(address, quantity))
        }
        function_code::WRITE_SINGLE_COIL => {
            let (address, coil) = single_coil(cursor)?;
            Ok(Request::WriteSingleCoil(address, coil))
        }
        function_code::WRITE_SINGLE_REGISTER => {
            let (address, word) = two_words(cursor)?;
            Ok(Request::WriteSingleRegister(address, word))
        }
        _ => request_of_other_fields(alloc, code, cursor),
    }
}

/// The request that a function code asks for which is not that of an address and a word or a coil.
// A call of its own, so that the short requests don't pay for the fields of the long ones.
#[inline(never)]
#[tactic(auto, unfolding(crate::specs::RequestOf::asked_by, crate::specs::RequestOf::only_code_of))]
fn request_of_other_fields(
    alloc: Global,
    code: u8,
    cursor: Cursor<'_>,
) -> Result<Request<'static>, PduError>
    requires start { cursor.at ≡ 1 }
    requires other { (code ≢ read_coils) × (code ≢ read_discrete_inputs)
        × (code ≢ read_holding_registers) × (code ≢ read_input_registers)
        × (code ≢ write_single_coil) × (code ≢ write_single_register) }
    ensures value { Decodes meaning result (asked_by code cursor.entry.bytes.now) }
    ensures memory { result ≡ Err PduError.NoMemory
        → IsOkAnd (asked_by code cursor.entry.bytes.now) CarriesList }
    ensures code { IfOk result (λ request.
        function_number (function_asked (meaning request)) < exception_bit) }
{
    match code {
        function_code::WRITE_MULTIPLE_COILS => {
            let (address, coils) = coils_written(alloc, cursor)?;
            Ok(Request::WriteMultipleCoils(address, CowSlice::Owned(coils.into_vec())))
        }
        function_code::WRITE_MULTIPLE_REGISTERS => {
            let (address, words) = words_written(alloc, cursor)?;
            Ok(Request::WriteMultipleRegisters(address, CowSlice::Owned(words)))
        }
        function_code::REPORT_SERVER_ID => {
            cursor.finish()?;
            Ok(Request::ReportServerId)
        }
        function_code::MASK_WRITE_REGISTER => {
            let (address, and_mask, or_mask) = three_words(cursor)?;
            Ok(Request::MaskWriteRegister(address, and_mask, or_mask))
        }
        function_code::READ_WRITE_MULTIPLE_REGISTERS => {
            let (read_address, quantity, write_address, words) = read_write(alloc, cursor)?;
            Ok(Request::ReadWriteMultipleRegisters(
                read_address,
                quantity,
                write_address,
                CowSlice::Owned(words),
            ))
        }
        function_code::READ_FIFO_QUEUE => {
            let address = one_word(cursor)?;
            Ok(Request::ReadFifoQueue(address))
        }
        function_code::ENCAPSULATED_INTERFACE_TRANSPORT => {
            let (code, id) = identification(cursor)?;
            Ok(Request::ReadDeviceIdentification(code, id))
        }
        EXCEPTION_BIT.. => Err(PduError::Refused(Reason::InvalidFunction(code))),
        _ => {
            let data = Vec::from_slice(alloc, cursor.rest())?;
            Ok(Request::Custom(code, CowSlice::Owned(data)))
        }
    }
}

/// An address.
#[tactic(auto, unfolding(crate::specs::RequestOf::one_word_of))]
fn one_word(mut cursor: Cursor<'_>) -> Result<u16, Reason>
    requires { cursor.at ≡ 1 }
    ensures { result ≡ one_word_of cursor.entry.bytes.now }
{
    let address = cursor.word()?;
    cursor.finish()?;
    Ok(address)
}

/// An address, and a quantity or a value.
#[tactic(auto, unfolding(crate::specs::RequestOf::two_words_of))]
pub(crate) fn two_words(mut cursor: Cursor<'_>) -> Result<(u16, u16), Reason>
    requires { cursor.at ≡ 1 }
    ensures { result ≡ two_words_of cursor.entry.bytes.now }
{
    let first = cursor.word()?;
    let second = cursor.word()?;
    cursor.finish()?;
    Ok((first, second))
}

/// An address, an AND mask and an OR mask.
#[tactic(auto, unfolding(crate::specs::RequestOf::three_words_of))]
pub(crate) fn three_words(mut cursor: Cursor<'_>) -> Result<(u16, u16, u16), Reason>
    requires { cursor.at ≡ 1 }
    ensures { result ≡ three_words_of cursor.entry.bytes.now }
{
    let first = cursor.word()?;
    let second = cursor.word()?;
    let third = cursor.word()?;
    cursor.finish()?;
    Ok((first, second, third))
}

/// An address and a coil.
#[tactic(auto, unfolding(crate::specs::RequestOf::single_coil_of))]
pub(crate) fn single_coil(mut cursor: Cursor<'_>) -> Result<(Address, Coil), Reason>
    requires { cursor.at ≡ 1 }
    ensures { result ≡ single_coil_of cursor.entry.bytes.now }
{
    let address = cursor.word()?;
    let coil = coil_to_bool(cursor.word()?)?;
    cursor.finish()?;
    Ok((address, coil))
}

/// An address, and packed coils.
#[tactic(auto, unfolding(crate::specs::RequestOf::coils_written_of))]
fn coils_written(alloc: Global, mut cursor: Cursor<'_>) -> Result<(Address, Coils), PduError>
    requires { cursor.at ≡ 1 }
    ensures value { Decodes (λ x. (x.0, x.1)) result (coils_written_of cursor.entry.bytes.now) }
    ensures memory { result ≡ Err PduError.NoMemory
        → IsOk (coils_written_of cursor.entry.bytes.now) }
{
    cursor.check_size()?;
    let address = cursor.word()?;
    let quantity = cursor.word()?;
    let byte_count = cursor.byte()? as usize;
    let data = cursor.rest();
    if data.len() < byte_count {
        return Err(PduError::Refused(Reason::TooShort));
    }
    if quantity as usize > 8 * byte_count {
        return Err(PduError::Refused(Reason::InvalidQuantity));
    }
    if data.len() > byte_count {
        return Err(PduError::Refused(Reason::UndecodedData));
    }
    Ok((address, decode_packed_coils(alloc, data, quantity)?))
}

/// An address, and registers.
#[tactic(auto, using(crate::proofs::Registers::registers_missing), unfolding(crate::specs::RequestOf::words_written_of))]
fn words_written(alloc: Global, mut cursor: Cursor<'_>) -> Result<(Address, Vec<Word>), PduError>
    requires { cursor.at ≡ 1 }
    ensures value { Decodes (λ x. (x.0, x.1.items)) result
        (words_written_of cursor.entry.bytes.now) }
    ensures memory { result ≡ Err PduError.NoMemory
        → IsOk (words_written_of cursor.entry.bytes.now) }
{
    cursor.check_size()?;
    let address = cursor.word()?;
    Ok((address, registers(alloc, cursor)?))
}

/// What is read, the address that is written, and registers.
#[tactic(auto, using(crate::proofs::Registers::registers_missing), unfolding(crate::specs::RequestOf::read_write_of))]
fn read_write(
    alloc: Global,
    mut cursor: Cursor<'_>,
) -> Result<(Address, Quantity, Address, Vec<Word>), PduError>
    requires { cursor.at ≡ 1 }
    ensures value { Decodes (λ x. (x.0, x.1, x.2, x.3.items)) result
        (read_write_of cursor.entry.bytes.now) }
    ensures memory { result ≡ Err PduError.NoMemory → IsOk (read_write_of cursor.entry.bytes.now) }
{
    cursor.check_size()?;
    let read_address = cursor.word()?;
    let quantity = cursor.word()?;
    let write_address = cursor.word()?;
    Ok((
        read_address,
        quantity,
        write_address,
        registers(alloc, cursor)?,
    ))
}

/// Registers from the cursor to the end of the PDU: their number, the byte count, their values.
#[tactic(auto, unfolding(crate::specs::RequestOf::registers_at))]
fn registers(alloc: Global, mut cursor: Cursor<'_>) -> Result<Vec<Word>, PduError>
    ensures value { Decodes (λ words. words.items) result
        (registers_at cursor.entry.at cursor.entry.bytes.now) }
    ensures memory { result ≡ Err PduError.NoMemory
        → IsOk (registers_at cursor.entry.at cursor.entry.bytes.now) }
{
    let quantity = cursor.word()? as usize;
    let byte_count = cursor.byte()? as usize;
    if byte_count != 2 * quantity {
        return Err(PduError::Refused(Reason::InvalidQuantity));
    }
    let data = cursor.rest();
    if data.len() < byte_count {
        return Err(PduError::Refused(Reason::UnexpectedEnd));
    }
    if data.len() > byte_count {
        return Err(PduError::Refused(Reason::UndecodedData));
    }
    let words = decode_words(alloc, data, quantity)?;
    Ok(words)
}

/// The read code and the first object of a device identification.
#[tactic(auto, unfolding(crate::specs::RequestOf::identification_of))]
fn identification(mut cursor: Cursor<'_>) -> Result<(ReadCode, u8), Reason>
    requires { cursor.at ≡ 1 }
    ensures { result ≡ identification_of cursor.entry.bytes.now }
{
    let mei = cursor.byte()?;
    if mei != MEI_DEVICE_IDENTIFICATION {
        return Err(Reason::UnsupportedMei(mei));
    }
    cursor.check_size()?;
    let number = cursor.byte()?;
    let Some(code) = ReadCode::try_from_value(number) else {
        return Err(Reason::InvalidReadCode(number));
    };
    let id = cursor.byte()?;
    cursor.finish()?;
    Ok((code, id))
}
