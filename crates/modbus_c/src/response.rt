//! The PDU of a response or an exception as a struct and lists.
ghost use Rattle.std.specs.Prelude.{◌≡◌, ◌≢◌, ◌⊎◌, ◌<◌, length, Result, Ok, Err, Some, None};
ghost use Rattle.modbus_frame.specs.declared.fault.Reason.{Reason as Why};
ghost use Rattle.modbus_frame.specs.declared.response.Response.{Response as Answer};
ghost use Rattle.modbus_frame.specs.declared.response.ExceptionResponse.{ExceptionResponse as Refusal};
ghost use Rattle.modbus_pdu.specs.ResponseOf.{response_result_of};
ghost use Rattle.modbus_c.specs.Layout.{laid};
ghost use Rattle.modbus_c.specs.Responses.{flat_response, flat_answer, words_told, coils_told, LacksLists, blank as blank_of};
ghost use Rattle.modbus_c.specs.Status.{reason_number, IsReading};

use crate::put::put_front;
use crate::status::{
    MODBUS_DONE, MODBUS_NO_MEMORY, MODBUS_NO_ROOM, MODBUS_REFUSED, MODBUS_UNTOLD, ModbusDone,
    nothing, number_of,
};
use modbus_frame::{Coil, ExceptionResponse, PduError, Response, ResponsePdu, Word, function_code};
use modbus_pdu::read_response_pdu;
use std::alloc::Global;

/// A response without its lists, or an exception: then `code` is its code, `function` the function of the request, and no other field
/// tells anything. Else which fields tell something is the function's: `coil` is that of function 05, `word` that of 06 and the AND mask
/// of 16, `quantity` how many 0F and 10 wrote, `count` how many coils or registers of the caller's lists 01 to 04, 17 and 18 read. Numbers
/// of functions are hexadecimal. The functions are 01 to 06, 0F, 10, 16, 17 and 18 (Modbus Application Protocol V1.1b3, sections 6, 7).
#[repr(C)]
#[derive(Clone, Copy)]
pub struct ModbusResponse {
    pub function: u8,
    pub exception: bool,
    pub code: u8,
    pub coil: bool,
    pub address: u16,
    pub quantity: u16,
    pub word: u16,
    pub or_mask: u16,
    pub count: usize,
}

/// A response of a function, with no field that tells anything.
pub(crate) fn blank(function: u8) -> ModbusResponse
    ensures { result ≡ blank_of function }
{
    ModbusResponse {
        function,
        exception: false,
        code: 0,
        coil: false,
        address: 0,
        quantity: 0,
        word: 0,
        or_mask: 0,
        count: 0,
    }
}

/// The numbers of a response; `None` where the struct does not tell its function.
fn flatten(answer: &Response) -> Option<ModbusResponse>
    ensures { result ≡ flat_response answer.now }
{
    Some(match answer {
        Response::ReadCoils(coils) => ModbusResponse {
            count: coils.as_slice().len(),
            ..blank(function_code::READ_COILS)
        },
        Response::ReadDiscreteInputs(coils) => ModbusResponse {
            count: coils.as_slice().len(),
            ..blank(function_code::READ_DISCRETE_INPUTS)
        },
        Response::ReadHoldingRegisters(words) => ModbusResponse {
            count: words.as_slice().len(),
            ..blank(function_code::READ_HOLDING_REGISTERS)
        },
        Response::ReadInputRegisters(words) => ModbusResponse {
            count: words.as_slice().len(),
            ..blank(function_code::READ_INPUT_REGISTERS)
        },
        Response::WriteSingleCoil(address, coil) => ModbusResponse {
            address: *address,
            coil: *coil,
            ..blank(function_code::WRITE_SINGLE_COIL)
        },
        Response::WriteSingleRegister(address, word) => ModbusResponse {
            address: *address,
            word: *word,
            ..blank(function_code::WRITE_SINGLE_REGISTER)
        },
        Response::WriteMultipleCoils(address, quantity) => ModbusResponse {
            address: *address,
            quantity: *quantity,
            ..blank(function_code::WRITE_MULTIPLE_COILS)
        },
        Response::WriteMultipleRegisters(address, quantity) => ModbusResponse {
            address: *address,
            quantity: *quantity,
            ..blank(function_code::WRITE_MULTIPLE_REGISTERS)
        },
        Response::MaskWriteRegister(address, and_mask, or_mask) => ModbusResponse {
            address: *address,
            word: *and_mask,
            or_mask: *or_mask,
            ..blank(function_code::MASK_WRITE_REGISTER)
        },
        Response::ReadWriteMultipleRegisters(words) => ModbusResponse {
            count: words.as_slice().len(),
            ..blank(function_code::READ_WRITE_MULTIPLE_REGISTERS)
        },
        Response::ReadFifoQueue(words) => ModbusResponse {
            count: words.as_slice().len(),
            ..blank(function_code::READ_FIFO_QUEUE)
        },
        Response::ReportServerId(_, _, _)
        | Response::ReadDeviceIdentification(_)
        | Response::Custom(_, _) => return None,
    })
}

/// The numbers of a response or an exception; `None` where the struct does not tell its function.
pub(crate) fn flatten_answer(answer: &Result<Response, ExceptionResponse>) -> Option<ModbusResponse>
    ensures { result ≡ flat_answer answer.now }
{
    match answer {
        Ok(response) => flatten(response),
        Err(refusal) => Some(ModbusResponse {
            exception: true,
            code: refusal.exception.into(),
            ..blank(refusal.function.value())
        }),
    }
}

/// The registers that an answer tells.
pub(crate) fn words_of(answer: &Result<Response, ExceptionResponse>) -> &[Word]
    ensures { result.now ≡ words_told answer.now }
{
    match answer {
        Ok(
            Response::ReadHoldingRegisters(words)
            | Response::ReadInputRegisters(words)
            | Response::ReadWriteMultipleRegisters(words)
            | Response::ReadFifoQueue(words),
        ) => words.as_slice(),
        _ => &[],
    }
}

/// The coils or discrete inputs that an answer tells.
fn coils_of(answer: &Result<Response, ExceptionResponse>) -> &[Coil]
    ensures { result.now ≡ coils_told answer.now }
{
    match answer {
        Ok(Response::ReadCoils(coils) | Response::ReadDiscreteInputs(coils)) => coils.as_slice(),
        _ => &[],
    }
}

/// Writes what was told: the numbers to the struct, and the registers and coils to the fronts of the lists.
///
/// `MODBUS_DONE`; `MODBUS_UNTOLD` where there are no numbers; or `MODBUS_NO_ROOM` where a list is longer than the caller's. Where it is not
/// done, nothing is written.
pub(crate) fn put_told(
    flat: Option<ModbusResponse>,
    told_words: &[Word],
    told_coils: &[Coil],
    response: &mut ModbusResponse,
    words: &mut [Word],
    coils: &mut [Coil],
) -> ModbusDone
    ensures done { result.status ≡ MODBUS_DONE → (flat ≡ Some response.new)
        × (words.new ≡ laid told_words.now words.old)
        × (coils.new ≡ laid told_coils.now coils.old) }
    ensures untold { result.status ≡ MODBUS_UNTOLD → flat ≡ None }
    ensures room { result.status ≡ MODBUS_NO_ROOM
        → (length words.old < length told_words.now) ⊎ (length coils.old < length told_coils.now) }
    ensures kept { result.status ≢ MODBUS_DONE → (response.new ≡ response.old)
        × (words.new ≡ words.old) × (coils.new ≡ coils.old) }
    ensures status { (result.status ≡ MODBUS_DONE) ⊎ (result.status ≡ MODBUS_UNTOLD)
        ⊎ (result.status ≡ MODBUS_NO_ROOM) }
{
    let Some(told) = flat else {
        return nothing(MODBUS_UNTOLD, 0);
    };
    if words.len() < told_words.len() || coils.len() < told_coils.len() {
        return nothing(MODBUS_NO_ROOM, 0);
    }
    put_front(told_words, words);
    put_front(told_coils, coils);
    *response = told;
    nothing(MODBUS_DONE, 0)
}

/// Writes the numbers of an answer, and the registers and coils that it tells to the fronts of the lists.
///
/// `MODBUS_DONE`; `MODBUS_UNTOLD` where the struct does not tell its function; or `MODBUS_NO_ROOM` where a list is longer than the
/// caller's. Where it is not done, nothing is written.
fn put_answer(
    answer: &Result<Response, ExceptionResponse>,
    response: &mut ModbusResponse,
    words: &mut [Word],
    coils: &mut [Coil],
) -> ModbusDone
    ensures done { result.status ≡ MODBUS_DONE → (flat_answer answer.now ≡ Some response.new)
        × (words.new ≡ laid (words_told answer.now) words.old)
        × (coils.new ≡ laid (coils_told answer.now) coils.old) }
    ensures untold { result.status ≡ MODBUS_UNTOLD → flat_answer answer.now ≡ None }
    ensures room { result.status ≡ MODBUS_NO_ROOM
        → LacksLists answer.now (length words.old) (length coils.old) }
    ensures kept { result.status ≢ MODBUS_DONE → (response.new ≡ response.old)
        × (words.new ≡ words.old) × (coils.new ≡ coils.old) }
    ensures status { (result.status ≡ MODBUS_DONE) ⊎ (result.status ≡ MODBUS_UNTOLD)
        ⊎ (result.status ≡ MODBUS_NO_ROOM) }
{
    put_told(
        flatten_answer(answer),
        words_of(answer),
        coils_of(answer),
        response,
        words,
        coils,
    )
}

/// Reads the PDU of a response or an exception: its numbers go to `response`, the registers and coils that it tells to the fronts of
/// `words` and `coils`. Coils come eight to a byte: those past the quantity of the request have no meaning (section 6.1).
///
/// `MODBUS_DONE`; `MODBUS_REFUSED` where it is no response; `MODBUS_UNTOLD` where the struct does not tell its function; `MODBUS_NO_ROOM`
/// where a list is longer than the caller's; or `MODBUS_NO_MEMORY`. Where it is not done, nothing is written.
#[unsafe(no_mangle)]
pub extern "C" fn modbus_response_decode(
    alloc: Global,
    pdu: &[u8],
    response: &mut ModbusResponse,
    words: &mut [u16],
    coils: &mut [bool],
) -> ModbusDone
    ensures done { result.status ≡ MODBUS_DONE → (answer : Result Answer Refusal)
        × (response_result_of pdu.now ≡ Ok answer) × (flat_answer answer ≡ Some response.new)
        × (words.new ≡ laid (words_told answer) words.old)
        × (coils.new ≡ laid (coils_told answer) coils.old) }
    ensures refused { result.status ≡ MODBUS_REFUSED → (reason : Why)
        × (response_result_of pdu.now ≡ Err reason) × (result.detail ≡ reason_number reason) }
    ensures untold { result.status ≡ MODBUS_UNTOLD → (answer : Result Answer Refusal)
        × (response_result_of pdu.now ≡ Ok answer) × (flat_answer answer ≡ None) }
    ensures room { result.status ≡ MODBUS_NO_ROOM → (answer : Result Answer Refusal)
        × (response_result_of pdu.now ≡ Ok answer)
        × LacksLists answer (length words.old) (length coils.old) }
    ensures kept { result.status ≢ MODBUS_DONE → (response.new ≡ response.old)
        × (words.new ≡ words.old) × (coils.new ≡ coils.old) }
    ensures status { IsReading result.status }
{
    let ResponsePdu(answer) = match read_response_pdu(alloc, pdu) {
        Ok(answer) => answer,
        Err(PduError::Refused(reason)) => return nothing(MODBUS_REFUSED, number_of(reason)),
        Err(PduError::NoMemory) => return nothing(MODBUS_NO_MEMORY, 0),
    };
    put_answer(&answer, response, words, coils)
}
