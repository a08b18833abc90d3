//! The PDU of a response or an exception, written from a struct and lists.
ghost use Rattle.std.specs.Prelude.{◌≡◌, ◌≢◌, ◌⊎◌, ◌<◌, take, length, IfOk, IfErr, Result, Ok, Err, Some, None};
ghost use Rattle.std.specs.Result.{ForErr};
ghost use Rattle.modbus_frame.specs.Codes.{function_number};
ghost use Rattle.modbus_frame.specs.FunctionCodes.{exception_bit};
ghost use Rattle.modbus_frame.specs.declared.response.Response.{Response as Answer};
ghost use Rattle.modbus_frame.specs.declared.response.ExceptionResponse.{ExceptionResponse as Refusal};
ghost use Rattle.modbus_pdu.specs.Limits.{max_pdu};
ghost use Rattle.modbus_pdu.specs.ResponsePdu.{response_result_pdu};
ghost use Rattle.modbus_c.specs.Layout.{laid};
ghost use Rattle.modbus_c.specs.Answers.{answer_in, response_in, MissesItems};
ghost use Rattle.modbus_c.specs.Status.{IsWriting};

use crate::put::put_front;
use crate::response::ModbusResponse;
use crate::status::{
    MODBUS_DONE, MODBUS_NO_MEMORY, MODBUS_NO_ROOM, MODBUS_TOO_LONG, MODBUS_UNTOLD, ModbusDone,
    nothing,
};
use bytes::BytesMut;
use modbus_frame::function_code::EXCEPTION_BIT;
use modbus_frame::laws::codes_read_back;
use modbus_frame::{
    Coil, Coils, ExceptionCode, ExceptionResponse, FunctionCode, Response, Word, Words,
    function_code,
};
use modbus_pdu::{encode_response_result_pdu, response_result_pdu_size};
use std::alloc::Global;

/// A copy of the first items of a list.
///
/// # Errors
/// `MODBUS_NO_ROOM` where the list has fewer, or `MODBUS_NO_MEMORY`.
fn first_of<T: Copy>(alloc: Global, list: &[T], count: usize) -> Result<Vec<T>, u32>
    ensures ok { IfOk result (λ copy. copy.items ≡ take count list.now) }
    ensures err { IfErr result (λ status. ((status ≡ MODBUS_NO_ROOM) × (length list.now < count))
        ⊎ (status ≡ MODBUS_NO_MEMORY)) }
{
    let Some(items) = list.get(..count) else {
        return Err(MODBUS_NO_ROOM);
    };
    match Vec::from_slice(alloc, items) {
        Ok(copy) => Ok(copy),
        Err(_) => Err(MODBUS_NO_MEMORY),
    }
}

/// The response that a struct and lists tell.
///
/// # Errors
/// `MODBUS_UNTOLD`, `MODBUS_NO_ROOM` or `MODBUS_NO_MEMORY`.
#[tactic(auto, unfolding(crate::specs::Answers::MissesItems))]
fn response_of(
    alloc: Global,
    response: &ModbusResponse,
    words: &[Word],
    coils: &[Coil],
) -> Result<Response, u32>
    ensures ok { IfOk result (λ answer.
        response_in response.now words.now coils.now ≡ Some answer) }
    ensures err { IfErr result (λ status. ((status ≡ MODBUS_UNTOLD)
        × (response_in response.now words.now coils.now ≡ None)) ⊎ ((status ≡ MODBUS_NO_ROOM)
        × MissesItems response.now words.now coils.now) ⊎ (status ≡ MODBUS_NO_MEMORY)) }
{
    let address = response.address;
    let count = response.count;
    match response.function {
        function_code::READ_COILS => {
            let coils = first_of(alloc, coils, count)?;
            Ok(Response::ReadCoils(Coils::new(coils)))
        }
        function_code::READ_DISCRETE_INPUTS => {
            let coils = first_of(alloc, coils, count)?;
            Ok(Response::ReadDiscreteInputs(Coils::new(coils)))
        }
        function_code::READ_HOLDING_REGISTERS => {
            let words = first_of(alloc, words, count)?;
            Ok(Response::ReadHoldingRegisters(Words::new(words)))
        }
        function_code::READ_INPUT_REGISTERS => {
            let words = first_of(alloc, words, count)?;
            Ok(Response::ReadInputRegisters(Words::new(words)))
        }
        function_code::WRITE_SINGLE_COIL => Ok(Response::WriteSingleCoil(address, response.coil)),
        function_code::WRITE_SINGLE_REGISTER => Ok(Response::WriteSingleRegister(
            address,
            response.word,
        )),
        function_code::WRITE_MULTIPLE_COILS => Ok(Response::WriteMultipleCoils(
            address,
            response.quantity,
        )),
        function_code::WRITE_MULTIPLE_REGISTERS => Ok(Response::WriteMultipleRegisters(
            address,
            response.quantity,
        )),
        function_code::MASK_WRITE_REGISTER => Ok(Response::MaskWriteRegister(
            address,
            response.word,
            response.or_mask,
        )),
        function_code::READ_WRITE_MULTIPLE_REGISTERS => {
            let words = first_of(alloc, words, count)?;
            Ok(Response::ReadWriteMultipleRegisters(Words::new(words)))
        }
        function_code::READ_FIFO_QUEUE => {
            let words = first_of(alloc, words, count)?;
            Ok(Response::ReadFifoQueue(Words::new(words)))
        }
        _ => Err(MODBUS_UNTOLD),
    }
}

/// The response or the exception that a struct and lists tell.
///
/// # Errors
/// Those of `response_of`.
fn answer_of(
    alloc: Global,
    response: &ModbusResponse,
    words: &[Word],
    coils: &[Coil],
) -> Result<Result<Response, ExceptionResponse>, u32>
    ensures ok { IfOk result (λ answer.
        answer_in response.now words.now coils.now ≡ Some answer) }
    ensures function { IfOk result (λ answer.
        ForErr answer (λ refusal. function_number refusal.function < exception_bit)) }
    ensures err { IfErr result (λ status. ((status ≡ MODBUS_UNTOLD)
        × (answer_in response.now words.now coils.now ≡ None)) ⊎ ((status ≡ MODBUS_NO_ROOM)
        × MissesItems response.now words.now coils.now) ⊎ (status ≡ MODBUS_NO_MEMORY)) }
{
    codes_read_back();
    if response.exception {
        if response.function >= EXCEPTION_BIT {
            return Err(MODBUS_UNTOLD);
        }
        return Ok(Err(ExceptionResponse {
            function: FunctionCode::new(response.function),
            exception: ExceptionCode::new(response.code),
        }));
    }
    match response_of(alloc, response, words, coils) {
        Ok(answer) => Ok(Ok(answer)),
        Err(status) => Err(status),
    }
}

/// Writes the PDU of a response or an exception to the front of `pdu`.
///
/// `MODBUS_DONE`, and it has `written` bytes; `MODBUS_UNTOLD` where the struct has no such function; `MODBUS_NO_ROOM` where `count` is more
/// than the list has, or `pdu` is too short; `MODBUS_TOO_LONG` where the PDU would have more than 253 bytes; or `MODBUS_NO_MEMORY`. Where
/// it is not done, nothing is written.
#[unsafe(no_mangle)]
pub extern "C" fn modbus_response_encode(
    alloc: Global,
    response: &ModbusResponse,
    words: &[u16],
    coils: &[bool],
    pdu: &mut [u8],
) -> ModbusDone
    ensures done { result.status ≡ MODBUS_DONE → (answer : Result Answer Refusal)
        × (answer_in response.now words.now coils.now ≡ Some answer)
        × (pdu.new ≡ laid (response_result_pdu answer) pdu.old)
        × (result.written ≡ length (response_result_pdu answer)) }
    ensures untold { result.status ≡ MODBUS_UNTOLD
        → answer_in response.now words.now coils.now ≡ None }
    ensures room { result.status ≡ MODBUS_NO_ROOM → MissesItems response.now words.now coils.now
        ⊎ ((answer : Result Answer Refusal)
        × (answer_in response.now words.now coils.now ≡ Some answer)
        × (length pdu.old < length (response_result_pdu answer))) }
    ensures long { result.status ≡ MODBUS_TOO_LONG → (answer : Result Answer Refusal)
        × (answer_in response.now words.now coils.now ≡ Some answer)
        × (max_pdu < length (response_result_pdu answer)) }
    ensures kept { result.status ≢ MODBUS_DONE → (pdu.new ≡ pdu.old) × (result.written ≡ 0) }
    ensures status { IsWriting result.status }
{
    let answer = match answer_of(alloc, response, words, coils) {
        Ok(answer) => answer,
        Err(status) => return nothing(status, 0),
    };
    let Ok(size) = response_result_pdu_size(&answer) else {
        return nothing(MODBUS_TOO_LONG, 0);
    };
    if pdu.len() < size {
        return nothing(MODBUS_NO_ROOM, 0);
    }
    let Ok(mut made) = BytesMut::with_capacity(alloc, size) else {
        return nothing(MODBUS_NO_MEMORY, 0);
    };
    if encode_response_result_pdu(alloc, &mut made, &answer).is_err() {
        return nothing(MODBUS_NO_MEMORY, 0);
    }
    put_front(made.as_slice(), pdu);
    ModbusDone {
        status: MODBUS_DONE,
        detail: 0,
        written: size,
    }
}
