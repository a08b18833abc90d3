//! Whether an answer fits the request of its call, and what of it was asked (Modbus Application Protocol V1.1b3, section 6).
ghost use Rattle.std.specs.Prelude.{◌≡◌, ◌==◌, take, length};
ghost use Rattle.modbus_c.specs.Fits.{fits, fits_response, has_coils, asked_of, writes_none};
ghost use Rattle.modbus_c.specs.Responses.{flat_answer, coils_told};

use crate::request::ModbusRequest;
use crate::response::{ModbusResponse, blank, flatten_answer};
use modbus_frame::{Coil, Coils, ExceptionResponse, Quantity, Response, Words, function_code};

/// Whether there are as many coils as were asked for, and less than eight that fill the last byte up.
fn has_coils(coils: &Coils, quantity: Quantity) -> bool
    ensures { result ≡ has_coils quantity (length coils.now) }
{
    let found = coils.as_slice().len();
    let asked = usize::from(quantity);
    asked <= found && found < asked + 8
}

/// Whether there are exactly so many registers.
fn has_words(words: &Words, quantity: Quantity) -> bool
    ensures { result ≡ (length words.now == quantity) }
{
    words.as_slice().len() == usize::from(quantity)
}

/// Whether a response of the function of a request fits it.
fn fits_response(request: &ModbusRequest, response: &Response) -> bool
    ensures { result ≡ fits_response request.now response.now }
{
    match response {
        Response::ReadCoils(coils) => has_coils(coils, request.quantity),
        Response::ReadDiscreteInputs(inputs) => has_coils(inputs, request.quantity),
        Response::ReadHoldingRegisters(words) => has_words(words, request.quantity),
        Response::ReadInputRegisters(words) => has_words(words, request.quantity),
        Response::ReadWriteMultipleRegisters(words) => has_words(words, request.quantity),
        Response::WriteSingleCoil(address, coil) => {
            *address == request.address && *coil == request.coil
        }
        Response::WriteSingleRegister(address, word) => {
            *address == request.address && *word == request.word
        }
        Response::WriteMultipleCoils(address, quantity) => {
            *address == request.address && usize::from(*quantity) == request.count
        }
        Response::WriteMultipleRegisters(address, quantity) => {
            *address == request.address && usize::from(*quantity) == request.count
        }
        Response::MaskWriteRegister(address, and_mask, or_mask) => {
            *address == request.address && *and_mask == request.word && *or_mask == request.or_mask
        }
        // The responses of these functions tell nothing of what was asked.
        Response::ReadFifoQueue(_)
        | Response::ReportServerId(_, _, _)
        | Response::ReadDeviceIdentification(_)
        | Response::Custom(_, _) => true,
    }
}

/// Whether an answer of the function of a request fits it; an exception always does.
pub(crate) fn fits(request: &ModbusRequest, answer: &Result<Response, ExceptionResponse>) -> bool
    ensures { result ≡ fits request.now answer.now }
{
    match answer {
        Ok(response) => fits_response(request, response),
        Err(_) => true,
    }
}

/// The first coils of a list, so many as were asked for; all, where it has fewer.
#[tactic(auto, using(crate::proofs::Shift::short_taken))]
fn front_of(coils: &Coils, quantity: Quantity) -> &[Coil]
    ensures { result.now ≡ take quantity coils.now }
{
    let all = coils.as_slice();
    match all.get(..usize::from(quantity)) {
        Some(front) => front,
        None => all,
    }
}

/// The coils or discrete inputs of an answer that were asked for.
pub(crate) fn coils_asked<'a>(
    request: &ModbusRequest,
    answer: &'a Result<Response, ExceptionResponse>,
) -> &'a [Coil]
    ensures { result.now ≡ coils_told (asked_of request.now answer.now) }
{
    match answer {
        Ok(Response::ReadCoils(coils) | Response::ReadDiscreteInputs(coils)) => {
            front_of(coils, request.quantity)
        }
        _ => &[],
    }
}

/// The numbers of what was asked of an answer; `None` where the struct does not tell its function.
pub(crate) fn flatten_asked(
    request: &ModbusRequest,
    answer: &Result<Response, ExceptionResponse>,
) -> Option<ModbusResponse>
    ensures { result ≡ flat_answer (asked_of request.now answer.now) }
{
    match answer {
        Ok(Response::ReadCoils(coils)) => Some(ModbusResponse {
            count: front_of(coils, request.quantity).len(),
            ..blank(function_code::READ_COILS)
        }),
        Ok(Response::ReadDiscreteInputs(coils)) => Some(ModbusResponse {
            count: front_of(coils, request.quantity).len(),
            ..blank(function_code::READ_DISCRETE_INPUTS)
        }),
        _ => flatten_answer(answer),
    }
}

/// Whether a request writes a list of coils or registers, and counts none.
pub(crate) fn writes_none(request: &ModbusRequest) -> bool
    ensures { result ≡ writes_none request.now }
{
    let writes_list = request.function == function_code::WRITE_MULTIPLE_COILS
        || request.function == function_code::WRITE_MULTIPLE_REGISTERS
        || request.function == function_code::READ_WRITE_MULTIPLE_REGISTERS;
    writes_list && request.count == 0
}
