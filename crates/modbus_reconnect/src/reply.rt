//! Which responses can be the reply to a request (Modbus Application Protocol V1.1b3, section 6).
ghost use Rattle.std.specs.Prelude.{◌≡◌, nat_le, ◌==◌, length};
ghost use Rattle.modbus_frame.specs.Meaning.{meaning};
ghost use Rattle.modbus_reconnect.specs.Replies.{is_reply_to, fitted};

use modbus_frame::{Coils, Error, ProtocolError, Quantity, Request, Response, Result, Words};

/// Whether there are at least so many coils: a response fills its last byte up with others.
fn has_coils(coils: &Coils, quantity: Quantity) -> bool
    ensures { result ≡ nat_le quantity (length coils.now) }
{
    usize::from(quantity) <= coils.as_slice().len()
}

/// Whether there are exactly so many registers.
fn has_words(words: &Words, quantity: Quantity) -> bool
    ensures { result ≡ (length words.now == quantity) }
{
    words.as_slice().len() == usize::from(quantity)
}

/// Whether a response can be the reply to this request: it has as many coils or registers as were asked for, or tells what was written.
pub(crate) fn is_reply_to(request: &Request<'_>, response: &Response) -> bool
    ensures { result ≡ is_reply_to (meaning request.now) response.now }
{
    match request {
        Request::ReadCoils(_, quantity) => {
            matches!(response, Response::ReadCoils(coils) if has_coils(coils, *quantity))
        }
        Request::ReadDiscreteInputs(_, quantity) => {
            matches!(response, Response::ReadDiscreteInputs(inputs) if has_coils(inputs, *quantity))
        }
        Request::WriteSingleCoil(address, coil) => {
            matches!(response, Response::WriteSingleCoil(at, state) if at == address && state == coil)
        }
        Request::WriteMultipleCoils(address, coils) => {
            matches!(response, Response::WriteMultipleCoils(at, count)
                if at == address && usize::from(*count) == coils.as_slice().len())
        }
        Request::ReadInputRegisters(_, quantity) => {
            matches!(response, Response::ReadInputRegisters(words) if has_words(words, *quantity))
        }
        Request::ReadHoldingRegisters(_, quantity) => {
            matches!(response, Response::ReadHoldingRegisters(words) if has_words(words, *quantity))
        }
        Request::WriteSingleRegister(address, word) => {
            matches!(response, Response::WriteSingleRegister(at, content) if at == address && content == word)
        }
        Request::WriteMultipleRegisters(address, words) => {
            matches!(response, Response::WriteMultipleRegisters(at, count)
                if at == address && usize::from(*count) == words.as_slice().len())
        }
        Request::MaskWriteRegister(address, and_mask, or_mask) => {
            matches!(response, Response::MaskWriteRegister(at, and, or)
                if at == address && and == and_mask && or == or_mask)
        }
        Request::ReadWriteMultipleRegisters(_, quantity, _, _) => {
            matches!(response, Response::ReadWriteMultipleRegisters(words) if has_words(words, *quantity))
        }
        // The responses to these tell nothing of what was asked.
        Request::ReportServerId
        | Request::ReadFifoQueue(_)
        | Request::ReadDeviceIdentification(_, _)
        | Request::Custom(_, _) => true,
    }
}

/// What is told of the answer of a call.
///
/// # Errors
/// `PayloadMismatch` with a response that can't be the reply to the request; else that of the call.
pub(crate) fn fitted(request: &Request<'_>, answer: Result<Response>) -> Result<Response>
    ensures { result ≡ fitted (meaning request.now) answer }
{
    match answer {
        Ok(Ok(response)) => {
            if is_reply_to(request, &response) {
                Ok(Ok(response))
            } else {
                Err(Error::Protocol(ProtocolError::PayloadMismatch { response }))
            }
        }
        Ok(Err(code)) => Ok(Err(code)),
        Err(error) => Err(error),
    }
}
