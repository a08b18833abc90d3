//! Whether an answer belongs to a request.
ghost use Rattle.modbus_client.specs.Matches.{IsOf, Judges};
ghost use Rattle.std.specs.Prelude.{◌≡◌, ◌↔◌, IsTrue};

use crate::protocol::Reply;
use modbus_frame::{
    Error, ExceptionResponse, FunctionCode, HeaderSeen, ProtocolError, Response, Result,
};

/// Whether these are the same code.
fn same_function(a: FunctionCode, b: FunctionCode) -> bool
    ensures { IsTrue result ↔ (a ≡ b) }
{
    a == b
}

/// Whether an answer is of this function: an exception by its number, a response by its code.
fn is_of(function: FunctionCode, answer: &std::result::Result<Response, ExceptionResponse>) -> bool
    ensures { IsTrue result ↔ IsOf function answer.now }
{
    match answer {
        Ok(response) => same_function(response.function_code(), function),
        Err(refusal) => refusal.function.value() == function.value(),
    }
}

/// What a client makes of a message, by the header and the function of its request.
///
/// # Errors
/// `HeaderMismatch` exactly where the headers differ; else `FunctionCodeMismatch` exactly where the answer is of another function.
pub(crate) fn judge(asked: HeaderSeen, function: FunctionCode, reply: Reply) -> Result<Response>
    ensures { Judges asked function reply.header reply.result result }
{
    let Reply { header, result } = reply;
    if header != asked {
        return Err(Error::Protocol(ProtocolError::HeaderMismatch {
            request: asked,
            response: header,
            result,
        }));
    }
    if !is_of(function, &result) {
        return Err(Error::Protocol(ProtocolError::FunctionCodeMismatch {
            request: function,
            result,
        }));
    }
    match result {
        Ok(response) => Ok(Ok(response)),
        Err(refusal) => Ok(Err(refusal.exception)),
    }
}
