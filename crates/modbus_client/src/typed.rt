//! What a typed call makes of the response that it was given.
ghost use Rattle.std.specs.Prelude.{◌≡◌, ◌≢◌, ◌<◌, ◌≤◌, length, take, if◌then◌else◌, IfOk, IfErr, IsOkAnd};

use modbus_frame::{
    Coil, Coils, Error, FunctionCode, ProtocolError, Quantity, Response, Result, Word, Words,
};

/// The fault that a response is of another kind than the request of this function.
pub(crate) fn another_kind(function: FunctionCode, response: Response) -> Error
    ensures { result ≡ Error.Protocol (ProtocolError.FunctionCodeMismatch function (Ok response)) }
{
    Error::Protocol(ProtocolError::FunctionCodeMismatch {
        request: function,
        result: Ok(response),
    })
}

/// The fault that a response is of the kind of its request, and does not fit it.
fn unequal(response: Response) -> Error
    ensures { result ≡ Error.Protocol (ProtocolError.PayloadMismatch response) }
{
    Error::Protocol(ProtocolError::PayloadMismatch { response })
}

/// The first `count` coils of a response, whose last byte may be filled up with others. `kind` makes them the response again.
///
/// # Errors
/// `PayloadMismatch` exactly where there are fewer.
pub(crate) fn first_coils<F: FnOnce(Coils) -> Response>(
    coils: Coils,
    count: Quantity,
    kind: F,
) -> Result<Vec<Coil>>
    requires { F.IsAlwaysCallable kind }
    ensures enough { IfOk result (λ answer. (count ≤ length coils)
        × IsOkAnd answer (λ first. first.items ≡ take count coils)) }
    ensures few { IfErr result (λ fault. (length coils < count) × (response : Response)
        × F.post kind coils response × (fault
        ≡ Error.Protocol (ProtocolError.PayloadMismatch response))) }
{
    if coils.as_slice().len() < usize::from(count) {
        return Err(unequal(kind(coils)));
    }
    let mut first = coils.into_vec();
    first.truncate(usize::from(count));
    Ok(Ok(first))
}

/// The registers of a response, where there are exactly `count`. `kind` makes them the response again.
///
/// # Errors
/// `PayloadMismatch` exactly where there are more or fewer.
pub(crate) fn all_words<F: FnOnce(Words) -> Response>(
    words: Words,
    count: Quantity,
    kind: F,
) -> Result<Vec<Word>>
    requires { F.IsAlwaysCallable kind }
    ensures all { IfOk result (λ answer. (length words ≡ count)
        × IsOkAnd answer (λ all. all.items ≡ words)) }
    ensures unequal { IfErr result (λ fault. (length words ≢ count) × (response : Response)
        × F.post kind words response × (fault
        ≡ Error.Protocol (ProtocolError.PayloadMismatch response))) }
{
    if words.as_slice().len() != usize::from(count) {
        return Err(unequal(kind(words)));
    }
    Ok(Ok(words.into_vec()))
}

/// That a response of the kind of a write confirms it, where it tells what was written.
///
/// # Errors
/// `PayloadMismatch` exactly where it tells something else.
pub(crate) fn confirmed(tells_it: bool, response: Response) -> Result<()>
    ensures { result ≡ (if tells_it then Ok (Ok tt) else Err
        (Error.Protocol (ProtocolError.PayloadMismatch response))) }
{
    if !tells_it {
        return Err(unequal(response));
    }
    Ok(Ok(()))
}
