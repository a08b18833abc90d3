//! Requests, and what is asked by a PDU that is none.
ghost use Rattle.std.specs.Prelude.{◌≡◌, ◌<◌, true, false, drop, slice_index, Err, Ok, IfOk, IfSome, MatchOption};
ghost use Rattle.modbus_frame.specs.Codes.{function_number};
ghost use Rattle.modbus_frame.specs.FunctionCodes.{exception_bit};
ghost use Rattle.modbus_frame.specs.Meaning.{Custom, meaning, function_asked};
ghost use Rattle.modbus_pdu.specs.Decodes.{Decodes};
ghost use Rattle.modbus_pdu.specs.RequestOf.{CarriesList};
ghost use Rattle.modbus_field.specs.Unread.{any_request_of, begins_request, has_spare_bytes};

use modbus_frame::function_code::{EXCEPTION_BIT, WRITE_MULTIPLE_COILS};
use modbus_frame::{PduError, Request};
use modbus_pdu::decode_request;
use std::alloc::Global;
use std::borrow::CowSlice;

/// The bytes of a write of coils before these: the function code, the address, the quantity and the byte count.
const WRITE_HEAD: usize = 6;

/// The function code that no request has (Modbus Application Protocol V1.1b3, section 4.1).
pub const NO_FUNCTION: u8 = 0;

/// What any bytes ask that stand where a PDU is.
///
/// A PDU that is a request gives that request. One that can't be read, and a write of coils with more bytes than these need (section 6.11), gives a
/// custom request of its function code, with the bytes after it; bytes that begin with no function code of a request, or none at all, one of
/// `NO_FUNCTION`, with all of the bytes.
///
/// # Errors
/// `NoMemory` alone, where memory is refused, only for a request that carries a list.
#[inline(always)]
#[tactic(auto, using(crate::proofs::Any::of_request, crate::proofs::Any::of_spare_bytes, crate::proofs::Any::of_none))]
pub fn decode_any(alloc: Global, pdu: &[u8]) -> Result<Request<'static>, PduError>
    ensures value { Decodes meaning result (Ok (any_request_of pdu.now)) }
    ensures memory { result ≡ Err PduError.NoMemory → CarriesList (any_request_of pdu.now) }
    ensures code { IfOk result (λ request.
        function_number (function_asked (meaning request)) < exception_bit) }
{
    let Some((code, rest)) = parts(pdu) else {
        return custom(alloc, NO_FUNCTION, pdu);
    };
    if has_spare_bytes(pdu) {
        return custom(alloc, code, rest);
    }
    match decode_request(alloc, pdu) {
        Ok(request) => Ok(request),
        Err(PduError::Refused(_)) => custom(alloc, code, rest),
        Err(PduError::NoMemory) => Err(PduError::NoMemory),
    }
}

/// Whether a PDU writes coils, and has more bytes than these need: the decoder reads it.
#[inline(always)]
fn has_spare_bytes(pdu: &[u8]) -> bool
    ensures { result ≡ has_spare_bytes pdu.now }
{
    if pdu.len() < WRITE_HEAD {
        return false;
    }
    let coils = usize::from(u16::from_be_bytes([pdu[3], pdu[4]]));
    pdu[0] == WRITE_MULTIPLE_COILS && coils + 7 < 8 * usize::from(pdu[5])
}

/// The function code of a request and the bytes after it, where the bytes begin with one.
#[inline(always)]
fn parts(pdu: &[u8]) -> Option<(u8, &[u8])>
    ensures parts { MatchOption result (begins_request pdu.now ≡ false) (λ p.
        (begins_request pdu.now ≡ true) × (p.0 ≡ slice_index pdu.now 0)
        × (p.1.now ≡ drop 1 pdu.now)) }
    ensures code { IfSome result (λ p. p.0 < exception_bit) }
{
    if pdu.is_empty() || pdu[0] == NO_FUNCTION || pdu[0] >= EXCEPTION_BIT {
        None
    } else {
        Some((pdu[0], &pdu[1..]))
    }
}

/// A custom request with a copy of these bytes.
#[cold]
fn custom(alloc: Global, code: u8, rest: &[u8]) -> Result<Request<'static>, PduError>
    requires { code < exception_bit }
    ensures value { Decodes meaning result (Ok (Custom code rest.now)) }
    ensures code { IfOk result (λ request.
        function_number (function_asked (meaning request)) < exception_bit) }
{
    let bytes = Vec::from_slice(alloc, rest)?;
    Ok(Request::Custom(code, CowSlice::Owned(bytes)))
}
