//! The function codes that are reserved for exceptions (Modbus Application Protocol V1.1b3, section 4.1), as requests over TCP.
ghost use Rattle.std.specs.Prelude.{◌≡◌};
ghost use Rattle.modbus_frame.specs.Meaning.{meaning};
ghost use Rattle.modbus_field.specs.ReservedCodes.{first_reserved, reserved_code, reserved_codes, TellsUnder};

use crate::standard::NO_FUNCTION;
use bytes::Bytes;
use modbus_frame::function_code::EXCEPTION_BIT;
use modbus_frame::{Request, Response, SlaveRequest};
use modbus_service::{Answerer, ServiceError};
use std::alloc::Global;
use std::borrow::CowSlice;

/// Units behind a port of Modbus TCP that answer also a request whose function code is reserved for exceptions: 80 (hexadecimal) or above.
///
/// Such a request has a header, so its master waits for an answer. No device knows its function, nor function 0, which is asked in its
/// place: a unit that is there, behind `StandardAnswers`, tells exception 01. The answer has the request's own function code, whose bit of
/// an exception is set already. On a serial line such a message is another device's exception, and has no answer.
#[derive(Drop)]
pub struct ReservedCodes<S> {
    /// What answers.
    pub service: S,
}

/// The reserved function code of a request, as a framing of devices gives it.
fn reserved_code(request: &Request<'_>) -> Option<u8>
    ensures { result ≡ reserved_code (meaning request.now) }
{
    match request {
        Request::Custom(NO_FUNCTION, bytes) => first_reserved(bytes.as_slice()),
        _ => None,
    }
}

/// The reserved function code that bytes begin with.
fn first_reserved(bytes: &[u8]) -> Option<u8>
    ensures { result ≡ first_reserved bytes.now }
{
    match bytes {
        [code, ..] if *code >= EXCEPTION_BIT => Some(*code),
        _ => None,
    }
}

/// The bytes of function code 0.
const UNKNOWN: [u8; 1] = [NO_FUNCTION];

/// An answer under a reserved function code: an exception as a response of that code, all else as it is.
fn under_code(
    alloc: Global,
    code: u8,
    told: Result<Option<Response>, ServiceError>,
) -> Result<Option<Response>, ServiceError>
    ensures { TellsUnder code told result }
{
    match told {
        Err(ServiceError::Exception(exception)) => {
            let number = Bytes::copy_from_slice(alloc, &[u8::from(exception)])?;
            Ok(Some(Response::Custom(code, number)))
        }
        told => told,
    }
}

impl<S: Answerer> Answerer for ReservedCodes<S> {
    ghost answering = { reserved_codes S.answering };

    fn ask(
        &mut self,
        alloc: Global,
        request: SlaveRequest<'_>,
    ) -> Result<Option<Response>, ServiceError> {
        let Some(code) = reserved_code(&request.request) else {
            return self.service.ask(alloc, request);
        };
        let unknown = SlaveRequest {
            slave: request.slave,
            request: Request::Custom(NO_FUNCTION, CowSlice::Borrowed(&UNKNOWN)),
        };
        let told = self.service.ask(alloc, unknown);
        under_code(alloc, code, told)
    }
}
