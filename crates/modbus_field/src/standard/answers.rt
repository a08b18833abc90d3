//! A service that answers as the standard wants where a request can't be read.
ghost use Rattle.std.specs.Prelude.{◌≡◌};
ghost use Rattle.modbus_frame.specs.Meaning.{meaning};
ghost use Rattle.modbus_field.specs.Unread.{is_modelled, exception_of_pdu, unread_of};
ghost use Rattle.modbus_field.specs.StandardAnswers.{standard_answers, standard_takes};

use crate::standard::decode::NO_FUNCTION;
use modbus_frame::{ExceptionCode, Request, Response, SlaveRequest, function_code};
use modbus_pdu::MEI_DEVICE_IDENTIFICATION;
use modbus_service::{Service, ServiceError};
use std::alloc::Global;

/// What is done with a PDU that can't be read.
#[derive(Clone, Copy, Debug, PartialEq, Eq)]
pub enum Unread {
    /// It is answered with this exception.
    Refused(ExceptionCode),
    /// It is not answered: it is no PDU, or has the function code of an exception.
    Silent,
}

/// Whether requests of this function code have a layout of their own.
fn has_layout(code: u8) -> bool
    ensures { result ≡ is_modelled code }
{
    matches!(
        code,
        function_code::READ_COILS
            | function_code::READ_DISCRETE_INPUTS
            | function_code::READ_HOLDING_REGISTERS
            | function_code::READ_INPUT_REGISTERS
            | function_code::WRITE_SINGLE_COIL
            | function_code::WRITE_SINGLE_REGISTER
            | function_code::WRITE_MULTIPLE_COILS
            | function_code::WRITE_MULTIPLE_REGISTERS
            | function_code::REPORT_SERVER_ID
            | function_code::MASK_WRITE_REGISTER
            | function_code::READ_WRITE_MULTIPLE_REGISTERS
            | function_code::READ_FIFO_QUEUE
            | function_code::ENCAPSULATED_INTERFACE_TRANSPORT
    )
}

/// The exception for a PDU of this function code that can't be read: a MEI type that is not known is a function that is not known, all else
/// is a value that doesn't fit.
fn exception_of(code: u8, rest: &[u8]) -> ExceptionCode
    ensures { result ≡ exception_of_pdu code rest.now }
{
    match rest {
        [mei, ..]
            if code == function_code::ENCAPSULATED_INTERFACE_TRANSPORT
                && *mei != MEI_DEVICE_IDENTIFICATION => { ExceptionCode::IllegalFunction }
        _ => ExceptionCode::IllegalDataValue,
    }
}

/// What is done with a request which `decode_any` gives for a PDU that can't be read; `None` for each request that could be read.
pub fn unread_request(request: &Request<'_>) -> Option<Unread>
    ensures { result ≡ unread_of (meaning request.now) }
{
    match request {
        Request::Custom(NO_FUNCTION, data) => match data.as_slice() {
            [NO_FUNCTION, ..] => Some(Unread::Refused(ExceptionCode::IllegalFunction)),
            _ => Some(Unread::Silent),
        },
        Request::Custom(code, data) => {
            if has_layout(*code) {
                Some(Unread::Refused(exception_of(*code, data.as_slice())))
            } else {
                None
            }
        }
        _ => None,
    }
}

/// The exception for a request for which memory was refused: the server failed while it worked on it (section 7).
const FAILURE: ExceptionCode = ExceptionCode::ServerDeviceFailure;

/// A service that is asked for what could be read alone. What could not be read has the exception of the standard's state diagrams
/// (Modbus Application Protocol V1.1b3, section 6): 01 for function code 0 or a MEI type that is not known, 03 for a value, a count or a
/// length that doesn't fit. What is no PDU, or has the function code of an exception, is not answered. A function code without a layout of
/// its own is the service's to answer, with 01 where it doesn't know it.
///
/// Where memory is refused to the service, it is as it was, and the answer is exception 04: the device goes on.
///
/// On a line that is shared it stands behind the address of its unit, as `OnlyUnit { unit, service: StandardAnswers { .. } }`: over one it
/// would tell the exceptions of what is for other devices. `OnlyUnit` is no `Service`, so that order has no type. What says what the device
/// is (`Identified`) stands behind it, so that it is asked for what can be read alone.
#[derive(Drop)]
pub struct StandardAnswers<S> {
    /// What answers the requests that could be read.
    pub service: S,
}

impl<S: Service> Service for StandardAnswers<S> {
    ghost answers = { standard_answers S.answers S.takes_memory };

    ghost takes_memory = { standard_takes };

    fn call(
        &mut self,
        alloc: Global,
        request: SlaveRequest<'_>,
    ) -> Result<Option<Response>, ServiceError> {
        match unread_request(&request.request) {
            Some(Unread::Refused(exception)) => Err(ServiceError::Exception(exception)),
            Some(Unread::Silent) => Ok(None),
            None => match self.service.call(alloc, request) {
                Ok(answer) => Ok(answer),
                Err(ServiceError::Exception(exception)) => Err(ServiceError::Exception(exception)),
                Err(ServiceError::NoMemory) => Err(ServiceError::Exception(FAILURE)),
            },
        }
    }
}
