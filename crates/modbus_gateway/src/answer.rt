//! What a gateway answers to TCP, by what the client of its line answers.
ghost use Rattle.std.specs.Prelude.{◌≡◌, Some};
ghost use Rattle.modbus_gateway.specs.Answer.{exception_of_error, outcome_of_call, outcome_of_sending, outcome_of_response, result_given};

use modbus_frame::{Error, ExceptionCode, Response, Result, TransportError};
use modbus_pdu::response_pdu_size;
use modbus_service::ServiceError;

/// A response of the line goes back where its PDU fits; else the device is told not to have answered.
fn fitting(response: Response) -> std::result::Result<Option<Response>, ServiceError>
    ensures { result ≡ result_given (Some (outcome_of_response response)) }
{
    match response_pdu_size(&response) {
        Ok(_) => Ok(Some(response)),
        Err(_) => Err(ServiceError::Exception(ExceptionCode::GatewayTargetDevice)),
    }
}

/// The exception that tells a fault of the line.
fn exception(fault: TransportError) -> ExceptionCode
    ensures { result ≡ exception_of_error fault }
{
    match fault {
        TransportError::NotConnected => ExceptionCode::GatewayPathUnavailable,
        TransportError::RequestTooLong(_) => ExceptionCode::IllegalDataValue,
        _ => ExceptionCode::GatewayTargetDevice,
    }
}

/// What a gateway answers where a slave was called, by what the client answered.
///
/// # Errors
/// The exception of the slave, or one that tells the fault of the line; `NoMemory` where memory was refused.
pub fn answer_call(answer: Result<Response>) -> std::result::Result<Option<Response>, ServiceError>
    ensures { result ≡ result_given (outcome_of_call answer) }
{
    match answer {
        Ok(Ok(response)) => fitting(response),
        Ok(Err(code)) => Err(ServiceError::Exception(code)),
        Err(Error::Protocol(_)) => {
            Err(ServiceError::Exception(ExceptionCode::GatewayTargetDevice))
        }
        Err(Error::Transport(fault)) => Err(ServiceError::Exception(exception(fault))),
        Err(Error::NoMemory) => Err(ServiceError::NoMemory),
    }
}

/// What a gateway answers where a request was sent to all slaves: nothing, whatever the line did.
///
/// # Errors
/// `NoMemory` where memory was refused.
pub fn answer_broadcast(
    answer: std::result::Result<(), Error>,
) -> std::result::Result<Option<Response>, ServiceError>
    ensures { result ≡ result_given (outcome_of_sending answer) }
{
    match answer {
        Err(Error::NoMemory) => Err(ServiceError::NoMemory),
        _ => Ok(None),
    }
}
