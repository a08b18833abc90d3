//! What the PDU of a request is answered by tables that are lent.
ghost use Rattle.std.specs.Prelude.{◌<◌, IfOk, IfSome};
ghost use Rattle.std.specs.Result.{ForErr};
ghost use Rattle.modbus_frame.specs.Codes.{function_number};
ghost use Rattle.modbus_frame.specs.FunctionCodes.{exception_bit};
ghost use Rattle.modbus_store.specs.Lent.{lent, SameLoans};
ghost use Rattle.modbus_c.specs.Serves.{RepliesAs};

use modbus_frame::{ExceptionResponse, PduError, Response, SlaveId, SlaveRequest};
use modbus_pdu::decode_request;
use modbus_service::ServiceError;
use modbus_store::LentTables;
use std::alloc::Global;

/// What the PDU of a request is answered; `None` where there is no answer.
///
/// # Errors
/// `Refused` with the reason where it is no request. `NoMemory` where memory was refused. The tables are then as they were.
pub(crate) fn reply(
    alloc: Global,
    tables: &mut LentTables<'_>,
    slave: SlaveId,
    pdu: &[u8],
) -> Result<Option<Result<Response, ExceptionResponse>>, PduError>
    ensures replies { RepliesAs (lent tables.old) slave pdu.now result (lent tables.new) }
    ensures loans { SameLoans tables.old tables.new }
    ensures function { IfOk result (λ found. IfSome found (λ answer.
        ForErr answer (λ refusal. function_number refusal.function < exception_bit))) }
{
    let request = decode_request(alloc, pdu)?;
    let function = request.function_code();
    match tables.apply(alloc, SlaveRequest { slave, request }) {
        Ok(None) => Ok(None),
        Ok(Some(response)) => Ok(Some(Ok(response))),
        Err(ServiceError::Exception(exception)) => Ok(Some(Err(ExceptionResponse {
            function,
            exception,
        }))),
        Err(ServiceError::NoMemory) => Err(PduError::NoMemory),
    }
}
