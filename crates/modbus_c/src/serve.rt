//! One message of an input, answered into an output, by tables that are lent.
ghost use Rattle.std.specs.Prelude.{◌≡◌, ◌<◌, ◌≤◌, [], length};
ghost use Rattle.std.specs.Result.{ForErr};
ghost use Rattle.modbus_frame.specs.Codes.{function_number};
ghost use Rattle.modbus_frame.specs.FunctionCodes.{exception_bit};
ghost use Rattle.modbus_pdu.specs.Encodes.{Fits};
ghost use Rattle.modbus_pdu.specs.ResponsePdu.{response_result_pdu};
ghost use Rattle.modbus_rtu.specs.Frame.{frame};
ghost use Rattle.modbus_store.specs.Lent.{lent, SameLoans};
ghost use Rattle.modbus_tcp.specs.Adu.{adu_of};
ghost use Rattle.modbus_tcp.specs.Limits.{longest_response};
ghost use Rattle.modbus_c.specs.Layout.{laid};
ghost use Rattle.modbus_c.specs.Serves.{ServesAdu, ServesFrame};

use crate::put::put_front;
use crate::reply::reply;
use bytes::BytesMut;
use modbus_frame::tcp::Header;
use modbus_frame::{ExceptionResponse, Front, PduError, Reason, Response, SlaveId};
use modbus_rtu::{Crowd, Next, encode_response_frame, next_frame};
use modbus_store::LentTables;
use modbus_store::laws::answers_fit;
use modbus_tcp::{HeaderFault, LONGEST_RESPONSE, encode_response_adu, front};
use std::alloc::Global;

/// What was done with the front of an input.
#[derive(Clone, Copy, Debug, PartialEq, Eq)]
pub enum Served {
    /// No whole message: so many bytes are of no use, and those behind them wait for more.
    Waiting { dropped: usize },
    /// A message was answered: it ends there in the input, and so many bytes of the output were written.
    Answered { used: usize, written: usize },
    /// A message had its effect and has no answer. It ends there.
    Silent { used: usize },
    /// The PDU of the message is no request, and has no answer. It ends there.
    Refused { used: usize, reason: Reason },
    /// Memory was refused. Nothing was used, and nothing has changed.
    NoMemory,
}

/// Writes the ADU of an answer that fits to the front of the output, by way of an empty buffer with room for it. How many bytes it has.
pub(crate) fn adu_into(
    alloc: Global,
    header: Header,
    answer: &Result<Response, ExceptionResponse>,
    mut made: BytesMut,
    output: &mut [u8],
) -> usize
    requires function { ForErr answer.now (λ refusal.
        function_number refusal.function < exception_bit) }
    requires fits { Fits (response_result_pdu answer.now) }
    requires no_bytes { made.items ≡ [] }
    requires space { longest_response ≤ made.spare }
    requires room { longest_response ≤ length output.old }
    ensures put { output.new ≡ laid (adu_of header (response_result_pdu answer.now)) output.old }
    ensures size { result ≡ length (adu_of header (response_result_pdu answer.now)) }
{
    match encode_response_adu(alloc, header, answer, &mut made) {
        Ok(()) => {
            put_front(made.as_slice(), output);
            made.len()
        }
        Err(_) => unreachable!(),
    }
}

/// Writes the frame of an answer that fits to the front of the output, by way of an empty buffer with room for it. How many bytes it has.
fn frame_into(
    alloc: Global,
    slave: SlaveId,
    answer: &Result<Response, ExceptionResponse>,
    mut made: BytesMut,
    output: &mut [u8],
) -> usize
    requires function { ForErr answer.now (λ refusal.
        function_number refusal.function < exception_bit) }
    requires fits { Fits (response_result_pdu answer.now) }
    requires no_bytes { made.items ≡ [] }
    requires space { longest_response ≤ made.spare }
    requires room { longest_response ≤ length output.old }
    ensures put { output.new ≡ laid (frame slave (response_result_pdu answer.now)) output.old }
    ensures size { result ≡ length (frame slave (response_result_pdu answer.now)) }
{
    match encode_response_frame(alloc, slave, answer, &mut made) {
        Ok(()) => {
            put_front(made.as_slice(), output);
            made.len()
        }
        Err(_) => unreachable!(),
    }
}

/// Answers the ADU at the front of the input into the output, which has room for each reply.
///
/// # Errors
/// Where the front is no header of Modbus.
pub(crate) fn serve_adu(
    alloc: Global,
    input: &[u8],
    tables: &mut LentTables<'_>,
    output: &mut [u8],
) -> Result<Served, HeaderFault>
    requires { longest_response ≤ length output.old }
    ensures serves { ServesAdu (lent tables.old) input.now output.old result output.new
        (lent tables.new) }
    ensures loans { SameLoans tables.old tables.new }
{
    answers_fit();
    match front(input) {
        Err(fault) => Err(fault),
        Ok(Front::Waiting { .. }) => Ok(Served::Waiting { dropped: 0 }),
        Ok(Front::Message { header, pdu, end }) => {
            let Ok(made) = BytesMut::with_capacity(alloc, LONGEST_RESPONSE) else {
                return Ok(Served::NoMemory);
            };
            match reply(alloc, tables, header.unit_id, pdu) {
                Err(PduError::Refused(reason)) => Ok(Served::Refused { used: end, reason }),
                Err(PduError::NoMemory) => Ok(Served::NoMemory),
                Ok(None) => Ok(Served::Silent { used: end }),
                Ok(Some(answer)) => {
                    let written = adu_into(alloc, header, &answer, made, output);
                    Ok(Served::Answered { used: end, written })
                }
            }
        }
    }
}

/// Answers the next frame of the input into the output, which has room for each reply.
///
/// # Errors
/// Where no frame stands at the first twenty offsets.
pub(crate) fn serve_frame(
    alloc: Global,
    input: &[u8],
    tables: &mut LentTables<'_>,
    output: &mut [u8],
) -> Result<Served, Crowd>
    requires { longest_response ≤ length output.old }
    ensures serves { ServesFrame (lent tables.old) input.now output.old result output.new
        (lent tables.new) }
    ensures loans { SameLoans tables.old tables.new }
{
    answers_fit();
    match next_frame(input) {
        Next::TooManyRetries => Err(Crowd),
        Next::Waiting { dropped } => Ok(Served::Waiting { dropped }),
        Next::Frame { start, pdu_len } => {
            let Ok(made) = BytesMut::with_capacity(alloc, LONGEST_RESPONSE) else {
                return Ok(Served::NoMemory);
            };
            let slave = input[start];
            let pdu = &input[start + 1..][..pdu_len];
            let used = start + pdu_len + 3;
            match reply(alloc, tables, slave, pdu) {
                Err(PduError::Refused(reason)) => Ok(Served::Refused { used, reason }),
                Err(PduError::NoMemory) => Ok(Served::NoMemory),
                Ok(None) => Ok(Served::Silent { used }),
                Ok(Some(answer)) => {
                    let written = frame_into(alloc, slave, &answer, made, output);
                    Ok(Served::Answered { used, written })
                }
            }
        }
    }
}
