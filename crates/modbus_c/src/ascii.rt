//! One request of Modbus ASCII, answered into an output by the caller's own tables (MODBUS over Serial Line V1.02, section 2.5.2).
ghost use Rattle.std.specs.Prelude.{◌≡◌, ◌<◌, ◌≤◌, [], length};
ghost use Rattle.std.specs.Result.{ForErr};
ghost use Rattle.modbus_frame.specs.Codes.{function_number};
ghost use Rattle.modbus_frame.specs.FunctionCodes.{exception_bit};
ghost use Rattle.modbus_pdu.specs.Encodes.{Fits};
ghost use Rattle.modbus_pdu.specs.ResponsePdu.{response_result_pdu};
ghost use Rattle.modbus_ascii.specs.Encoder.{frame as text};
ghost use Rattle.modbus_ascii.specs.Limits.{max_frame};
ghost use Rattle.modbus_store.specs.Lent.{lent, SameLoans, tables_of};
ghost use Rattle.modbus_c.specs.declared.serve.Served.{Served as Done};
ghost use Rattle.modbus_c.specs.Layout.{laid};
ghost use Rattle.modbus_c.specs.Served.{flat_served, no_room};
ghost use Rattle.modbus_c.specs.Texts.{ServesText};

use crate::export::{ModbusServed, flat, told};
use crate::put::put_front;
use crate::reply::reply;
use crate::serve::Served;
use crate::status::MODBUS_NO_ROOM;
use crate::text::{NextText, next_text};
use bytes::BytesMut;
use modbus_ascii::{MAX_FRAME, encode_response_frame};
use modbus_frame::{ExceptionResponse, PduError, Response, SlaveId};
use modbus_store::LentTables;
use modbus_store::laws::answers_fit;
use std::alloc::Global;

/// Writes the frame of an answer that fits to the front of the output, by way of an empty buffer with room for it. How many bytes it has.
fn text_into(
    alloc: Global,
    slave: SlaveId,
    answer: &Result<Response, ExceptionResponse>,
    mut made: BytesMut,
    output: &mut [u8],
) -> usize
    requires function { ForErr answer.now (λ refusal.
        function_number refusal.function < exception_bit) }
    requires fits { Fits (response_result_pdu answer.now) }
    requires no_bytes { made.items ≡ [] }
    requires space { max_frame ≤ made.spare }
    requires room { max_frame ≤ length output.old }
    ensures put { output.new ≡ laid (text slave (response_result_pdu answer.now)) output.old }
    ensures size { result ≡ length (text slave (response_result_pdu answer.now)) }
{
    match encode_response_frame(alloc, slave, answer, &mut made) {
        Ok(()) => {
            put_front(made.as_slice(), output);
            made.len()
        }
        Err(_) => unreachable!(),
    }
}

/// Answers the next text of the input that delivers a frame into the output, which has room for each reply.
fn serve_text(alloc: Global, input: &[u8], tables: &mut LentTables<'_>, output: &mut [u8]) -> Served
    requires { max_frame ≤ length output.old }
    ensures serves { ServesText (lent tables.old) input.now output.old result output.new
        (lent tables.new) }
    ensures loans { SameLoans tables.old tables.new }
{
    answers_fit();
    match next_text(input) {
        NextText::Waiting { dropped } => Served::Waiting { dropped },
        NextText::Frame { frame, used } => {
            let Ok(made) = BytesMut::with_capacity(alloc, MAX_FRAME) else {
                return Served::NoMemory;
            };
            match reply(alloc, tables, frame.slave, frame.pdu.as_slice()) {
                Err(PduError::Refused(reason)) => Served::Refused { used, reason },
                Err(PduError::NoMemory) => Served::NoMemory,
                Ok(None) => Served::Silent { used },
                Ok(Some(answer)) => {
                    let written = text_into(alloc, frame.slave, &answer, made, output);
                    Served::Answered { used, written }
                }
            }
        }
    }
}

/// Answers the next text of the input that delivers a frame by the caller's tables. Where `broadcast` is true, slave 0 has its effect and
/// no answer. The output has room for 513 bytes, else nothing is done.
#[unsafe(no_mangle)]
pub extern "C" fn modbus_ascii_serve(
    alloc: Global,
    input: &[u8],
    coils: &mut [bool],
    discrete_inputs: &[bool],
    holding_registers: &mut [u16],
    input_registers: &[u16],
    broadcast: bool,
    output: &mut [u8],
) -> ModbusServed
    ensures serves { max_frame ≤ length output.old → (done : Done)
        × (result ≡ flat_served done) × ServesText
        (tables_of coils.old discrete_inputs.now holding_registers.old input_registers.now
        broadcast) input.now output.old done output.new
        (tables_of coils.new discrete_inputs.now holding_registers.new input_registers.now
        broadcast) }
    ensures room { length output.old < max_frame → (result ≡ no_room)
        × (coils.new ≡ coils.old) × (holding_registers.new ≡ holding_registers.old)
        × (output.new ≡ output.old) }
{
    if output.len() < MAX_FRAME {
        return told(MODBUS_NO_ROOM, 0, 0, 0);
    }
    let mut tables = LentTables {
        coils,
        discrete_inputs,
        holding_registers,
        input_registers,
        broadcast,
    };
    flat(serve_text(alloc, input, &mut tables, output))
}
