//! One burst of a line that others share, heard by units: the last frame of it alone is answered.
ghost use Rattle.std.specs.Prelude.{◌≡◌, ◌+◌, ◌<◌, ◌≤◌, ℕ, Result, [], length, IfOk, IfErr, IfSome};
ghost use Rattle.std.specs.Result.{ForErr};
ghost use Rattle.modbus_frame.specs.Codes.{function_number};
ghost use Rattle.modbus_frame.specs.FunctionCodes.{exception_bit};
ghost use Rattle.modbus_pdu.specs.Encodes.{Fits};
ghost use Rattle.modbus_pdu.specs.Message.{message};
ghost use Rattle.modbus_pdu.specs.ResponsePdu.{response_result_pdu};
ghost use Rattle.modbus_rtu.specs.Frame.{frame};
ghost use Rattle.modbus_rtu.specs.Limits.{max_frame};
ghost use Rattle.modbus_service.specs.Outcome.{Outcome, code_of};
ghost use Rattle.modbus_tcp.specs.Limits.{longest_response};
ghost use Rattle.modbus_field.specs.Unread.{any_request_of};
ghost use Rattle.modbus_c.specs.Served.{flat_burst, no_room};
ghost use Rattle.modbus_c.specs.Line.{told_frame, answered_frame, Hears, HearsBurst};
ghost use Rattle.modbus_c.specs.Places.{placed_units};
ghost use Rattle.modbus_c.specs.Units.{plain_units, UnitsTell};

use crate::export::{ModbusServed, told};
use crate::put::put_front;
use crate::status::{MODBUS_DONE, MODBUS_NO_MEMORY, MODBUS_NO_ROOM, MODBUS_SILENT};
use crate::tables::{ModbusSlave, ModbusUnit};
use crate::unit::{LineUnit, ask_units};
use bytes::BytesMut;
use modbus_field::burst::{FrameHeader, Part, message_in};
use modbus_field::standard::decode_any;
use modbus_frame::{ExceptionResponse, Response, SlaveId};
use modbus_rtu::{MAX_FRAME, encode_response_frame};
use modbus_tcp::LONGEST_RESPONSE;
use std::alloc::{AllocError, Global};

/// What units answer a PDU that is for a slave, whatever it is; `None` where there is no answer.
///
/// # Errors
/// Memory was refused for the request. Nothing has changed then.
fn answer<U: LineUnit>(
    alloc: Global,
    units: &mut [U],
    slave: SlaveId,
    pdu: &[u8],
) -> Result<Option<Result<Response, ExceptionResponse>>, AllocError>
    ensures tells { IfOk result (λ found. (outcome : Outcome) × UnitsTell U.units slave
        (any_request_of pdu.now) outcome units.old units.new × (answered_frame slave found
        ≡ told_frame slave (code_of (any_request_of pdu.now)) outcome)) }
    ensures kept { IfErr result (λ _. units.new ≡ units.old) }
    ensures fits { IfOk result (λ found. IfSome found (λ it. Fits (response_result_pdu it))) }
    ensures function { IfOk result (λ found. IfSome found (λ it.
        ForErr it (λ refusal. function_number refusal.function < exception_bit))) }
{
    let Ok(request) = decode_any(alloc, pdu) else {
        return Err(AllocError);
    };
    let function = request.function_code();
    match ask_units(alloc, units, slave, request) {
        Ok(None) => Ok(None),
        Ok(Some(response)) => Ok(Some(Ok(response))),
        Err(exception) => Ok(Some(Err(ExceptionResponse {
            function,
            exception,
        }))),
    }
}

/// Makes a reply with room for each frame that of an answer.
#[tactic(auto, using(crate::proofs::Replying::frame_len))]
fn put_answer(
    alloc: Global,
    slave: SlaveId,
    answer: &Result<Response, ExceptionResponse>,
    reply: &mut BytesMut,
)
    requires function { ForErr answer.now (λ refusal.
        function_number refusal.function < exception_bit) }
    requires fits { Fits (response_result_pdu answer.now) }
    requires room { max_frame ≤ length reply.old.items + reply.old.spare }
    ensures reply { reply.new.items ≡ frame slave (response_result_pdu answer.now) }
    ensures room { max_frame ≤ length reply.new.items + reply.new.spare }
    ensures most { length reply.new.items ≤ max_frame }
{
    reply.clear();
    match encode_response_frame(alloc, slave, answer, reply) {
        Ok(()) => {}
        Err(_) => unreachable!(),
    }
}

/// Makes a reply with room for each frame that of an answer, or empty where there is none.
fn put_reply(
    alloc: Global,
    slave: SlaveId,
    found: &Option<Result<Response, ExceptionResponse>>,
    reply: &mut BytesMut,
)
    requires function { IfSome found.now (λ it.
        ForErr it (λ refusal. function_number refusal.function < exception_bit)) }
    requires fits { IfSome found.now (λ it. Fits (response_result_pdu it)) }
    requires room { max_frame ≤ length reply.old.items + reply.old.spare }
    ensures reply { reply.new.items ≡ answered_frame slave found.now }
    ensures room { max_frame ≤ length reply.new.items + reply.new.spare }
    ensures most { length reply.new.items ≤ max_frame }
{
    match found {
        Some(answer) => put_answer(alloc, slave, answer, reply),
        None => reply.clear(),
    }
}

/// Has units hear a message of a burst. The reply becomes that to the last frame.
///
/// # Errors
/// Memory was refused for the request. Nothing has changed then.
fn hear<U: LineUnit>(
    alloc: Global,
    units: &mut [U],
    header: FrameHeader,
    pdu: &[u8],
    reply: &mut BytesMut,
) -> Result<(), AllocError>
    requires room { max_frame ≤ length reply.old.items + reply.old.spare }
    requires most { length reply.old.items ≤ max_frame }
    ensures hears { IfOk result (λ _. Hears U.units units.old reply.old.items
        (message header pdu.now) units.new reply.new.items) }
    ensures kept { IfErr result (λ _. (units.new ≡ units.old)
        × (reply.new.items ≡ reply.old.items)) }
    ensures room { max_frame ≤ length reply.new.items + reply.new.spare }
    ensures most { length reply.new.items ≤ max_frame }
{
    if matches!(header.part, Part::Unasked) {
        return Ok(());
    }
    let found = answer(alloc, units, header.slave, pdu)?;
    if header.is_answered() {
        put_reply(alloc, header.slave, &found, reply);
    }
    Ok(())
}

/// Has units hear a burst, and writes the reply to the front of the output, by way of an empty buffer with room for it. How many bytes it has.
///
/// # Errors
/// Memory was refused for a request: those before this place of the burst were heard, and nothing was written.
pub(crate) fn hear_burst<U: LineUnit>(
    alloc: Global,
    units: &mut [U],
    burst: &[u8],
    mut reply: BytesMut,
    output: &mut [u8],
) -> Result<usize, usize>
    requires no_bytes { reply.items ≡ [] }
    requires space { max_frame ≤ reply.spare }
    requires room { longest_response ≤ length output.old }
    ensures hears { HearsBurst U.units units.old burst.now output.old result output.new units.new }
{
    let mut start = 0;
    'messages: while start < burst.len() {
        let (header, pdu, end) = message_in(&burst[start..]);
        match hear(alloc, units, header, pdu, &mut reply) {
            Ok(()) => start += end,
            Err(_) => return Err(start),
        }
    }
    put_front(reply.as_slice(), output);
    Ok(reply.len())
}

/// What was done with a burst of so many bytes.
fn flat(size: usize, heard: Result<usize, usize>) -> ModbusServed
    ensures { result ≡ flat_burst size heard }
{
    match heard {
        Ok(0) => told(MODBUS_SILENT, 0, size, 0),
        Ok(written) => told(MODBUS_DONE, 0, size, written),
        Err(used) => told(MODBUS_NO_MEMORY, 0, used, 0),
    }
}

/// Has units hear a burst, and writes the reply to the front of the output, which has room for each.
///
/// # Errors
/// Those of `hear_burst`, and where there is no memory for a reply: then nothing was heard.
fn hear_all<U: LineUnit>(
    alloc: Global,
    units: &mut [U],
    burst: &[u8],
    output: &mut [u8],
) -> Result<usize, usize>
    requires room { longest_response ≤ length output.old }
    ensures hears { HearsBurst U.units units.old burst.now output.old result output.new units.new }
{
    let Ok(reply) = BytesMut::with_capacity(alloc, MAX_FRAME) else {
        return Err(0);
    };
    hear_burst(alloc, units, burst, reply, output)
}

/// Has units hear a burst, and writes the reply to the front of the output, where that has room for each.
fn serve_units<U: LineUnit>(
    alloc: Global,
    units: &mut [U],
    burst: &[u8],
    output: &mut [u8],
) -> ModbusServed
    ensures hears { longest_response ≤ length output.old → (heard : Result ℕ ℕ)
        × (result ≡ flat_burst (length burst.now) heard) × HearsBurst U.units units.old burst.now
        output.old heard output.new units.new }
    ensures room { length output.old < longest_response → (result ≡ no_room)
        × (units.new ≡ units.old) × (output.new ≡ output.old) }
{
    if output.len() < LONGEST_RESPONSE {
        return told(MODBUS_NO_ROOM, 0, 0, 0);
    }
    flat(burst.len(), hear_all(alloc, units, burst, output))
}

/// Has the units of a line hear all that lies between two silences, and writes the answer of the last frame to the front of the output.
///
/// `MODBUS_DONE`: it has `written` bytes. `MODBUS_SILENT`: nothing is answered. `MODBUS_NO_MEMORY`: memory was refused for the request at
/// `used`; those before it were done. `MODBUS_NO_ROOM`: the output has less than 260 bytes, and nothing was done.
#[unsafe(no_mangle)]
pub extern "C" fn modbus_line_serve(
    alloc: Global,
    units: &mut [ModbusUnit<'_>],
    burst: &[u8],
    output: &mut [u8],
) -> ModbusServed
    ensures hears { longest_response ≤ length output.old → (heard : Result ℕ ℕ)
        × (result ≡ flat_burst (length burst.now) heard) × HearsBurst plain_units units.old
        burst.now output.old heard output.new units.new }
    ensures room { length output.old < longest_response → (result ≡ no_room)
        × (units.new ≡ units.old) × (output.new ≡ output.old) }
{
    serve_units(alloc, units, burst, output)
}

/// Does what `modbus_line_serve` does, by devices whose tables begin at addresses of their own, and which have coils and holding registers
/// that requests read alone.
#[unsafe(no_mangle)]
pub extern "C" fn modbus_slaves_serve(
    alloc: Global,
    slaves: &mut [ModbusSlave<'_>],
    burst: &[u8],
    output: &mut [u8],
) -> ModbusServed
    ensures hears { longest_response ≤ length output.old → (heard : Result ℕ ℕ)
        × (result ≡ flat_burst (length burst.now) heard) × HearsBurst placed_units slaves.old
        burst.now output.old heard output.new slaves.new }
    ensures room { length output.old < longest_response → (result ≡ no_room)
        × (slaves.new ≡ slaves.old) × (output.new ≡ output.old) }
{
    serve_units(alloc, slaves, burst, output)
}
