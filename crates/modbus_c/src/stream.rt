//! The piece at the front of a stream of Modbus TCP, answered by a device's tables, whatever its PDU is.
ghost use Rattle.std.specs.Prelude.{◌≡◌, ◌<◌, ◌≤◌, Result, length, IfOk, IfErr, IfSome};
ghost use Rattle.std.specs.Result.{ForErr};
ghost use Rattle.modbus_frame.specs.Codes.{function_number};
ghost use Rattle.modbus_frame.specs.FunctionCodes.{exception_bit};
ghost use Rattle.modbus_frame.specs.Meaning.{function_asked};
ghost use Rattle.modbus_pdu.specs.Encodes.{Fits};
ghost use Rattle.modbus_pdu.specs.Message.{message};
ghost use Rattle.modbus_pdu.specs.ResponsePdu.{response_result_pdu};
ghost use Rattle.modbus_tcp.specs.declared.stream.HeaderFault.{HeaderFault as BadHeader};
ghost use Rattle.modbus_tcp.specs.Limits.{longest_response};
ghost use Rattle.modbus_field.specs.Pieces.{IsPiece, FindsPiece, message_in_piece};
ghost use Rattle.modbus_field.specs.Unread.{any_request_of};
ghost use Rattle.modbus_c.specs.declared.serve.Served.{Served as Done};
ghost use Rattle.modbus_c.specs.Places.{PlacedTells};
ghost use Rattle.modbus_c.specs.Pieces.{told_by, DeviceTells, ServesPiece};
ghost use Rattle.modbus_c.specs.Served.{flat_adu, no_room};
ghost use Rattle.modbus_c.specs.Units.{TablesTell};

use crate::export::{ModbusServed, flat_of_adu, told};
use crate::serve::{Served, adu_into};
use crate::status::MODBUS_NO_ROOM;
use crate::tables::{ModbusDevice, ModbusTables};
use crate::unit::Device;
use bytes::BytesMut;
use modbus_field::standard::decode_any;
use modbus_field::stream::NON_SIGNIFICANT;
use modbus_frame::tcp::Header;
use modbus_frame::{ExceptionResponse, Response};
use modbus_tcp::{HEADER, HeaderFault, LONGEST_RESPONSE, MODBUS, UNCOUNTED};
use std::alloc::{AllocError, Global};

/// How many bytes tell the transaction and the protocol.
const PROTOCOL_END: usize = 4;

/// The greatest length that the header of a request tells: a unit identifier and the longest PDU.
const MOST_TOLD: usize = LONGEST_RESPONSE - UNCOUNTED;

/// Where the first piece ends; `None` where there is no whole one yet.
///
/// # Errors
/// `InvalidProtocol` as soon as four bytes tell a protocol that isn't Modbus, `InvalidLength` as soon as six tell no byte or more than 254.
fn piece_end(held: &[u8]) -> Result<Option<usize>, HeaderFault>
    ensures { FindsPiece held.now result }
{
    if held.len() < PROTOCOL_END {
        return Ok(None);
    }
    let protocol = u16::from_be_bytes([held[2], held[3]]);
    if protocol != MODBUS {
        return Err(HeaderFault::InvalidProtocol(protocol));
    }
    if held.len() < UNCOUNTED {
        return Ok(None);
    }
    let told = usize::from(u16::from_be_bytes([held[4], held[5]]));
    if told == 0 || told > MOST_TOLD {
        return Err(HeaderFault::InvalidLength);
    }
    let end = UNCOUNTED + told;
    Ok(if held.len() < end { None } else { Some(end) })
}

/// The message of a piece.
#[tactic(auto, unfolding(modbus_field::specs::Pieces::message_in_piece))]
fn message_in(piece: &[u8]) -> (Header, &[u8])
    requires { IsPiece piece.now }
    ensures { message result.0 result.1.now ≡ message_in_piece piece.now }
{
    let header = Header {
        transaction_id: u16::from_be_bytes([piece[0], piece[1]]),
        unit_id: piece[UNCOUNTED],
    };
    (header, &piece[HEADER..])
}

/// What a device answers bytes that stand where a PDU is; `None` where there is no answer.
///
/// # Errors
/// Memory was refused for the request. Nothing has changed then.
fn tell<D: Device>(
    alloc: Global,
    device: &mut D,
    pdu: &[u8],
) -> Result<Option<Result<Response, ExceptionResponse>>, AllocError>
    ensures tells { IfOk result (λ found. DeviceTells D.tells pdu.now (told_by found) device.old
        device.new) }
    ensures kept { IfErr result (λ _. device.new ≡ device.old) }
    ensures named { IfOk result (λ found. IfSome found (λ it.
        ForErr it (λ refusal. refusal.function ≡ function_asked (any_request_of pdu.now)))) }
    ensures function { IfOk result (λ found. IfSome found (λ it.
        ForErr it (λ refusal. function_number refusal.function < exception_bit))) }
    ensures fits { IfOk result (λ found. IfSome found (λ it. Fits (response_result_pdu it))) }
{
    let Ok(request) = decode_any(alloc, pdu) else {
        return Err(AllocError);
    };
    let function = request.function_code();
    match device.ask(alloc, NON_SIGNIFICANT, request) {
        Ok(None) => Ok(None),
        Ok(Some(response)) => Ok(Some(Ok(response))),
        Err(exception) => Ok(Some(Err(ExceptionResponse {
            function,
            exception,
        }))),
    }
}

/// Answers the piece at the front of the input into the output, which has room for each reply.
///
/// # Errors
/// Where the front is no header of Modbus, or tells a length of no request.
fn serve_piece<D: Device>(
    alloc: Global,
    device: &mut D,
    input: &[u8],
    output: &mut [u8],
) -> Result<Served, HeaderFault>
    requires { longest_response ≤ length output.old }
    ensures serves { ServesPiece D.tells device.old input.now output.old result output.new
        device.new }
{
    match piece_end(input) {
        Err(fault) => Err(fault),
        Ok(None) => Ok(Served::Waiting { dropped: 0 }),
        Ok(Some(end)) => {
            let Ok(made) = BytesMut::with_capacity(alloc, LONGEST_RESPONSE) else {
                return Ok(Served::NoMemory);
            };
            let (header, pdu) = message_in(&input[..end]);
            match tell(alloc, device, pdu) {
                Err(_) => Ok(Served::NoMemory),
                Ok(None) => Ok(Served::Silent { used: end }),
                Ok(Some(answer)) => {
                    let written = adu_into(alloc, header, &answer, made, output);
                    Ok(Served::Answered { used: end, written })
                }
            }
        }
    }
}

/// Answers the piece at the front of the input into the output, where that has room for each reply.
fn serve_front<D: Device>(
    alloc: Global,
    device: &mut D,
    input: &[u8],
    output: &mut [u8],
) -> ModbusServed
    ensures serves { longest_response ≤ length output.old → (done : Result Done BadHeader)
        × (result ≡ flat_adu done) × ServesPiece D.tells device.old input.now output.old done
        output.new device.new }
    ensures room { length output.old < longest_response → (result ≡ no_room)
        × (device.new ≡ device.old) × (output.new ≡ output.old) }
{
    if output.len() < LONGEST_RESPONSE {
        return told(MODBUS_NO_ROOM, 0, 0, 0);
    }
    flat_of_adu(serve_piece(alloc, device, input, output))
}

/// Answers what stands at the front of a TCP connection by the tables of the device, whatever its unit identifier.
///
/// `MODBUS_DONE`: the reply has `written` bytes, and the request ends at `used`. `MODBUS_SILENT`: the message that ends at `used` has no
/// function code of a request, and is not answered. `MODBUS_WAITING`, `MODBUS_NO_MEMORY`. `MODBUS_FOREIGN` as soon as four bytes tell another
/// protocol, `detail`; `MODBUS_NO_LENGTH` as soon as six tell no byte or more than 254. `MODBUS_NO_ROOM`: the output has less than 260
/// bytes, and nothing was done.
#[unsafe(no_mangle)]
pub extern "C" fn modbus_stream_serve(
    alloc: Global,
    tables: &mut ModbusTables<'_>,
    input: &[u8],
    output: &mut [u8],
) -> ModbusServed
    ensures serves { longest_response ≤ length output.old → (done : Result Done BadHeader)
        × (result ≡ flat_adu done) × ServesPiece TablesTell tables.old input.now output.old done
        output.new tables.new }
    ensures room { length output.old < longest_response → (result ≡ no_room)
        × (tables.new ≡ tables.old) × (output.new ≡ output.old) }
{
    serve_front(alloc, tables, input, output)
}

/// Does what `modbus_stream_serve` does, by a device whose tables begin at addresses of their own, and which has coils and holding registers
/// that requests read alone.
#[unsafe(no_mangle)]
pub extern "C" fn modbus_device_serve(
    alloc: Global,
    device: &mut ModbusDevice<'_>,
    input: &[u8],
    output: &mut [u8],
) -> ModbusServed
    ensures serves { longest_response ≤ length output.old → (done : Result Done BadHeader)
        × (result ≡ flat_adu done) × ServesPiece PlacedTells device.old input.now output.old done
        output.new device.new }
    ensures room { length output.old < longest_response → (result ≡ no_room)
        × (device.new ≡ device.old) × (output.new ≡ output.old) }
{
    serve_front(alloc, device, input, output)
}
