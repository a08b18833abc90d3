//! The PDU of a request as a struct and lists, and back.
ghost use Rattle.std.specs.Prelude.{◌≡◌, ◌≢◌, ◌⊎◌, ◌<◌, length, IfOk, IfErr, Ok, Err, Some, None};
ghost use Rattle.modbus_frame.specs.declared.fault.Reason.{Reason as Why};
ghost use Rattle.modbus_frame.specs.Codes.{function_of};
ghost use Rattle.modbus_frame.specs.Meaning.{function_asked, Asked, meaning};
ghost use Rattle.modbus_pdu.specs.Limits.{max_pdu};
ghost use Rattle.modbus_pdu.specs.RequestOf.{request_of};
ghost use Rattle.modbus_pdu.specs.RequestPdu.{request_pdu};
ghost use Rattle.modbus_c.specs.Layout.{laid};
ghost use Rattle.modbus_c.specs.Requests.{flat_request, words_asked, coils_in, asked_in, LacksItems, blank as blank_of};
ghost use Rattle.modbus_c.specs.Status.{reason_number, IsReading, IsWriting};

use crate::put::put_front;
use crate::status::{
    MODBUS_DONE, MODBUS_NO_MEMORY, MODBUS_NO_ROOM, MODBUS_REFUSED, MODBUS_TOO_LONG, MODBUS_UNTOLD,
    ModbusDone, nothing, number_of,
};
use bytes::BytesMut;
use modbus_frame::{Coil, PduError, Request, Word, function_code};
use modbus_pdu::{decode_request, encode_request_pdu, request_pdu_size};
use std::alloc::Global;
use std::borrow::CowSlice;

/// A request without its lists. Which fields tell something is the function's: `coil` is that of function 05, `word` that of 06 and the
/// AND mask of 16, `quantity` how many are read, `count` how many coils or registers of the caller's lists 0F, 10 and 17 write. Numbers
/// of functions are hexadecimal. The functions are 01 to 06, 0F, 10, 11, 16, 17 and 18 (Modbus Application Protocol V1.1b3, section 6).
#[repr(C)]
#[derive(Clone, Copy)]
pub struct ModbusRequest {
    pub function: u8,
    pub coil: bool,
    pub address: u16,
    pub quantity: u16,
    pub write_address: u16,
    pub word: u16,
    pub or_mask: u16,
    pub count: usize,
}

/// A request of a function, with no field that tells anything.
pub(crate) fn blank(function: u8) -> ModbusRequest
    ensures { result ≡ blank_of function }
{
    ModbusRequest {
        function,
        coil: false,
        address: 0,
        quantity: 0,
        write_address: 0,
        word: 0,
        or_mask: 0,
        count: 0,
    }
}

/// The numbers of a request; `None` where the struct does not tell its function.
fn flatten(asked: &Request<'_>) -> Option<ModbusRequest>
    ensures { result ≡ flat_request (meaning asked.now) }
{
    Some(match asked {
        Request::ReadCoils(address, quantity) => ModbusRequest {
            address: *address,
            quantity: *quantity,
            ..blank(function_code::READ_COILS)
        },
        Request::ReadDiscreteInputs(address, quantity) => ModbusRequest {
            address: *address,
            quantity: *quantity,
            ..blank(function_code::READ_DISCRETE_INPUTS)
        },
        Request::ReadHoldingRegisters(address, quantity) => ModbusRequest {
            address: *address,
            quantity: *quantity,
            ..blank(function_code::READ_HOLDING_REGISTERS)
        },
        Request::ReadInputRegisters(address, quantity) => ModbusRequest {
            address: *address,
            quantity: *quantity,
            ..blank(function_code::READ_INPUT_REGISTERS)
        },
        Request::WriteSingleCoil(address, coil) => ModbusRequest {
            address: *address,
            coil: *coil,
            ..blank(function_code::WRITE_SINGLE_COIL)
        },
        Request::WriteSingleRegister(address, word) => ModbusRequest {
            address: *address,
            word: *word,
            ..blank(function_code::WRITE_SINGLE_REGISTER)
        },
        Request::WriteMultipleCoils(address, coils) => ModbusRequest {
            address: *address,
            count: coils.len(),
            ..blank(function_code::WRITE_MULTIPLE_COILS)
        },
        Request::WriteMultipleRegisters(address, words) => ModbusRequest {
            address: *address,
            count: words.len(),
            ..blank(function_code::WRITE_MULTIPLE_REGISTERS)
        },
        Request::ReportServerId => blank(function_code::REPORT_SERVER_ID),
        Request::MaskWriteRegister(address, and_mask, or_mask) => ModbusRequest {
            address: *address,
            word: *and_mask,
            or_mask: *or_mask,
            ..blank(function_code::MASK_WRITE_REGISTER)
        },
        Request::ReadWriteMultipleRegisters(address, quantity, write_address, words) =>
            ModbusRequest {
                address: *address,
                quantity: *quantity,
                write_address: *write_address,
                count: words.len(),
                ..blank(function_code::READ_WRITE_MULTIPLE_REGISTERS)
            },
        Request::ReadFifoQueue(address) => ModbusRequest {
            address: *address,
            ..blank(function_code::READ_FIFO_QUEUE)
        },
        Request::ReadDeviceIdentification(_, _) | Request::Custom(_, _) => return None,
    })
}

/// The registers that a request writes one after another.
fn words_of<'r>(asked: &'r Request<'_>) -> &'r [Word]
    ensures { result.now ≡ words_asked (meaning asked.now) }
{
    match asked {
        Request::WriteMultipleRegisters(_, words)
        | Request::ReadWriteMultipleRegisters(_, _, _, words) => words.as_slice(),
        _ => &[],
    }
}

/// The coils that a request writes one after another.
fn coils_of<'r>(asked: &'r Request<'_>) -> &'r [Coil]
    ensures { result.now ≡ coils_in (meaning asked.now) }
{
    match asked {
        Request::WriteMultipleCoils(_, coils) => coils.as_slice(),
        _ => &[],
    }
}

/// Reads the PDU of a request: its numbers go to `request`, the registers and coils that it writes to the fronts of `words` and `coils`.
///
/// `MODBUS_DONE`; `MODBUS_REFUSED` where it is no request; `MODBUS_UNTOLD` where the struct does not tell its function, as the
/// identification of a device and functions that the standard does not have; `MODBUS_NO_ROOM` where a list is longer than the caller's;
/// or `MODBUS_NO_MEMORY`. Where it is not done, nothing is written.
#[unsafe(no_mangle)]
pub extern "C" fn modbus_request_decode(
    alloc: Global,
    pdu: &[u8],
    request: &mut ModbusRequest,
    words: &mut [u16],
    coils: &mut [bool],
) -> ModbusDone
    ensures done { result.status ≡ MODBUS_DONE → (asked : Asked) × (request_of pdu.now ≡ Ok asked)
        × (flat_request asked ≡ Some request.new) × (words.new ≡ laid (words_asked asked) words.old)
        × (coils.new ≡ laid (coils_in asked) coils.old) }
    ensures refused { result.status ≡ MODBUS_REFUSED → (reason : Why)
        × (request_of pdu.now ≡ Err reason) × (result.detail ≡ reason_number reason) }
    ensures untold { result.status ≡ MODBUS_UNTOLD → (asked : Asked)
        × (request_of pdu.now ≡ Ok asked) × (flat_request asked ≡ None) }
    ensures room { result.status ≡ MODBUS_NO_ROOM → (asked : Asked)
        × (request_of pdu.now ≡ Ok asked) × ((length words.old < length (words_asked asked))
        ⊎ (length coils.old < length (coils_in asked))) }
    ensures kept { result.status ≢ MODBUS_DONE → (request.new ≡ request.old)
        × (words.new ≡ words.old) × (coils.new ≡ coils.old) }
    ensures status { IsReading result.status }
{
    let asked = match decode_request(alloc, pdu) {
        Ok(asked) => asked,
        Err(PduError::Refused(reason)) => return nothing(MODBUS_REFUSED, number_of(reason)),
        Err(PduError::NoMemory) => return nothing(MODBUS_NO_MEMORY, 0),
    };
    let Some(flat) = flatten(&asked) else {
        return nothing(MODBUS_UNTOLD, 0);
    };
    let words_found = words_of(&asked);
    let coils_found = coils_of(&asked);
    if words.len() < words_found.len() || coils.len() < coils_found.len() {
        return nothing(MODBUS_NO_ROOM, 0);
    }
    put_front(words_found, words);
    put_front(coils_found, coils);
    *request = flat;
    nothing(MODBUS_DONE, 0)
}

/// What a struct and lists ask, which is lent from there.
///
/// # Errors
/// `MODBUS_UNTOLD` or `MODBUS_NO_ROOM`.
pub(crate) fn unflatten<'l>(
    request: &ModbusRequest,
    words: &'l [Word],
    coils: &'l [Coil],
) -> Result<Request<'l>, u32>
    ensures ok { IfOk result (λ asked.
        asked_in request.now words.now coils.now ≡ Some (meaning asked)) }
    ensures function { IfOk result (λ asked.
        function_of request.now.function ≡ function_asked (meaning asked)) }
    ensures err { IfErr result (λ status. ((status ≡ MODBUS_UNTOLD)
        × (asked_in request.now words.now coils.now ≡ None)) ⊎ ((status ≡ MODBUS_NO_ROOM)
        × LacksItems request.now words.now coils.now)) }
{
    let address = request.address;
    let count = request.count;
    Ok(match request.function {
        function_code::READ_COILS => Request::ReadCoils(address, request.quantity),
        function_code::READ_DISCRETE_INPUTS => Request::ReadDiscreteInputs(
            address,
            request.quantity,
        ),
        function_code::READ_HOLDING_REGISTERS => Request::ReadHoldingRegisters(
            address,
            request.quantity,
        ),
        function_code::READ_INPUT_REGISTERS => Request::ReadInputRegisters(
            address,
            request.quantity,
        ),
        function_code::WRITE_SINGLE_COIL => Request::WriteSingleCoil(address, request.coil),
        function_code::WRITE_SINGLE_REGISTER => Request::WriteSingleRegister(address, request.word),
        function_code::WRITE_MULTIPLE_COILS => match coils.get(..count) {
            Some(coils) => Request::WriteMultipleCoils(address, CowSlice::Borrowed(coils)),
            None => return Err(MODBUS_NO_ROOM),
        },
        function_code::WRITE_MULTIPLE_REGISTERS => match words.get(..count) {
            Some(words) => Request::WriteMultipleRegisters(address, CowSlice::Borrowed(words)),
            None => return Err(MODBUS_NO_ROOM),
        },
        function_code::REPORT_SERVER_ID => Request::ReportServerId,
        function_code::MASK_WRITE_REGISTER => Request::MaskWriteRegister(
            address,
            request.word,
            request.or_mask,
        ),
        function_code::READ_WRITE_MULTIPLE_REGISTERS => match words.get(..count) {
            Some(words) => Request::ReadWriteMultipleRegisters(
                address,
                request.quantity,
                request.write_address,
                CowSlice::Borrowed(words),
            ),
            None => return Err(MODBUS_NO_ROOM),
        },
        function_code::READ_FIFO_QUEUE => Request::ReadFifoQueue(address),
        _ => return Err(MODBUS_UNTOLD),
    })
}

/// Writes the PDU of a request to the front of `pdu`.
///
/// `MODBUS_DONE`, and it has `written` bytes; `MODBUS_UNTOLD` where the struct has no such function; `MODBUS_NO_ROOM` where `count` is more
/// than the list has, or `pdu` is too short; `MODBUS_TOO_LONG` where the PDU would have more than 253 bytes; or `MODBUS_NO_MEMORY`. Where
/// it is not done, nothing is written.
#[unsafe(no_mangle)]
pub extern "C" fn modbus_request_encode(
    alloc: Global,
    request: &ModbusRequest,
    words: &[u16],
    coils: &[bool],
    pdu: &mut [u8],
) -> ModbusDone
    ensures done { result.status ≡ MODBUS_DONE → (asked : Asked)
        × (asked_in request.now words.now coils.now ≡ Some asked)
        × (pdu.new ≡ laid (request_pdu asked) pdu.old)
        × (result.written ≡ length (request_pdu asked)) }
    ensures untold { result.status ≡ MODBUS_UNTOLD
        → asked_in request.now words.now coils.now ≡ None }
    ensures room { result.status ≡ MODBUS_NO_ROOM → LacksItems request.now words.now coils.now
        ⊎ ((asked : Asked) × (asked_in request.now words.now coils.now ≡ Some asked)
        × (length pdu.old < length (request_pdu asked))) }
    ensures long { result.status ≡ MODBUS_TOO_LONG → (asked : Asked)
        × (asked_in request.now words.now coils.now ≡ Some asked)
        × (max_pdu < length (request_pdu asked)) }
    ensures kept { result.status ≢ MODBUS_DONE → (pdu.new ≡ pdu.old) × (result.written ≡ 0) }
    ensures status { IsWriting result.status }
{
    let asked = match unflatten(request, words, coils) {
        Ok(asked) => asked,
        Err(status) => return nothing(status, 0),
    };
    let Ok(size) = request_pdu_size(&asked) else {
        return nothing(MODBUS_TOO_LONG, 0);
    };
    if pdu.len() < size {
        return nothing(MODBUS_NO_ROOM, 0);
    }
    let Ok(mut made) = BytesMut::with_capacity(alloc, size) else {
        return nothing(MODBUS_NO_MEMORY, 0);
    };
    if encode_request_pdu(alloc, &mut made, &asked).is_err() {
        return nothing(MODBUS_NO_MEMORY, 0);
    }
    put_front(made.as_slice(), pdu);
    ModbusDone {
        status: MODBUS_DONE,
        detail: 0,
        written: size,
    }
}
