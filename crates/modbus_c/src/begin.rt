//! The request of a call, written as the frame or the ADU that carries it.
ghost use Rattle.std.specs.Prelude.{◌≡◌, ◌≢◌, ◌↔◌, ◌⊎◌, ◌<◌, true, false, length, IfOk, IfErr, Some, None};
ghost use Rattle.modbus_frame.specs.Meaning.{Asked, meaning};
ghost use Rattle.modbus_frame.specs.declared.fault.Reason.TheVariants as reason;
ghost use Rattle.modbus_pdu.specs.Limits.{max_pdu};
ghost use Rattle.modbus_pdu.specs.RequestPdu.{request_pdu};
ghost use Rattle.modbus_rtu.specs.Frame.{frame};
ghost use Rattle.modbus_tcp.specs.Adu.{adu_of};
ghost use Rattle.modbus_client.specs.Rtu.{slave_seen};
ghost use Rattle.modbus_client.specs.Tcp.{header_seen};
ghost use Rattle.modbus_c.specs.Calls.{heading, IsOpened};
ghost use Rattle.modbus_c.specs.Fits.{writes_none};
ghost use Rattle.modbus_c.specs.Layout.{laid};
ghost use Rattle.modbus_c.specs.Requests.{asked_in, LacksItems};
ghost use Rattle.modbus_c.specs.Status.{IsBeginning, reason_number};
ghost use Rattle.modbus_c.specs.declared.status.TheConstants.{MODBUS_UNTOLD};

use crate::call::ModbusCall;
use crate::fits::writes_none;
use crate::inbox::modbus_inbox_open;
use crate::put::put_front;
use crate::request::{ModbusRequest, unflatten};
use crate::status::{
    MODBUS_DONE, MODBUS_NO_MEMORY, MODBUS_NO_ROOM, MODBUS_REFUSED, MODBUS_TOO_LONG, ModbusDone,
    nothing, number_of,
};
use bytes::BytesMut;
use modbus_frame::tcp::Header;
use modbus_frame::{EncodeError, Reason, Request, SlaveId};
use modbus_rtu::encode_request_frame;
use modbus_tcp::encode_request_adu;
use std::alloc::Global;

/// The ADU of a request.
///
/// # Errors
/// `MODBUS_TOO_LONG` or `MODBUS_NO_MEMORY`.
fn made_adu(alloc: Global, header: Header, request: &Request<'_>) -> Result<BytesMut, u32>
    ensures ok { IfOk result (λ made.
        made.items ≡ adu_of header (request_pdu (meaning request.now))) }
    ensures err { IfErr result (λ status. ((status ≡ MODBUS_TOO_LONG)
        × (max_pdu < length (request_pdu (meaning request.now)))) ⊎ (status ≡ MODBUS_NO_MEMORY)) }
{
    let mut made = BytesMut::new(alloc);
    match encode_request_adu(alloc, header, request, &mut made) {
        Ok(()) => Ok(made),
        Err(EncodeError::TooLong(_)) => Err(MODBUS_TOO_LONG),
        Err(EncodeError::NoMemory) => Err(MODBUS_NO_MEMORY),
    }
}

/// The frame of a request.
///
/// # Errors
/// `MODBUS_TOO_LONG` or `MODBUS_NO_MEMORY`.
fn made_frame(alloc: Global, slave: SlaveId, request: &Request<'_>) -> Result<BytesMut, u32>
    ensures ok { IfOk result (λ made.
        made.items ≡ frame slave (request_pdu (meaning request.now))) }
    ensures err { IfErr result (λ status. ((status ≡ MODBUS_TOO_LONG)
        × (max_pdu < length (request_pdu (meaning request.now)))) ⊎ (status ≡ MODBUS_NO_MEMORY)) }
{
    let mut made = BytesMut::new(alloc);
    match encode_request_frame(alloc, slave, request, &mut made) {
        Ok(()) => Ok(made),
        Err(EncodeError::TooLong(_)) => Err(MODBUS_TOO_LONG),
        Err(EncodeError::NoMemory) => Err(MODBUS_NO_MEMORY),
    }
}

/// Begins a call of a unit over Modbus TCP: its ADU goes to the front of the output, and `call` keeps what the reply has to be of (MODBUS
/// Messaging on TCP/IP V1.0b, sections 3.1.3 and 4.4.1.3). Bytes that the struct held are dropped.
///
/// `MODBUS_DONE`, and the ADU has `written` bytes; `MODBUS_REFUSED` where the request writes a list, and counts no coil or register of
/// it: `detail` is the number of `InvalidQuantity`; `MODBUS_UNTOLD`, `MODBUS_NO_ROOM`, `MODBUS_TOO_LONG` or `MODBUS_NO_MEMORY`, as
/// `modbus_request_encode` tells them. Where it is not done, nothing is written.
#[unsafe(no_mangle)]
pub extern "C" fn modbus_call_tcp(
    alloc: Global,
    call: &mut ModbusCall,
    transaction_id: u16,
    unit_id: u8,
    request: &ModbusRequest,
    words: &[u16],
    coils: &[bool],
    output: &mut [u8],
) -> ModbusDone
    ensures done { result.status ≡ MODBUS_DONE → (asked : Asked)
        × (asked_in request.now words.now coils.now ≡ Some asked)
        × (output.new
        ≡ laid (adu_of (heading transaction_id unit_id) (request_pdu asked)) output.old)
        × (result.written ≡ length (adu_of (heading transaction_id unit_id) (request_pdu asked)))
        × IsOpened true (header_seen (heading transaction_id unit_id)) asked request.now
        call.new }
    ensures refused { (result.status ≡ MODBUS_REFUSED) ↔ (writes_none request.now ≡ true) }
    ensures why { result.status ≡ MODBUS_REFUSED
        → result.detail ≡ reason_number reason.InvalidQuantity }
    ensures untold { result.status ≡ MODBUS_UNTOLD
        → asked_in request.now words.now coils.now ≡ None }
    ensures room { result.status ≡ MODBUS_NO_ROOM → LacksItems request.now words.now coils.now
        ⊎ ((asked : Asked) × (asked_in request.now words.now coils.now ≡ Some asked)
        × (length output.old
        < length (adu_of (heading transaction_id unit_id) (request_pdu asked)))) }
    ensures long { result.status ≡ MODBUS_TOO_LONG → (asked : Asked)
        × (asked_in request.now words.now coils.now ≡ Some asked)
        × (max_pdu < length (request_pdu asked)) }
    ensures kept { result.status ≢ MODBUS_DONE → (call.new ≡ call.old) × (output.new ≡ output.old)
        × (result.written ≡ 0) }
    ensures status { IsBeginning result.status }
{
    if writes_none(request) {
        return nothing(MODBUS_REFUSED, number_of(Reason::InvalidQuantity));
    }
    let asked = match unflatten(request, words, coils) {
        Ok(asked) => asked,
        Err(status) => return nothing(status, 0),
    };
    let header = Header {
        transaction_id,
        unit_id,
    };
    let made = match made_adu(alloc, header, &asked) {
        Ok(made) => made,
        Err(status) => return nothing(status, 0),
    };
    if output.len() < made.len() {
        return nothing(MODBUS_NO_ROOM, 0);
    }
    put_front(made.as_slice(), output);
    call.tcp = true;
    call.transaction_id = transaction_id;
    call.slave = unit_id;
    call.request = *request;
    modbus_inbox_open(&mut call.inbox);
    ModbusDone {
        status: MODBUS_DONE,
        detail: 0,
        written: made.len(),
    }
}

/// Begins a call of a slave over a serial line: its frame goes to the front of the output, and `call` keeps what the reply has to be of
/// (MODBUS over Serial Line V1.02, section 2.5.1). Bytes that the struct held are dropped.
///
/// Its statuses are those of `modbus_call_tcp`. Where it is not done, nothing is written.
#[unsafe(no_mangle)]
pub extern "C" fn modbus_call_rtu(
    alloc: Global,
    call: &mut ModbusCall,
    slave: u8,
    request: &ModbusRequest,
    words: &[u16],
    coils: &[bool],
    output: &mut [u8],
) -> ModbusDone
    ensures done { result.status ≡ MODBUS_DONE → (asked : Asked)
        × (asked_in request.now words.now coils.now ≡ Some asked)
        × (output.new ≡ laid (frame slave (request_pdu asked)) output.old)
        × (result.written ≡ length (frame slave (request_pdu asked)))
        × IsOpened false (slave_seen slave) asked request.now call.new }
    ensures refused { (result.status ≡ MODBUS_REFUSED) ↔ (writes_none request.now ≡ true) }
    ensures why { result.status ≡ MODBUS_REFUSED
        → result.detail ≡ reason_number reason.InvalidQuantity }
    ensures untold { result.status ≡ MODBUS_UNTOLD
        → asked_in request.now words.now coils.now ≡ None }
    ensures room { result.status ≡ MODBUS_NO_ROOM → LacksItems request.now words.now coils.now
        ⊎ ((asked : Asked) × (asked_in request.now words.now coils.now ≡ Some asked)
        × (length output.old < length (frame slave (request_pdu asked)))) }
    ensures long { result.status ≡ MODBUS_TOO_LONG → (asked : Asked)
        × (asked_in request.now words.now coils.now ≡ Some asked)
        × (max_pdu < length (request_pdu asked)) }
    ensures kept { result.status ≢ MODBUS_DONE → (call.new ≡ call.old) × (output.new ≡ output.old)
        × (result.written ≡ 0) }
    ensures status { IsBeginning result.status }
{
    if writes_none(request) {
        return nothing(MODBUS_REFUSED, number_of(Reason::InvalidQuantity));
    }
    let asked = match unflatten(request, words, coils) {
        Ok(asked) => asked,
        Err(status) => return nothing(status, 0),
    };
    let made = match made_frame(alloc, slave, &asked) {
        Ok(made) => made,
        Err(status) => return nothing(status, 0),
    };
    if output.len() < made.len() {
        return nothing(MODBUS_NO_ROOM, 0);
    }
    put_front(made.as_slice(), output);
    call.tcp = false;
    call.transaction_id = 0;
    call.slave = slave;
    call.request = *request;
    modbus_inbox_open(&mut call.inbox);
    ModbusDone {
        status: MODBUS_DONE,
        detail: 0,
        written: made.len(),
    }
}
