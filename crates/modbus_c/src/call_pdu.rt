//! A call whose request is a PDU of the caller's, so for each function: the reply is handed out as its PDU. It takes no memory.
ghost use Rattle.std.specs.Prelude.{◌≡◌, ◌≢◌, ◌+◌, false, true, ◌<◌, ◌⊎◌, ℕ, List, length, Ok, Err};
ghost use Rattle.modbus_frame.specs.declared.fault.HeaderSeen.{HeaderSeen as Seen};
ghost use Rattle.modbus_frame.specs.declared.fault.Reason.{Reason as Why};
ghost use Rattle.modbus_frame.specs.declared.fault.TransportError.TheVariants as fault;
ghost use Rattle.modbus_pdu.specs.Limits.{max_pdu};
ghost use Rattle.modbus_rtu.specs.Frame.{frame};
ghost use Rattle.modbus_rtu.specs.Limits.{overhead};
ghost use Rattle.modbus_tcp.specs.Adu.{adu_of};
ghost use Rattle.modbus_tcp.specs.Limits.{mbap_header};
ghost use Rattle.modbus_client.specs.Protocol.{waiting, reply, broken};
ghost use Rattle.modbus_client.specs.Rtu.{slave_seen};
ghost use Rattle.modbus_client.specs.Tcp.{header_seen};
ghost use Rattle.modbus_c.specs.Calls.{heading, header_asked as header_of, FindsMessage};
ghost use Rattle.modbus_c.specs.Inbox.{held, room};
ghost use Rattle.modbus_c.specs.Layout.{laid};
ghost use Rattle.modbus_c.specs.Raw.{function_in, raw_reply, IsBegun};
ghost use Rattle.modbus_c.specs.Status.{reason_number, IsTellingRaw, IsAnsweringRaw};
ghost use Rattle.modbus_c.specs.declared.raw.RawReply.TheVariants as raw;

use crate::call::{ModbusCall, asked_by};
use crate::inbox::{INBOX_ROOM, advance, count, modbus_inbox_open};
use crate::put::put_front;
use crate::raw::{RawReply, function_in, raw_reply};
use crate::request::blank;
use crate::seek::{Sought, seek};
use crate::status::{
    MODBUS_CROWD, MODBUS_DONE, MODBUS_EXCEPTION, MODBUS_FOREIGN, MODBUS_FULL,
    MODBUS_FUNCTION_MISMATCH, MODBUS_HEADER_MISMATCH, MODBUS_NO_LENGTH, MODBUS_NO_ROOM,
    MODBUS_REFUSED, MODBUS_TOO_LONG, MODBUS_WAITING, ModbusDone, nothing, number_of,
};
use crate::wrap::{modbus_rtu_wrap, modbus_tcp_wrap};
use modbus_frame::HeaderSeen;

/// Has a call wait for the reply to a function under a header.
fn begin(call: &mut ModbusCall, tcp: bool, transaction_id: u16, slave: u8, function: u8)
    requires { tcp ≡ false → transaction_id ≡ 0 }
    ensures tcp { tcp ≡ true → IsBegun true (header_seen (heading transaction_id slave)) function call.new }
    ensures rtu { tcp ≡ false → IsBegun false (slave_seen slave) function call.new }
{
    call.tcp = tcp;
    call.transaction_id = transaction_id;
    call.slave = slave;
    call.request = blank(function);
    modbus_inbox_open(&mut call.inbox);
}

/// Begins a call of a unit over Modbus TCP with a PDU of the caller's: its ADU goes to the front of the output, and `call` keeps what the
/// reply has to be of. Bytes that the struct held are dropped.
///
/// `MODBUS_DONE`, and the ADU has `written` bytes; `MODBUS_REFUSED` where the PDU is empty, or its function code is above 127, for the reason
/// `detail`; `MODBUS_TOO_LONG` where the PDU has more than 253 bytes; `MODBUS_NO_ROOM`. Where it is not done, nothing is written.
#[unsafe(no_mangle)]
pub extern "C" fn modbus_call_tcp_pdu(
    call: &mut ModbusCall,
    transaction_id: u16,
    unit_id: u8,
    pdu: &[u8],
    output: &mut [u8],
) -> ModbusDone
    ensures done { result.status ≡ MODBUS_DONE → (function : ℕ) × (function_in pdu.now ≡ Ok function)
        × (output.new ≡ laid (adu_of (heading transaction_id unit_id) pdu.now) output.old)
        × (result.written ≡ mbap_header + length pdu.now)
        × IsBegun true (header_seen (heading transaction_id unit_id)) function call.new }
    ensures refused { result.status ≡ MODBUS_REFUSED → (reason : Why)
        × (function_in pdu.now ≡ Err reason) × (result.detail ≡ reason_number reason) }
    ensures asks { result.status ≢ MODBUS_REFUSED → (function : ℕ)
        × (function_in pdu.now ≡ Ok function) }
    ensures long { result.status ≡ MODBUS_TOO_LONG → max_pdu < length pdu.now }
    ensures room { result.status ≡ MODBUS_NO_ROOM
        → length output.old < mbap_header + length pdu.now }
    ensures kept { result.status ≢ MODBUS_DONE → (call.new ≡ call.old) × (output.new ≡ output.old)
        × (result.written ≡ 0) }
    ensures status { (result.status ≡ MODBUS_DONE) ⊎ (result.status ≡ MODBUS_REFUSED)
        ⊎ (result.status ≡ MODBUS_TOO_LONG) ⊎ (result.status ≡ MODBUS_NO_ROOM) }
{
    let function = match function_in(pdu) {
        Ok(function) => function,
        Err(reason) => return nothing(MODBUS_REFUSED, number_of(reason)),
    };
    let done = modbus_tcp_wrap(transaction_id, unit_id, pdu, output);
    if done.status == MODBUS_DONE {
        begin(call, true, transaction_id, unit_id, function);
    }
    done
}

/// Begins a call of a slave over a serial line with a PDU of the caller's, as `modbus_call_tcp_pdu` does: its frame goes to the front of the
/// output.
///
/// Its statuses are those of `modbus_call_tcp_pdu`. Where it is not done, nothing is written.
#[unsafe(no_mangle)]
pub extern "C" fn modbus_call_rtu_pdu(
    call: &mut ModbusCall,
    slave: u8,
    pdu: &[u8],
    output: &mut [u8],
) -> ModbusDone
    ensures done { result.status ≡ MODBUS_DONE → (function : ℕ) × (function_in pdu.now ≡ Ok function)
        × (output.new ≡ laid (frame slave pdu.now) output.old)
        × (result.written ≡ length pdu.now + overhead)
        × IsBegun false (slave_seen slave) function call.new }
    ensures refused { result.status ≡ MODBUS_REFUSED → (reason : Why)
        × (function_in pdu.now ≡ Err reason) × (result.detail ≡ reason_number reason) }
    ensures asks { result.status ≢ MODBUS_REFUSED → (function : ℕ)
        × (function_in pdu.now ≡ Ok function) }
    ensures long { result.status ≡ MODBUS_TOO_LONG → max_pdu < length pdu.now }
    ensures room { result.status ≡ MODBUS_NO_ROOM
        → length output.old < length pdu.now + overhead }
    ensures kept { result.status ≢ MODBUS_DONE → (call.new ≡ call.old) × (output.new ≡ output.old)
        × (result.written ≡ 0) }
    ensures status { (result.status ≡ MODBUS_DONE) ⊎ (result.status ≡ MODBUS_REFUSED)
        ⊎ (result.status ≡ MODBUS_TOO_LONG) ⊎ (result.status ≡ MODBUS_NO_ROOM) }
{
    let function = match function_in(pdu) {
        Ok(function) => function,
        Err(reason) => return nothing(MODBUS_REFUSED, number_of(reason)),
    };
    let done = modbus_rtu_wrap(slave, pdu, output);
    if done.status == MODBUS_DONE {
        begin(call, false, 0, slave, function);
    }
    done
}

/// Writes a PDU that is the reply, where there is room for it.
fn hand_out(status: u32, detail: u32, found: &[u8], pdu: &mut [u8]) -> ModbusDone
    requires { status ≢ MODBUS_NO_ROOM }
    ensures done { result.status ≢ MODBUS_NO_ROOM → (result.status ≡ status)
        × (result.detail ≡ detail) × (result.written ≡ length found.now)
        × (pdu.new ≡ laid found.now pdu.old) }
    ensures room { result.status ≡ MODBUS_NO_ROOM → (length pdu.old < length found.now)
        × (pdu.new ≡ pdu.old) × (result.written ≡ 0) }
{
    if pdu.len() < found.len() {
        return nothing(MODBUS_NO_ROOM, 0);
    }
    put_front(found, pdu);
    ModbusDone {
        status,
        detail,
        written: found.len(),
    }
}

/// Judges a message by the header and the function of its call, and hands its PDU out where it is the reply.
fn tell(
    asked: HeaderSeen,
    function: u8,
    seen: HeaderSeen,
    found: &[u8],
    pdu: &mut [u8],
) -> ModbusDone
    ensures done { result.status ≡ MODBUS_DONE → (seen ≡ asked)
        × (raw_reply function found.now ≡ raw.Reply) × (pdu.new ≡ laid found.now pdu.old)
        × (result.written ≡ length found.now) }
    ensures exception { result.status ≡ MODBUS_EXCEPTION → (seen ≡ asked)
        × (raw_reply function found.now ≡ raw.Exception result.detail)
        × (pdu.new ≡ laid found.now pdu.old) × (result.written ≡ length found.now) }
    ensures header { result.status ≡ MODBUS_HEADER_MISMATCH → (seen ≢ asked)
        × (result.detail ≡ seen.slave_id) }
    ensures function { result.status ≡ MODBUS_FUNCTION_MISMATCH → (seen ≡ asked)
        × (raw_reply function found.now ≡ raw.Another result.detail) }
    ensures refused { result.status ≡ MODBUS_REFUSED → (seen ≡ asked) × (reason : Why)
        × (raw_reply function found.now ≡ raw.Refused reason)
        × (result.detail ≡ reason_number reason) }
    ensures room { result.status ≡ MODBUS_NO_ROOM → (seen ≡ asked)
        × (length pdu.old < length found.now) }
    ensures kept { result.status ≢ MODBUS_DONE → result.status ≢ MODBUS_EXCEPTION
        → (pdu.new ≡ pdu.old) × (result.written ≡ 0) }
    ensures status { IsTellingRaw result.status }
{
    if seen != asked {
        return nothing(MODBUS_HEADER_MISMATCH, u32::from(seen.slave_id));
    }
    match raw_reply(function, found) {
        RawReply::Reply => hand_out(MODBUS_DONE, 0, found, pdu),
        RawReply::Exception(code) => hand_out(MODBUS_EXCEPTION, u32::from(code), found, pdu),
        RawReply::Another(other) => nothing(MODBUS_FUNCTION_MISMATCH, u32::from(other)),
        RawReply::Refused(reason) => nothing(MODBUS_REFUSED, number_of(reason)),
    }
}

/// The PDU of the answer of a call: looks for the reply in the bytes that it holds, judges it by its header and its function code, and
/// writes its PDU to the front of `pdu`. A call that was begun by a struct may be asked so too.
///
/// Over Modbus TCP, ADUs of another transaction or unit are dropped. On a serial line the next frame is the reply; one of a function that has
/// no length of its own is as long as all that is held, so the call is asked when the line has fallen silent. What was looked at is used, but
/// where `MODBUS_NO_ROOM` is told.
///
/// `MODBUS_DONE`: the PDU has `written` bytes; `MODBUS_EXCEPTION`: it is an exception of the code `detail`, and is written too;
/// `MODBUS_REFUSED`: it has no byte, or it is an exception without a code or with more than one; the other statuses are those of
/// `modbus_call_answer`. Where it is neither done nor an exception, nothing is written but the call itself.
#[unsafe(no_mangle)]
pub extern "C" fn modbus_call_answer_pdu(call: &mut ModbusCall, pdu: &mut [u8]) -> ModbusDone
    ensures done { result.status ≡ MODBUS_DONE → (found : List ℕ)
        × FindsMessage call.old (reply (held call.new.inbox) (header_of call.old) found)
        × (raw_reply call.old.request.function found ≡ raw.Reply)
        × (pdu.new ≡ laid found pdu.old) × (result.written ≡ length found) }
    ensures exception { result.status ≡ MODBUS_EXCEPTION → (found : List ℕ)
        × FindsMessage call.old (reply (held call.new.inbox) (header_of call.old) found)
        × (raw_reply call.old.request.function found ≡ raw.Exception result.detail)
        × (pdu.new ≡ laid found pdu.old) × (result.written ≡ length found) }
    ensures header { result.status ≡ MODBUS_HEADER_MISMATCH → (seen : Seen) × (found : List ℕ)
        × FindsMessage call.old (reply (held call.new.inbox) seen found)
        × (seen ≢ header_of call.old) × (result.detail ≡ seen.slave_id) }
    ensures function { result.status ≡ MODBUS_FUNCTION_MISMATCH → (found : List ℕ)
        × FindsMessage call.old (reply (held call.new.inbox) (header_of call.old) found)
        × (raw_reply call.old.request.function found ≡ raw.Another result.detail) }
    ensures refused { result.status ≡ MODBUS_REFUSED → (found : List ℕ) × (reason : Why)
        × FindsMessage call.old (reply (held call.new.inbox) (header_of call.old) found)
        × (raw_reply call.old.request.function found ≡ raw.Refused reason)
        × (result.detail ≡ reason_number reason) }
    ensures room { result.status ≡ MODBUS_NO_ROOM → (left found : List ℕ)
        × FindsMessage call.old (reply left (header_of call.old) found)
        × (length pdu.old < length found) }
    ensures waits { result.status ≡ MODBUS_WAITING → FindsMessage call.old (waiting (held call.new.inbox))
        × (length (held call.new.inbox) < room) }
    ensures full { result.status ≡ MODBUS_FULL → FindsMessage call.old (waiting (held call.new.inbox))
        × (length (held call.new.inbox) ≡ room) }
    ensures crowd { result.status ≡ MODBUS_CROWD
        → FindsMessage call.old (broken (held call.new.inbox) fault.TooManyRetries) }
    ensures no_length { result.status ≡ MODBUS_NO_LENGTH
        → FindsMessage call.old (broken (held call.new.inbox) fault.InvalidLength) }
    ensures foreign { result.status ≡ MODBUS_FOREIGN
        → FindsMessage call.old (broken (held call.new.inbox) (fault.InvalidProtocol result.detail)) }
    ensures again { result.status ≡ MODBUS_NO_ROOM → held call.new.inbox ≡ held call.old.inbox }
    ensures same { call.new ≡ record call.old { inbox = call.new.inbox } }
    ensures kept { result.status ≢ MODBUS_DONE → result.status ≢ MODBUS_EXCEPTION
        → (pdu.new ≡ pdu.old) × (result.written ≡ 0) }
    ensures status { IsAnsweringRaw result.status }
{
    let asked = asked_by(call);
    let function = call.request.function;
    let len = count(&call.inbox);
    match seek(call.tcp, asked, &call.inbox.bytes[..len]) {
        Sought::Waiting { used } => {
            advance(&mut call.inbox, used);
            let is_full = len - used == INBOX_ROOM;
            nothing(if is_full { MODBUS_FULL } else { MODBUS_WAITING }, 0)
        }
        Sought::Message {
            seen,
            pdu: found,
            used,
        } => {
            let told = tell(asked, function, seen, found, pdu);
            if told.status != MODBUS_NO_ROOM {
                advance(&mut call.inbox, used);
            }
            told
        }
        Sought::Crowd { used } => {
            advance(&mut call.inbox, used);
            nothing(MODBUS_CROWD, 0)
        }
        Sought::NoLength { used } => {
            advance(&mut call.inbox, used);
            nothing(MODBUS_NO_LENGTH, 0)
        }
        Sought::Foreign { used, protocol } => {
            advance(&mut call.inbox, used);
            nothing(MODBUS_FOREIGN, u32::from(protocol))
        }
    }
}
