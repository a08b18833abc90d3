//! One call of a client, in memory of the caller: it keeps what the reply has to be of, is fed the bytes that come, and tells the answer.
//! It reads and writes nothing itself.
ghost use Rattle.std.specs.Prelude.{◌≡◌, ◌≢◌, ◌↔◌, ◌⊎◌, ℕ, ◌-◌, ◌<◌, ◌++◌, min, List, length, take, Result, Ok, Err, Some, None, false, IsTrue};
ghost use Rattle.modbus_frame.specs.Codes.{function_of};
ghost use Rattle.modbus_frame.specs.declared.fault.HeaderSeen.{HeaderSeen as Seen};
ghost use Rattle.modbus_frame.specs.declared.fault.Reason.{Reason as Why};
ghost use Rattle.modbus_frame.specs.declared.fault.TransportError.TheVariants as fault;
ghost use Rattle.modbus_frame.specs.declared.response.ExceptionResponse.{ExceptionResponse as Refusal};
ghost use Rattle.modbus_frame.specs.declared.response.Response.{Response as Answer};
ghost use Rattle.modbus_pdu.specs.ResponseOf.{response_result_of};
ghost use Rattle.modbus_client.specs.Matches.{IsOf};
ghost use Rattle.modbus_client.specs.Protocol.{waiting, reply, broken};
ghost use Rattle.modbus_c.specs.Calls.{header_asked as header_of, FindsMessage, FindsAnswer, function_told};
ghost use Rattle.modbus_c.specs.Fits.{fits, IsReplyTo, asked_of, LacksAsked};
ghost use Rattle.modbus_c.specs.Inbox.{held, room};
ghost use Rattle.modbus_c.specs.Layout.{laid};
ghost use Rattle.modbus_c.specs.Responses.{flat_answer, words_told, coils_told};
ghost use Rattle.modbus_c.specs.Status.{reason_number, IsTelling, IsAnswering};
ghost use Rattle.modbus_c.specs.declared.status.TheConstants.{MODBUS_UNTOLD};

use crate::fits::{coils_asked, fits, flatten_asked};
use crate::inbox::{INBOX_ROOM, ModbusInbox, advance, count, modbus_inbox_feed};
use crate::request::ModbusRequest;
use crate::response::{ModbusResponse, put_told, words_of};
use crate::seek::{Sought, seek};
use crate::status::{
    MODBUS_CROWD, MODBUS_DONE, MODBUS_FOREIGN, MODBUS_FULL, MODBUS_FUNCTION_MISMATCH,
    MODBUS_HEADER_MISMATCH, MODBUS_MISMATCH, MODBUS_NO_LENGTH, MODBUS_NO_MEMORY, MODBUS_NO_ROOM,
    MODBUS_REFUSED, MODBUS_WAITING, ModbusDone, nothing, number_of,
};
use modbus_frame::{
    Coil, ExceptionResponse, FunctionCode, HeaderSeen, PduError, Response, ResponsePdu, Word,
};
use modbus_pdu::read_response_pdu;
use std::alloc::Global;

/// A call that was begun: its framing (Modbus TCP or a serial line), the transaction and the unit or the slave that the reply has to be of,
/// the request that it has to fit, and the bytes that were fed and not used yet. C makes room for one, begins a call with it, and then
/// leaves its fields to the exports.
#[repr(C)]
pub struct ModbusCall {
    pub tcp: bool,
    pub transaction_id: u16,
    pub slave: u8,
    pub request: ModbusRequest,
    pub inbox: ModbusInbox,
}

/// What is compared of the header of the request.
pub(crate) fn asked_by(call: &ModbusCall) -> HeaderSeen
    ensures { result ≡ header_of call.now }
{
    HeaderSeen {
        transaction_id: if call.tcp {
            Some(call.transaction_id)
        } else {
            None
        },
        slave_id: call.slave,
    }
}

/// Appends the first bytes of a piece, as many as there is room for, and tells how many.
#[unsafe(no_mangle)]
pub extern "C" fn modbus_call_feed(call: &mut ModbusCall, piece: &[u8]) -> usize
    ensures fed { held call.new.inbox ≡ held call.old.inbox ++ take result piece.now }
    ensures most { result ≡ min (length piece.now) (room - length (held call.old.inbox)) }
    ensures same { call.new ≡ record call.old { inbox = call.new.inbox } }
{
    modbus_inbox_feed(&mut call.inbox, piece)
}

/// Whether an answer is of the function with this number: an exception by its number, a response by its code.
fn is_of(function: FunctionCode, answer: &Result<Response, ExceptionResponse>) -> bool
    ensures { IsTrue result ↔ IsOf function answer.now }
{
    match answer {
        Ok(response) => response.function_code() == function,
        Err(refusal) => refusal.function.value() == function.value(),
    }
}

/// The number of the function of an answer.
fn number_told(answer: &Result<Response, ExceptionResponse>) -> u8
    ensures { result ≡ function_told answer.now }
{
    match answer {
        Ok(response) => response.function_code().value(),
        Err(refusal) => refusal.function.value(),
    }
}

/// What a client makes of a message, by the header and by the request of the call: `MODBUS_DONE` where it is the reply.
fn judge(
    asked: HeaderSeen,
    request: &ModbusRequest,
    seen: HeaderSeen,
    answer: &Result<Response, ExceptionResponse>,
) -> ModbusDone
    ensures done { result.status ≡ MODBUS_DONE → (seen ≡ asked) × IsReplyTo request.now answer.now }
    ensures header { result.status ≡ MODBUS_HEADER_MISMATCH → (seen ≢ asked)
        × (result.detail ≡ seen.slave_id) }
    ensures function { result.status ≡ MODBUS_FUNCTION_MISMATCH → (seen ≡ asked)
        × (IsOf (function_of request.now.function) answer.now → ⊥)
        × (result.detail ≡ function_told answer.now) }
    ensures unfit { result.status ≡ MODBUS_MISMATCH → (seen ≡ asked)
        × IsOf (function_of request.now.function) answer.now
        × (fits request.now answer.now ≡ false) × (result.detail ≡ function_told answer.now) }
    ensures status { (result.status ≡ MODBUS_DONE) ⊎ (result.status ≡ MODBUS_HEADER_MISMATCH)
        ⊎ (result.status ≡ MODBUS_FUNCTION_MISMATCH) ⊎ (result.status ≡ MODBUS_MISMATCH) }
{
    if seen != asked {
        return nothing(MODBUS_HEADER_MISMATCH, u32::from(seen.slave_id));
    }
    if !is_of(FunctionCode::new(request.function), answer) {
        return nothing(MODBUS_FUNCTION_MISMATCH, u32::from(number_told(answer)));
    }
    if !fits(request, answer) {
        return nothing(MODBUS_MISMATCH, u32::from(number_told(answer)));
    }
    nothing(MODBUS_DONE, 0)
}

/// Judges a message by the header and the request of its call, and writes what was asked of it.
fn tell(
    asked: HeaderSeen,
    request: &ModbusRequest,
    seen: HeaderSeen,
    answer: &Result<Response, ExceptionResponse>,
    response: &mut ModbusResponse,
    words: &mut [Word],
    coils: &mut [Coil],
) -> ModbusDone
    ensures done { result.status ≡ MODBUS_DONE → (seen ≡ asked) × IsReplyTo request.now answer.now
        × (flat_answer (asked_of request.now answer.now) ≡ Some response.new)
        × (words.new ≡ laid (words_told answer.now) words.old)
        × (coils.new ≡ laid (coils_told (asked_of request.now answer.now)) coils.old) }
    ensures header { result.status ≡ MODBUS_HEADER_MISMATCH → (seen ≢ asked)
        × (result.detail ≡ seen.slave_id) }
    ensures function { result.status ≡ MODBUS_FUNCTION_MISMATCH → (seen ≡ asked)
        × (IsOf (function_of request.now.function) answer.now → ⊥)
        × (result.detail ≡ function_told answer.now) }
    ensures unfit { result.status ≡ MODBUS_MISMATCH → (seen ≡ asked)
        × IsOf (function_of request.now.function) answer.now
        × (fits request.now answer.now ≡ false) × (result.detail ≡ function_told answer.now) }
    ensures untold { result.status ≡ MODBUS_UNTOLD → (seen ≡ asked)
        × IsReplyTo request.now answer.now
        × (flat_answer (asked_of request.now answer.now) ≡ None) }
    ensures room { result.status ≡ MODBUS_NO_ROOM → (seen ≡ asked)
        × IsReplyTo request.now answer.now
        × LacksAsked request.now answer.now (length words.old) (length coils.old) }
    ensures kept { result.status ≢ MODBUS_DONE → (response.new ≡ response.old)
        × (words.new ≡ words.old) × (coils.new ≡ coils.old) }
    ensures status { IsTelling result.status }
{
    let judged = judge(asked, request, seen, answer);
    if judged.status != MODBUS_DONE {
        return judged;
    }
    put_told(
        flatten_asked(request, answer),
        words_of(answer),
        coils_asked(request, answer),
        response,
        words,
        coils,
    )
}

/// The answer of a call: looks for the reply in the bytes that it holds, judges it, and writes its numbers to `response`, and the registers
/// and coils that were asked for to the fronts of the lists. Coils that fill the last byte up are not told.
///
/// Over Modbus TCP, ADUs of another transaction or unit are dropped. On a serial line the next frame is the reply, and one of another slave
/// is a mismatch. What was looked at is used, but where `MODBUS_NO_ROOM` or `MODBUS_NO_MEMORY` is told: so the same call can be made again.
///
/// `MODBUS_DONE`; `MODBUS_WAITING`: more bytes have to be fed; `MODBUS_FULL`: the message has more bytes than the call has room for;
/// `MODBUS_HEADER_MISMATCH`: the frame is of the slave `detail`; `MODBUS_FUNCTION_MISMATCH`: the answer is of the function `detail`;
/// `MODBUS_MISMATCH`: the response, of the function `detail`, has another number of coils or registers than were asked for, or tells
/// another address, value or quantity than was written; `MODBUS_REFUSED`: the PDU is none of a response, for the reason `detail`; `MODBUS_UNTOLD`: the struct does not tell its function;
/// `MODBUS_NO_ROOM`: a list is longer than the caller's; `MODBUS_NO_MEMORY`; `MODBUS_CROWD`: no frame stands at the first twenty offsets;
/// `MODBUS_NO_LENGTH`, `MODBUS_FOREIGN`: a header tells the length 0, or another protocol, `detail`. Where it is not done, nothing is
/// written but the call itself.
#[unsafe(no_mangle)]
pub extern "C" fn modbus_call_answer(
    alloc: Global,
    call: &mut ModbusCall,
    response: &mut ModbusResponse,
    words: &mut [u16],
    coils: &mut [bool],
) -> ModbusDone
    ensures done { result.status ≡ MODBUS_DONE → (answer : Result Answer Refusal)
        × FindsAnswer call.old (header_of call.old) answer (held call.new.inbox)
        × IsReplyTo call.old.request answer
        × (flat_answer (asked_of call.old.request answer) ≡ Some response.new)
        × (words.new ≡ laid (words_told answer) words.old)
        × (coils.new ≡ laid (coils_told (asked_of call.old.request answer)) coils.old) }
    ensures header { result.status ≡ MODBUS_HEADER_MISMATCH → (seen : Seen)
        × (answer : Result Answer Refusal) × FindsAnswer call.old seen answer (held call.new.inbox)
        × (seen ≢ header_of call.old) × (result.detail ≡ seen.slave_id) }
    ensures function { result.status ≡ MODBUS_FUNCTION_MISMATCH → (answer : Result Answer Refusal)
        × FindsAnswer call.old (header_of call.old) answer (held call.new.inbox)
        × (IsOf (function_of call.old.request.function) answer → ⊥)
        × (result.detail ≡ function_told answer) }
    ensures unfit { result.status ≡ MODBUS_MISMATCH → (answer : Result Answer Refusal)
        × FindsAnswer call.old (header_of call.old) answer (held call.new.inbox)
        × IsOf (function_of call.old.request.function) answer
        × (fits call.old.request answer ≡ false) × (result.detail ≡ function_told answer) }
    ensures refused { result.status ≡ MODBUS_REFUSED → (seen : Seen) × (pdu : List ℕ) × (reason : Why)
        × FindsMessage call.old (reply (held call.new.inbox) seen pdu)
        × (response_result_of pdu ≡ Err reason) × (result.detail ≡ reason_number reason) }
    ensures untold { result.status ≡ MODBUS_UNTOLD → (answer : Result Answer Refusal)
        × FindsAnswer call.old (header_of call.old) answer (held call.new.inbox)
        × IsReplyTo call.old.request answer
        × (flat_answer (asked_of call.old.request answer) ≡ None) }
    ensures room { result.status ≡ MODBUS_NO_ROOM → (left : List ℕ) × (answer : Result Answer Refusal)
        × FindsAnswer call.old (header_of call.old) answer left
        × IsReplyTo call.old.request answer
        × LacksAsked call.old.request answer (length words.old) (length coils.old) }
    ensures waits { result.status ≡ MODBUS_WAITING → FindsMessage call.old (waiting (held call.new.inbox))
        × (length (held call.new.inbox) < room) }
    ensures full { result.status ≡ MODBUS_FULL → FindsMessage call.old (waiting (held call.new.inbox))
        × (length (held call.new.inbox) ≡ room) }
    ensures crowd { result.status ≡ MODBUS_CROWD
        → FindsMessage call.old (broken (held call.new.inbox) fault.TooManyRetries) }
    ensures no_length { result.status ≡ MODBUS_NO_LENGTH
        → FindsMessage call.old (broken (held call.new.inbox) fault.InvalidLength) }
    ensures foreign { result.status ≡ MODBUS_FOREIGN
        → FindsMessage call.old (broken (held call.new.inbox) (fault.InvalidProtocol result.detail)) }
    ensures again { (result.status ≡ MODBUS_NO_ROOM) ⊎ (result.status ≡ MODBUS_NO_MEMORY)
        → held call.new.inbox ≡ held call.old.inbox }
    ensures same { call.new ≡ record call.old { inbox = call.new.inbox } }
    ensures kept { result.status ≢ MODBUS_DONE → (response.new ≡ response.old)
        × (words.new ≡ words.old) × (coils.new ≡ coils.old) }
    ensures status { IsAnswering result.status }
{
    let asked = asked_by(call);
    let request = call.request;
    let len = count(&call.inbox);
    match seek(call.tcp, asked, &call.inbox.bytes[..len]) {
        Sought::Waiting { used } => {
            advance(&mut call.inbox, used);
            let is_full = len - used == INBOX_ROOM;
            nothing(if is_full { MODBUS_FULL } else { MODBUS_WAITING }, 0)
        }
        Sought::Message { seen, pdu, used } => match read_response_pdu(alloc, pdu) {
            Ok(ResponsePdu(answer)) => {
                let told = tell(asked, &request, seen, &answer, response, words, coils);
                if told.status != MODBUS_NO_ROOM {
                    advance(&mut call.inbox, used);
                }
                told
            }
            Err(PduError::Refused(reason)) => {
                advance(&mut call.inbox, used);
                nothing(MODBUS_REFUSED, number_of(reason))
            }
            Err(PduError::NoMemory) => nothing(MODBUS_NO_MEMORY, 0),
        },
        Sought::Crowd { used } => {
            advance(&mut call.inbox, used);
            nothing(MODBUS_CROWD, 0)
        }
        Sought::NoLength { used } => {
            advance(&mut call.inbox, used);
            nothing(MODBUS_NO_LENGTH, 0)
        }
        Sought::Foreign { used, protocol } => {
            advance(&mut call.inbox, used);
            nothing(MODBUS_FOREIGN, u32::from(protocol))
        }
    }
}
