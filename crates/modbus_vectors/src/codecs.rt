//! Frames of a serial line and ADUs of Modbus TCP: their lengths, the search for them, the codecs of both ends, and the inbox of a server.
//! Frames of the ASCII transmission mode: the codecs of both ends.

ghost use Rattle.std.specs.Prelude.{◌<◌};
ghost use Rattle.std.specs.Result.{ForErr};
ghost use Rattle.modbus_frame.specs.Codes.{function_number};
ghost use Rattle.modbus_frame.specs.FunctionCodes.{exception_bit};

use crate::outside::read_outside;
use crate::text::Text;
use crate::word::Word;
use bytes::{Bytes, BytesMut};
use modbus_frame::{EncodeError, RequestPdu, ResponsePdu, rtu, tcp};
use modbus_link::MemorySource;
use modbus_pdu::{decode_request, decode_response_pdu};
use modbus_rtu::{
    FrameDecoder, Inbox, NoLength, RequestDecoder, ResponseDecoder, judge, next_frame,
    request_pdu_len, response_pdu_len,
};
use modbus_tcp::{AduDecoder, TransactionIds, front};
use std::alloc::Global;
use std::fmt::Debug;

fn length(text: &mut Text, found: Result<Option<usize>, NoLength>) {
    match found {
        Ok(_) => text.push_shown(found),
        Err(none) => text.push_told(none),
    }
}

/// Appends what was taken off a buffer, and how many bytes are left.
fn push_left<T: Debug + Drop, E: Debug + Drop>(
    text: &mut Text,
    found: Result<Option<T>, E>,
    buf: &BytesMut,
) {
    text.push_shown(found);
    write!(text, " left {}", buf.len());
}

/// What a decoder of frames of this PDU length takes off.
fn frame(text: &mut Text, pdu_len: u16, buf: &mut BytesMut) {
    let found = FrameDecoder::new().decode(text.alloc, buf, usize::from(pdu_len));
    push_left(text, found, buf);
}

fn rtu_requests(text: &mut Text, buf: &mut BytesMut) {
    let mut decoder = RequestDecoder::new();
    let found = decoder.decode(text.alloc, buf);
    push_left(text, found, buf);
    write!(text, " dropped {}", decoder.dropped_bytes().len());
}

fn rtu_responses(text: &mut Text, buf: &mut BytesMut) {
    let mut decoder = ResponseDecoder::new();
    let found = decoder.decode(text.alloc, buf);
    push_left(text, found, buf);
    write!(text, " dropped {}", decoder.dropped_bytes().len());
}

fn rtu_server(text: &mut Text, buf: &mut BytesMut) {
    let found = modbus_rtu::ServerCodec::new().decode(text.alloc, buf);
    push_left(text, found, buf);
}

fn rtu_client(text: &mut Text, buf: &mut BytesMut) {
    let found = modbus_rtu::ClientCodec::new().decode(text.alloc, buf);
    push_left(text, found, buf);
}

fn tcp_server(text: &mut Text, buf: &mut BytesMut) {
    let found = modbus_tcp::ServerCodec::new().decode(text.alloc, buf);
    push_left(text, found, buf);
}

fn tcp_client(text: &mut Text, buf: &mut BytesMut) {
    let found = modbus_tcp::ClientCodec::new().decode(text.alloc, buf);
    push_left(text, found, buf);
}

fn tcp_adus(text: &mut Text, buf: &mut BytesMut) {
    let found = AduDecoder::new().decode(text.alloc, buf);
    push_left(text, found, buf);
}

/// What is taken off a buffer.
fn of_buffer(text: &mut Text, call: &str, buf: &mut BytesMut) -> bool {
    match call {
        "rtu_requests" => rtu_requests(text, buf),
        "rtu_responses" => rtu_responses(text, buf),
        "rtu_server" => rtu_server(text, buf),
        "rtu_client" => rtu_client(text, buf),
        "tcp_server" => tcp_server(text, buf),
        "tcp_client" => tcp_client(text, buf),
        "tcp_adus" => tcp_adus(text, buf),
        _ => return false,
    }
    true
}

/// Appends what a codec gave at a character, but for that it needs more. Whether it does.
fn push_fed<T: Debug + Drop, E: Debug + Drop>(
    text: &mut Text,
    found: Result<Option<T>, E>,
) -> bool {
    let needs_more = matches!(found, Ok(None));
    if !needs_more {
        text.push_shown(found);
    }
    needs_more
}

fn server_fed(text: &mut Text, codec: &mut modbus_ascii::ServerCodec, character: u8) -> bool {
    push_fed(text, codec.feed(text.alloc, character))
}

fn client_fed(text: &mut Text, codec: &mut modbus_ascii::ClientCodec, character: u8) -> bool {
    push_fed(text, codec.feed(text.alloc, character))
}

/// What a codec gives for these characters, and whether it needs more at their end.
fn ascii_server(text: &mut Text, characters: &[u8]) {
    let mut codec = modbus_ascii::ServerCodec::new();
    let mut needs_more = false;
    for character in characters {
        needs_more = server_fed(text, &mut codec, *character);
    }
    if needs_more {
        text.push_str("needs more");
    }
}

fn ascii_client(text: &mut Text, characters: &[u8]) {
    let mut codec = modbus_ascii::ClientCodec::new();
    let mut needs_more = false;
    for character in characters {
        needs_more = client_fed(text, &mut codec, *character);
    }
    if needs_more {
        text.push_str("needs more");
    }
}

/// All frames that an inbox has, and why it gives no more.
fn frames(text: &mut Text, inbox: &mut Inbox) {
    for _ in 0..64u32 {
        let found = inbox.next();
        let is_frame = matches!(found, Ok(Some(_)));
        text.push_shown(found);
        text.push_str("; ");
        if !is_frame {
            break;
        }
    }
}

/// What an inbox gives after each read of its source.
fn reads(text: &mut Text, inbox: &mut Inbox, source: &mut MemorySource) {
    for _ in 0..64u32 {
        if inbox.room() == 0 {
            break;
        }
        let count = inbox.fill(source);
        write!(text, "read {count:?}; ");
        if count == Ok(0) {
            break;
        }
        frames(text, inbox);
    }
    write!(text, "holds {}", inbox.held());
}

/// `inbox`, and the outside of its source.
pub fn answer_inbox(text: &mut Text, words: &[Word]) -> bool {
    let Ok(mut inbox) = Inbox::open(text.alloc) else {
        return false;
    };
    match read_outside(text.alloc, words) {
        Some(mut outside) => reads(text, &mut inbox, &mut outside.source),
        None => return false,
    }
    true
}

/// How many bytes are recorded as dropped after all of a buffer were.
fn recovered(text: &mut Text, buf: &mut BytesMut) {
    let mut decoder = FrameDecoder::new();
    for _ in 0..buf.len() {
        if !buf.is_empty() {
            decoder.recover_on_error(buf);
        }
    }
    text.push_shown(decoder.dropped_bytes().len());
}

/// The same of so many bytes.
fn recovered_of(text: &mut Text, count: usize) -> bool {
    match BytesMut::zeroed(text.alloc, count) {
        Ok(mut buf) => recovered(text, &mut buf),
        Err(_) => return false,
    }
    true
}

/// The number of a transaction, after so many were drawn.
fn transaction(text: &mut Text, count: u32) {
    let mut ids = TransactionIds::new();
    for _ in 0..count {
        let _earlier = ids.next();
    }
    text.push_shown(ids.next());
}

fn encode_rtu_request(
    alloc: Global,
    slave_id: u8,
    pdu: RequestPdu<'_>,
    buf: &mut BytesMut,
) -> Result<(), EncodeError> {
    let hdr = rtu::Header { slave_id };
    modbus_rtu::ClientCodec::new().encode(alloc, rtu::RequestAdu { hdr, pdu }, buf)
}

fn encode_ascii_request(
    alloc: Global,
    slave_id: u8,
    pdu: RequestPdu<'_>,
    buf: &mut BytesMut,
) -> Result<(), EncodeError> {
    let hdr = rtu::Header { slave_id };
    modbus_ascii::ClientCodec::new().encode(alloc, rtu::RequestAdu { hdr, pdu }, buf)
}

fn encode_tcp_request(
    alloc: Global,
    hdr: tcp::Header,
    pdu: RequestPdu<'_>,
    buf: &mut BytesMut,
) -> Result<(), EncodeError> {
    modbus_tcp::ClientCodec::new().encode(alloc, tcp::RequestAdu { hdr, pdu }, buf)
}

/// Appends the frame or ADU of a request to a buffer, by the codec that is named, or that of Modbus TCP.
fn encode_request(
    alloc: Global,
    call: &str,
    header: tcp::Header,
    pdu: RequestPdu<'_>,
    buf: &mut BytesMut,
) -> Result<(), EncodeError> {
    match call {
        "rtu_client_encode" => encode_rtu_request(alloc, header.unit_id, pdu, buf),
        "ascii_client_encode" => encode_ascii_request(alloc, header.unit_id, pdu, buf),
        _ => encode_tcp_request(alloc, header, pdu, buf),
    }
}

/// The same of a response or an exception.
fn encode_rtu_response(
    alloc: Global,
    slave_id: u8,
    pdu: ResponsePdu,
    buf: &mut BytesMut,
) -> Result<(), EncodeError>
    requires { ForErr pdu.0 (λ refusal. function_number refusal.function < exception_bit) }
{
    let hdr = rtu::Header { slave_id };
    modbus_rtu::ServerCodec::new().encode(alloc, rtu::ResponseAdu { hdr, pdu }, buf)
}

fn encode_ascii_response(
    alloc: Global,
    slave_id: u8,
    pdu: ResponsePdu,
    buf: &mut BytesMut,
) -> Result<(), EncodeError>
    requires { ForErr pdu.0 (λ refusal. function_number refusal.function < exception_bit) }
{
    let hdr = rtu::Header { slave_id };
    modbus_ascii::ServerCodec::new().encode(alloc, rtu::ResponseAdu { hdr, pdu }, buf)
}

fn encode_tcp_response(
    alloc: Global,
    hdr: tcp::Header,
    pdu: ResponsePdu,
    buf: &mut BytesMut,
) -> Result<(), EncodeError>
    requires { ForErr pdu.0 (λ refusal. function_number refusal.function < exception_bit) }
{
    modbus_tcp::ServerCodec::new().encode(alloc, tcp::ResponseAdu { hdr, pdu }, buf)
}

/// The same by the codec that is named, or that of Modbus TCP.
fn encode_response(
    alloc: Global,
    call: &str,
    header: tcp::Header,
    pdu: ResponsePdu,
    buf: &mut BytesMut,
) -> Result<(), EncodeError>
    requires { ForErr pdu.0 (λ refusal. function_number refusal.function < exception_bit) }
{
    match call {
        "rtu_server_encode" => encode_rtu_response(alloc, header.unit_id, pdu, buf),
        "ascii_server_encode" => encode_ascii_response(alloc, header.unit_id, pdu, buf),
        _ => encode_tcp_response(alloc, header, pdu, buf),
    }
}

/// Appends what a codec appended to a buffer, or why it appended nothing.
fn push_encoded(text: &mut Text, encoded: Result<(), EncodeError>, buf: &BytesMut) {
    match encoded {
        Ok(()) => text.push_hex(buf.as_slice()),
        Err(error) => text.push_told(error),
    }
}

fn request_encoded(
    text: &mut Text,
    call: &str,
    header: tcp::Header,
    pdu: &[u8],
    buf: &mut BytesMut,
) -> bool {
    match decode_request(text.alloc, pdu) {
        Ok(request) => {
            let encoded = encode_request(text.alloc, call, header, RequestPdu(request), buf);
            push_encoded(text, encoded, buf);
        }
        Err(_) => return false,
    }
    true
}

/// The same of a response or an exception. False where no exception has its function.
fn answer_encoded(
    text: &mut Text,
    call: &str,
    header: tcp::Header,
    pdu: ResponsePdu,
    buf: &mut BytesMut,
) -> bool {
    if let Err(refusal) = &pdu.0
        && refusal.function.value() >= 0x80
    {
        return false;
    }
    let encoded = encode_response(text.alloc, call, header, pdu, buf);
    push_encoded(text, encoded, buf);
    true
}

fn response_encoded(
    text: &mut Text,
    call: &str,
    header: tcp::Header,
    pdu: Bytes,
    buf: &mut BytesMut,
) -> bool {
    match decode_response_pdu(text.alloc, pdu) {
        Ok(found) => answer_encoded(text, call, header, found, buf),
        Err(_) => false,
    }
}

/// The same of the PDU of either.
fn encoded(
    text: &mut Text,
    call: &str,
    header: tcp::Header,
    pdu: &[u8],
    buf: &mut BytesMut,
) -> bool {
    if call.ends_with("client_encode") {
        return request_encoded(text, call, header, pdu, buf);
    }
    match Bytes::copy_from_slice(text.alloc, pdu) {
        Ok(pdu) => response_encoded(text, call, header, pdu, buf),
        Err(_) => false,
    }
}

/// The same of a buffer that has the byte AA.
fn encode(text: &mut Text, call: &str, transaction_id: u16, unit_id: u8, pdu: &[u8]) -> bool {
    let header = tcp::Header {
        transaction_id,
        unit_id,
    };
    match BytesMut::copy_from_slice(text.alloc, b"\xAA") {
        Ok(mut buf) => encoded(text, call, header, pdu, &mut buf),
        Err(_) => false,
    }
}

/// What is taken off a buffer of these bytes.
fn taken_off(text: &mut Text, call: &str, data: &[u8]) -> bool {
    match BytesMut::copy_from_slice(text.alloc, data) {
        Ok(mut buf) => of_buffer(text, call, &mut buf),
        Err(_) => false,
    }
}

fn of_bytes(text: &mut Text, call: &str, data: &[u8]) -> bool {
    match call {
        "request_len" => length(text, request_pdu_len(data)),
        "response_len" => length(text, response_pdu_len(data)),
        "next_frame" => text.push_shown(next_frame(data)),
        "verdict" => text.push_shown(judge(data)),
        "tcp_front" => text.push_shown(front(data)),
        "ascii_server" => ascii_server(text, data),
        "ascii_client" => ascii_client(text, data),
        _ => return taken_off(text, call, data),
    }
    true
}

/// What a decoder of frames of this PDU length takes off a buffer of these bytes.
fn framed(text: &mut Text, pdu_len: u16, data: &[u8]) -> bool {
    match BytesMut::copy_from_slice(text.alloc, data) {
        Ok(mut buf) => frame(text, pdu_len, &mut buf),
        Err(_) => return false,
    }
    true
}

/// The call of a number and a byte string.
fn of_number(text: &mut Text, call: &str, number: u16, data: &[u8]) -> bool {
    match (call, u8::try_from(number)) {
        ("frame", _) => framed(text, number, data),
        (_, Ok(slave_id)) => encode(text, call, 0, slave_id, data),
        _ => false,
    }
}

/// The call of numbers and a byte string.
fn of_words(text: &mut Text, call: &str, numbers: &[Word], data: &[u8]) -> bool {
    match numbers {
        [] => of_bytes(text, call, data),
        [first] => match first.number() {
            Some(number) => of_number(text, call, number, data),
            None => false,
        },
        [transaction, unit] => match (transaction.number(), unit.byte()) {
            (Some(transaction), Some(unit)) => encode(text, call, transaction, unit, data),
            _ => false,
        },
        _ => false,
    }
}

/// The call of a count.
fn of_count(text: &mut Text, call: &str, count: u32) -> bool {
    if call == "transaction" {
        transaction(text, count);
        return true;
    }
    match usize::try_from(count) {
        Ok(count) => recovered_of(text, count),
        Err(_) => false,
    }
}

/// `recover` or `transaction`, and a count.
pub fn answer_of_count(text: &mut Text, call: &str, words: &[Word]) -> bool {
    match words {
        [count] => match count.text().parse() {
            Ok(count) => of_count(text, call, count),
            Err(_) => false,
        },
        _ => false,
    }
}

/// Any other call: numbers, if it has some, and a byte string, which comes last.
pub fn answer(text: &mut Text, call: &str, words: &[Word]) -> bool {
    let Some((last, numbers)) = words.split_last() else {
        return false;
    };
    match last.bytes() {
        Some(data) => of_words(text, call, numbers, data),
        None => false,
    }
}
