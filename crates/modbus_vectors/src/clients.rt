//! Calls of clients over links in memory.

use crate::left::{push_left, push_written};
use crate::outside::read_link;
use crate::text::Text;
use crate::typed::ask;
use crate::word::{Word, bytes_of};
use modbus_client::{Client, rtu, tcp};
use modbus_frame::{
    Error, Request, Response, Result as Answer, Slave, SlaveContext, TransportError,
};
use modbus_link::MemoryLink;
use modbus_pdu::decode_request;
use std::borrow::CowSlice;
use std::time::Duration;

/// Appends the answer of a call. Each use of a generic function with such a type is proved at its place, so it has one.
pub fn push_called(text: &mut Text, answer: Answer<Response>) {
    text.push_outcome(answer);
}

/// Selects a slave.
fn select<C: Client>(text: &mut Text, client: &mut C, slave: &str) -> bool {
    let Ok(slave) = slave.parse() else {
        return false;
    };
    client.set_slave(Slave(slave));
    text.push_str("()");
    true
}

/// A call of a function by its number with any data.
fn call_custom<C: Client>(text: &mut Text, client: &mut C, pdu: &[u8]) -> bool {
    match pdu.split_first() {
        Some((code, data)) => {
            let request = Request::Custom(*code, CowSlice::Borrowed(data));
            push_called(text, client.call(request));
        }
        None => return false,
    }
    true
}

/// Calls with the request of a PDU.
fn call<C: Client>(text: &mut Text, client: &mut C, pdu: &[u8]) -> bool {
    match decode_request(text.alloc, pdu) {
        Ok(request) => push_called(text, client.call(request)),
        Err(_) => return false,
    }
    true
}

/// Makes the typed call of the request of a PDU.
fn call_typed<C: Client>(text: &mut Text, client: &mut C, pdu: &[u8]) -> bool {
    match decode_request(text.alloc, pdu) {
        Ok(request) => ask(text, client, &request),
        Err(_) => false,
    }
}

/// Whether a call with one byte more than fits a PDU is refused as that.
fn is_refused<C: Client>(client: &mut C) -> bool {
    let request = Request::Custom(0x41, CowSlice::Borrowed(&[0; 253]));
    matches!(
        client.call(request),
        Err(Error::Transport(TransportError::RequestTooLong(254)))
    )
}

/// How many of so many such calls are.
fn count_refused<C: Client>(text: &mut Text, client: &mut C, count: &str) -> bool {
    let Ok(count) = count.parse() else {
        return false;
    };
    let mut refused = 0u32;
    for _ in 0..count {
        if is_refused(client) && refused < u32::MAX {
            refused += 1;
        }
    }
    write!(text, "{refused} refused");
    true
}

/// What a step of this kind does with its PDU.
fn step_with<C: Client>(text: &mut Text, client: &mut C, kind: &str, pdu: &[u8]) -> bool {
    match kind {
        "custom" => call_custom(text, client, pdu),
        "typed" => call_typed(text, client, pdu),
        _ => call(text, client, pdu),
    }
}

/// How long this many milliseconds are.
pub fn milliseconds(word: &str) -> Option<Duration> {
    Some(Duration::from_millis(word.parse().ok()?))
}

/// Sets how long a call waits.
fn set_timeout<C: Client>(text: &mut Text, client: &mut C, timeout: &str) -> bool {
    let Some(timeout) = milliseconds(timeout) else {
        return false;
    };
    client.set_timeout(Some(timeout));
    text.push_str("()");
    true
}

/// What a step of this kind does to any client, by the word behind the kind.
fn step_of<C: Client>(text: &mut Text, client: &mut C, kind: &str, word: &str) -> bool {
    match kind {
        "slave" => select(text, client, word),
        "timeout" => set_timeout(text, client, word),
        "refused" => count_refused(text, client, word),
        _ => match bytes_of(text.alloc, word) {
            Some(pdu) => step_with(text, client, kind, pdu.as_slice()),
            None => false,
        },
    }
}

/// What a step of a line does to any client: `disconnect`, `slave=9`, `timeout=2000` in milliseconds, `refused=9` calls that are too long,
/// a call of a function by its number with any data, as `custom=4100`, the typed call of a request by its PDU, as `typed=0300000001`, or a
/// call by the PDU of its request.
pub fn step<C: Client>(text: &mut Text, client: &mut C, step: &str) -> bool {
    if step == "disconnect" {
        text.push_shown(client.disconnect());
        return true;
    }
    match step.split_once('=') {
        Some((kind, word)) => step_of(text, client, kind, word),
        None => step_of(text, client, "call", step),
    }
}

/// The answers of a client to steps with commas between them.
pub fn steps<C: Client>(text: &mut Text, client: &mut C, steps: &str) -> bool {
    for word in steps.split(',') {
        if !step(text, client, word) {
            return false;
        }
        text.push_str("; ");
    }
    true
}

/// Sets how many reads a call waits for.
fn set_turns(text: &mut Text, client: &mut rtu::Client<MemoryLink>, turns: &str) -> bool {
    let Ok(turns) = turns.parse() else {
        return false;
    };
    client.set_turns(turns);
    text.push_str("()");
    true
}

/// Appends whether a request was sent.
pub fn push_sent(text: &mut Text, sent: Result<(), Error>) {
    text.push_shown(sent);
}

/// Sends the request of a PDU, and waits for no reply.
fn send(text: &mut Text, client: &mut rtu::Client<MemoryLink>, pdu: &[u8]) -> bool {
    match decode_request(text.alloc, pdu) {
        Ok(request) => push_sent(text, client.send(request)),
        Err(_) => return false,
    }
    true
}

/// What a step does to an RTU client, which also has `turns=1` and `send=0600010003`.
fn rtu_step(text: &mut Text, client: &mut rtu::Client<MemoryLink>, word: &str) -> bool {
    if let Some(turns) = word.strip_prefix("turns=") {
        return set_turns(text, client, turns);
    }
    match word.strip_prefix("send=") {
        Some(pdu) => match bytes_of(text.alloc, pdu) {
            Some(pdu) => send(text, client, pdu.as_slice()),
            None => false,
        },
        None => step(text, client, word),
    }
}

/// The answers of an RTU client to steps with commas between them.
fn rtu_steps(text: &mut Text, client: &mut rtu::Client<MemoryLink>, steps: &str) -> bool {
    for word in steps.split(',') {
        if !rtu_step(text, client, word) {
            return false;
        }
        text.push_str("; ");
    }
    true
}

/// The answers of an RTU client over this link, and what it left.
fn over_rtu(text: &mut Text, slave: Slave, words: &str, link: MemoryLink) -> bool {
    let mut client = rtu::attach(text.alloc, link);
    client.set_slave(slave);
    let is_done = rtu_steps(text, &mut client, words);
    push_left(text, client.link(), client.held());
    is_done
}

/// The answers of a TCP client, and what it left.
fn push_tcp(text: &mut Text, client: &mut tcp::Client<MemoryLink>, words: &str) -> bool {
    let is_done = steps(text, client, words);
    push_left(text, client.link(), client.held());
    is_done
}

fn over_tcp(text: &mut Text, slave: Slave, words: &str, link: MemoryLink) -> bool {
    push_tcp(text, &mut tcp::attach_slave(text.alloc, link, slave), words)
}

/// `tcp_attach`, steps with commas between them, and the outside of the link: of a device that is alone behind its address.
pub fn answer_attached(text: &mut Text, words: &[Word]) -> bool {
    let [steps, words @ ..] = words else {
        return false;
    };
    match read_link(text.alloc, words) {
        Some(link) => push_tcp(text, &mut tcp::attach(text.alloc, link), steps.text()),
        None => false,
    }
}

/// The same of a client that drops the responses of other transactions and units, and how many its last call dropped.
fn push_matching(
    text: &mut Text,
    client: &mut tcp::MatchingClient<MemoryLink>,
    words: &str,
) -> bool {
    let is_done = steps(text, client, words);
    push_left(text, client.link(), client.held());
    write!(text, " dropped {}", client.dropped());
    is_done
}

fn over_matching(text: &mut Text, slave: Slave, words: &str, link: MemoryLink) -> bool {
    push_matching(
        text,
        &mut tcp::attach_matching(text.alloc, link, slave),
        words,
    )
}

/// The answers of an RTU client over a link that is lent to it, and what was written to the link.
fn over_lent(text: &mut Text, slave: Slave, words: &str, link: &mut MemoryLink) -> bool {
    let mut client = rtu::attach_slave(text.alloc, &mut *link, slave);
    let is_done = steps(text, &mut client, words);
    drop(client);
    push_written(text, link);
    is_done
}

/// The answers of the client that a call names.
fn answers(text: &mut Text, call: &str, slave: Slave, words: &str, mut link: MemoryLink) -> bool {
    match call {
        "rtu_lent" => over_lent(text, slave, words, &mut link),
        "rtu_call" => over_rtu(text, slave, words, link),
        "tcp_call" => over_tcp(text, slave, words, link),
        _ => over_matching(text, slave, words, link),
    }
}

/// `rtu_call`, `rtu_lent`, `tcp_call` or `matching_call`, a slave, steps with commas between them, and the outside of the link.
pub fn answer(text: &mut Text, call: &str, words: &[Word]) -> bool {
    let [slave, steps, words @ ..] = words else {
        return false;
    };
    let Some(slave) = slave.byte() else {
        return false;
    };
    match read_link(text.alloc, words) {
        Some(link) => answers(text, call, Slave(slave), steps.text(), link),
        None => false,
    }
}
