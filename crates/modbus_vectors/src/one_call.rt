//! Single calls: polled over links in memory, and of a service without a link.

use crate::clients::{push_called, push_sent};
use crate::outside::read_outside;
use crate::same_words::SameWords;
use crate::text::Text;
use crate::word::{Word, bytes_of};
use modbus_client::{PolledCall, Protocol, rtu, tcp};
use modbus_frame::{Error, Request, Slave};
use modbus_link::{Polled, PolledMemoryLink};
use modbus_local::exchange;
use modbus_pdu::decode_request;
use std::alloc::Global;
use std::borrow::CowSlice;
use std::fmt::{Debug, Display};

/// How many reads a polled call may make.
const TURNS: u64 = 2;

/// Appends an answer that is ready, and how many polls were pending before. False where it is not ready.
fn push_ready<T: Debug + Drop, E: Debug + Display + Drop>(
    text: &mut Text,
    pending: u32,
    answer: Polled<Result<T, E>>,
) -> bool {
    match answer {
        Polled::Pending => false,
        Polled::Ready(answer) => {
            write!(text, "{pending} ");
            text.push_outcome(answer);
            true
        }
    }
}

/// How many polls were pending, and the answer of the first that was not, among a hundred.
fn poll<P: Protocol>(
    text: &mut Text,
    call: &mut PolledCall<P>,
    link: &mut PolledMemoryLink,
) -> bool {
    for pending in 0..100u32 {
        if !call.is_open() {
            break;
        }
        if push_ready(text, pending, call.poll(link)) {
            return true;
        }
    }
    false
}

/// The same of an open call; what was written, and, where it is asked for, how many responses of other transactions and units were dropped.
fn poll_open<P: Protocol>(
    text: &mut Text,
    call: &mut PolledCall<P>,
    link: &mut PolledMemoryLink,
    tells_dropped: bool,
) -> bool {
    let is_ready = poll(text, call, link);
    text.push_str(" wrote ");
    text.push_hex(link.link().sink().bytes());
    if tells_dropped {
        write!(text, " dropped {}", call.dropped());
    }
    is_ready
}

/// The same of a call that was opened, or why it was not.
fn poll_opened<P: Protocol>(
    text: &mut Text,
    opened: Result<PolledCall<P>, Error>,
    link: &mut PolledMemoryLink,
    tells_dropped: bool,
) -> bool {
    match opened {
        Ok(mut call) => poll_open(text, &mut call, link, tells_dropped),
        Err(error) => {
            push_sent(text, Err(error));
            true
        }
    }
}

/// The header of the first transaction with a unit.
fn first_header(unit_id: u8) -> modbus_frame::tcp::Header {
    modbus_frame::tcp::Header {
        transaction_id: 1,
        unit_id,
    }
}

fn rtu_polled(
    text: &mut Text,
    slave: u8,
    request: Request<'_>,
    link: &mut PolledMemoryLink,
) -> bool {
    let opened = rtu::PolledCall::new(text.alloc, Slave(slave), request, TURNS);
    poll_opened(text, opened, link, false)
}

fn tcp_polled(
    text: &mut Text,
    slave: u8,
    request: Request<'_>,
    link: &mut PolledMemoryLink,
) -> bool {
    let opened = tcp::PolledCall::new(text.alloc, first_header(slave), request, TURNS);
    poll_opened(text, opened, link, false)
}

fn matching_polled(
    text: &mut Text,
    slave: u8,
    request: Request<'_>,
    link: &mut PolledMemoryLink,
) -> bool {
    let opened = tcp::MatchingCall::new(text.alloc, first_header(slave), request, TURNS);
    poll_opened(text, opened, link, true)
}

fn ascii_polled(
    text: &mut Text,
    slave: u8,
    request: Request<'_>,
    link: &mut PolledMemoryLink,
) -> bool {
    let opened = modbus_ascii_client::open_call(text.alloc, Slave(slave), request, TURNS);
    poll_opened(text, opened, link, true)
}

/// The answer of a call over a link that may not be ready.
fn polled(
    text: &mut Text,
    call: &str,
    slave: u8,
    request: Request<'_>,
    link: &mut PolledMemoryLink,
) -> bool {
    match call {
        "rtu_polled" => rtu_polled(text, slave, request, link),
        "tcp_polled" => tcp_polled(text, slave, request, link),
        "ascii_polled" => ascii_polled(text, slave, request, link),
        _ => matching_polled(text, slave, request, link),
    }
}

/// The same with the request of a PDU.
fn polled_of(
    text: &mut Text,
    call: &str,
    slave: u8,
    pdu: &[u8],
    link: &mut PolledMemoryLink,
) -> bool {
    match decode_request(text.alloc, pdu) {
        Ok(request) => polled(text, call, slave, request, link),
        Err(_) => false,
    }
}

/// The same of a function by its number with any data.
fn polled_custom(
    text: &mut Text,
    call: &str,
    slave: u8,
    pdu: &[u8],
    link: &mut PolledMemoryLink,
) -> bool {
    match pdu.split_first() {
        Some((code, data)) => {
            let request = Request::Custom(*code, CowSlice::Borrowed(data));
            polled(text, call, slave, request, link)
        }
        None => false,
    }
}

/// The same of a word: the PDU of a request, or any one behind `custom=`.
fn polled_by(
    text: &mut Text,
    call: &str,
    slave: u8,
    word: &Word,
    link: &mut PolledMemoryLink,
) -> bool {
    if let Some(pdu) = word.bytes() {
        return polled_of(text, call, slave, pdu, link);
    }
    let Some(custom) = word.text().strip_prefix("custom=") else {
        return false;
    };
    match bytes_of(text.alloc, custom) {
        Some(pdu) => polled_custom(text, call, slave, pdu.as_slice(), link),
        None => false,
    }
}

/// A link that may not be ready, as these words say.
fn link_of(alloc: Global, words: &[Word]) -> Option<PolledMemoryLink> {
    read_outside(alloc, words)?.into_polled_link(alloc)
}

/// `rtu_polled`, `ascii_polled`, `tcp_polled` or `matching_polled` (of transaction 1), a slave, a PDU and the outside of the link. Such a call has two turns.
pub fn answer(text: &mut Text, call: &str, words: &[Word]) -> bool {
    let [slave, pdu, words @ ..] = words else {
        return false;
    };
    let Some(slave) = slave.byte() else {
        return false;
    };
    match link_of(text.alloc, words) {
        Some(mut link) => polled_by(text, call, slave, pdu, &mut link),
        None => false,
    }
}

/// Asks a service with the request of a PDU.
fn exchanged(text: &mut Text, slave: u8, pdu: &[u8], service: &mut SameWords) -> bool {
    match decode_request(text.alloc, pdu) {
        Ok(request) => push_called(text, exchange(text.alloc, Slave(slave), request, service)),
        Err(_) => return false,
    }
    true
}

/// `exchange_words`, a slave, a PDU and how many registers a service answers; and how often it was asked.
pub fn answer_exchange(text: &mut Text, words: &[Word]) -> bool {
    let [slave, pdu, count] = words else {
        return false;
    };
    let (Some(slave), Some(pdu), Some(count)) = (slave.byte(), pdu.bytes(), count.number()) else {
        return false;
    };
    let mut service = SameWords::new(count);
    let is_done = exchanged(text, slave, pdu, &mut service);
    write!(text, " asked {}", service.calls);
    is_done
}
