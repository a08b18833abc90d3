//! Requests to what answers them.

use crate::text::Text;
use crate::word::Word;
use modbus_frame::SlaveRequest;
use modbus_pdu::decode_request;
use modbus_service::Answerer;

/// The answer to a request of a slave.
fn ask<A: Answerer>(text: &mut Text, answerer: &mut A, slave: u8, pdu: &[u8]) -> bool {
    let Ok(request) = decode_request(text.alloc, pdu) else {
        return false;
    };
    text.push_shown(answerer.ask(text.alloc, SlaveRequest { slave, request }));
    text.push_str("; ");
    true
}

/// The same of a slave and a PDU as words. False where they name no request.
fn ask_words<A: Answerer>(text: &mut Text, answerer: &mut A, words: &[Word]) -> bool {
    let [slave, pdu] = words else {
        return false;
    };
    match (slave.byte(), pdu.bytes()) {
        (Some(slave), Some(pdu)) => ask(text, answerer, slave, pdu),
        _ => false,
    }
}

/// The answers to requests, each a slave and a PDU, one after another.
pub fn ask_all<A: Answerer>(text: &mut Text, answerer: &mut A, words: &[Word]) -> bool {
    for pair in words.chunks(2) {
        if !ask_words(text, answerer, pair) {
            return false;
        }
    }
    true
}
