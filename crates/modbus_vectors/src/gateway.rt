//! A gateway between a TCP connection and a serial line, over links in memory.

use crate::left::{push_left, push_written};
use crate::outside::read_link;
use crate::program::push_errors;
use crate::text::Text;
use crate::word::Word;
use modbus_app::{forward_client, run_gateway};
use modbus_client::{Client, rtu};
use modbus_gateway::process;
use modbus_link::{MemoryLink, MemorySink, MemorySource};

/// How many reads of the connection may give bytes.
const TURNS: u64 = 64;

/// The room of the connection's sink in bytes.
const ROOM: usize = 512;

/// How a gateway ended, what the connection got, and what the line was left with.
fn forward(
    text: &mut Text,
    line: &mut rtu::Client<MemoryLink>,
    source: &mut MemorySource,
    sink: &mut MemorySink,
) {
    text.push_shown(process(text.alloc, source, sink, line, TURNS));
    text.push_str(" replied ");
    text.push_hex(sink.bytes());
    text.push_str("; ");
    push_left(text, line.link(), line.held());
}

/// The same over a connection that gives these bytes.
fn forwarded(text: &mut Text, line: &mut rtu::Client<MemoryLink>, input: &[u8]) -> bool {
    let Ok(mut source) = MemorySource::new(text.alloc, input, &[], &[]) else {
        return false;
    };
    match MemorySink::new(text.alloc, ROOM, ROOM, &[]) {
        Ok(mut sink) => forward(text, line, &mut source, &mut sink),
        Err(_) => return false,
    }
    true
}

/// The same over a line that may be disconnected before.
fn forwarded_over(
    text: &mut Text,
    call: &str,
    input: &[u8],
    line: &mut rtu::Client<MemoryLink>,
) -> bool {
    if call == "gateway_down" {
        text.push_shown(line.disconnect());
        text.push_str("; ");
    }
    forwarded(text, line, input)
}

/// The status of a gateway over the link of a line that is lent, or of one over a client of that, what the connection got, and what was told.
fn tell_status(
    text: &mut Text,
    call: &str,
    source: &mut MemorySource,
    sink: &mut MemorySink,
    errors: &mut MemorySink,
    link: &mut MemoryLink,
) {
    let status = if call == "gateway_run" {
        run_gateway(text.alloc, source, sink, link, errors)
    } else {
        let mut client = rtu::attach(text.alloc, link);
        forward_client(text.alloc, source, sink, &mut client, errors)
    };
    write!(text, "{status} replied ");
    text.push_hex(sink.bytes());
    text.push_str(" told ");
    push_errors(text, errors.bytes());
}

/// The same over a connection that gives these bytes, and what was then written to the line.
fn ran(text: &mut Text, call: &str, input: &[u8], link: &mut MemoryLink) -> bool {
    let Ok(mut source) = MemorySource::new(text.alloc, input, &[], &[]) else {
        return false;
    };
    let Ok(mut sink) = MemorySink::new(text.alloc, ROOM, ROOM, &[]) else {
        return false;
    };
    match MemorySink::new(text.alloc, ROOM, ROOM, &[]) {
        Ok(mut errors) => tell_status(text, call, &mut source, &mut sink, &mut errors, link),
        Err(_) => return false,
    }
    text.push_str("; ");
    push_written(text, link);
    true
}

/// `gateway`, what the connection gives, and the outside of the line; `gateway_down`, over a line that was disconnected before. The same with
/// its status: `gateway_run`, over the link of a line; `gateway_client`, over a client of it.
pub fn answer(text: &mut Text, call: &str, words: &[Word]) -> bool {
    let [input, words @ ..] = words else {
        return false;
    };
    let Some(input) = input.bytes() else {
        return false;
    };
    let Some(mut link) = read_link(text.alloc, words) else {
        return false;
    };
    match call {
        "gateway_run" | "gateway_client" => ran(text, call, input, &mut link),
        _ => forwarded_over(text, call, input, &mut rtu::attach(text.alloc, link)),
    }
}
