//! Servers over memory, with a service that answers every request with the same registers.
//!
//! A function that calls much is lent what it works on: the check of one that owns it takes far longer.

use crate::outside::{Outside, read_link, read_outside};
use crate::polls::store_of;
use crate::same_words::SameWords;
use crate::text::Text;
use crate::word::Word;
use modbus_echo::{Echo, EchoGuard};
use modbus_example::{Counter, serve_singles};
use modbus_field::burst::BurstLink;
use modbus_field::standard::StandardAnswers;
use modbus_field::stream::ReservedCodes;
use modbus_link::{
    Both, MemoryLink, MemorySink, MemorySource, MemoryStop, Polled, PolledMemoryLink, Sink, Source,
    TimedMemoryLink,
};
use modbus_rtu::Inbox;
use modbus_server::tcp::AduBuffer;
use modbus_server::{
    Connection, ConnectionWorker, Forward, Framing, PolledProcess, ProcessError, rtu, rtu_over_tcp,
    tcp,
};
use modbus_service::OnlyUnit;
use modbus_store::RegisterStore;
use std::alloc::{AllocError, Global};
use std::fmt::Debug;

/// Appends the output of a server, how many bytes the source gave, and how often it asked.
fn push_outside(text: &mut Text, source: &MemorySource, sink: &MemorySink, calls: u64) {
    text.push_hex(sink.bytes());
    let given = source.given();
    write!(text, " read {given} asked {calls}");
}

/// Appends the answer of a server, and those.
fn push_asked<T: Debug + Drop>(
    text: &mut Text,
    ended: T,
    source: &MemorySource,
    sink: &MemorySink,
    calls: u64,
) {
    write!(text, "{ended:?} ");
    push_outside(text, source, sink, calls);
}

/// The same of a server over a link.
fn push_over_link<T: Debug + Drop>(
    text: &mut Text,
    ended: T,
    link: &MemoryLink,
    service: &SameWords,
) {
    push_asked(text, ended, link.source(), link.sink(), service.calls);
}

/// A stream at a device, which answers also what can't be read and the function codes that no request has.
fn served_as_device(
    alloc: Global,
    source: &mut MemorySource,
    sink: &mut MemorySink,
    service: &mut SameWords,
    turns: u64,
) -> Result<(), ProcessError> {
    let mut device = ReservedCodes {
        service: StandardAnswers {
            service: Forward(&mut *service),
        },
    };
    modbus_field::stream::process(alloc, source, sink, &mut device, turns)
}

/// A line of bursts at slave 1, which is silent to all others.
fn served_in_bursts(
    alloc: Global,
    source: &mut MemorySource,
    sink: &mut MemorySink,
    service: &mut SameWords,
    turns: u64,
) -> Result<(), ProcessError> {
    let mut unit = OnlyUnit {
        unit: 1,
        service: Forward(&mut *service),
    };
    modbus_field::burst::process(alloc, source, sink, &mut unit, turns)
}

fn served(
    text: &mut Text,
    framing: &str,
    service: &mut SameWords,
    turns: u64,
    outside: &mut Outside,
) -> bool {
    let source = &mut outside.source;
    let sink = &mut outside.sink;
    let ended = match framing {
        "rtu" => rtu_over_tcp::process(text.alloc, source, sink, service, turns),
        "tcp" => tcp::process(text.alloc, source, sink, service, turns),
        "ascii" => modbus_ascii::ascii::process(text.alloc, source, sink, service, turns),
        "bursts" => served_in_bursts(text.alloc, source, sink, service, turns),
        "stream" => modbus_field::stream::process(text.alloc, source, sink, service, turns),
        "device" => served_as_device(text.alloc, source, sink, service, turns),
        _ => return false,
    };
    push_asked(text, ended, source, sink, service.calls);
    true
}

/// A source and a sink that are lent as one object, and a service that is lent.
fn served_by_lent(
    text: &mut Text,
    framing: &str,
    service: &mut SameWords,
    turns: u64,
    outside: &mut Outside,
) -> bool {
    let source = &mut outside.source;
    let sink = &mut outside.sink;
    let link = &mut Both::new(&mut *source, &mut *sink);
    let lent = &mut Forward(&mut *service);
    let ended = match framing {
        "rtu" => rtu_over_tcp::process_link(text.alloc, link, lent, turns),
        "tcp" => tcp::process_link(text.alloc, link, lent, turns),
        "ascii" => modbus_ascii::ascii::process_link(text.alloc, link, lent, turns),
        "stream" => modbus_field::stream::process_link(text.alloc, link, lent, turns),
        _ => return false,
    };
    push_asked(text, ended, source, sink, service.calls);
    true
}

/// Takes a step of a connection, where it can. Whether it did.
fn take_step<I: Framing>(
    text: &mut Text,
    connection: &mut Connection<I>,
    service: &mut SameWords,
    may_read: bool,
    outside: &mut Outside,
) -> bool {
    if !connection.is_open() || !connection.to_write().is_empty() {
        return false;
    }
    let source = &mut outside.source;
    let sink = &mut outside.sink;
    text.push_shown(connection.step(text.alloc, source, sink, service, may_read));
    text.push_str("; ");
    true
}

/// The steps of a connection: at 1 it may read, and at 0 it may not.
fn take_steps<I: Framing>(
    text: &mut Text,
    connection: &mut Connection<I>,
    service: &mut SameWords,
    reads: &str,
    outside: &mut Outside,
) {
    for may_read in reads.as_bytes() {
        if !take_step(text, connection, service, *may_read == b'1', outside) {
            break;
        }
    }
}

/// The same of a new connection.
fn stepped<I: Framing>(
    text: &mut Text,
    service: &mut SameWords,
    reads: &str,
    outside: &mut Outside,
) -> bool {
    match Connection::<I>::open(text.alloc) {
        Ok(mut connection) => take_steps(text, &mut connection, service, reads, outside),
        Err(_) => return false,
    }
    true
}

/// The same in a framing, and what came of them.
fn push_steps(
    text: &mut Text,
    framing: &str,
    service: &mut SameWords,
    reads: &str,
    outside: &mut Outside,
) -> bool {
    let is_done = match framing {
        "rtu" => stepped::<Inbox>(text, service, reads, outside),
        "tcp" => stepped::<AduBuffer>(text, service, reads, outside),
        _ => return false,
    };
    push_outside(text, &outside.source, &outside.sink, service.calls);
    is_done
}

/// `step`, a framing, how many registers the service answers, the steps, and the outside.
pub fn answer_by_steps(text: &mut Text, words: &[Word]) -> bool {
    let [framing, count, reads, words @ ..] = words else {
        return false;
    };
    let Some(count) = count.number() else {
        return false;
    };
    match read_outside(text.alloc, words) {
        Some(mut outside) => push_steps(
            text,
            framing.text(),
            &mut SameWords::new(count),
            reads.text(),
            &mut outside,
        ),
        None => false,
    }
}

/// How many of the next polls are pending, and the answer of the first that is not, among a hundred.
fn polled<I: Framing>(
    process: &mut PolledProcess<I>,
    link: &mut PolledMemoryLink,
    service: &mut SameWords,
) -> (u32, Option<Result<(), ProcessError>>) {
    let mut pending = 0u32;
    for _ in 0..100u32 {
        if !process.is_open() {
            break;
        }
        match process.poll(link, service) {
            Polled::Pending => pending = pending.saturating_add(1),
            Polled::Ready(ended) => return (pending, Some(ended)),
        }
    }
    (pending, None)
}

/// The same of a new server.
fn polled_anew<I: Framing>(
    alloc: Global,
    link: &mut PolledMemoryLink,
    service: &mut SameWords,
    turns: u64,
) -> Result<(u32, Option<Result<(), ProcessError>>), AllocError> {
    let mut process = PolledProcess::<I>::open(alloc, turns)?;
    Ok(polled(&mut process, link, service))
}

fn served_by_polls(
    text: &mut Text,
    framing: &str,
    service: &mut SameWords,
    turns: u64,
    link: &mut PolledMemoryLink,
) -> bool {
    let ended = match framing {
        "rtu" => polled_anew::<Inbox>(text.alloc, link, service, turns),
        "tcp" => polled_anew::<AduBuffer>(text.alloc, link, service, turns),
        _ => return false,
    };
    match ended {
        Ok(ended) => push_over_link(text, ended, link.link(), service),
        Err(_) => return false,
    }
    true
}

/// An RTU server that a signal stops after so many looks.
fn served_until(text: &mut Text, service: &mut SameWords, looks: u64, link: &mut MemoryLink) {
    let ended = rtu::Server::new(&mut *link).serve_until(
        text.alloc,
        service,
        &mut MemoryStop::new(looks),
    );
    push_over_link(text, ended, link, service);
}

/// An RTU server of a device that nothing but the end of its input stops, and what it wrote.
fn served_forever(text: &mut Text, store: &mut RegisterStore, link: &mut MemoryLink) {
    let ended = rtu::Server::new(&mut *link).serve_forever(text.alloc, store);
    write!(text, "{ended:?} ");
    text.push_hex(link.sink().bytes());
}

/// `serve_forever`, what the holding registers of the device hold, and the outside.
pub fn answer_forever(text: &mut Text, words: &[Word]) -> bool {
    let [numbers, words @ ..] = words else {
        return false;
    };
    match (
        store_of(text.alloc, numbers.text()),
        read_link(text.alloc, words),
    ) {
        (Some(mut store), Some(mut link)) => served_forever(text, &mut store, &mut link),
        _ => return false,
    }
    true
}

/// Tells nobody of the error of a connection.
fn ignore(_error: ProcessError) {}

/// One connection as work, which a signal stops after so many looks.
fn worked<I: Framing>(text: &mut Text, service: &mut SameWords, looks: u64, link: &mut MemoryLink) {
    let ended = ConnectionWorker::<I, _, _, _, _>::new(
        text.alloc,
        &mut *link,
        Forward(&mut *service),
        ignore,
        MemoryStop::new(looks),
    )
    .work();
    push_over_link(text, ended, link, service);
}

/// Slave 1 on a line of bursts that it shares with others: how it ended.
fn ended_among_others<L: Source + Sink>(
    alloc: Global,
    service: &mut SameWords,
    turns: u64,
    link: &mut L,
) -> Result<(), ProcessError> {
    let mut unit = OnlyUnit {
        unit: 1,
        service: StandardAnswers {
            service: Forward(&mut *service),
        },
    };
    modbus_field::burst::process_link(alloc, link, &mut unit, turns)
}

/// The answer of slave 1 on a line that it shares with others.
fn served_among_others(
    text: &mut Text,
    service: &mut SameWords,
    turns: u64,
    link: &mut BurstLink<TimedMemoryLink>,
) {
    let ended = ended_among_others(text.alloc, service, turns, link);
    push_over_link(text, ended, link.link().link(), service);
}

/// The same on one whose adapter may give back what is sent, and what is known of it then.
fn served_guarded(
    text: &mut Text,
    service: &mut SameWords,
    turns: u64,
    link: &mut EchoGuard<TimedMemoryLink>,
) {
    let ended = ended_among_others(text.alloc, service, turns, link);
    push_over_link(text, ended, link.link().link(), service);
    text.push_str(" echo ");
    text.push_shown(link.echo());
}

/// The server of modbus_example, to which each byte is a request.
fn served_by_bytes(text: &mut Text, counter: &mut Counter, outside: &mut Outside) {
    let source = &mut outside.source;
    let sink = &mut outside.sink;
    let ended = serve_singles(text.alloc, source, sink, counter);
    push_asked(text, ended, source, sink, counter.asked);
}

/// `serve_singles`, and the outside.
pub fn answer_by_bytes(text: &mut Text, words: &[Word]) -> bool {
    match read_outside(text.alloc, words) {
        Some(mut outside) => {
            served_by_bytes(text, &mut Counter::new(text.alloc), &mut outside);
        }
        None => return false,
    }
    true
}

/// The answer of a server over a link, which a signal stops after so many looks.
fn answer_over_link(
    text: &mut Text,
    call: &str,
    framing: &str,
    service: &mut SameWords,
    looks: u64,
    link: &mut MemoryLink,
) -> bool {
    match (call, framing) {
        ("serve_until", "rtu") => served_until(text, service, looks, link),
        ("work", "rtu") => worked::<Inbox>(text, service, looks, link),
        ("work", "tcp") => worked::<AduBuffer>(text, service, looks, link),
        _ => return false,
    }
    true
}

/// The answer of a slave on a line with this outside.
fn answer_on_line(
    text: &mut Text,
    framing: &str,
    service: &mut SameWords,
    turns: u64,
    outside: Outside,
) -> bool {
    match (outside.into_timed_link(text.alloc), framing) {
        (Some(line), "burst") => {
            served_among_others(text, service, turns, &mut BurstLink::new(line));
        }
        (Some(line), _) => {
            let link = &mut EchoGuard::new(line, Echo::Unknown);
            served_guarded(text, service, turns, link);
        }
        _ => return false,
    }
    true
}

/// The answer of a server that is polled, over a link with this outside.
fn answer_by_polls(
    text: &mut Text,
    framing: &str,
    service: &mut SameWords,
    turns: u64,
    outside: Outside,
) -> bool {
    match outside.into_polled_link(text.alloc) {
        Some(mut link) => served_by_polls(text, framing, service, turns, &mut link),
        None => false,
    }
}

/// The answer of a server over this source and sink.
fn answer_over_both(
    text: &mut Text,
    call: &str,
    framing: &str,
    service: &mut SameWords,
    turns: u64,
    outside: &mut Outside,
) -> bool {
    match call {
        "serve" => served(text, framing, service, turns, outside),
        _ => served_by_lent(text, framing, service, turns, outside),
    }
}

/// The answer of a server over this outside.
fn answer_over(
    text: &mut Text,
    call: &str,
    framing: &str,
    service: &mut SameWords,
    turns: u64,
    mut outside: Outside,
) -> bool {
    match call {
        "serve" | "serve_lent" => {
            answer_over_both(text, call, framing, service, turns, &mut outside)
        }
        "polled_serve" => answer_by_polls(text, framing, service, turns, outside),
        _ => answer_over_link(
            text,
            call,
            framing,
            service,
            turns,
            &mut outside.into_link(),
        ),
    }
}

/// `serve`, `serve_lent`, `polled_serve`, `serve_until` or `work`; a framing; how many registers the service answers; how many reads may
/// give bytes, or how often the signal is looked at before it is set; and the outside. Of `serve burst` the words `p8` say behind how many
/// bytes the line is silent.
pub fn answer(text: &mut Text, call: &str, words: &[Word]) -> bool {
    let [framing, count, turns, words @ ..] = words else {
        return false;
    };
    let (Some(count), Some(turns)) = (count.number(), turns.number()) else {
        return false;
    };
    let service = &mut SameWords::new(count);
    let turns = u64::from(turns);
    match read_outside(text.alloc, words) {
        Some(outside) if matches!(framing.text(), "burst" | "guarded") => {
            answer_on_line(text, framing.text(), service, turns, outside)
        }
        Some(outside) => answer_over(text, call, framing.text(), service, turns, outside),
        None => false,
    }
}
