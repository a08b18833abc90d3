//! Two connections whose requests are interleaved, by a schedule that the test sets.

use crate::check::check;
use crate::links::Pair;
use modbus_hub::{Counted, Deadlines, EventServer, Limits, Losses, Places, TurnLimits, Unwatched};
use modbus_link::{MemoryLink, MemorySink, MemorySource, MemoryStop, Polled};
use modbus_ready::{Ready, ScheduledAcceptor, ScheduledReadiness};
use modbus_server::Terminated;
use modbus_server::tcp::AduBuffer;
use modbus_store::{RegisterStore, Sizes, StoreError};
use std::alloc::{AllocError, Global};
use std::process::Abort;
use std::sync::Wait;
use std::test::Fail;
use std::time::Clock;

/// A write of 1234 hexadecimal to the register at 5, and a read of the one at 6; 12 bytes each.
const FIRST: [u8; 24] = [
    0, 1, 0, 0, 0, 6, 1, 6, 0, 5, 0x12, 0x34, 0, 2, 0, 0, 0, 6, 1, 3, 0, 6, 0, 1,
];

/// Its replies, where the other had written 7 to the register at 6 before that was read.
const FIRST_REPLIES: [u8; 23] = [
    0, 1, 0, 0, 0, 6, 1, 6, 0, 5, 0x12, 0x34, 0, 2, 0, 0, 0, 5, 1, 3, 2, 0, 7,
];

/// A read of the register at 5, and a write of 7 to the one at 6.
const SECOND: [u8; 24] = [
    0, 3, 0, 0, 0, 6, 1, 3, 0, 5, 0, 1, 0, 4, 0, 0, 0, 6, 1, 6, 0, 6, 0, 7,
];

/// Its replies, where the other had not written the register at 5 before it was read.
const SECOND_REPLIES: [u8; 23] = [
    0, 3, 0, 0, 0, 5, 1, 3, 2, 0, 0, 0, 4, 0, 0, 0, 6, 1, 6, 0, 6, 0, 7,
];

/// A link that gives these bytes, 12 at a read.
fn link(alloc: Global, input: &[u8]) -> Result<MemoryLink, AllocError> {
    let source = MemorySource::new(alloc, input, &[12], &[])?;
    let sink = MemorySink::new(alloc, 256, 256, &[])?;
    Ok(MemoryLink::new(source, sink, false))
}

/// Links of both masters.
fn links(alloc: Global) -> Result<Pair, AllocError> {
    Ok(Pair {
        near: link(alloc, &FIRST)?,
        far: link(alloc, &SECOND)?,
    })
}

/// A device with tables of eight entries.
fn device(alloc: Global) -> Result<RegisterStore, StoreError> {
    let sizes = Sizes {
        coils: 8,
        discrete_inputs: 8,
        holding_registers: 8,
        input_registers: 8,
    };
    RegisterStore::new(alloc, sizes, false)
}

type TwoLinks<'a> = EventServer<
    AduBuffer,
    ScheduledAcceptor<&'a mut MemoryLink>,
    ScheduledReadiness,
>;

/// What accepts both links, the near one first.
fn acceptor(
    alloc: Global,
    links: &mut Pair,
) -> Result<ScheduledAcceptor<&mut MemoryLink>, AllocError> {
    let mut answers = Vec::new(alloc);
    answers.push(Ok(Polled::Ready(&mut links.near)))?;
    answers.push(Ok(Polled::Ready(&mut links.far)))?;
    Ok(ScheduledAcceptor::new(answers))
}

/// A server of both by one read a turn: the second before the first, then both again, and then to their ends.
fn server<'a>(
    alloc: Global,
    acceptor: ScheduledAcceptor<&'a mut MemoryLink>,
) -> Result<TwoLinks<'a>, AllocError> {
    let schedule = [
        Ready::Peer,
        Ready::Link(1),
        Ready::Link(0),
        Ready::Link(7),
        Ready::Peer,
    ];
    let readiness = ScheduledReadiness::new(alloc, &schedule)?;
    let turn = TurnLimits {
        reads: 1,
        messages: 16,
    };
    let places = Places {
        connections: 2,
        per_peer: 2,
    };
    let limits = Limits { places, turn };
    Ok(EventServer::new(alloc, acceptor, readiness, limits))
}

/// Serves both to their ends.
fn serve<R: Wait + Clock + Abort>(
    rt: &R,
    server: &mut TwoLinks<'_>,
    service: &mut Counted<RegisterStore>,
) {
    let deadlines = Deadlines {
        idle: None,
        message: None,
    };
    let ended = server.serve_until(
        rt,
        service,
        deadlines,
        &mut Unwatched,
        &mut MemoryStop::new(5),
    );
    check(rt, ended, Ok(Terminated::Aborted));
    check(
        rt,
        (server.is_empty(), server.losses()),
        (true, Losses::none()),
    );
}

/// Serves both, which begin to be accepted.
fn serve_both<R: Wait + Clock + Abort>(
    rt: &R,
    alloc: Global,
    links: &mut Pair,
    service: &mut Counted<RegisterStore>,
) -> Result<(), AllocError> {
    let acceptor = acceptor(alloc, links)?;
    serve(rt, &mut server(alloc, acceptor)?, service);
    Ok(())
}

/// Whether this was written to a link.
fn has_got(link: &MemoryLink, bytes: &[u8]) -> bool {
    link.sink().bytes() == bytes
}

/// Serves both, and gives back the device.
fn serve_device<R: Wait + Clock + Abort>(
    rt: &R,
    alloc: Global,
    links: &mut Pair,
) -> Result<RegisterStore, Fail> {
    let mut store = Counted::new(device(alloc)?);
    serve_both(rt, alloc, links, &mut store)?;
    Ok(store.service)
}

/// Serves both, and compares what was written to the device and what each has got.
fn take_turns<R: Wait + Clock + Abort>(
    rt: &R,
    alloc: Global,
    links: &mut Pair,
) -> Result<(), Fail> {
    let device = serve_device(rt, alloc, links)?;
    check(rt, device.holding_register(6), Some(7));
    let replied = (
        has_got(&links.near, &FIRST_REPLIES),
        has_got(&links.far, &SECOND_REPLIES),
    );
    check(rt, replied, (true, true));
    Ok(())
}

#[test]
fn two_connections_take_turns(rt: HostRuntime) -> Result<(), Fail> {
    take_turns(&rt, rt.alloc(), &mut links(rt.alloc())?)
}
