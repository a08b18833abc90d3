//! Deadlines of calls, and a pause between connections, by the clock of the machine.
use super::tcp::open_pair;
use crate::check::check;
use modbus_adapter::{DeadlineConnector, DeadlineLink, PausedConnector};
use modbus_link::{Connector, Failed, MemoryConnector, Sink, TcpLink};
use std::net::SocketAddr;
use std::process::Abort;
use std::test::Fail;
use std::time::{Clock, Duration, Instant};

/// Fails where a link with a deadline of no time writes, or does not once it has none.
fn check_late<R: Abort + Clock>(rt: &R, mut link: DeadlineLink<'_, R, TcpLink>) {
    check(rt, link.write(b"ask"), Err(Failed));
    link.set_deadline(None);
    check(rt, link.write(b"ask"), Ok(3));
}

#[test]
fn a_call_past_its_deadline_writes_nothing(rt: HostRuntime) -> Result<(), Fail> {
    let (stream, _peer) = open_pair(&rt)?;
    let connector = MemoryConnector::new(Some(TcpLink::new(stream)));
    let mut connector = DeadlineConnector::new(&rt, connector, None);
    connector.set_deadline(Some(Duration::ZERO));
    let address: SocketAddr = ([127, 0, 0, 1], 502).into();
    match connector.connect(address, None) {
        Ok(link) => check_late(&rt, link),
        Err(Failed) => check(&rt, "a link", "none"),
    }
    Ok(())
}

#[test]
fn a_connection_behind_a_failed_one_waits(rt: HostRuntime) -> Result<(), Fail> {
    let pause = Duration::from_millis(50);
    let none: MemoryConnector<TcpLink> = MemoryConnector::new(None);
    let mut connector = PausedConnector::new(&rt, none, pause);
    let address: SocketAddr = ([127, 0, 0, 1], 502).into();
    let start = Instant::now(&rt)?;
    check(&rt, connector.connect(address, None).is_err(), true);
    check(&rt, connector.connect(address, None).is_err(), true);
    let took = Instant::now(&rt)?.saturating_duration_since(start);
    check(&rt, took.checked_sub(pause).is_some(), true);
    Ok(())
}
