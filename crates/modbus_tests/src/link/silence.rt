//! Links that tell silence.
use super::tcp::open_pair;
use crate::check::check;
use modbus_link::{
    Link, Polled, PolledLink, ReadSource, TcpLink, TerminalLine, TerminalLink, TimedLink,
    TimedTcpLink, WriteSink,
};
use std::io::{Result as IoResult, Write};
use std::net::TcpStream;
use std::process::Abort;
use std::test::Fail;
use std::time::Duration;

/// Fails where a read of a link that tells silence does not give this, or leaves other bytes in its room.
fn check_heard<R: Abort, L: TimedLink>(
    rt: &R,
    link: &mut L,
    wanted: Polled<usize>,
    bytes: [u8; 4],
) {
    let mut room = [b'.'; 4];
    check(rt, link.poll_read(&mut room), Ok(wanted));
    check(rt, room, bytes);
}

fn check_terminal<R: Abort>(rt: &R, link: &mut TerminalLink<&[u8], &mut [u8]>) {
    check_heard(rt, link, Polled::Ready(2), *b"ab..");
    check_heard(rt, link, Polled::Pending, *b"....");
    check(rt, link.poll_write(b"xyz"), Ok(Polled::Ready(2)));
}

#[test]
fn a_terminal_that_gives_nothing_is_silent(rt: HostRuntime) {
    let mut buffer = [0u8; 2];
    let sink = WriteSink::new(buffer.as_mut_slice());
    check_terminal(
        &rt,
        &mut TerminalLink::new(ReadSource::new(b"ab".as_slice()), sink),
    );
}

/// Whether a link tells its end, maybe behind silences: this machine may stop a read for as long as one takes.
fn ends<L: TimedLink>(link: &mut L) -> bool {
    let mut room = [0; 4];
    for _ in 0..100 {
        match link.poll_read(&mut room) {
            Ok(Polled::Pending) => {}
            told => return told == Ok(Polled::Ready(0)),
        }
    }
    false
}

#[test]
fn a_line_that_gives_nothing_at_once_has_ended(rt: HostRuntime) {
    let mut buffer = [0u8; 2];
    let sink = WriteSink::new(buffer.as_mut_slice());
    let streams = TerminalLink::new(ReadSource::new(b"ab".as_slice()), sink);
    let mut line = TerminalLine::new(&rt, streams);
    check_heard(&rt, &mut line, Polled::Ready(2), *b"ab..");
    check(&rt, ends(&mut line), true);
}

fn check_peer<R: Abort>(rt: &R, link: &mut TimedTcpLink, peer: &mut TcpStream) -> IoResult<()> {
    check_heard(rt, link, Polled::Pending, *b"....");
    peer.write_all(b"ab")?;
    check_heard(rt, link, Polled::Ready(2), *b"ab..");
    Ok(())
}

/// A link over this stream that waits for a peer no longer than 20 milliseconds.
fn impatient_link(stream: TcpStream) -> TimedTcpLink {
    let mut link = TcpLink::new(stream);
    link.set_timeout(Some(Duration::from_millis(20)));
    TimedTcpLink::new(link)
}

#[test]
fn a_peer_that_sends_nothing_in_time_is_silent(rt: HostRuntime) -> Result<(), Fail> {
    let (stream, mut peer) = open_pair(&rt)?;
    let mut link = impatient_link(stream);
    check_peer(&rt, &mut link, &mut peer)?;
    drop(peer);
    check_heard(&rt, &mut link, Polled::Ready(0), *b"....");
    Ok(())
}
