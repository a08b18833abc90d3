//! Links over TCP, what makes them and what accepts them, over loopback and on one thread: a peer is accepted once it has connected.
use crate::check::check;
use modbus_link::{
    Acceptor, Connector, Failed, FlagStop, Link, MemoryLink, Sink, Source, TcpAcceptor,
    TcpConnector, TcpLink,
};
use std::io::{Read, Result as IoResult, Write};
use std::net::{Net, SocketAddr, TcpListener, TcpStream};
use std::process::Abort;
use std::test::Fail;
use std::time::Duration;

/// The streams of a connection to this listener: that of the one who connects, and that of its peer.
fn connect_to<R: Net<Stream = TcpStream>>(
    rt: &R,
    listener: &TcpListener,
) -> IoResult<(TcpStream, TcpStream)> {
    let stream = TcpStream::connect(rt, listener.local_addr()?)?;
    Ok((stream, listener.accept()?.0))
}

/// A stream, and its peer.
pub fn open_pair<R: Net<Listener = TcpListener, Stream = TcpStream>>(
    rt: &R,
) -> IoResult<(TcpStream, TcpStream)> {
    connect_to(rt, &TcpListener::bind(rt, "127.0.0.1:0")?)
}

/// Fails where the peer of a link is not asked.
fn check_asked<R: Abort>(rt: &R, link: &mut TcpLink, peer: &mut TcpStream) -> IoResult<()> {
    check(rt, link.write(b"ask"), Ok(3));
    let mut asked = [0u8; 3];
    peer.read_exact(&mut asked)?;
    check(rt, asked, *b"ask");
    Ok(())
}

fn check_both_ways<R: Abort>(rt: &R, link: &mut TcpLink, peer: &mut TcpStream) -> IoResult<()> {
    check_asked(rt, link, peer)?;
    peer.write_all(b"answer")?;
    let mut room = [0u8; 8];
    check(rt, link.read(&mut room), Ok(6));
    check(rt, room, *b"answer\0\0");
    check(rt, link.write(b""), Ok(0));
    Ok(())
}

/// Fails where a link whose peer has closed does not tell it.
fn check_closed<R: Abort>(rt: &R, link: &mut TcpLink) {
    check(rt, link.read(&mut [0u8; 8]), Ok(0));
    // The second one finds nobody connected.
    check(rt, link.shutdown(), Ok(()));
    check(rt, link.shutdown(), Ok(()));
    check(rt, link.write(b"ask"), Err(Failed));
}

#[test]
fn bytes_go_both_ways_until_the_peer_closes(rt: HostRuntime) -> Result<(), Fail> {
    let (stream, mut peer) = open_pair(&rt)?;
    let handle = stream.try_clone()?;
    let mut link = TcpLink::new(stream);
    check(&rt, handle.nodelay()?, true);
    check_both_ways(&rt, &mut link, &mut peer)?;
    drop(peer);
    check_closed(&rt, &mut link);
    Ok(())
}

/// Fails where a read and a write of this stream may not take so long.
fn check_timeouts_of<R: Abort>(
    rt: &R,
    stream: &TcpStream,
    limit: Option<Duration>,
) -> IoResult<()> {
    check(
        rt,
        (stream.read_timeout()?, stream.write_timeout()?),
        (limit, limit),
    );
    Ok(())
}

fn check_next_write<R: Abort>(rt: &R, link: &mut TcpLink, handle: &TcpStream) -> IoResult<()> {
    let mut before = Some(Duration::from_secs(9));
    handle.set_read_timeout(before)?;
    handle.set_write_timeout(before)?;
    check(rt, link.write(b"a"), Ok(1));
    for limit in [None, Some(Duration::from_secs(2)), None] {
        link.set_timeout(limit);
        check_timeouts_of(rt, handle, before)?;
        check(rt, link.write(b"a"), Ok(1));
        check_timeouts_of(rt, handle, limit)?;
        before = limit;
    }
    Ok(())
}

#[test]
fn a_timeout_is_set_at_the_next_write_both_ways(rt: HostRuntime) -> Result<(), Fail> {
    let (stream, _peer) = open_pair(&rt)?;
    let handle = stream.try_clone()?;
    check_next_write(&rt, &mut TcpLink::new(stream), &handle)?;
    Ok(())
}

fn check_timeouts<R: Abort>(rt: &R, link: &mut TcpLink, peer: &mut TcpStream) -> IoResult<()> {
    let mut room = [0u8; 8];
    let soon = Some(Duration::from_millis(50));
    let never = Some(Duration::ZERO);
    for (limit, sent, read, wrote) in [
        (soon, b"".as_slice(), Err(Failed), Ok(1)),
        (soon, b"ab".as_slice(), Ok(2), Ok(1)),
        (never, b"c".as_slice(), Err(Failed), Err(Failed)),
        (None, b"".as_slice(), Ok(1), Ok(1)),
    ] {
        link.set_timeout(limit);
        peer.write_all(sent)?;
        check(rt, link.read(&mut room), read);
        check(rt, link.write(b"a"), wrote);
    }
    Ok(())
}

#[test]
fn a_timeout_that_expires_or_is_refused_is_a_fault(rt: HostRuntime) -> Result<(), Fail> {
    let (stream, mut peer) = open_pair(&rt)?;
    check_timeouts(&rt, &mut TcpLink::new(stream), &mut peer)?;
    Ok(())
}

/// Fails where the peer of a link is not asked, or its echo is not read.
fn check_echo<R: Abort>(rt: &R, link: &mut TcpLink, peer: &mut TcpStream) -> IoResult<()> {
    check_asked(rt, link, peer)?;
    peer.write_all(b"ask")?;
    check(rt, link.read(&mut [0u8; 3]), Ok(3));
    Ok(())
}

/// Fails where a connector doesn't connect to this listener, or its link doesn't carry bytes both ways.
fn check_connected<R: Abort, C: Connector<Link = TcpLink>>(
    rt: &R,
    connector: &mut C,
    listener: &TcpListener,
    timeout: Option<Duration>,
) -> Result<(), Fail> {
    let mut link = connector.connect(listener.local_addr()?, timeout)?;
    check_echo(rt, &mut link, &mut listener.accept()?.0)?;
    Ok(())
}

fn check_refused<R: Abort, C: Connector<Link = TcpLink>>(
    rt: &R,
    connector: &mut C,
    address: SocketAddr,
    timeout: Option<Duration>,
) {
    check(rt, connector.connect(address, timeout).is_err(), true);
}

/// Fails where a connector doesn't connect while this listener is there, or does afterwards.
fn check_connector<R: Abort, C: Connector<Link = TcpLink>>(
    rt: &R,
    connector: &mut C,
    listener: TcpListener,
) -> Result<(), Fail> {
    let address = listener.local_addr()?;
    let soon = Some(Duration::from_secs(2));
    check_connected(rt, connector, &listener, None)?;
    check_connected(rt, connector, &listener, soon)?;
    // There is somebody, but no time to connect.
    check_refused(rt, connector, address, Some(Duration::ZERO));
    drop(listener);
    check_refused(rt, connector, address, None);
    check_refused(rt, connector, address, soon);
    Ok(())
}

#[test]
fn a_connector_opens_connections_until_nobody_listens(rt: HostRuntime) -> Result<(), Fail> {
    let listener = TcpListener::bind(&rt, "127.0.0.1:0")?;
    check_connector(&rt, &mut TcpConnector::new(&rt), listener)
}

/// Fails where the next link is not one of this peer, or does not give what the peer has sent.
fn check_accepted<R: Abort>(
    rt: &R,
    acceptor: &mut TcpAcceptor,
    peer: &mut TcpStream,
    text: &[u8; 3],
) -> Result<(), Fail> {
    peer.write_all(text)?;
    let (mut link, from) = acceptor.accept()?;
    check(rt, from, peer.local_addr()?);
    let mut room = [0u8; 3];
    check(rt, link.read(&mut room), Ok(3));
    check(rt, room, *text);
    Ok(())
}

/// Fails where a peer that connects is not accepted next.
fn check_next<R: Abort + Net<Stream = TcpStream>>(
    rt: &R,
    acceptor: &mut TcpAcceptor,
    address: SocketAddr,
    text: &[u8; 3],
) -> Result<(), Fail> {
    check_accepted(rt, acceptor, &mut TcpStream::connect(rt, address)?, text)
}

/// Fails where peers are not accepted in their order, or where somebody is who has not connected: the listener does not wait.
fn check_acceptor<R: Abort + Net<Stream = TcpStream>>(
    rt: &R,
    acceptor: &mut TcpAcceptor,
    address: SocketAddr,
) -> Result<(), Fail> {
    check_next(rt, acceptor, address, b"one")?;
    check_next(rt, acceptor, address, b"two")?;
    check(rt, acceptor.accept().is_err(), true);
    Ok(())
}

#[test]
fn an_acceptor_gives_the_links_of_peers_in_order(rt: HostRuntime) -> Result<(), Fail> {
    let listener = TcpListener::bind(&rt, "127.0.0.1:0")?;
    listener.set_nonblocking(true)?;
    let address = listener.local_addr()?;
    check_acceptor(&rt, &mut TcpAcceptor::new(listener), address)
}

/// Takes what may go to another thread.
fn take_sent<T: Send + Drop>(_value: Option<T>) {}

#[test]
fn links_and_flags_may_go_to_another_thread() {
    take_sent::<TcpLink>(None);
    take_sent::<MemoryLink>(None);
    take_sent::<FlagStop>(None);
}
