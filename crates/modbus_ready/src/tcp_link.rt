//! A link over a TCP stream that does not block.
//!
//! A call that a signal interrupts is tried again and is no fault, as with the other adapters over std.
ghost use Rattle.std.specs.Prelude.{◌≡◌, ◌<◌, ◌≤◌, length, IfOk};
ghost use Rattle.std.specs.Io.{ReadsAtMost, WritesAtMost};
ghost use Rattle.modbus_link.specs.Outside.{Advances, Extends, untold_input, untold_output};
ghost use Rattle.modbus_link.specs.Polled.{at_once};
ghost use Rattle.modbus_ready.specs.Peers.{unspecified};
ghost use Rattle.modbus_ready.specs.Polls.{polled_tcp_at_start, after_read, after_write};

use crate::peered::{PeerAddress, Peered};
use crate::setback::{Setback, setback_of};
use crate::token::both_ways;
use mio::net::TcpStream;
use mio::{Registry, Token};
use modbus_link::{Ends, Failed, Polled, PolledLink};
use std::io::{Error, ErrorKind, Read, Result as IoResult, Write};
use std::marker::Model;

/// A link over a TCP stream that does not block: it is not ready exactly where the stream would block.
///
/// It counts its faults of reading and of writing, and how often it was not ready.
#[derive(Drop)]
pub struct PolledTcpLink {
    stream: TcpStream,
    read_faults: u64,
    write_faults: u64,
    not_ready: u64,
    peer: PeerAddress,
}

/// What a contract knows of it is its counts, and the address of its peer.
impl Model for PolledTcpLink {
    ghost use Rattle.modbus_ready.specs.Polls.{PolledTcpState};

    ghost Value = { PolledTcpState };

    ghost view = { λ link. record { read_faults = link.read_faults; write_faults = link.write_faults; not_ready = link.not_ready; peer = link.peer } };
}

// One read, tried again where a signal interrupts it.
fn read_once(stream: &mut TcpStream, room: &mut [u8]) -> IoResult<usize>
    ensures { ReadsAtMost result room.new }
{
    for _ in 0..u64::MAX {
        match stream.read(room) {
            Err(error) if setback_of(error.kind()) == Setback::Again => {}
            result => return result,
        }
    }
    Err(Error::from(ErrorKind::Interrupted))
}

// One write, tried again where a signal interrupts it.
fn write_once(stream: &mut TcpStream, piece: &[u8]) -> IoResult<usize>
    ensures { WritesAtMost result piece.now }
{
    for _ in 0..u64::MAX {
        match stream.write(piece) {
            Err(error) if setback_of(error.kind()) == Setback::Again => {}
            result => return result,
        }
    }
    Err(Error::from(ErrorKind::Interrupted))
}

impl PolledTcpLink {
    /// A link over `stream` that was never asked, and does not tell who its peer is. It asks the stream to send each piece at once
    /// (TCP_NODELAY).
    pub fn new(stream: TcpStream) -> PolledTcpLink
        ensures { result ≡ polled_tcp_at_start unspecified }
    {
        PolledTcpLink::of_peer(stream, PeerAddress::unspecified())
    }

    /// The same to the peer of this address.
    pub fn of_peer(stream: TcpStream, peer: PeerAddress) -> PolledTcpLink
        ensures { result ≡ polled_tcp_at_start peer }
    {
        // A piece of a request or a reply that waits to be sent with the next one only waits. A stream that refuses serves all the same.
        let _ = stream.set_nodelay(true);
        PolledTcpLink {
            stream,
            read_faults: 0,
            write_faults: 0,
            not_ready: 0,
            peer,
        }
    }

    /// Has a poll of this registry tell when the link may be ready, under this token.
    ///
    /// # Errors
    /// `Failed` where the system refuses.
    pub fn register(&mut self, registry: &Registry, token: Token) -> Result<(), Failed>
        ensures { self.new ≡ self.old }
    {
        match registry.register(&mut self.stream, token, both_ways()) {
            Ok(()) => Ok(()),
            Err(_) => Err(Failed),
        }
    }
}

impl Peered for PolledTcpLink {
    ghost peer = { λ link. link.peer };

    fn peer_address(&self) -> PeerAddress {
        self.peer
    }
}

impl Ends for PolledTcpLink {
    ghost input = { λ link. untold_input link.read_faults };

    ghost output = { λ link. untold_output link.write_faults };
}

impl PolledLink for PolledTcpLink {
    ghost not_ready = { λ link. link.not_ready };

    /// Reads what the peer has sent; not ready exactly where the stream would block.
    ///
    /// # Errors
    /// `Failed` where the stream failed.
    fn poll_read(&mut self, room: &mut [u8]) -> Result<Polled<usize>, Failed>
        ensures bound { ReadsAtMost (at_once result) room.new }
        ensures source { Advances (untold_input self.old.read_faults)
            (untold_input self.new.read_faults) }
        ensures later { self.old.not_ready ≤ self.new.not_ready }

        ensures counts { self.new ≡ after_read result self.old }
    {
        match read_once(&mut self.stream, room) {
            Ok(count) => Ok(Polled::Ready(count)),
            Err(error) if setback_of(error.kind()) == Setback::NotReady => {
                self.not_ready = self.not_ready.saturating_add(1);
                Ok(Polled::Pending)
            }
            Err(_) => {
                self.read_faults = self.read_faults.saturating_add(1);
                Err(Failed)
            }
        }
    }

    /// Sends a front of `piece`; not ready exactly where the stream would block.
    ///
    /// # Errors
    /// `Failed` where the stream failed, as where the peer has closed it, or took nothing of a piece that isn't empty.
    fn poll_write(&mut self, piece: &[u8]) -> Result<Polled<usize>, Failed>
        ensures bound { WritesAtMost (at_once result) piece.now }
        ensures some { IfOk (at_once result) (λ count. 0 < length piece.now → 0 < count) }
        ensures sink { Extends (untold_output self.old.write_faults)
            (untold_output self.new.write_faults) }
        ensures later { self.old.not_ready ≤ self.new.not_ready }

        ensures counts { self.new ≡ after_write result self.old }
    {
        match write_once(&mut self.stream, piece) {
            Ok(count) if count > 0 || piece.is_empty() => Ok(Polled::Ready(count)),
            Err(error) if setback_of(error.kind()) == Setback::NotReady => {
                self.not_ready = self.not_ready.saturating_add(1);
                Ok(Polled::Pending)
            }
            _ => {
                self.write_faults = self.write_faults.saturating_add(1);
                Err(Failed)
            }
        }
    }
}
