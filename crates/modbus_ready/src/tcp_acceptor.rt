//! What accepts TCP connections and never waits: the trusted edge, which tells only what it counts.
ghost use Rattle.std.specs.Prelude.{◌≡◌};
ghost use Rattle.modbus_ready.specs.Accepts.{tally_by, tcp_acceptor_at_start};
ghost use Rattle.modbus_ready.specs.Polls.{GivesNewLink};

use crate::acceptor::PolledAcceptor;
use crate::peered::PeerAddress;
use crate::setback::{Setback, is_many_files, setback_of_accept};
use crate::tcp_link::PolledTcpLink;
use mio::net::{TcpListener, TcpStream};
use mio::{Interest, Registry, Token};
use modbus_link::{Failed, Polled};
use std::io::{Error, ErrorKind, Result as IoResult};
use std::marker::Model;
use std::net::SocketAddr;

/// What accepts TCP connections, and gives links over them.
#[derive(Drop)]
pub struct PolledTcpAcceptor {
    listener: TcpListener,
    given: u64,
    faults: u64,
    lacks_files: bool,
}

/// What a contract knows of it is how many links it gave, how often it failed, and whether it lacked files at last.
impl Model for PolledTcpAcceptor {
    ghost use Rattle.modbus_ready.specs.Accepts.{TcpAcceptorState};

    ghost Value = { TcpAcceptorState };

    ghost view = { λ acceptor. record {
      tally = record { given = acceptor.given; faults = acceptor.faults };
      lacks_files = acceptor.lacks_files;
    } };
}

impl PolledTcpAcceptor {
    /// An acceptor over `listener` that was never asked.
    pub fn new(listener: TcpListener) -> PolledTcpAcceptor
        ensures { result ≡ tcp_acceptor_at_start }
    {
        PolledTcpAcceptor {
            listener,
            given: 0,
            faults: 0,
            lacks_files: false,
        }
    }

    /// Has a poll of this registry tell when a peer may wait, under this token.
    ///
    /// # Errors
    /// `Failed` where the system refuses; that is a fault of the poll.
    pub fn register(&mut self, registry: &Registry, token: Token) -> Result<(), Failed>
        ensures { self.new ≡ self.old }
    {
        match registry.register(&mut self.listener, token, Interest::READABLE) {
            Ok(()) => Ok(()),
            Err(_) => Err(Failed),
        }
    }
}

// One accept, and who came, tried again where a signal interrupts it, or the peer gave its connection up before it was accepted.
fn accept_once(listener: &TcpListener) -> IoResult<(TcpStream, SocketAddr)> {
    for _ in 0..u64::MAX {
        match listener.accept() {
            Ok(accepted) => return Ok(accepted),
            Err(error) => match setback_of_accept(error.kind()) {
                Setback::Again => {}
                _ => return Err(error),
            },
        }
    }
    Err(Error::from(ErrorKind::Interrupted))
}

impl PolledAcceptor for PolledTcpAcceptor {
    type Link = PolledTcpLink;

    ghost faults = { λ acceptor. acceptor.tally.faults };

    ghost given = { λ acceptor. acceptor.tally.given };

    ghost lacks_files = { λ acceptor. acceptor.lacks_files };

    ghost accepts = { λ old result new. GivesNewLink result
        × (new.tally ≡ tally_by result old.tally) };

    /// The link of the next peer. A peer that gives its connection up before it is accepted is no fault.
    ///
    /// # Errors
    /// `Failed` where the listener failed, as it does where no file descriptor is left.
    fn poll_accept(&mut self) -> Result<Polled<PolledTcpLink>, Failed> {
        self.lacks_files = false;
        match accept_once(&self.listener) {
            Ok((stream, peer)) => {
                self.given = self.given.saturating_add(1);
                let address = PeerAddress::of(peer.ip());
                Ok(Polled::Ready(PolledTcpLink::of_peer(stream, address)))
            }
            Err(error) => match setback_of_accept(error.kind()) {
                Setback::NotReady => Ok(Polled::Pending),
                _ => {
                    self.lacks_files = is_many_files(&error);
                    self.faults = self.faults.saturating_add(1);
                    Err(Failed)
                }
            },
        }
    }

    fn lacks_files(&self) -> bool {
        self.lacks_files
    }
}
