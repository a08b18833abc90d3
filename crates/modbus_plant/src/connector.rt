//! Connectors that keep why they could not connect.
ghost use Rattle.modbus_link.specs.Tcp.{tcp_at_start};
ghost use Rattle.modbus_idle.specs.Watched.{watched_at_start};
ghost use Rattle.std.specs.Prelude.{◌≡◌, ◌≤◌};
ghost use Rattle.modbus_plant.specs.Connectors.{refusing_never, ConnectsTelling, Notes};

use modbus_idle::WatchedLink;
use modbus_link::{Connector, Failed, TcpLink};
use std::alloc::AllocGlobal;
use std::io::ErrorKind;
use std::marker::Model;
use std::net::{Net, SocketAddr, TcpStream};
use std::time::Duration;

/// How often a connector failed, and what the system said the last time.
#[derive(Clone, Copy, Debug, PartialEq, Eq)]
pub struct Refusals {
    faults: u64,
    last: Option<ErrorKind>,
}

impl Refusals {
    /// None so far.
    fn none() -> Refusals
        ensures { result ≡ refusing_never }
    {
        Refusals {
            faults: 0,
            last: None,
        }
    }

    /// Keeps one more.
    fn note(&mut self, kind: ErrorKind)
        ensures notes { Notes self.old kind self.new }
        ensures later { self.old.faults ≤ self.new.faults }
    {
        self.faults = self.faults.saturating_add(1);
        self.last = Some(kind);
    }
}

/// A connection to an address; or what the system said.
fn connect<R: Net<Stream = TcpStream>>(
    rt: &R,
    address: SocketAddr,
    timeout: Option<Duration>,
) -> Result<TcpStream, ErrorKind> {
    let connected = match timeout {
        None => TcpStream::connect(rt, address),
        Some(duration) => TcpStream::connect_timeout(rt, &address, duration),
    };
    match connected {
        Ok(stream) => Ok(stream),
        Err(error) => Err(error.kind()),
    }
}

/// What makes TCP connections, and keeps why it could not.
#[derive(Drop)]
pub struct TellingConnector<'r, R> {
    rt: &'r R,
    refusals: Refusals,
}

/// A contract sees how often it failed, and what the system said the last time.
impl<'r, R> Model for TellingConnector<'r, R> {
    ghost use Rattle.modbus_plant.specs.declared.connector.Refusals.{Refusals};

    ghost Value = { Refusals };

    ghost view = { λ it. it.refusals };
}

impl<'r, R> TellingConnector<'r, R> {
    /// A connector over the network of `rt` that has never failed.
    pub fn new(rt: &'r R) -> TellingConnector<'r, R>
        ensures { result ≡ refusing_never }
    {
        TellingConnector {
            rt,
            refusals: Refusals::none(),
        }
    }

    /// What the system said when the last connection failed that did.
    pub fn refusal(&self) -> Option<ErrorKind>
        ensures { result ≡ self.now.last }
    {
        self.refusals.last
    }
}

impl<'r, R: Net<Stream = TcpStream>> Connector for TellingConnector<'r, R> {
    type Link = TcpLink;

    ghost faults = { λ it. it.faults };

    ghost connects = { λ old addr timeout result new. ConnectsTelling tcp_at_start old result new };

    /// Connects to `addr`, within `timeout`. The link that it gives has no timeout for its reads and writes.
    ///
    /// # Errors
    /// `Failed` where there was no connection in time, or the system refused one; `refusal` then tells what it said.
    fn connect(&mut self, addr: SocketAddr, timeout: Option<Duration>) -> Result<TcpLink, Failed> {
        match connect(self.rt, addr, timeout) {
            Ok(stream) => Ok(TcpLink::new(stream)),
            Err(kind) => {
                self.refusals.note(kind);
                Err(Failed)
            }
        }
    }
}

/// What makes TCP connections that are looked at before a request is sent, and keeps why it could not.
#[derive(Drop)]
pub struct TellingWatcher<'r, R> {
    rt: &'r R,
    refusals: Refusals,
}

/// A contract sees how often it failed, and what the system said the last time.
impl<'r, R> Model for TellingWatcher<'r, R> {
    ghost use Rattle.modbus_plant.specs.declared.connector.Refusals.{Refusals};

    ghost Value = { Refusals };

    ghost view = { λ it. it.refusals };
}

impl<'r, R> TellingWatcher<'r, R> {
    /// A connector over the network of `rt` that has never failed.
    pub fn new(rt: &'r R) -> TellingWatcher<'r, R>
        ensures { result ≡ refusing_never }
    {
        TellingWatcher {
            rt,
            refusals: Refusals::none(),
        }
    }

    /// What the system said when the last connection failed that did.
    pub fn refusal(&self) -> Option<ErrorKind>
        ensures { result ≡ self.now.last }
    {
        self.refusals.last
    }
}

impl<'r, R: Net<Stream = TcpStream> + AllocGlobal> Connector for TellingWatcher<'r, R> {
    type Link = WatchedLink;

    ghost faults = { λ it. it.faults };

    ghost connects = { λ old addr timeout result new. ConnectsTelling watched_at_start old result new };

    /// Connects to `addr`, within `timeout`. The link that it gives has no timeout for its reads and writes.
    ///
    /// # Errors
    /// `Failed` where there was no connection in time, or the system refused one; `refusal` then tells what it said.
    fn connect(
        &mut self,
        addr: SocketAddr,
        timeout: Option<Duration>,
    ) -> Result<WatchedLink, Failed> {
        match connect(self.rt, addr, timeout) {
            Ok(stream) => Ok(WatchedLink::new(self.rt, stream)),
            Err(kind) => {
                self.refusals.note(kind);
                Err(Failed)
            }
        }
    }
}
