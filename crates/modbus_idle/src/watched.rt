//! Connections that are looked at by epoll, and what makes them.
ghost use Rattle.std.specs.Prelude.{◌≡◌, IfOk};
ghost use Rattle.modbus_link.specs.Memory.{faults_after};
ghost use Rattle.modbus_link.specs.Outside.{untold_input, untold_output};
ghost use Rattle.modbus_idle.specs.Watched.{watched_at_start};

use crate::watcher::Watcher;
use modbus_link::{Connector, Ends, Failed, Link, Polled, Sink, Source, TcpLink};
use modbus_reconnect::IdleLink;
use std::alloc::AllocGlobal;
use std::marker::Model;
use std::net::{Net, SocketAddr, TcpStream};
use std::os::fd::AsRawFd;
use std::time::Duration;

/// A link over a TCP stream at which a look, by epoll, finds what came and was not read; it waits for nothing.
#[derive(Drop)]
pub struct WatchedLink {
    link: TcpLink,
    watcher: Watcher,
    looks: u64,
}

/// A contract sees the link, and how many looks found nothing.
impl Model for WatchedLink {
    ghost use Rattle.modbus_idle.specs.Watched.{WatchedState};

    ghost Value = { WatchedState };

    ghost view = { λ it. record { link = it.link; looks = it.looks } };
}

impl WatchedLink {
    /// A link over `stream` that has never failed.
    pub fn new<R: Net + AllocGlobal>(rt: &R, stream: TcpStream) -> WatchedLink
        ensures { result ≡ watched_at_start }
    {
        let watcher = Watcher::new(rt, stream.as_raw_fd());
        WatchedLink {
            link: TcpLink::new(stream),
            watcher,
            looks: 0,
        }
    }
}

impl Ends for WatchedLink {
    ghost input = { λ it. untold_input it.link.read_faults };

    ghost output = { λ it. untold_output it.link.write_faults };

    ghost line = { λ it. it.link.line };
}

impl Source for WatchedLink {
    fn read(&mut self, room: &mut [u8]) -> Result<usize, Failed> {
        self.link.read(room)
    }
}

impl Sink for WatchedLink {
    fn write(&mut self, piece: &[u8]) -> Result<usize, Failed> {
        self.link.write(piece)
    }
}

impl Link for WatchedLink {
    fn shutdown(&mut self) -> Result<(), Failed> {
        self.link.shutdown()
    }

    fn set_timeout(&mut self, duration: Option<Duration>) {
        self.link.set_timeout(duration);
    }
}

impl IdleLink for WatchedLink {
    ghost looks = { λ it. it.looks };

    /// Reads what the peer has sent already, and waits for nothing.
    fn look(&mut self, room: &mut [u8]) -> Result<Polled<usize>, Failed> {
        if !self.watcher.may_give(Duration::ZERO) {
            self.looks = self.looks.saturating_add(1);
            return Ok(Polled::Pending);
        }
        let count = self.link.read(room)?;
        Ok(Polled::Ready(count))
    }
}

/// What makes connections that are looked at, for an `RtuOverTcpClient`.
#[derive(Drop)]
pub struct WatchedConnector<'r, R> {
    rt: &'r R,
    faults: u64,
}

/// What a contract knows of it is how often it failed.
impl<'r, R> Model for WatchedConnector<'r, R> {
    ghost use Rattle.std.specs.Prelude.{ℕ};

    ghost Value = { ℕ };

    ghost view = { λ connector. connector.faults };
}

impl<'r, R: Net<Stream = TcpStream>> WatchedConnector<'r, R> {
    /// A connector over the network of `rt` that has never failed.
    pub fn new(rt: &'r R) -> Self
        ensures { result ≡ 0 }
    {
        WatchedConnector { rt, faults: 0 }
    }
}

impl<'r, R: Net<Stream = TcpStream> + AllocGlobal> Connector for WatchedConnector<'r, R> {
    type Link = WatchedLink;

    ghost faults = { λ connector. connector };

    ghost connects = { λ old addr timeout result new. IfOk result (λ link. link ≡ watched_at_start) × (new ≡ faults_after result old) };

    /// Connects to `addr`, within `timeout`. The link that it gives has no timeout for its reads and writes.
    ///
    /// # Errors
    /// `Failed` where there was no connection in time, or the system refused one, as it does within no time at all.
    fn connect(
        &mut self,
        addr: SocketAddr,
        timeout: Option<Duration>,
    ) -> Result<WatchedLink, Failed> {
        let connected = match timeout {
            None => TcpStream::connect(self.rt, addr),
            Some(duration) => TcpStream::connect_timeout(self.rt, &addr, duration),
        };
        match connected {
            Ok(stream) => Ok(WatchedLink::new(self.rt, stream)),
            Err(_) => {
                self.faults = self.faults.saturating_add(1);
                Err(Failed)
            }
        }
    }
}
