//! Links over TCP, what makes them and what accepts them: the trusted edge, which tells no content, only what it counts and was told.
//!
//! A call that a signal interrupts is tried again and is no fault, as with the other adapters over std.
ghost use Rattle.std.specs.Prelude.{◌≡◌, ◌<◌, length, IfOk};
ghost use Rattle.std.specs.Io.{ReadsAtMost, WritesAtMost};
ghost use Rattle.modbus_link.specs.Outside.{Advances, Extends, untold_input, untold_output};
ghost use Rattle.modbus_link.specs.Memory.{next_count, faults_after};
ghost use Rattle.modbus_link.specs.Line.{shut, Shuts};
ghost use Rattle.modbus_link.specs.Polled.{at_once};
ghost use Rattle.modbus_link.specs.Tcp.{tcp_at_start};
ghost use Rattle.modbus_link.specs.Listens.{tally_at_start, tally_after};

use crate::acceptor::Acceptor;
use crate::connector::Connector;
use crate::link::Link;
use crate::outside::{Ends, Failed, Sink, Source};
use crate::polled::Polled;
use crate::real::{read_once, write_once};
use std::io::{Error, ErrorKind, Result as IoResult};
use std::marker::Model;
use std::net::{Net, Shutdown, SocketAddr, TcpListener, TcpStream};
use std::time::Duration;

/// A link over a TCP stream.
///
/// It counts its faults of reading, of writing and of shutting down. A timeout is set on the stream, for both directions, at the
/// first read or write after `set_timeout`; until then the stream has those that it came with.
#[derive(Drop)]
pub struct TcpLink {
    stream: TcpStream,
    read_faults: u64,
    write_faults: u64,
    shutdown_faults: u64,
    is_down: bool,
    timeout: Option<Duration>,
    is_timeout_applied: bool,
}

/// What a contract knows of it is its counts, whether a shutdown answered Ok, and the timeout that was set last.
impl Model for TcpLink {
    ghost use Rattle.modbus_link.specs.Tcp.{TcpState};

    ghost Value = { TcpState };

    ghost view = { λ link. record {
      read_faults = link.read_faults;
      write_faults = link.write_faults;
      line = record { faults = link.shutdown_faults; is_down = link.is_down; timeout = link.timeout };
    } };
}

impl TcpLink {
    /// A link over `stream` that has never failed. It asks the stream to send each piece at once (TCP_NODELAY).
    pub fn new(stream: TcpStream) -> Self
        ensures { result ≡ tcp_at_start }
    {
        // Modbus is request and reply, so a piece that waits to be sent with the next one only waits. A stream that refuses
        // serves all the same: it costs time.
        let _ = stream.set_nodelay(true);
        TcpLink {
            stream,
            read_faults: 0,
            write_faults: 0,
            shutdown_faults: 0,
            is_down: false,
            timeout: None,
            is_timeout_applied: true,
        }
    }

    // Sets the timeout on the stream, where it was told one since.
    fn apply_timeout(&mut self) -> IoResult<()>
        ensures { self.new ≡ self.old }
    {
        if !self.is_timeout_applied {
            self.stream.set_read_timeout(self.timeout)?;
            self.stream.set_write_timeout(self.timeout)?;
            self.is_timeout_applied = true;
        }
        Ok(())
    }

    fn count_read_fault(&mut self) -> Failed
        ensures source { Advances (untold_input self.old.read_faults)
            (untold_input self.new.read_faults) }
        ensures counts { self.new ≡ record self.old { read_faults = next_count self.old.read_faults } }
    {
        self.read_faults = self.read_faults.saturating_add(1);
        Failed
    }

    fn try_read(&mut self, room: &mut [u8]) -> IoResult<usize>
        ensures bound { ReadsAtMost result room.new }
        ensures counts { self.new ≡ self.old }
    {
        self.apply_timeout()?;
        read_once(&mut self.stream, room)
    }

    /// Reads what the peer has sent, and is `Pending` where nothing came within the timeout.
    ///
    /// # Errors
    /// `Failed` where the stream failed in another way, or refused the timeout.
    pub(crate) fn read_in_time(&mut self, room: &mut [u8]) -> Result<Polled<usize>, Failed>
        ensures bound { ReadsAtMost (at_once result) room.new }
        ensures source { Advances (untold_input self.old.read_faults)
            (untold_input self.new.read_faults) }
        ensures counts { self.new ≡ record self.old {
          read_faults = faults_after result
              self.old.read_faults;
        } }
    {
        match self.try_read(room) {
            Ok(count) => Ok(Polled::Ready(count)),
            Err(error) if is_timeout(error.kind()) => Ok(Polled::Pending),
            Err(_) => Err(self.count_read_fault()),
        }
    }

    fn try_write(&mut self, piece: &[u8]) -> IoResult<usize>
        ensures bound { WritesAtMost result piece.now }
        ensures counts { self.new ≡ self.old }
    {
        self.apply_timeout()?;
        write_once(&mut self.stream, piece)
    }
}

impl Ends for TcpLink {
    ghost input = { λ link. untold_input link.read_faults };

    ghost output = { λ link. untold_output link.write_faults };

    ghost line = { λ link. link.line };
}

impl Source for TcpLink {
    /// Reads what the peer has sent.
    ///
    /// # Errors
    /// `Failed` where the stream failed, gave nothing within the timeout, or refused the timeout, as it does one of no length.
    fn read(&mut self, room: &mut [u8]) -> Result<usize, Failed>
        ensures bound { ReadsAtMost result room.new }
        ensures source { Advances (untold_input self.old.read_faults)
            (untold_input self.new.read_faults) }

        ensures counts { self.new ≡ record self.old {
          read_faults = faults_after result
              self.old.read_faults;
        } }
    {
        match self.try_read(room) {
            Ok(count) => Ok(count),
            Err(_) => Err(self.count_read_fault()),
        }
    }
}

impl Sink for TcpLink {
    /// Sends a front of `piece`.
    ///
    /// # Errors
    /// `Failed` where the stream failed, took nothing of a piece that isn't empty, within the timeout or at all, or refused the
    /// timeout, as it does one of no length.
    fn write(&mut self, piece: &[u8]) -> Result<usize, Failed>
        ensures bound { WritesAtMost result piece.now }
        ensures some { IfOk result (λ count. 0 < length piece.now → 0 < count) }
        ensures sink { Extends (untold_output self.old.write_faults)
            (untold_output self.new.write_faults) }

        ensures counts { self.new ≡ record self.old {
          write_faults = faults_after result
              self.old.write_faults;
        } }
    {
        match self.try_write(piece) {
            Ok(count) if count > 0 || piece.is_empty() => Ok(count),
            _ => {
                self.write_faults = self.write_faults.saturating_add(1);
                Err(Failed)
            }
        }
    }
}

// Whether a read that failed so had nothing to give in time; which of the two it is depends on the system.
fn is_timeout(kind: ErrorKind) -> bool {
    matches!(kind, ErrorKind::WouldBlock | ErrorKind::TimedOut)
}

// Whether a shutdown that failed so found nothing to shut down.
fn is_down_already(kind: ErrorKind) -> bool {
    matches!(kind, ErrorKind::NotConnected | ErrorKind::BrokenPipe)
}

impl Link for TcpLink {
    /// Shuts both directions down. A stream that is connected to nobody any more is down.
    ///
    /// # Errors
    /// `Failed` where the stream failed in another way.
    fn shutdown(&mut self) -> Result<(), Failed>
        ensures shut { self.new ≡ record self.old { line = shut result self.old.line } }
        ensures line { Shuts self.old.line result self.new.line }
    {
        match self.stream.shutdown(Shutdown::Both) {
            Err(error) if !is_down_already(error.kind()) => {
                self.shutdown_faults = self.shutdown_faults.saturating_add(1);
                Err(Failed)
            }
            _ => {
                self.is_down = true;
                Ok(())
            }
        }
    }

    fn set_timeout(&mut self, duration: Option<Duration>)
        ensures set { self.new ≡ record self.old {
          line = record self.old.line { timeout = duration };
        } }
    {
        self.timeout = duration;
        self.is_timeout_applied = false;
    }
}

/// What opens TCP connections, and gives links over them.
#[derive(Drop)]
pub struct TcpConnector<'r, R> {
    rt: &'r R,
    faults: u64,
}

/// What a contract knows of it is how often it failed.
impl<'r, R> Model for TcpConnector<'r, R> {
    ghost use Rattle.std.specs.Prelude.{ℕ};

    ghost Value = { ℕ };

    ghost view = { λ connector. connector.faults };
}

impl<'r, R: Net<Stream = TcpStream>> TcpConnector<'r, R> {
    /// A connector over the network of `rt` that has never failed.
    pub fn new(rt: &'r R) -> Self
        ensures { result ≡ 0 }
    {
        TcpConnector { rt, faults: 0 }
    }
}

impl<'r, R: Net<Stream = TcpStream>> Connector for TcpConnector<'r, R> {
    type Link = TcpLink;

    ghost faults = { λ connector. connector };

    ghost connects = { λ old addr timeout result new. IfOk result (λ link. link ≡ tcp_at_start) × (new ≡ faults_after result old) };

    /// Connects to `addr`, within `timeout`. The link that it gives has no timeout for its reads and writes.
    ///
    /// # Errors
    /// `Failed` where there was no connection in time, or the system refused one, as it does within no time at all.
    fn connect(&mut self, addr: SocketAddr, timeout: Option<Duration>) -> Result<TcpLink, Failed> {
        let connected = match timeout {
            None => TcpStream::connect(self.rt, addr),
            Some(duration) => TcpStream::connect_timeout(self.rt, &addr, duration),
        };
        match connected {
            Ok(stream) => Ok(TcpLink::new(stream)),
            Err(_) => {
                self.faults = self.faults.saturating_add(1);
                Err(Failed)
            }
        }
    }
}

/// What accepts TCP connections, and gives links over them.
#[derive(Drop)]
pub struct TcpAcceptor {
    listener: TcpListener,
    given: u64,
    faults: u64,
}

/// What a contract knows of it is how many links it gave, and how often it failed.
impl Model for TcpAcceptor {
    ghost use Rattle.modbus_link.specs.Listens.{Tally};

    ghost Value = { Tally };

    ghost view = { λ acceptor. record { given = acceptor.given; faults = acceptor.faults } };
}

impl TcpAcceptor {
    /// An acceptor over `listener` that has given nothing. std's `bind` sets SO_REUSEADDR.
    pub fn new(listener: TcpListener) -> Self
        ensures { result ≡ tally_at_start }
    {
        TcpAcceptor {
            listener,
            given: 0,
            faults: 0,
        }
    }
}

// One accept, tried again where the peer gave its connection up before it was accepted.
fn accept_once(listener: &TcpListener) -> IoResult<(TcpStream, SocketAddr)> {
    for _ in 0..u64::MAX {
        match listener.accept() {
            Err(error) if error.kind() == ErrorKind::ConnectionAborted => {}
            result => return result,
        }
    }
    Err(Error::from(ErrorKind::ConnectionAborted))
}

impl Acceptor for TcpAcceptor {
    type Link = TcpLink;

    ghost faults = { λ acceptor. acceptor.faults };

    ghost given = { λ acceptor. acceptor.given };

    ghost accepts = { λ old result new. IfOk result (λ accepted. accepted.0 ≡ tcp_at_start) × (new ≡ tally_after result old) };

    /// Waits for the next peer. The link that it gives has no timeout. A peer that gives its connection up before it is accepted is
    /// no fault.
    ///
    /// # Errors
    /// `Failed` where the listener failed, as it does where no file descriptor is left.
    fn accept(&mut self) -> Result<(TcpLink, SocketAddr), Failed> {
        match accept_once(&self.listener) {
            Ok((stream, address)) => {
                self.given = self.given.saturating_add(1);
                Ok((TcpLink::new(stream), address))
            }
            Err(_) => {
                self.faults = self.faults.saturating_add(1);
                Err(Failed)
            }
        }
    }
}
