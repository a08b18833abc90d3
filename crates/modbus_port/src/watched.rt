//! Links of a listener whose workers are to end with it, and what accepts them.
ghost use Rattle.std.specs.Prelude.{◌≡◌, ◌<◌, ◌≤◌, length, IfOk, OnErr};
ghost use Rattle.std.specs.Io.{ReadsAtMost, WritesAtMost};
ghost use Rattle.modbus_link.specs.Outside.{Rose, untold_input, untold_output};
ghost use Rattle.modbus_port.specs.Watches.{IsWatched, AcceptsWatched};

use modbus_link::{Acceptor, Ends, Failed, Link, Sink, Source, TcpAcceptor, TcpLink};
use std::marker::Model;
use std::net::SocketAddr;
use std::sync::atomic::{AtomicBool, Ordering};
use std::time::Duration;

/// How many seconds a read or a write of a listener's link waits before it looks at whether the listener ended.
const TICK: u64 = 1;

/// How many of these in a row a peer may do nothing: ten minutes.
const TICKS: u32 = 600;

/// Reads what the peer has sent, again after each failure, until the listener ended or so many reads in a row failed.
fn read_again(link: &mut TcpLink, ended: &AtomicBool, room: &mut [u8]) -> Result<usize, Failed>
    requires { 0 < length room.old }
    ensures bound { ReadsAtMost result room.new }
    ensures faults { link.old.read_faults ≤ link.new.read_faults }
    ensures rest { link.new ≡ record link.old { read_faults = link.new.read_faults } }
    ensures cause { OnErr result (Rose link.old.read_faults link.new.read_faults) }
{
    'tries: for _ in 1..TICKS {
        match link.read(room) {
            Ok(count) => return Ok(count),
            Err(failed) => {
                if ended.load(Ordering::Acquire) {
                    return Err(failed);
                }
            }
        }
    }
    link.read(room)
}

/// Sends a front of `piece`, again after each failure, until the listener ended or so many writes in a row failed.
fn write_again(link: &mut TcpLink, ended: &AtomicBool, piece: &[u8]) -> Result<usize, Failed>
    ensures bound { WritesAtMost result piece.now }
    ensures some { IfOk result (λ count. 0 < length piece.now → 0 < count) }
    ensures faults { link.old.write_faults ≤ link.new.write_faults }
    ensures rest { link.new ≡ record link.old { write_faults = link.new.write_faults } }
    ensures cause { OnErr result (Rose link.old.write_faults link.new.write_faults) }
{
    'tries: for _ in 1..TICKS {
        match link.write(piece) {
            Ok(count) => return Ok(count),
            Err(failed) => {
                if ended.load(Ordering::Acquire) {
                    return Err(failed);
                }
            }
        }
    }
    link.write(piece)
}

/// A link over TCP that a listener gave. A read or a write that fails, as after a second without a byte, is tried again, until the listener
/// ended or 600 tries in a row failed.
#[derive(Drop)]
pub struct WatchedLink<'f> {
    link: TcpLink,
    ended: &'f AtomicBool,
}

/// A contract sees the link.
impl<'f> Model for WatchedLink<'f> {
    ghost use Rattle.modbus_link.specs.Tcp.{TcpState};

    ghost Value = { TcpState };

    ghost view = { λ it. it.link };
}

impl<'f> WatchedLink<'f> {
    /// A link over this one, which ends once `ended` is set.
    pub fn new(link: TcpLink, ended: &'f AtomicBool) -> WatchedLink<'f>
        ensures { IsWatched link result }
    {
        let mut link = link;
        link.set_timeout(Some(Duration::from_secs(TICK)));
        WatchedLink { link, ended }
    }
}

impl<'f> Ends for WatchedLink<'f> {
    ghost input = { λ link. untold_input link.read_faults };

    ghost output = { λ link. untold_output link.write_faults };

    ghost line = { λ link. link.line };
}

impl<'f> Source for WatchedLink<'f> {
    /// Reads what the peer has sent.
    ///
    /// # Errors
    /// `Failed` where the listener ended, or 600 reads in a row failed, each within a second.
    fn read(&mut self, room: &mut [u8]) -> Result<usize, Failed> {
        read_again(&mut self.link, self.ended, room)
    }
}

impl<'f> Sink for WatchedLink<'f> {
    /// Sends a front of `piece`.
    ///
    /// # Errors
    /// `Failed` where the listener ended, or 600 writes in a row failed, each within a second.
    fn write(&mut self, piece: &[u8]) -> Result<usize, Failed> {
        write_again(&mut self.link, self.ended, piece)
    }
}

impl<'f> Link for WatchedLink<'f> {
    fn shutdown(&mut self) -> Result<(), Failed> {
        self.link.shutdown()
    }

    fn set_timeout(&mut self, duration: Option<Duration>) {
        self.link.set_timeout(duration)
    }
}

/// What accepts TCP connections for a listener, and gives watched links over them.
#[derive(Drop)]
pub struct WatchedAcceptor<'f> {
    acceptor: TcpAcceptor,
    ended: &'f AtomicBool,
}

/// What a contract knows of it is how many links it gave, and how often it failed.
impl<'f> Model for WatchedAcceptor<'f> {
    ghost use Rattle.modbus_link.specs.Listens.{Tally};

    ghost Value = { Tally };

    ghost view = { λ it. it.acceptor };
}

impl<'f> WatchedAcceptor<'f> {
    /// An acceptor over this one, of links that end once `ended` is set.
    pub fn new(acceptor: TcpAcceptor, ended: &'f AtomicBool) -> WatchedAcceptor<'f>
        ensures { result ≡ acceptor }
    {
        WatchedAcceptor { acceptor, ended }
    }
}

impl<'f> Acceptor for WatchedAcceptor<'f> {
    type Link = WatchedLink<'f>;

    ghost faults = { λ it. it.faults };

    ghost given = { λ it. it.given };

    ghost accepts = { AcceptsWatched };

    /// Waits for the next peer.
    ///
    /// # Errors
    /// `Failed` where the listener failed.
    fn accept(&mut self) -> Result<(WatchedLink<'f>, SocketAddr), Failed> {
        match self.acceptor.accept() {
            Ok((link, address)) => Ok((WatchedLink::new(link, self.ended), address)),
            Err(failed) => Err(failed),
        }
    }
}
