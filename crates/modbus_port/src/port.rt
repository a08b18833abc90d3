//! A port of this machine: its address, its listener, and what keeps that going.
ghost use Rattle.std.specs.Prelude.{◌≡◌};
ghost use Rattle.modbus_port.specs.Port.{IsLoopback, AdmitsServed, port_for};

use crate::patient::{Keeper, PatientAcceptor};
use crate::telling::note;
use crate::watched::WatchedAcceptor;
use modbus_link::{Sink, TcpAcceptor};
use modbus_peers::Peers;
use std::io::Result as IoResult;
use std::marker::Model;
use std::net::{Net, SocketAddr, TcpListener, TcpStream};
use std::sync::atomic::{AtomicBool, Ordering};
use std::thread;
use std::time::{Clock, Duration};

/// How often an accept that fails is tried again.
const RETRIES: u32 = 300;

/// How many milliseconds are waited before that.
const PAUSE: u64 = 100;

/// What is told of a listener that has no file descriptor left, behind the name of the program.
const NO_DESCRIPTOR: &str = ": no descriptor, peers are turned away\n";

/// What is told of a peer that is not served.
const NOT_SERVED: &str = ": a peer is turned away, as its address is not allowed\n";

/// What is told of an accept that failed.
const RETRY: &str = ": accept fault, it is tried again\n";

/// What keeps the listener of a port going. It admits a peer that is served, where one more file descriptor could be had beside that of its
/// link, so that the next accept has one.
#[derive(Drop)]
pub struct PortKeeper<'r, R, N> {
    rt: &'r R,
    listener: TcpListener,
    peers: Peers<'r>,
    notes: N,
    program: &'r str,
    ended: &'r AtomicBool,
    is_full: bool,
    is_faulty: bool,
    has_told: bool,
}

/// A contract sees which peers are served.
impl<'r, R, N> Model for PortKeeper<'r, R, N> {
    ghost use Rattle.modbus_peers.specs.Peers.{PeersState};

    ghost Value = { PeersState };

    ghost view = { λ it. it.peers };
}

impl<'r, R, N> PortKeeper<'r, R, N> {
    /// One for the acceptor over this listener, and for these peers. It tells on `notes` what keeps peers waiting, once until it has passed, and
    /// the first peer that is not served; each line begins with the name of the program. Once `ended` is set it tells and waits no more.
    pub fn new(
        rt: &'r R,
        listener: TcpListener,
        peers: Peers<'r>,
        notes: N,
        program: &'r str,
        ended: &'r AtomicBool,
    ) -> PortKeeper<'r, R, N>
        ensures { result ≡ peers.entry }
    {
        PortKeeper {
            rt,
            listener,
            peers,
            notes,
            program,
            ended,
            is_full: false,
            is_faulty: false,
            has_told: false,
        }
    }
}

impl<'r, R, N: Sink> PortKeeper<'r, R, N> {
    // Whether there is room for one more link beside the one that was just given.
    fn has_room(&mut self) -> bool
        ensures { self.new ≡ self.old }
    {
        let has_room = self.listener.try_clone().is_ok();
        if !has_room && !self.is_full {
            note(&mut self.notes, self.program, NO_DESCRIPTOR);
        }
        self.is_full = !has_room;
        self.is_faulty = false;
        has_room
    }

    // Tells that a peer is not served, the first time.
    fn tell_not_served(&mut self)
        ensures { self.new ≡ self.old }
    {
        if !self.has_told {
            note(&mut self.notes, self.program, NOT_SERVED);
            self.has_told = true;
        }
    }
}

impl<'r, R: Clock, N: Sink> Keeper for PortKeeper<'r, R, N> {
    ghost admits = { AdmitsServed };

    ghost waits = { λ old new. new ≡ old };

    fn admit(&mut self, peer: SocketAddr) -> bool {
        if !self.peers.has(peer.ip()) {
            self.tell_not_served();
            return false;
        }
        self.has_room()
    }

    fn wait(&mut self) {
        if self.ended.load(Ordering::Acquire) {
            return;
        }
        if !self.is_faulty {
            note(&mut self.notes, self.program, RETRY);
            self.is_faulty = true;
        }
        thread::sleep(self.rt, Duration::from_millis(PAUSE));
    }
}

/// The address of this port of this machine, which no other reaches (RFC 1122, section 3.2.1.3).
pub fn loopback(port: u16) -> SocketAddr
    ensures { IsLoopback port result }
{
    SocketAddr::from(([127, 0, 0, 1], port))
}

/// The listener at this address, and another share of it.
///
/// # Errors
/// Those of the system.
pub fn bind<R>(rt: &R, address: SocketAddr) -> IoResult<(TcpListener, TcpListener)>
where
    R: Net<Listener = TcpListener, Stream = TcpStream>,
{
    let listener = TcpListener::bind(rt, address)?;
    let share = listener.try_clone()?;
    Ok((listener, share))
}

/// What accepts the peers of a port.
pub type PortAcceptor<'r, R, N> = PatientAcceptor<WatchedAcceptor<'r>, PortKeeper<'r, R, N>>;

/// What accepts those peers of this listener that are served, by its other share too, for links that end once `ended` is set.
///
/// A peer that is not served, or that there is no file descriptor for, is turned away; the first of several in a row is told on `notes`, in a line that begins with
/// the name of the program. After a fault of accepting it waits for 100 milliseconds and tries again, 300 times in a row; once `ended` is set
/// it does not wait.
pub fn accept_port<'r, R, N>(
    rt: &'r R,
    listener: (TcpListener, TcpListener),
    peers: Peers<'r>,
    notes: N,
    program: &'r str,
    ended: &'r AtomicBool,
) -> PortAcceptor<'r, R, N>
    ensures { result ≡ port_for peers.entry }
{
    let (listener, share) = listener;
    let accepting = WatchedAcceptor::new(TcpAcceptor::new(listener), ended);
    PatientAcceptor::new(
        accepting,
        PortKeeper::new(rt, share, peers, notes, program, ended),
        RETRIES,
    )
}
