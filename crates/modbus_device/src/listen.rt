//! Serving a port of Modbus TCP on one thread.
ghost use Rattle.std.specs.Prelude.{◌≡◌, IfOk};

use crate::device::Device;
use crate::teller::Teller;
use crate::words::TcpPort;
use mio::net::TcpListener;
use modbus_admission::AdmittingAcceptor;
use modbus_field::stream::StreamBuffer;
use modbus_hub::{Counted, Deadlines, EventServer, Limits, Places, TurnLimits};
use modbus_link::{FlagStop, Sink};
use modbus_peers::Peers;
use modbus_ready::{MioReadiness, PolledTcpAcceptor};
use std::alloc::AllocGlobal;
use std::net::Net;
use std::sync::Wait;
use std::time::{Clock, Duration};

/// What a connection may take before another has its turn. One read may give a score of messages.
const TURN: TurnLimits = TurnLimits {
    reads: 16,
    messages: 16,
};

/// How many seconds a connection may stay that sends nothing.
const IDLE: u64 = 600;

/// What is told as the first master is turned away.
const NOT_ALLOWED: &str = "modbus_device: a peer is turned away, as its address is not allowed\n";

/// Which masters are served, and where the first is told of that is not.
#[derive(Drop)]
pub struct Door<'p, N> {
    /// The masters that are served.
    pub peers: Peers<'p>,
    /// Where a line is told.
    pub notes: N,
}

/// What accepts the masters that are served.
type NetAcceptor<'p, N> = AdmittingAcceptor<'p, PolledTcpAcceptor, N>;

/// A server over the network of the machine.
type NetServer<'p, N> = EventServer<StreamBuffer, NetAcceptor<'p, N>, MioReadiness>;

/// A server of a listener; or what the system refuses.
fn open_server<'p, R: Net + AllocGlobal, N: Sink + Drop>(
    rt: &R,
    listener: TcpListener,
    door: Door<'p, N>,
    places: Places,
) -> Result<NetServer<'p, N>, &'static str>
    ensures { IfOk result (λ server. server.acceptor.peers ≡ door.entry.peers) }
{
    let Ok(mut readiness) = MioReadiness::new(rt) else {
        return Err("epoll fault");
    };
    let mut acceptor = PolledTcpAcceptor::new(listener);
    if readiness.watch_acceptor(&mut acceptor).is_err() {
        return Err("epoll fault");
    }
    let acceptor = AdmittingAcceptor::new(acceptor, door.peers, door.notes, NOT_ALLOWED);
    let limits = Limits { places, turn: TURN };
    Ok(EventServer::new(rt.alloc(), acceptor, readiness, limits))
}

/// Serves until the system refuses something, and says what.
fn run<R: Wait + Clock, N: Sink + Drop>(
    rt: &R,
    server: &mut NetServer<'_, N>,
    device: &mut Counted<Device>,
    deadlines: Deadlines,
    teller: &mut Teller<'_>,
    signal: &mut FlagStop,
) -> &'static str {
    match server.serve_until(rt, device, deadlines, teller, signal) {
        Ok(_) => "stopped",
        Err(_) => "epoll fault",
    }
}

/// Serves the units to all masters behind this door who connect to a port, until the system refuses something, and says what.
pub fn serve<R: Net + AllocGlobal + Wait + Clock, N: Sink + Drop>(
    rt: &R,
    listener: TcpListener,
    door: Door<'_, N>,
    device: Device,
    port: TcpPort,
    teller: &mut Teller<'_>,
) -> &'static str {
    let Ok(mut signal) = FlagStop::new(rt.alloc()) else {
        return "no memory";
    };
    let deadlines = Deadlines {
        idle: Some(Duration::from_secs(IDLE)),
        message: Some(Duration::from_secs(port.message_timeout)),
    };
    let mut device = Counted::new(device);
    match open_server(rt, listener, door, port.places) {
        Ok(mut server) => run(rt, &mut server, &mut device, deadlines, teller, &mut signal),
        Err(fault) => fault,
    }
}
