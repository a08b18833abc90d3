//! Listening on a port, with a thread of a scope for each connection, all over one line.
ghost use Rattle.std.specs.Prelude.{◌≡◌, ◌+◌, ◌^◌, IfOk, IfErr};
ghost use Rattle.modbus_gateway.specs.Timely.{timely_at_start};
ghost use Rattle.modbus_serial_gateway.specs.Ends.{line_of, HasEnded, IsRefused, IsRefusedOrEnded};

use crate::PROGRAM;
use crate::ending::{BIND_LINE, NO_MEMORY_LINE, line};
use modbus_about::FAILED;
use modbus_gateway::{Forwarder, LineServices, Opening, ServicesOut, SharedLine};
use modbus_link::Sink;
use modbus_peers::Peers;
use modbus_port::{Ending, Framing, Services, bind, report, serve_peers};
use modbus_server::{ProcessError, ServeError};
use std::alloc::{AllocError, Global};
use std::io::{Error, ErrorKind};
use std::marker::Brand;
use std::net::{Net, SocketAddr, TcpListener, TcpStream};
use std::sync::Wait;
use std::sync::ledger::Blank;
use std::thread::Threads;
use std::time::{Clock, Duration};

/// Into how many parts the ledger of a line is cut: one for each connection that it may have, and one more.
const PARTS: u64 = 1 << 32;

/// Tells where a listener waits for masters that was asked for at this address; that it does alone, where memory is refused.
fn announce<N: Sink>(alloc: Global, notes: &mut N, listener: &TcpListener, address: SocketAddr) {
    let bound = listener.local_addr().unwrap_or(address);
    report(notes, PROGRAM);
    match format!(in alloc; ": listens on {bound}\n") {
        Ok(line) => report(notes, line.as_str()),
        Err(AllocError) => report(notes, ": listens\n"),
    }
}

/// Tells that the system refuses a listener, as it may where it is out of memory, and gives the status.
fn refused<E: Sink>(error: Error, errors: &mut E) -> u8
    ensures { IsRefused (E.output errors.old) (E.output errors.new) result }
{
    if error.kind() == ErrorKind::OutOfMemory {
        report(errors, NO_MEMORY_LINE);
        return FAILED;
    }
    report(errors, BIND_LINE);
    FAILED
}

/// The services of all masters over one line, in a program that tells its own lines.
#[derive(Drop)]
struct Masters<S>(S);

impl<S: modbus_gateway::Services> Services for Masters<S> {
    type Service = S::Service;

    type Refusal = ServicesOut;

    ghost opens = { λ old result new.
        IfOk result (λ service. (S.made service ≡ 0) × (S.left old.0 ≡ S.left new.0 + 1))
        × IfErr result (λ _. (S.left old.0 ≡ 0) × (S.left new.0 ≡ 0)) };

    ghost status_of = { λ _. 1 };

    ghost line_of = { line_of };

    fn open(&mut self) -> Result<S::Service, ServicesOut> {
        self.0.open()
    }

    fn ending(error: ServeError<ServicesOut>) -> (u8, &'static str)
        ensures status { result.0 ≡ 1 }
        ensures line { result.1.now ≡ line_of error }
    {
        (FAILED, line(error))
    }

    fn program() -> &'static str {
        PROGRAM
    }
}

/// What masters share, and whom.
#[derive(Drop)]
pub struct Shared<'p, C> {
    /// The line.
    pub line: C,
    /// For how long a request waits at most for its turn at the line.
    pub limit: Duration,
    /// The masters that are served.
    pub peers: Peers<'p>,
}

/// Serves the links of these peers of a listener over a line that was opened, whose turns are counted in this ledger.
fn serve_line<R, C, J, H, E, N>(
    rt: &R,
    alloc: Global,
    listener: (TcpListener, TcpListener),
    shared: Shared<'_, C>,
    ledger: Blank,
    on_process_error: H,
    errors: E,
    notes: (N, N),
    ending: &Ending,
) -> (E, u8)
where
    R: Threads + Wait + Clock + Sync,
    C: Forwarder + Send + Drop,
    J: Opening<C> + Send + Sync,
    H: Fn(ProcessError) + Copy + Send,
    E: Sink + Drop,
    N: Sink + Drop,
    requires error_hook { H.IsAlwaysCallable on_process_error }
    requires opens { J.opens (timely_at_start shared.line shared.limit) }
    requires name { ledger.name ≡ J.name }
    requires parts { ledger.parts ≡ J.parts }
    requires all { ledger.parts ≡ 2 ^ 32 }
    ensures { HasEnded (E.output errors) (E.output result.0) result.1 }
{
    let (turns, shares) = ledger.open::<J>();
    let Shared { line, limit, peers } = shared;
    let line = SharedLine::new(line, limit, turns);
    let masters = Masters(LineServices::new(rt, &line, shares));
    let (_masters, errors, status) = serve_peers(
        rt,
        alloc,
        Framing::Tcp,
        listener,
        peers,
        masters,
        on_process_error,
        errors,
        notes,
        ending,
    );
    (errors, status)
}

/// Serves all connections of these peers to this address over one line, each in a thread, by ADUs with an MBAP header. The error of a single connection ends
/// that connection alone. It tells on `notes` what keeps peers waiting, and on the first of them where it listens. It ends once `ending` says so.
///
/// It gives `errors` back, with the line that tells why it does not go on, or that the system refuses the listener.
pub fn serve<R, C, E, N>(
    rt: &R,
    alloc: Global,
    address: SocketAddr,
    shared: Shared<'_, C>,
    errors: E,
    notes: (N, N),
    ending: &Ending,
) -> (E, u8)
where
    R: Threads + Wait + Clock + Net<Listener = TcpListener, Stream = TcpStream> + Sync,
    C: Forwarder + Send + Drop,
    E: Sink + Drop,
    N: Sink + Drop,
    ensures { IsRefusedOrEnded (E.output errors) (E.output result.0) result.1 }
{
    match bind(rt, address) {
        Ok(listener) => {
            let mut notes = notes;
            announce(alloc, &mut notes.0, &listener.0, address);
            serve_line::<R, C, Brand, _, E, N>(
                rt,
                alloc,
                listener,
                shared,
                Blank::new(PARTS),
                |_error: ProcessError| {},
                errors,
                notes,
                ending,
            )
        }
        Err(error) => {
            let mut errors = errors;
            let status = refused(error, &mut errors);
            (errors, status)
        }
    }
}
