//! Listening on a port, with a thread of a scope for each connection.
ghost use Rattle.std.specs.Prelude.{◌≡◌};
ghost use Rattle.modbus_server.specs.declared.error.ProcessError.TheVariants.{NoMemory};
ghost use Rattle.modbus_app.specs.Port.{RefusesPort, ServesPort, ListensAt, ForwardsToPort};
ghost use Rattle.modbus_app.specs.Status.{line_of};
ghost use Rattle.modbus_port.specs.Reports.{Reports};
ghost use Rattle.modbus_link.specs.Outside.{outside};

use crate::device::open_shared;
use crate::gateway::forward_to;
use crate::services::StoreServices;
use crate::status::{BIND_FAULT, BIND_LINE, NO_MEMORY, report_fault};
use modbus_link::{Sink, Source, TcpConnector};
use modbus_port::{Framing, bind, loopback, report, serve_listener};
use modbus_server::ProcessError;
use std::alloc::Global;
use std::io::{Error, ErrorKind};
use std::net::{Net, TcpListener, TcpStream};
use std::sync::Wait;
use std::thread::Threads;
use std::time::Clock;

/// Reports that memory was refused.
fn no_memory<E: Sink>(errors: &mut E) -> u8
    ensures status { result ≡ 11 }
    ensures tells { Reports (E.output errors.old) (E.output errors.new) (line_of NoMemory) }
{
    report_fault(errors, ProcessError::NoMemory);
    NO_MEMORY
}

/// Reports that the system refuses a listener, as it may when out of memory, and answers the status: 15, or 11 where it is out of memory.
pub fn refused<E: Sink>(error: Error, errors: &mut E) -> u8
    ensures { RefusesPort (E.output errors.old) (E.output errors.new) result }
{
    if error.kind() == ErrorKind::OutOfMemory {
        return no_memory(errors);
    }
    report(errors, BIND_LINE);
    BIND_FAULT
}

/// Serves all links of this listener, in this framing, over a device of it.
fn serve_bound<R, H, E, N>(
    rt: &R,
    alloc: Global,
    framing: Framing,
    listener: (TcpListener, TcpListener),
    on_process_error: H,
    errors: E,
    notes: (N, N),
) -> (E, u8)
where
    R: Threads + Wait + Clock + Sync,
    H: Fn(ProcessError) + Copy + Send,
    E: Sink + Drop,
    N: Sink + Drop,
    requires error_hook { H.IsAlwaysCallable on_process_error }
    ensures { ServesPort framing on_process_error (E.output errors) (E.output result.0) result.1 }
{
    let mut errors = errors;
    let Ok((table, pass)) = open_shared(alloc, framing) else {
        let status = no_memory(&mut errors);
        return (errors, status);
    };
    let services = StoreServices::new(rt, &table, pass);
    let (_services, errors, status) = serve_listener(
        rt,
        alloc,
        framing,
        listener,
        services,
        on_process_error,
        errors,
        notes,
    );
    (errors, status)
}

/// Serves all connections to a port of this machine (127.0.0.1), each in a thread, over one device of four tables of 1024 entries that
/// hold 0 at first; over RTU a broadcast has no answer. The error of a single connection ends that connection alone, and is handed to
/// `on_process_error`.
///
/// A peer that there is no file descriptor or no thread for is turned away, and the first of several in a row is told on `notes`, the
/// descriptors on the first of them. After a fault of accepting it waits for 100 milliseconds and tries again, 300 times in a row. A
/// connection that moves no byte for ten minutes is let go. Once the call does not go on, each of its connections ends within a second.
///
/// It gives `errors` back, with the line of the status: 11, 12 or 14 as `run_listen`, or 15 where the system refuses the listener.
pub fn serve<R, H, E, N>(
    rt: &R,
    alloc: Global,
    framing: Framing,
    port: u16,
    on_process_error: H,
    errors: E,
    notes: (N, N),
) -> (E, u8)
where
    R: Threads + Wait + Clock + Net<Listener = TcpListener, Stream = TcpStream> + Sync,
    H: Fn(ProcessError) + Copy + Send,
    E: Sink + Drop,
    N: Sink + Drop,
    requires error_hook { H.IsAlwaysCallable on_process_error }
    ensures { ListensAt framing on_process_error (E.output errors) (E.output result.0) result.1 }
{
    match bind(rt, loopback(port)) {
        Ok(listener) => serve_bound(
            rt,
            alloc,
            framing,
            listener,
            on_process_error,
            errors,
            notes,
        ),
        Err(error) => {
            let mut errors = errors;
            let status = refused(error, &mut errors);
            (errors, status)
        }
    }
}

/// Forwards the requests of one Modbus TCP connection, from `source` to `sink`, to the line of RTU frames at this port of this machine
/// (127.0.0.1), and answers the status of how that ended: one of `run_gateway`, or 16 where there is no connection to the line.
pub fn forward<R, S, K, E>(
    rt: &R,
    alloc: Global,
    port: u16,
    source: &mut S,
    sink: &mut K,
    errors: &mut E,
) -> u8
where
    R: Net<Stream = TcpStream>,
    S: Source,
    K: Sink,
    E: Sink,
    ensures { ForwardsToPort port (outside (S.input source.old) (K.output sink.old))
        (outside (S.input source.new) (K.output sink.new))
        (E.output errors.old, E.output errors.new) result }
{
    let mut connector = TcpConnector::new(rt);
    forward_to(alloc, &mut connector, loopback(port), source, sink, errors)
}
