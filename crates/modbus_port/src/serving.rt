//! Serving the links of a port, with a thread of a scope for each connection.
ghost use Rattle.std.specs.Prelude.{◌≡◌};
ghost use Rattle.modbus_port.specs.Listen.{ListenedOver};
ghost use Rattle.modbus_port.specs.Port.{accepting, Port, port_accepting, port_at_start, port_for};

use crate::ending::Ending;
use crate::listen::{Framing, run_listen};
use crate::port::accept_port;
use crate::services::Services;
use crate::turning::TurningSpawner;
use modbus_link::{Acceptor, Failed, FlagStop, Link, ScopeSpawner, Sink, Spawner, Stop, Worker};
use modbus_peers::Peers;
use modbus_server::{Answerer, ConnectionWorker, ProcessError, rtu_over_tcp, tcp};
use std::alloc::Global;
use std::net::TcpListener;
use std::sync::Wait;
use std::sync::atomic::{AtomicBool, Ordering};
use std::thread;
use std::thread::{Scope, Threads};
use std::time::Clock;

/// A spawner for the workers of each framing.
#[derive(Drop)]
struct Spawners<S, T> {
    rtu: S,
    tcp: T,
}

impl<L, V, H, X, S, T> Spawner<rtu_over_tcp::ConnectionWorker<L, V, H, X>> for Spawners<S, T>
where
    L: Link + Drop,
    V: Answerer + Drop,
    H: Fn(ProcessError) + Copy,
    X: Stop + Drop,
    S: Spawner<rtu_over_tcp::ConnectionWorker<L, V, H, X>>,
{
    ghost faults = { λ spawners. S.faults spawners.rtu };

    ghost started = { λ spawners. S.started spawners.rtu };

    ghost can_start = { λ spawners. S.can_start spawners.rtu };

    ghost starts = { λ old worker result new. S.starts old.rtu worker result new.rtu × (new.tcp ≡ old.tcp) };

    fn start(&mut self, worker: rtu_over_tcp::ConnectionWorker<L, V, H, X>) -> Result<(), Failed> {
        self.rtu.start(worker)
    }
}

impl<L, V, H, X, S, T> Spawner<tcp::ConnectionWorker<L, V, H, X>> for Spawners<S, T>
where
    L: Link + Drop,
    V: Answerer + Drop,
    H: Fn(ProcessError) + Copy,
    X: Stop + Drop,
    T: Spawner<tcp::ConnectionWorker<L, V, H, X>>,
{
    ghost faults = { λ spawners. T.faults spawners.tcp };

    ghost started = { λ spawners. T.started spawners.tcp };

    ghost can_start = { λ spawners. T.can_start spawners.tcp };

    ghost starts = { λ old worker result new. T.starts old.tcp worker result new.tcp × (new.rtu ≡ old.rtu) };

    fn start(&mut self, worker: tcp::ConnectionWorker<L, V, H, X>) -> Result<(), Failed> {
        self.tcp.start(worker)
    }
}

/// Starts a worker in a thread of the scope, which ends with it; `false` where the system refuses the thread, and the worker is dropped.
fn start<'s, Env, I, L, V, H>(
    scope: &Scope<'s, Env>,
    worker: ConnectionWorker<I, L, V, H, FlagStop>,
) -> bool
where
    I: modbus_server::Framing + Send + 's,
    I::Header: Send + 's,
    I::Fault: Send + 's,
    L: Link + Send + Drop + 's,
    V: Answerer + Send + Drop + 's,
    H: Fn(ProcessError) + Copy + Send + 's,
    requires { H.IsAlwaysCallable worker.on_process_error }
{
    scope.spawn(move || worker.run()).is_ok()
}

/// Serves as `run_listen` does, with a thread of `scope` for each connection, which ends with it. A peer that no thread can be had for is
/// turned away.
fn listen_in_scope<'s, Env, R, A, S, H, E, N>(
    rt: &R,
    alloc: Global,
    framing: Framing,
    acceptor: &mut A,
    services: &mut S,
    on_process_error: H,
    errors: &mut E,
    notes: N,
    scope: &Scope<'s, Env>,
) -> u8
where
    R: Wait,
    A: Acceptor,
    A::Link: Link + Send + Drop + 's,
    S: Services,
    S::Service: Send + Drop + 's,
    H: Fn(ProcessError) + Copy + Send + 's,
    E: Sink,
    N: Sink + Drop,
    requires error_hook { H.IsAlwaysCallable on_process_error }
    ensures { ListenedOver S.opens (accepting A.accepts A.faults)
        (record { status_of = S.status_of; line_of = S.line_of }) on_process_error
        (acceptor.old, services.old) (acceptor.new, services.new)
        (E.output errors.old, E.output errors.new) result }
{
    let spawners = Spawners {
        rtu: ScopeSpawner::new(
            |worker: rtu_over_tcp::ConnectionWorker<A::Link, S::Service, H, FlagStop>| -> bool
                requires { H.IsAlwaysCallable worker.on_process_error }
            { start(scope, worker) },
        ),
        tcp: ScopeSpawner::new(
            |worker: tcp::ConnectionWorker<A::Link, S::Service, H, FlagStop>| -> bool
                requires { H.IsAlwaysCallable worker.on_process_error }
            { start(scope, worker) },
        ),
    };
    let mut spawner = TurningSpawner::new(spawners, notes, S::program());
    run_listen(
        rt,
        alloc,
        framing,
        acceptor,
        &mut spawner,
        services,
        on_process_error,
        errors,
    )
}

/// What a listener serves with: what gives its links, what gives their services, and where it tells why it ends.
#[derive(Drop)]
struct Listening<A, S, E> {
    acceptor: A,
    services: S,
    errors: E,
}

/// Serves as `listen_in_scope` does, in a scope of its own, and gives back what it served with. `ended` is
/// set once it does not go on; then it waits for its threads.
fn serve_in_threads<R, A, S, H, E, N>(
    rt: &R,
    alloc: Global,
    framing: Framing,
    listening: Listening<A, S, E>,
    on_process_error: H,
    notes: N,
    ended: &AtomicBool,
) -> (Listening<A, S, E>, u8)
where
    R: Threads + Wait,
    A: Acceptor + Drop,
    A::Link: Link + Send + Drop,
    S: Services + Drop,
    S::Service: Send + Drop,
    H: Fn(ProcessError) + Copy + Send,
    E: Sink + Drop,
    N: Sink + Drop,
    requires error_hook { H.IsAlwaysCallable on_process_error }
    ensures { ListenedOver S.opens (accepting A.accepts A.faults)
        (record { status_of = S.status_of; line_of = S.line_of }) on_process_error
        (listening.acceptor, listening.services) (result.0.acceptor, result.0.services)
        (E.output listening.errors, E.output result.0.errors) result.1 }
{
    thread::scope(
        thread::scope_env(),
        rt,
        |scope| -> (Listening<A, S, E>, u8)
            requires { H.IsAlwaysCallable on_process_error }
            ensures { ListenedOver S.opens (accepting A.accepts A.faults)
                (record { status_of = S.status_of; line_of = S.line_of }) on_process_error
                (listening.acceptor, listening.services) (result.0.acceptor, result.0.services)
                (E.output listening.errors, E.output result.0.errors) result.1 }
        {
            let Listening {
                acceptor,
                services,
                errors,
            } = listening;
            let mut acceptor = acceptor;
            let mut services = services;
            let mut errors = errors;
            let status = listen_in_scope(
                rt,
                alloc,
                framing,
                &mut acceptor,
                &mut services,
                on_process_error,
                &mut errors,
                notes,
                scope,
            );
            ended.store(true, Ordering::Release);
            (
                Listening {
                    acceptor,
                    services,
                    errors,
                },
                status,
            )
        },
    )
}

/// Serves those peers of this listener that are served, in this framing, as `bind` gives it, by these services, with a thread for each
/// connection; gives `services` and `errors` back, and the status, which is told.
///
/// Any other peer is turned away, and the first is told on the first of `notes`. So is a peer that there is no file descriptor or no thread for,
/// and the first of several in a row is told, the descriptors on the first of them; each line begins with the name of the program. After a fault
/// of accepting it waits for 100 milliseconds and tries again, 300 times in a row. A connection that moves no byte for ten minutes is let go. Once
/// it does not go on, each of its connections ends within a second. It does not go on either once another thread ends it by `ending`: then it
/// accepts no more peers, and tells an accept fault.
pub fn serve_peers<R, S, H, E, N>(
    rt: &R,
    alloc: Global,
    framing: Framing,
    listener: (TcpListener, TcpListener),
    peers: Peers<'_>,
    services: S,
    on_process_error: H,
    errors: E,
    notes: (N, N),
    ending: &Ending,
) -> (S, E, u8)
where
    R: Threads + Wait + Clock + Sync,
    S: Services + Drop,
    S::Service: Send + Drop,
    H: Fn(ProcessError) + Copy + Send,
    E: Sink + Drop,
    N: Sink + Drop,
    requires error_hook { H.IsAlwaysCallable on_process_error }
    ensures { (after : Port) × ListenedOver S.opens port_accepting
        (record { status_of = S.status_of; line_of = S.line_of }) on_process_error
        (port_for peers.entry, services) (after, result.0) (E.output errors, E.output result.1)
        result.2 }
{
    let ended = ending.flag();
    ending.attach(&listener.0);
    let listening = Listening {
        acceptor: accept_port(rt, listener, peers, notes.0, S::program(), ended),
        services,
        errors,
    };
    let (listening, status) = serve_in_threads(
        rt,
        alloc,
        framing,
        listening,
        on_process_error,
        notes.1,
        ended,
    );
    ending.detach();
    (listening.services, listening.errors, status)
}

/// Serves each peer of this listener, as `serve_peers` does.
pub fn serve_listener<R, S, H, E, N>(
    rt: &R,
    alloc: Global,
    framing: Framing,
    listener: (TcpListener, TcpListener),
    services: S,
    on_process_error: H,
    errors: E,
    notes: (N, N),
) -> (S, E, u8)
where
    R: Threads + Wait + Clock + Sync,
    S: Services + Drop,
    S::Service: Send + Drop,
    H: Fn(ProcessError) + Copy + Send,
    E: Sink + Drop,
    N: Sink + Drop,
    requires error_hook { H.IsAlwaysCallable on_process_error }
    ensures { (after : Port) × ListenedOver S.opens port_accepting
        (record { status_of = S.status_of; line_of = S.line_of }) on_process_error
        (port_at_start, services) (after, result.0) (E.output errors, E.output result.1) result.2 }
{
    serve_peers(
        rt,
        alloc,
        framing,
        listener,
        Peers::all(),
        services,
        on_process_error,
        errors,
        notes,
        &Ending::new(),
    )
}
