//! The accept loop of a listener, whatever frames the messages of its connections.
ghost use Rattle.std.specs.Prelude.{◌≡◌, ◌≢◌, Err, Option, Result};
ghost use Rattle.modbus_link.specs.Outside.{Rose};
ghost use Rattle.modbus_server.specs.Listener.{AcceptsOne, Accepts, CountsPeers, Serves, unsignalled, unspawned, without_spawner, as_stopped, connection_for};
ghost use Rattle.modbus_server.specs.Signal.{never_set};

use crate::error::{ProcessError, ServeError};
use crate::framing::Framing;
use crate::serving::Never;
use crate::worker::ConnectionWorker;
use modbus_frame::Terminated;
use modbus_link::{Acceptor, FlagStop, Link, ScopeSpawner, Spawner, Stop, Worker};
use modbus_service::Answerer;
use std::alloc::Global;
use std::marker::{Model, PhantomData};
use std::net::SocketAddr;
use std::sync::Wait;
use std::thread::Scope;

/// Accepts one link, and starts a worker for it where the hook takes it.
fn accept_one<I, A, V, L, E, C, H, P>(
    alloc: Global,
    acceptor: &mut A,
    on_connected: &mut C,
    on_process_error: H,
    spawner: &mut P,
    flag: &FlagStop,
) -> Result<(), ServeError<E>>
where
    I: Framing,
    A: Acceptor,
    V: Answerer + Send + Drop,
    L: Link + Send + Drop,
    C: FnMut(A::Link, SocketAddr) -> Result<Option<(V, L)>, E>,
    H: Fn(ProcessError) + Copy + Send,
    P: Spawner<ConnectionWorker<I, L, V, H, FlagStop>>,
    requires hook { C.IsAlwaysCallable on_connected.old }
    requires error_hook { H.IsAlwaysCallable on_process_error }
    requires can { P.can_start spawner.old }
    ensures hook { C.IsAlwaysCallable on_connected.new }
    ensures can { P.can_start spawner.new }
    ensures counted { CountsPeers (record { accepts = A.accepts; connects = C.step; starts = P.starts })
        (record {
          given = A.given;
          accept_faults = A.faults;
          started = P.started;
          spawn_faults = P.faults;
        }) (record {
          acceptor = acceptor.old;
          hook = on_connected.old;
          spawner = spawner.old;
        }) (record {
          acceptor = acceptor.new;
          hook = on_connected.new;
          spawner = spawner.new;
        }) result }
    ensures accepts_one { AcceptsOne (record {
      accepts = A.accepts;
      connects = C.step;
      starts = P.starts;
    }) on_process_error
        (record { acceptor = acceptor.old; hook = on_connected.old; spawner = spawner.old })
        (record { acceptor = acceptor.new; hook = on_connected.new; spawner = spawner.new })
        result }
{
    let Ok((link, address)) = acceptor.accept() else {
        return Err(ServeError::AcceptFault);
    };
    match on_connected(link, address) {
        Err(error) => Err(ServeError::Connect(error)),
        Ok(None) => Ok(()),
        Ok(Some((service, link))) => {
            let Ok(signal) = flag.share() else {
                return Err(ServeError::NoMemory);
            };
            let worker = ConnectionWorker::new(alloc, link, service, on_process_error, signal);
            match spawner.start(worker) {
                Ok(()) => Ok(()),
                Err(_) => Err(ServeError::SpawnFault),
            }
        }
    }
}

/// Accepts one link after another, until the signal is set or an accept does not go well. It looks at the signal before each accept.
fn accept_all<I, R, A, V, L, E, C, H, P, X>(
    rt: &R,
    alloc: Global,
    acceptor: &mut A,
    on_connected: &mut C,
    on_process_error: H,
    spawner: &mut P,
    flag: &FlagStop,
    abort_signal: &mut X,
) -> Result<Terminated, ServeError<E>>
where
    I: Framing,
    R: Wait,
    A: Acceptor,
    V: Answerer + Send + Drop,
    L: Link + Send + Drop,
    C: FnMut(A::Link, SocketAddr) -> Result<Option<(V, L)>, E>,
    H: Fn(ProcessError) + Copy + Send,
    P: Spawner<ConnectionWorker<I, L, V, H, FlagStop>>,
    X: Stop,
    requires hook { C.IsAlwaysCallable on_connected.old }
    requires error_hook { H.IsAlwaysCallable on_process_error }
    requires can { P.can_start spawner.old }
    ensures hook { C.IsAlwaysCallable on_connected.new }
    ensures can { P.can_start spawner.new }
    ensures serves { Serves (record { accepts = A.accepts; connects = C.step; starts = P.starts })
        (record {
          given = A.given;
          accept_faults = A.faults;
          started = P.started;
          spawn_faults = P.faults;
        }) (record { stops = X.stops; looks = X.looks }) on_process_error (
          record { acceptor = acceptor.old; hook = on_connected.old; spawner = spawner.old },
          abort_signal.old,
        ) (
          record {
            acceptor = acceptor.new;
            hook = on_connected.new;
            spawner = spawner.new;
          },
          abort_signal.new,
        ) result }
{
    'accepts: for _ in rt.forever() {
        if abort_signal.is_set() {
            return Ok(Terminated::Aborted);
        }
        let accepted = accept_one(
            alloc,
            acceptor,
            on_connected,
            on_process_error,
            spawner,
            flag,
        );
        match accepted {
            Ok(()) => {}
            Err(error) => return Err(error),
        }
    }
    unreachable!()
}

/// Accepts links until a signal is set or something fails, and then raises the flag that its workers look at.
fn accept_until<I, R, A, V, L, E, C, H, P, X>(
    rt: &R,
    alloc: Global,
    acceptor: &mut A,
    on_connected: &mut C,
    on_process_error: H,
    spawner: &mut P,
    abort_signal: &mut X,
) -> Result<Terminated, ServeError<E>>
where
    I: Framing,
    R: Wait,
    A: Acceptor,
    V: Answerer + Send + Drop,
    L: Link + Send + Drop,
    C: FnMut(A::Link, SocketAddr) -> Result<Option<(V, L)>, E>,
    H: Fn(ProcessError) + Copy + Send,
    P: Spawner<ConnectionWorker<I, L, V, H, FlagStop>>,
    X: Stop,
    requires hook { C.IsAlwaysCallable on_connected.old }
    requires error_hook { H.IsAlwaysCallable on_process_error }
    requires can { P.can_start spawner.old }
    ensures hook { C.IsAlwaysCallable on_connected.new }
    ensures can { P.can_start spawner.new }
    ensures serves { Serves (record { accepts = A.accepts; connects = C.step; starts = P.starts })
        (record {
          given = A.given;
          accept_faults = A.faults;
          started = P.started;
          spawn_faults = P.faults;
        }) (record { stops = X.stops; looks = X.looks }) on_process_error (
          record { acceptor = acceptor.old; hook = on_connected.old; spawner = spawner.old },
          abort_signal.old,
        ) (
          record {
            acceptor = acceptor.new;
            hook = on_connected.new;
            spawner = spawner.new;
          },
          abort_signal.new,
        ) result }
{
    let Ok(flag) = FlagStop::new(alloc) else {
        return Err(ServeError::NoMemory);
    };
    let outcome = accept_all(
        rt,
        alloc,
        acceptor,
        on_connected,
        on_process_error,
        spawner,
        &flag,
        abort_signal,
    );
    flag.raise();
    outcome
}

/// A listener: it accepts links, and has each served by a worker of its own.
#[derive(Drop)]
pub struct Server<I, A> {
    acceptor: A,
    framing: PhantomData<I>,
}

/// A contract sees the acceptor.
impl<I, A> Model for Server<I, A> {
    ghost Value = { A };

    ghost view = { λ server. server.acceptor };
}

impl<I: Framing, A: Acceptor> Server<I, A> {
    /// A listener over an acceptor, which accepts nothing yet.
    pub fn new(acceptor: A) -> Server<I, A>
        ensures { result ≡ acceptor }
    {
        Server {
            acceptor,
            framing: PhantomData,
        }
    }

    /// The acceptor.
    pub fn into_acceptor(self) -> A
        ensures { result ≡ self }
    {
        self.acceptor
    }

    /// Accepts links until something fails, and never answers Ok. It is `serve_until` with a signal that is never set.
    ///
    /// # Errors
    /// Those of `serve_until`, with the same causes.
    pub fn serve<R, V, L, E, C, H, P>(
        &mut self,
        rt: &R,
        alloc: Global,
        on_connected: &mut C,
        on_process_error: H,
        spawner: &mut P,
    ) -> Result<(), ServeError<E>>
    where
        R: Wait,
        V: Answerer + Send + Drop,
        L: Link + Send + Drop,
        C: FnMut(A::Link, SocketAddr) -> Result<Option<(V, L)>, E>,
        H: Fn(ProcessError) + Copy + Send,
        P: Spawner<ConnectionWorker<I, L, V, H, FlagStop>>,
        requires hook { C.IsAlwaysCallable on_connected.old }
        requires error_hook { H.IsAlwaysCallable on_process_error }
        requires can { P.can_start spawner.old }
        ensures hook { C.IsAlwaysCallable on_connected.new }
        ensures can { P.can_start spawner.new }
        ensures ok { result ≢ Ok tt }
        ensures serves { Serves (record {
          accepts = A.accepts;
          connects = C.step;
          starts = P.starts;
        }) (record {
          given = A.given;
          accept_faults = A.faults;
          started = P.started;
          spawn_faults = P.faults;
        }) unsignalled on_process_error
            (record { acceptor = self.old; hook = on_connected.old; spawner = spawner.old }, tt)
            (record { acceptor = self.new; hook = on_connected.new; spawner = spawner.new }, tt)
            (as_stopped result) }
    {
        serve_acceptor(
            rt,
            alloc,
            &mut self.acceptor,
            on_connected,
            on_process_error,
            spawner,
        )
    }

    /// Accepts links until a signal is set, which is `Aborted`, or something fails; it never answers `Finished`.
    ///
    /// It looks at its signal before each accept. Each link that the acceptor gives goes to `on_connected` with its peer's address. A
    /// link that the hook takes, with a service, is handed to the spawner in a worker, which tells its error to `on_process_error`; for
    /// one that the hook rejects (`Ok(None)`) nothing is started, and the loop goes on.
    ///
    /// As the call returns it raises the flag that its workers look at, so that each stops before its next step. A worker that waits
    /// in a read is not woken.
    ///
    /// # Errors
    /// - `AcceptFault`: only where the acceptor counted a fault in this call.
    /// - `Connect`: exactly where `on_connected` answered this error.
    /// - `SpawnFault`: only where the spawner counted a fault in this call; the link was dropped.
    /// - `NoMemory`: memory was refused.
    pub fn serve_until<R, V, L, E, C, H, P, X>(
        &mut self,
        rt: &R,
        alloc: Global,
        on_connected: &mut C,
        on_process_error: H,
        spawner: &mut P,
        abort_signal: &mut X,
    ) -> Result<Terminated, ServeError<E>>
    where
        R: Wait,
        V: Answerer + Send + Drop,
        L: Link + Send + Drop,
        C: FnMut(A::Link, SocketAddr) -> Result<Option<(V, L)>, E>,
        H: Fn(ProcessError) + Copy + Send,
        P: Spawner<ConnectionWorker<I, L, V, H, FlagStop>>,
        X: Stop,
        requires hook { C.IsAlwaysCallable on_connected.old }
        requires error_hook { H.IsAlwaysCallable on_process_error }
        requires can { P.can_start spawner.old }
        ensures hook { C.IsAlwaysCallable on_connected.new }
        ensures can { P.can_start spawner.new }
        ensures serves { Serves (record {
          accepts = A.accepts;
          connects = C.step;
          starts = P.starts;
        }) (record {
          given = A.given;
          accept_faults = A.faults;
          started = P.started;
          spawn_faults = P.faults;
        })
            (record { stops = X.stops; looks = X.looks }) on_process_error (
              record { acceptor = self.old; hook = on_connected.old; spawner = spawner.old },
              abort_signal.old,
            ) (
              record {
                acceptor = self.new;
                hook = on_connected.new;
                spawner = spawner.new;
              },
              abort_signal.new,
            ) result }
    {
        accept_until(
            rt,
            alloc,
            &mut self.acceptor,
            on_connected,
            on_process_error,
            spawner,
            abort_signal,
        )
    }
}

/// Serves as `Server::serve` does, over an acceptor that is lent, so that what its counts became is known when the call returns.
///
/// # Errors
/// Those of `Server::serve`, with the same causes.
pub fn serve_acceptor<I, R, A, V, L, E, C, H, P>(
    rt: &R,
    alloc: Global,
    acceptor: &mut A,
    on_connected: &mut C,
    on_process_error: H,
    spawner: &mut P,
) -> Result<(), ServeError<E>>
where
    I: Framing,
    R: Wait,
    A: Acceptor,
    V: Answerer + Send + Drop,
    L: Link + Send + Drop,
    C: FnMut(A::Link, SocketAddr) -> Result<Option<(V, L)>, E>,
    H: Fn(ProcessError) + Copy + Send,
    P: Spawner<ConnectionWorker<I, L, V, H, FlagStop>>,
    requires hook { C.IsAlwaysCallable on_connected.old }
    requires error_hook { H.IsAlwaysCallable on_process_error }
    requires can { P.can_start spawner.old }
    ensures hook { C.IsAlwaysCallable on_connected.new }
    ensures can { P.can_start spawner.new }
    ensures ok { result ≢ Ok tt }
    ensures serves { Serves (record { accepts = A.accepts; connects = C.step; starts = P.starts })
        (record {
          given = A.given;
          accept_faults = A.faults;
          started = P.started;
          spawn_faults = P.faults;
        }) unsignalled on_process_error
        (record { acceptor = acceptor.old; hook = on_connected.old; spawner = spawner.old }, tt)
        (record { acceptor = acceptor.new; hook = on_connected.new; spawner = spawner.new }, tt)
        (as_stopped result) }
{
    let outcome = accept_until(
        rt,
        alloc,
        acceptor,
        on_connected,
        on_process_error,
        spawner,
        &mut Never,
    );
    match outcome {
        Err(error) => Err(error),
        Ok(_) => unreachable!(),
    }
}

/// Serves as `serve` does, with a thread of `scope` for each worker, which ends with its connection.
///
/// What the threads do is not part of its contract. As it returns it raises the flag that the workers look at; the scope ends once
/// each of them has, so a worker whose peer stays connected and sends nothing holds the scope.
///
/// # Errors
/// Those of `serve`; `SpawnFault` where the system refuses a thread.
pub fn serve_in_scope<'s, Env, I, R, A, V, L, E, C, H>(
    rt: &R,
    alloc: Global,
    server: &mut Server<I, A>,
    on_connected: &mut C,
    on_process_error: H,
    scope: &Scope<'s, Env>,
) -> Result<(), ServeError<E>>
where
    I: Framing + Send + 's,
    I::Header: Send + 's,
    I::Fault: Send + 's,
    R: Wait,
    A: Acceptor,
    V: Answerer + Send + Drop + 's,
    L: Link + Send + Drop + 's,
    C: FnMut(A::Link, SocketAddr) -> Result<Option<(V, L)>, E>,
    H: Fn(ProcessError) + Copy + Send + 's,
    requires hook { C.IsAlwaysCallable on_connected.old }
    requires error_hook { H.IsAlwaysCallable on_process_error }
    ensures hook { C.IsAlwaysCallable on_connected.new }
    ensures ok { result ≢ Ok tt }
    ensures accept_fault { result ≡ Err ServeError.AcceptFault
        → Rose (A.faults server.old) (A.faults server.new) }
    ensures accepts { Accepts (unspawned A.accepts C.step) never_set on_process_error
        (without_spawner server.old on_connected.old) tt
        (without_spawner server.new on_connected.new) tt (as_stopped result) }
{
    let mut spawner = ScopeSpawner::new(
        |worker: ConnectionWorker<I, L, V, H, FlagStop>| -> bool
            requires { H.IsAlwaysCallable worker.on_process_error }
        { scope.spawn(move || worker.run()).is_ok() },
    );
    server.serve(rt, alloc, on_connected, on_process_error, &mut spawner)
}

/// Asks `new_service` once for the service of a connection from this address, and answers it with the link; `None` where the maker
/// answers none, and the link is dropped. A hook of a listener can be a closure that calls it.
///
/// # Errors
/// The maker's error.
pub fn accept_tcp_connection<V, L, E, N>(
    link: L,
    socket_addr: SocketAddr,
    new_service: &mut N,
) -> Result<Option<(V, L)>, E>
where
    L: Drop,
    N: FnMut(SocketAddr) -> Result<Option<V>, E>,
    requires { N.IsAlwaysCallable new_service.old }
    ensures again { N.IsAlwaysCallable new_service.new }
    ensures made { (made : Result (Option V) E)
        × N.step new_service.old socket_addr made new_service.new × (result ≡ connection_for link made) }
{
    match new_service(socket_addr) {
        Err(error) => Err(error),
        Ok(None) => Ok(None),
        Ok(Some(service)) => Ok(Some((service, link))),
    }
}
