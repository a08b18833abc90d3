//! Listening: serving each link that an acceptor gives by a service of its own.
ghost use Rattle.std.specs.Prelude.{◌≡◌};
ghost use Rattle.modbus_port.specs.declared.listen.Framing.TheVariants.{Rtu, Tcp};
ghost use Rattle.modbus_port.specs.Listen.{OpensFor, parts_with, ServesLinks, Listened};

use crate::services::Services;
use crate::telling::report;
use modbus_link::{Acceptor, FlagStop, Link, Sink, Spawner};
use modbus_rtu::Inbox;
use modbus_server::tcp::AduBuffer;
use modbus_server::{
    ConnectionWorker, ProcessError, ServeError, rtu_over_tcp, serve_acceptor, tcp,
};
use std::alloc::Global;
use std::net::SocketAddr;
use std::sync::Wait;

/// What frames the requests of the connections to a listener.
#[derive(Clone, Copy, Debug, PartialEq, Eq)]
pub enum Framing {
    /// RTU frames.
    Rtu,
    /// ADUs with an MBAP header.
    Tcp,
}

/// Serves each link that the acceptor gives in this framing, and answers why it does not go on.
fn serve_links<I, R, A, S, P, H>(
    rt: &R,
    alloc: Global,
    acceptor: &mut A,
    spawner: &mut P,
    services: &mut S,
    on_process_error: H,
) -> ServeError<S::Refusal>
where
    I: modbus_server::Framing,
    R: Wait,
    A: Acceptor,
    A::Link: Link + Send + Drop,
    S: Services,
    S::Service: Send + Drop,
    H: Fn(ProcessError) + Copy + Send,
    P: Spawner<ConnectionWorker<I, A::Link, S::Service, H, FlagStop>>,
    requires error_hook { H.IsAlwaysCallable on_process_error }
    requires can { P.can_start spawner.old }
    ensures can { P.can_start spawner.new }
    ensures serves { ServesLinks (parts_with S.opens A.accepts P.starts)
        (record {
          given = A.given;
          accept_faults = A.faults;
          started = P.started;
          spawn_faults = P.faults;
        }) on_process_error
        (record { acceptor = acceptor.old; hook = services.old; spawner = spawner.old })
        (record { acceptor = acceptor.new; hook = services.new; spawner = spawner.new })
        result }
{
    let mut hook = |link: A::Link, _address: SocketAddr| -> Result<
        Option<(S::Service, A::Link)>,
        S::Refusal,
    >
        ensures opens { OpensFor S.opens services.entry.now link result services.exit.now }
        ensures same { services.exit.ghost_name ≡ services.entry.ghost_name }
    {
        match services.open() {
            Ok(service) => Ok(Some((service, link))),
            Err(refusal) => Err(refusal),
        }
    };
    let outcome = serve_acceptor::<I, R, A, S::Service, A::Link, S::Refusal, _, H, P>(
        rt,
        alloc,
        acceptor,
        &mut hook,
        on_process_error,
        spawner,
    );
    match outcome {
        Err(error) => error,
        Ok(()) => unreachable!(),
    }
}

/// Serves each link that the acceptor gives, and answers a status once it does not go on. A line of text on `errors` tells the status; where
/// that fails, the line is cut short and the status stays.
///
/// Each link has a service of its own, which was opened as the link came, and a worker of its own: of `rtu_over_tcp` or of `tcp`, by the
/// framing. No link is rejected. The error of a single connection goes to `on_process_error`.
///
/// It ends where memory was refused; where the acceptor or the spawner failed, whose count of faults then rose; or where there is no service
/// for one more connection.
pub fn run_listen<R, A, S, P, H, E>(
    rt: &R,
    alloc: Global,
    framing: Framing,
    acceptor: &mut A,
    spawner: &mut P,
    services: &mut S,
    on_process_error: H,
    errors: &mut E,
) -> u8
where
    R: Wait,
    A: Acceptor,
    A::Link: Link + Send + Drop,
    S: Services,
    S::Service: Send + Drop,
    H: Fn(ProcessError) + Copy + Send,
    P: Spawner<rtu_over_tcp::ConnectionWorker<A::Link, S::Service, H, FlagStop>>
        + Spawner<tcp::ConnectionWorker<A::Link, S::Service, H, FlagStop>>,
    E: Sink,
    requires error_hook { H.IsAlwaysCallable on_process_error }
    requires can_rtu { P.Spawner-1.can_start spawner.old }
    requires can_tcp { P.Spawner-2.can_start spawner.old }
    ensures rtu { framing ≡ Rtu → Listened (parts_with S.opens A.accepts P.Spawner-1.starts)
        (record {
          given = A.given;
          accept_faults = A.faults;
          started = P.Spawner-1.started;
          spawn_faults = P.Spawner-1.faults;
        }) (record { status_of = S.status_of; line_of = S.line_of }) on_process_error
        (record { acceptor = acceptor.old; hook = services.old; spawner = spawner.old })
        (record { acceptor = acceptor.new; hook = services.new; spawner = spawner.new })
        (E.output errors.old, E.output errors.new) result }
    ensures tcp { framing ≡ Tcp → Listened (parts_with S.opens A.accepts P.Spawner-2.starts)
        (record {
          given = A.given;
          accept_faults = A.faults;
          started = P.Spawner-2.started;
          spawn_faults = P.Spawner-2.faults;
        }) (record { status_of = S.status_of; line_of = S.line_of }) on_process_error
        (record { acceptor = acceptor.old; hook = services.old; spawner = spawner.old })
        (record { acceptor = acceptor.new; hook = services.new; spawner = spawner.new })
        (E.output errors.old, E.output errors.new) result }
{
    let error = match framing {
        Framing::Rtu => serve_links::<Inbox, R, A, S, P, H>(
            rt,
            alloc,
            acceptor,
            spawner,
            services,
            on_process_error,
        ),
        Framing::Tcp => serve_links::<AduBuffer, R, A, S, P, H>(
            rt,
            alloc,
            acceptor,
            spawner,
            services,
            on_process_error,
        ),
    };
    let (status, line) = S::ending(error);
    report(errors, line);
    status
}
