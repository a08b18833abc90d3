//! Serving RTU frames over any stream of bytes, until its input ends.
ghost use Rattle.modbus_server.specs.Complete.{Completes};
ghost use Rattle.modbus_server.specs.Step.{Ran};
ghost use Rattle.modbus_server.specs.Rtu.{rtu};
ghost use Rattle.modbus_server.specs.Moment.{moment};

use crate::error::ProcessError;
pub use crate::listener::accept_tcp_connection;
use crate::serving::{serve, serve_link};
use modbus_link::{Sink, Source};
use modbus_rtu::Inbox;
use modbus_service::Answerer;
use std::alloc::Global;

/// One connection of RTU frames as work that can be handed over.
pub type ConnectionWorker<L, V, H, X> = crate::worker::ConnectionWorker<Inbox, L, V, H, X>;

/// A listener of RTU frames over TCP.
pub type Server<A> = crate::listener::Server<Inbox, A>;

/// Serves one object as source and sink until its input ends; its contract is that of `process`.
///
/// # Errors
/// Those of `process`.
pub fn process_link<L: Source + Sink, V: Answerer>(
    alloc: Global,
    link: &mut L,
    service: &mut V,
    turns: u64,
) -> Result<(), ProcessError>
    ensures ran { Ran rtu V.answering turns
        (moment service.old (L.input link.old) (L.output link.old))
        (moment service.new (L.input link.new) (L.output link.new)) result }
    ensures complete { Completes rtu V.answering turns
        (moment service.old (L.input link.old) (L.output link.old))
        (moment service.new (L.input link.new) (L.output link.new)) result }
{
    serve_link::<Inbox, L, V>(alloc, link, service, turns)
}

/// Serves a source and a sink until the input ends, with at most `turns` reads that give bytes.
///
/// Over a source and a sink that tell their bytes, Ok comes only where the input ended with no uncovered offset open. Then one
/// run of the service took the leftmost frames of the whole input, in order, and the service stands at its end; its replies, each framed for
/// its request's slave, are all that was appended. The cuts of the reads change nothing of this.
///
/// # Errors
/// - `ReadFault`, `WriteFault`: only where the source, the sink counted a fault in this call.
/// - `TooManyRetries`: twenty consecutive offsets that came with one read have no frame.
/// - `BytesRemaining`: the input ended within a frame.
/// - `InvalidRequest`: the PDU of a frame is refused for this reason.
/// - `ResponseTooLong`: the service answered a response whose PDU has this many bytes, more than 253.
/// - `TurnLimit`: `turns` reads gave bytes, and all that they allow was answered.
/// - `NoMemory`: memory was refused: as the connection was opened, for a request that carries a list, or in the service. A read and a
///   reply take none.
///
/// After any error but `WriteFault`, each reply to a frame before the failing place was written whole.
pub fn process<S: Source, K: Sink, V: Answerer>(
    alloc: Global,
    source: &mut S,
    sink: &mut K,
    service: &mut V,
    turns: u64,
) -> Result<(), ProcessError>
    ensures ran { Ran rtu V.answering turns
        (moment service.old (S.input source.old) (K.output sink.old))
        (moment service.new (S.input source.new) (K.output sink.new)) result }
    ensures complete { Completes rtu V.answering turns
        (moment service.old (S.input source.old) (K.output sink.old))
        (moment service.new (S.input source.new) (K.output sink.new)) result }
{
    serve::<Inbox, S, K, V>(alloc, source, sink, service, turns)
}
