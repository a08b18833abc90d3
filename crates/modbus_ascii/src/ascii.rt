//! Serving frames in the ASCII transmission mode over any stream of characters, until its input ends (MODBUS over Serial Line V1.02,
//! section 2.5.2).
ghost use Rattle.std.specs.Prelude.{IfErr};
ghost use Rattle.modbus_ascii.specs.Framing.{ascii};
ghost use Rattle.modbus_server.specs.Complete.{Completes};
ghost use Rattle.modbus_server.specs.Framing.{IsOfFraming};
ghost use Rattle.modbus_server.specs.Step.{Ran};
ghost use Rattle.modbus_server.specs.Moment.{moment};

use crate::buffer::AsciiBuffer;
use modbus_link::{Sink, Source};
pub use modbus_server::accept_tcp_connection;
use modbus_server::{ProcessError, serve, serve_link};
use modbus_service::Answerer;
use std::alloc::Global;

/// A connection of ASCII frames: the bytes that were fed and not used yet, taken step by step as frames.
pub type Connection = modbus_server::Connection<AsciiBuffer>;

/// A server of ASCII frames over a link that may not be ready.
pub type PolledProcess = modbus_server::PolledProcess<AsciiBuffer>;

/// One connection of ASCII frames as work that can be handed over.
pub type ConnectionWorker<L, V, H, X> = modbus_server::ConnectionWorker<AsciiBuffer, L, V, H, X>;

/// A listener of ASCII frames over TCP.
pub type Server<A> = modbus_server::Server<AsciiBuffer, A>;

/// Serves one object as source and sink until its input ends; its contract is that of `process`.
///
/// # Errors
/// Those of `process`.
pub fn process_link<L: Source + Sink, V: Answerer>(
    alloc: Global,
    link: &mut L,
    service: &mut V,
    turns: u64,
) -> Result<(), ProcessError>
    ensures ran { Ran ascii V.answering turns
        (moment service.old (L.input link.old) (L.output link.old))
        (moment service.new (L.input link.new) (L.output link.new)) result }
    ensures complete { Completes ascii V.answering turns
        (moment service.old (L.input link.old) (L.output link.old))
        (moment service.new (L.input link.new) (L.output link.new)) result }
    ensures causes { IfErr result (λ error. IsOfFraming error → ⊥) }
{
    serve_link::<AsciiBuffer, L, V>(alloc, link, service, turns)
}

/// Serves a source and a sink until the input ends, with at most `turns` reads that give bytes, each with a room of 513 bytes.
///
/// Over a source and a sink that tell their bytes, Ok comes only where the input ended with no `:` open. Then one run of the service
/// took the frames that the `:` of the whole input deliver, in order, and the service stands at its end; its replies, each an ASCII frame for
/// its request's slave, are all that was appended. The cuts of the reads change nothing of this. All other bytes are skipped.
///
/// # Errors
/// - `ReadFault`, `WriteFault`: only where the source, the sink counted a fault in this call.
/// - `BytesRemaining`: the input ended with a `:` open.
/// - `InvalidRequest`: the PDU of a frame is refused for this reason.
/// - `ResponseTooLong`: the service answered a response whose PDU has this many bytes, more than 253.
/// - `TurnLimit`: `turns` reads gave bytes, and all that they allow was answered.
/// - `NoMemory`: memory was refused: as the connection was opened, for a request that carries a list, or in the service. A read and a
///   reply take none.
///
/// `TooManyRetries`, `InvalidLength` and `InvalidProtocol` never come: bytes have no fault. After any error but `WriteFault`, each
/// reply to a frame before the failing place was written whole.
pub fn process<S: Source, K: Sink, V: Answerer>(
    alloc: Global,
    source: &mut S,
    sink: &mut K,
    service: &mut V,
    turns: u64,
) -> Result<(), ProcessError>
    ensures ran { Ran ascii V.answering turns
        (moment service.old (S.input source.old) (K.output sink.old))
        (moment service.new (S.input source.new) (K.output sink.new)) result }
    ensures complete { Completes ascii V.answering turns
        (moment service.old (S.input source.old) (K.output sink.old))
        (moment service.new (S.input source.new) (K.output sink.new)) result }
    ensures causes { IfErr result (λ error. IsOfFraming error → ⊥) }
{
    serve::<AsciiBuffer, S, K, V>(alloc, source, sink, service, turns)
}
