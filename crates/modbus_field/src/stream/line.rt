//! Serving a stream of Modbus TCP, until its input ends (MODBUS Messaging on TCP/IP V1.0b, section 3.1.3).
ghost use Rattle.std.specs.Prelude.{IfErr};
ghost use Rattle.modbus_server.specs.Complete.{Completes};
ghost use Rattle.modbus_server.specs.Step.{Ran};
ghost use Rattle.modbus_field.specs.StreamFraming.{stream};
ghost use Rattle.modbus_field.specs.StreamLine.{IsOfNoStream};
ghost use Rattle.modbus_server.specs.Moment.{moment};

use crate::stream::buffer::StreamBuffer;
use modbus_link::{Sink, Source};
use modbus_server::{ProcessError, serve, serve_link};
use modbus_service::Answerer;
use std::alloc::Global;

/// A connection of a stream: the bytes that were fed and not used yet, taken step by step as pieces.
pub type Connection = modbus_server::Connection<StreamBuffer>;

/// A server of a stream over a link that may not be ready.
pub type PolledProcess = modbus_server::PolledProcess<StreamBuffer>;

/// One connection of a stream as work that can be handed over.
pub type ConnectionWorker<L, V, H, X> = modbus_server::ConnectionWorker<StreamBuffer, L, V, H, X>;

/// A listener of such connections.
pub type Server<A> = modbus_server::Server<StreamBuffer, A>;

/// Serves one object as source and sink until its input ends; its contract is that of `process`.
///
/// # Errors
/// Those of `process`.
pub fn process_link<L: Source + Sink, V: Answerer>(
    alloc: Global,
    link: &mut L,
    service: &mut V,
    turns: u64,
) -> Result<(), ProcessError>
    ensures ran { Ran stream V.answering turns
        (moment service.old (L.input link.old) (L.output link.old))
        (moment service.new (L.input link.new) (L.output link.new)) result }
    ensures complete { Completes stream V.answering turns
        (moment service.old (L.input link.old) (L.output link.old))
        (moment service.new (L.input link.new) (L.output link.new)) result }
    ensures causes { IfErr result (λ error. IsOfNoStream error → ⊥) }
{
    serve_link::<StreamBuffer, L, V>(alloc, link, service, turns)
}

/// Serves a source and a sink until the input ends, with at most `turns` reads that give bytes, each with a room of 260 bytes.
///
/// Over a source and a sink that tell their bytes, Ok comes only where the input ended with no piece cut short. Then one run of the service
/// took the pieces of the whole input in order, and stands at its end; its replies, each with its request's transaction and unit
/// identifier, are all that was appended. A PDU that can't be read is asked as a custom request of its function code; one of no byte as one
/// of no function, so that `StandardAnswers` is silent to it, as it is to a function code from 80 (hexadecimal) on, unless `ReservedCodes`
/// stands before it.
///
/// # Errors
/// - `ReadFault`, `WriteFault`: only where the source, the sink counted a fault in this call.
/// - `InvalidProtocol`, `InvalidLength`: behind these pieces stands a header of this protocol, which isn't Modbus, or one that tells no
///   byte or more than 254, those of a unit identifier and the longest PDU. It is told by the header's fourth byte, its sixth.
/// - `BytesRemaining`: the input ended within a piece.
/// - `ResponseTooLong`: the service answered a response whose PDU has this many bytes, more than 253.
/// - `TurnLimit`: `turns` reads gave bytes, and all that they allow was answered.
/// - `NoMemory`: memory was refused: as the connection was opened, for a request that carries a list or that has no layout of its own,
///   or in the service. A read and a reply take none.
///
/// `TooManyRetries` and `InvalidRequest` never come, whatever a client sends. After any error but `WriteFault`, each reply to a request
/// before the failing place was written whole.
pub fn process<S: Source, K: Sink, V: Answerer>(
    alloc: Global,
    source: &mut S,
    sink: &mut K,
    service: &mut V,
    turns: u64,
) -> Result<(), ProcessError>
    ensures ran { Ran stream V.answering turns
        (moment service.old (S.input source.old) (K.output sink.old))
        (moment service.new (S.input source.new) (K.output sink.new)) result }
    ensures complete { Completes stream V.answering turns
        (moment service.old (S.input source.old) (K.output sink.old))
        (moment service.new (S.input source.new) (K.output sink.new)) result }
    ensures causes { IfErr result (λ error. IsOfNoStream error → ⊥) }
{
    serve::<StreamBuffer, S, K, V>(alloc, source, sink, service, turns)
}
