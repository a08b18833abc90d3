//! Serving a line of bursts, until its input ends (MODBUS over Serial Line V1.02, section 2.5.1.1).
//!
//! What is served has to be a `LineAnswerer`, so that no neighbour is answered. The drivers of modbus_server take any answerer; `Bursts` is
//! private, so that none of them runs over it but by the calls of this module.
ghost use Rattle.std.specs.Prelude.{◌≡◌, IsTrue, Ok, IfErr};
ghost use Rattle.modbus_server.specs.Complete.{Completes};
ghost use Rattle.modbus_server.specs.Step.{Ran};
ghost use Rattle.modbus_field.specs.BurstFraming.{bursts};
ghost use Rattle.modbus_field.specs.BurstLine.{AnswersBursts, ServesBursts, IsOfNoBurst, SendsOwn};
ghost use Rattle.modbus_server.specs.Moment.{moment};

use crate::burst::bursts::Bursts;
use crate::burst::line_answerer::LineAnswerer;
use modbus_link::{Sink, Source};
use modbus_server::{ProcessError, serve, serve_link};
use std::alloc::Global;

/// Serves one object as source and sink until its input ends; its contract is that of `process`. A `BurstLink` over a serial line is one.
///
/// # Errors
/// Those of `process`.
pub fn process_link<L: Source + Sink, V: LineAnswerer>(
    alloc: Global,
    link: &mut L,
    service: &mut V,
    turns: u64,
) -> Result<(), ProcessError>
    ensures ran { Ran bursts V.answering turns
        (moment service.old (L.input link.old) (L.output link.old))
        (moment service.new (L.input link.new) (L.output link.new)) result }
    ensures complete { Completes bursts V.answering turns
        (moment service.old (L.input link.old) (L.output link.old))
        (moment service.new (L.input link.new) (L.output link.new)) result }
    ensures answers { result ≡ Ok tt → IsTrue (L.input link.old).told → IsTrue
        (L.output link.old).told
        → AnswersBursts V.answering service.old service.new (L.input link.old) (L.input link.new)
        (L.output link.old) (L.output link.new) }
    ensures serves { ServesBursts V.answering service.old (L.input link.old) (L.input link.new)
        (L.output link.old) (L.output link.new) turns result }
    ensures causes { IfErr result (λ error. IsOfNoBurst error → ⊥) }
    ensures own { SendsOwn V.answering (V.addresses service.old) turns
        (moment service.old (L.input link.old) (L.output link.old))
        (moment service.new (L.input link.new) (L.output link.new)) result }
    ensures addresses { V.addresses service.new ≡ V.addresses service.old }
{
    service.keep_to_own();
    serve_link::<Bursts, L, V>(alloc, link, service, turns)
}

/// Serves a source and a sink, of which each read is a burst, until the input ends, with at most `turns` reads that give bytes, each with a
/// room of 65,536 bytes.
///
/// Over a source and a sink that tell their bytes, Ok comes only where the input ended. Then one run of the service was asked what each burst
/// says, message by message in order, and stands at its end; its answers to the last frame of each burst, framed for the slave of that frame,
/// are all that was appended.
///
/// A burst says all of it, where that is a frame; else the frames that stand one after another from its start, each as long as a request of
/// its function or as a reply, with a right checksum. A frame asks what its PDU does, for the slave of its address; one that is as long as a
/// reply alone asks that of the address 255, which no device has. So an earlier request is done, and not answered: behind it the master spoke
/// on. What is left is noise, as a cut frame with all that stands behind it, and a burst that fills the room: it asks a custom request of
/// function code 0 with no byte, for the address 255. No bytes of two bursts are ever read as one frame.
///
/// So the service hears the whole line, and has to be silent to what is not for it. A `LineAnswerer` is: whatever comes, all that is sent is
/// framed for its own addresses, which it keeps. `OnlyUnit` of modbus_service, `QuietUnits` and the port of modbus_diagnostics are such ones.
/// Below them `StandardAnswers` answers a PDU that can't be read with the exception that the standard wants, and is silent to noise.
///
/// # Errors
/// - `ReadFault`, `WriteFault`: only where the source, the sink counted a fault in this call.
/// - `ResponseTooLong`: the service answered a response whose PDU has this many bytes, more than 253, be it to be written or not.
/// - `TurnLimit`: `turns` reads gave bytes, and all that they allow was answered.
/// - `NoMemory`: memory was refused: as the connection was opened, for a request that carries a list, which each custom request does, or in
///   the service. A read and a reply take none.
///
/// `TooManyRetries`, `BytesRemaining`, `InvalidRequest`, `InvalidLength` and `InvalidProtocol` never come: whatever is on the line, bursts
/// have no fault, nothing is left over, and each message asks something. After any error but `WriteFault`, each answer to a last frame before
/// the failing place was written whole.
pub fn process<S: Source, K: Sink, V: LineAnswerer>(
    alloc: Global,
    source: &mut S,
    sink: &mut K,
    service: &mut V,
    turns: u64,
) -> Result<(), ProcessError>
    ensures ran { Ran bursts V.answering turns
        (moment service.old (S.input source.old) (K.output sink.old))
        (moment service.new (S.input source.new) (K.output sink.new)) result }
    ensures complete { Completes bursts V.answering turns
        (moment service.old (S.input source.old) (K.output sink.old))
        (moment service.new (S.input source.new) (K.output sink.new)) result }
    ensures answers { result ≡ Ok tt → IsTrue (S.input source.old).told → IsTrue
        (K.output sink.old).told
        → AnswersBursts V.answering service.old service.new (S.input source.old) (S.input
        source.new)
        (K.output sink.old) (K.output sink.new) }
    ensures serves { ServesBursts V.answering service.old (S.input source.old) (S.input source.new)
        (K.output sink.old) (K.output sink.new) turns result }
    ensures causes { IfErr result (λ error. IsOfNoBurst error → ⊥) }
    ensures own { SendsOwn V.answering (V.addresses service.old) turns
        (moment service.old (S.input source.old) (K.output sink.old))
        (moment service.new (S.input source.new) (K.output sink.new)) result }
    ensures addresses { V.addresses service.new ≡ V.addresses service.old }
{
    service.keep_to_own();
    serve::<Bursts, S, K, V>(alloc, source, sink, service, turns)
}
