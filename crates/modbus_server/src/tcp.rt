//! Serving Modbus TCP (MODBUS Messaging on TCP/IP V1.0b, section 3.1): a connection takes ADUs with an MBAP header step by step, and
//! `process` serves a stream of them until its input ends.
ghost use Rattle.modbus_server.specs.Complete.{Completes};
ghost use Rattle.modbus_server.specs.Step.{Ran};
ghost use Rattle.modbus_server.specs.Tcp.{tcp, told_fault};
ghost use Rattle.modbus_server.specs.Moment.{moment};

use crate::error::ProcessError;
use crate::framing::Framing;
pub use crate::listener::accept_tcp_connection;
use crate::serving::{serve, serve_link};
use bytes::BytesMut;
use modbus_frame::tcp::Header;
use modbus_frame::{EncodeError, ExceptionResponse, Front, PduError, Request, Response, SlaveId};
use modbus_link::{READ_ROOM, Sink, Source};
use modbus_pdu::decode_request;
use modbus_service::Answerer;
use modbus_tcp::{HeaderFault, LONGEST_RESPONSE, encode_response_adu};
use std::alloc::{AllocError, Global};

/// A connection of Modbus TCP: the bytes that were fed and not used yet, taken step by step as ADUs.
pub type Connection = crate::connection::Connection<AduBuffer>;

/// A server of ADUs over a link that may not be ready.
pub type PolledProcess = crate::polled::PolledProcess<AduBuffer>;

/// One connection of Modbus TCP as work that can be handed over.
pub type ConnectionWorker<L, V, H, X> = crate::worker::ConnectionWorker<AduBuffer, L, V, H, X>;

/// A listener of Modbus TCP.
pub type Server<A> = crate::listener::Server<AduBuffer, A>;

/// The bytes that were fed and not used yet: less than an ADU, once all whole ones are taken off.
#[derive(Drop)]
pub struct AduBuffer {
    bytes: BytesMut,
}

impl Framing for AduBuffer {
    type Header = Header;

    type Fault = HeaderFault;

    ghost framing = { tcp };

    ghost header_of = { λ header. header };

    ghost told = { told_fault };

    ghost held = { λ buffer. buffer.bytes.items };

    ghost free = { λ buffer. buffer.bytes.spare };

    fn tell(fault: HeaderFault) -> ProcessError {
        match fault {
            HeaderFault::InvalidLength => ProcessError::InvalidLength,
            HeaderFault::InvalidProtocol(protocol) => ProcessError::InvalidProtocol(protocol),
        }
    }

    fn slave(header: Header) -> SlaveId {
        header.unit_id
    }

    fn reply_room() -> usize {
        LONGEST_RESPONSE
    }

    fn longest_read() -> usize {
        READ_ROOM
    }

    fn seam() -> usize {
        0
    }

    #[inline(always)]
    fn decode(alloc: Global, pdu: &[u8]) -> Result<Request<'static>, PduError> {
        decode_request(alloc, pdu)
    }

    #[inline(always)]
    fn encode_answer(
        alloc: Global,
        header: Header,
        answer: &Result<Response, ExceptionResponse>,
        reply: &mut BytesMut,
    ) -> Result<(), EncodeError> {
        encode_response_adu(alloc, header, answer, reply)
    }

    fn open(alloc: Global) -> Result<AduBuffer, AllocError> {
        Ok(AduBuffer {
            bytes: BytesMut::new(alloc),
        })
    }

    fn is_empty(&self) -> bool {
        self.bytes.is_empty()
    }

    #[inline(always)]
    fn front<'a>(&'a self, _seam: &'a mut [u8]) -> Result<Front<'a, Header>, HeaderFault> {
        modbus_tcp::front(self.bytes.as_slice())
    }

    fn advance(&mut self, count: usize) {
        self.bytes.advance(count);
    }

    fn room(&self) -> usize {
        READ_ROOM
    }

    fn make_room(&mut self, _alloc: Global) -> Result<(), AllocError> {
        self.bytes.reserve(READ_ROOM)
    }

    fn append(&mut self, piece: &[u8]) {
        self.bytes.extend_reserved(piece);
    }

    fn laws() {
        modbus_tcp::laws::one_splitting();
        modbus_tcp::laws::adus_come_first();
        modbus_tcp::laws::adu_stays();
    }
}

/// Serves one object as source and sink until its input ends; its contract is that of `process`.
///
/// # Errors
/// Those of `process`.
pub fn process_link<L: Source + Sink, V: Answerer>(
    alloc: Global,
    link: &mut L,
    service: &mut V,
    turns: u64,
) -> Result<(), ProcessError>
    ensures ran { Ran tcp V.answering turns
        (moment service.old (L.input link.old) (L.output link.old))
        (moment service.new (L.input link.new) (L.output link.new)) result }
    ensures complete { Completes tcp V.answering turns
        (moment service.old (L.input link.old) (L.output link.old))
        (moment service.new (L.input link.new) (L.output link.new)) result }
{
    serve_link::<AduBuffer, L, V>(alloc, link, service, turns)
}

/// Serves a source and a sink until the input ends, with at most `turns` reads that give bytes, each with a room of 268 bytes.
///
/// Over a source and a sink that tell their bytes, Ok comes only where the input ended and is ADUs, one after another, with nothing
/// left. Then one run of the service took these ADUs, in order, and the service stands at its end; its replies, each an ADU with its
/// request's transaction and unit identifier, are all that was appended. The cuts of the reads change nothing of this. Unit 0 is asked
/// like any other: whether it is answered is the service's choice.
///
/// # Errors
/// - `ReadFault`, `WriteFault`: only where the source, the sink counted a fault in this call.
/// - `InvalidLength`: the next header tells a length of 0, and its 7 bytes are there.
/// - `InvalidProtocol`: the next whole ADU is of this protocol, which is not 0.
/// - `BytesRemaining`: the input ended within an ADU.
/// - `InvalidRequest`: the PDU of an ADU is refused for this reason.
/// - `ResponseTooLong`: the service answered a response whose PDU has this many bytes, more than 253.
/// - `TurnLimit`: `turns` reads gave bytes, and all that they allow was answered.
/// - `NoMemory`: memory was refused: as the connection was opened, for a read, for a request that carries a list, or in the service. A
///   reply takes none.
///
/// After any error but `WriteFault`, each reply to an ADU before the failing place was written whole.
pub fn process<S: Source, K: Sink, V: Answerer>(
    alloc: Global,
    source: &mut S,
    sink: &mut K,
    service: &mut V,
    turns: u64,
) -> Result<(), ProcessError>
    ensures ran { Ran tcp V.answering turns
        (moment service.old (S.input source.old) (K.output sink.old))
        (moment service.new (S.input source.new) (K.output sink.new)) result }
    ensures complete { Completes tcp V.answering turns
        (moment service.old (S.input source.old) (K.output sink.old))
        (moment service.new (S.input source.new) (K.output sink.new)) result }
{
    serve::<AduBuffer, S, K, V>(alloc, source, sink, service, turns)
}
