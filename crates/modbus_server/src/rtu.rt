//! The RTU side of a server (MODBUS over Serial Line V1.02, section 2.5.1): a connection takes RTU frames, step by step, and a server
//! serves the link of a serial line.
ghost use Rattle.std.specs.Prelude.{◌≡◌, ◌-◌, ◌^◌, length};
ghost use Rattle.modbus_server.specs.declared.error.ProcessError.TheVariants.{TooManyRetries};
ghost use Rattle.modbus_server.specs.Complete.{Completes};
ghost use Rattle.modbus_server.specs.Step.{Ran};
ghost use Rattle.modbus_server.specs.Signal.{RanUntil, to_the_end};
ghost use Rattle.modbus_rtu.specs.Limits.{max_frame};
ghost use Rattle.modbus_server.specs.Rtu.{rtu};
ghost use Rattle.modbus_server.specs.Moment.{moment, watched, signalled};

use crate::error::ProcessError;
use crate::framing::Framing;
use crate::rtu_over_tcp::process_link;
use crate::serving::serve_until;
use bytes::BytesMut;
use modbus_frame::{
    EncodeError, ExceptionResponse, Front, PduError, Request, Response, SlaveId, Terminated,
};
use modbus_link::{Link, Stop};
use modbus_pdu::decode_request;
use modbus_rtu::{Crowd, Inbox, MAX_FRAME, encode_response_frame};
use modbus_service::Answerer;
use std::alloc::{AllocError, Global};
use std::marker::Model;

/// A connection of RTU frames: the bytes that were fed and not used yet, taken step by step as frames.
pub type Connection = crate::connection::Connection<Inbox>;

/// A server of RTU frames over a link that may not be ready.
pub type PolledProcess = crate::polled::PolledProcess<Inbox>;

impl Framing for Inbox {
    type Header = SlaveId;

    type Fault = Crowd;

    ghost framing = { rtu };

    ghost header_of = { λ slave. slave };

    ghost told = { λ crowd. TooManyRetries };

    ghost held = { λ inbox. inbox };

    ghost free = { λ inbox. max_frame - length inbox };

    fn tell(_fault: Crowd) -> ProcessError {
        ProcessError::TooManyRetries
    }

    fn slave(header: SlaveId) -> SlaveId {
        header
    }

    fn reply_room() -> usize {
        MAX_FRAME
    }

    fn longest_read() -> usize {
        MAX_FRAME
    }

    fn seam() -> usize {
        MAX_FRAME
    }

    #[inline(always)]
    fn decode(alloc: Global, pdu: &[u8]) -> Result<Request<'static>, PduError> {
        decode_request(alloc, pdu)
    }

    #[inline(always)]
    fn encode_answer(
        alloc: Global,
        header: SlaveId,
        answer: &Result<Response, ExceptionResponse>,
        reply: &mut BytesMut,
    ) -> Result<(), EncodeError> {
        encode_response_frame(alloc, header, answer, reply)
    }

    fn open(alloc: Global) -> Result<Inbox, AllocError> {
        modbus_rtu::laws::standing();
        Inbox::open(alloc)
    }

    fn is_empty(&self) -> bool {
        self.is_empty()
    }

    #[inline(always)]
    fn front<'a>(&'a self, seam: &'a mut [u8]) -> Result<Front<'a, SlaveId>, Crowd> {
        self.front(seam)
    }

    fn advance(&mut self, count: usize) {
        self.advance(count);
    }

    fn room(&self) -> usize {
        modbus_rtu::laws::standing();
        modbus_rtu::laws::one_reading();
        self.room()
    }

    fn make_room(&mut self, _alloc: Global) -> Result<(), AllocError> {
        Ok(())
    }

    fn append(&mut self, piece: &[u8]) {
        modbus_rtu::laws::standing();
        self.append(piece);
    }

    fn laws() {
        modbus_rtu::laws::quiet_lines();
    }
}

/// A server of a serial line: it answers the frames that come over one link.
#[derive(Drop)]
pub struct Server<L> {
    link: L,
}

/// A contract sees the link.
impl<L> Model for Server<L> {
    ghost Value = { L };

    ghost view = { λ server. server.link };
}

impl<L: Link> Server<L> {
    /// A server over a link. It takes no memory, and reads nothing yet.
    pub fn new(link: L) -> Server<L>
        ensures { result ≡ link }
    {
        Server { link }
    }

    /// The link again.
    pub fn into_link(self) -> L
        ensures { result ≡ self }
    {
        self.link
    }

    /// Serves the link until its input ends. It does what `rtu_over_tcp::process` does, with the link as source and sink, and lets as
    /// many reads give bytes as a `u64` counts.
    ///
    /// # Errors
    /// Those of `rtu_over_tcp::process`, with the same causes.
    pub fn serve_forever<V: Answerer>(
        &mut self,
        alloc: Global,
        service: &mut V,
    ) -> Result<(), ProcessError>
        ensures ran { Ran rtu V.answering (2 ^ 64 - 1)
            (moment service.old (L.input self.old) (L.output self.old))
            (moment service.new (L.input self.new) (L.output self.new)) result }
        ensures complete { Completes rtu V.answering (2 ^ 64 - 1)
            (moment service.old (L.input self.old) (L.output self.old))
            (moment service.new (L.input self.new) (L.output self.new)) result }
    {
        process_link(alloc, &mut self.link, service, u64::MAX)
    }

    /// Serves the link until its input ends, which is `Finished`, or until a signal is set, which is `Aborted`.
    ///
    /// The signal is looked at before each step: before each request that is answered, and before each read. What has begun is done, so
    /// no reply is cut short by a stop, and a read that waits is not woken. At a stop the requests so far were answered, as one run
    /// of the service gives it; bytes that were read and are no whole frame yet are lost.
    ///
    /// # Errors
    /// Those of `serve_forever`, with the same causes, where no look said that the signal is set.
    pub fn serve_until<V: Answerer, X: Stop>(
        &mut self,
        alloc: Global,
        service: &mut V,
        abort_signal: &mut X,
    ) -> Result<Terminated, ProcessError>
        ensures ran { RanUntil rtu V.answering (signalled X.stops X.looks) (2 ^ 64 - 1)
            (watched service.old (L.input self.old) (L.output self.old) abort_signal.old)
            (watched service.new (L.input self.new) (L.output self.new) abort_signal.new) result }
        ensures complete { Completes rtu V.answering (2 ^ 64 - 1)
            (moment service.old (L.input self.old) (L.output self.old))
            (moment service.new (L.input self.new) (L.output self.new)) (to_the_end result) }
    {
        serve_until::<Inbox, L, V, X>(alloc, &mut self.link, service, abort_signal, u64::MAX)
    }
}
