//! One call of a client, whatever frames its messages. It does no IO: it has bytes to be written, is fed those that come, and has
//! an answer then.
ghost use Rattle.std.specs.Prelude.{◌≡◌, ◌↔◌, ◌<◌, ◌≤◌, [], length, drop, IsTrue, OnOk};
ghost use Rattle.modbus_link.specs.Outside.{outside};
ghost use Rattle.modbus_link.specs.Polled.{Flushes};
ghost use Rattle.modbus_frame.specs.Meaning.{meaning};
ghost use Rattle.modbus_client.specs.Limits.{read_room};
ghost use Rattle.modbus_client.specs.Call.{holding, opened_with, OpensCall, CallFed, TellsEnd};
ghost use Rattle.modbus_client.specs.Silenced.{CallSilenced};

use crate::matching::judge;
use crate::protocol::{LineProtocol, LookError, Protocol};
use bytes::BytesMut;
use modbus_frame::{
    EncodeError, Error, FunctionCode, HeaderSeen, Request, Response, Result, TransportError,
};
use modbus_link::{Failed, Polled, PolledLink, READ_ROOM, flush};
use std::alloc::{AllocError, Global};
use std::marker::Model;

/// The length in bytes of the room of each read.
pub const ROOM: usize = READ_ROOM;

/// A request that was asked, and the bytes of it that were not written yet.
///
/// It reads once its request is written, and counts the reads that gave bytes. The bytes that were fed and not used stand in a buffer of
/// the caller's, which keeps its memory from call to call: the same one from `open` on, changed by these methods alone.
#[derive(Drop)]
pub struct Call<P: Protocol> {
    protocol: P,
    asked: HeaderSeen,
    function: FunctionCode,
    request: BytesMut,
    written: usize,
    reads: u64,
    turns: u64,
}

impl<P: Protocol> Model for Call<P> {
    ghost use Rattle.std.specs.Prelude.{◌≤◌, length, drop};
    ghost use Rattle.modbus_client.specs.Call.{CallAlone};

    ghost Value = { CallAlone };

    ghost view = { λ c. record {
      asked = c.asked;
      function = c.function;
      request = c.request.items;
      unwritten = drop c.written c.request.items;
      reads = c.reads;
      turns = c.turns;
      dropped = P.dropped_by c.protocol;
    } };

    ghost invariant = { λ c. c.written ≤ length c.request.items };
}

impl<P: Protocol> Call<P> {
    /// A call of this request under this header, which may make `turns` reads that give bytes. The bytes of `held` are dropped, whatever
    /// it answers.
    ///
    /// # Errors
    /// `TooLong` with the size of the PDU in bytes, exactly where that is above 253. `NoMemory` where memory is refused.
    pub fn open(
        alloc: Global,
        header: P::Header,
        request: &Request<'_>,
        turns: u64,
        held: &mut BytesMut,
    ) -> std::result::Result<Call<P>, EncodeError>
        ensures opens { OpensCall P.protocol header (meaning request.now) turns
            (opened_with held.new result) }
        ensures empty { held.new.items ≡ [] }
    {
        P::laws();
        held.clear();
        let mut bytes = BytesMut::new(alloc);
        P::encode(alloc, header, request, &mut bytes)?;
        Ok(Call {
            protocol: P::new(),
            asked: P::seen(header),
            function: request.function_code(),
            request: bytes,
            written: 0,
            reads: 0,
            turns,
        })
    }

    /// The bytes of the request that were not written yet.
    pub fn to_write(&self) -> &[u8]
        ensures { result.now ≡ self.now.unwritten }
    {
        &self.request.as_slice()[self.written..]
    }

    /// So many of them were written.
    pub fn wrote(&mut self, count: usize)
        requires { count ≤ length self.old.unwritten }
        ensures { self.new ≡ record self.old { unwritten = drop count self.old.unwritten } }
    {
        let _len = self.request.len();
        self.written += count;
    }

    /// Writes what was not written yet, as far as the link is ready.
    ///
    /// # Errors
    /// `Failed`, only where the link's count of write faults rose; then some bytes are not written yet.
    pub(crate) fn flush<L: PolledLink>(
        &mut self,
        link: &mut L,
    ) -> std::result::Result<Polled<()>, Failed>
        ensures keeps { self.new ≡ record self.old { unwritten = self.new.unwritten } }
        ensures flushes { Flushes (outside (L.input link.old) (L.output link.old))
            (outside (L.input link.new) (L.output link.new)) (L.not_ready link.old)
            (L.not_ready link.new) self.old.unwritten self.new.unwritten result }
        ensures line { L.line link.new ≡ L.line link.old }
    {
        flush(link, self.request.as_slice(), &mut self.written)
    }

    /// Whether it may read once more.
    pub fn may_read(&self) -> bool
        ensures { IsTrue result ↔ (self.now.reads < self.now.turns) }
    {
        self.reads < self.turns
    }

    /// How many messages of other requests it dropped: those that the bytes that it was fed begin with, of another transaction or unit, for
    /// a protocol that drops them. The count stands still at the end of its type.
    pub fn dropped(&self) -> u64
        ensures { result ≡ self.now.dropped }
    {
        self.protocol.dropped()
    }

    /// Makes the room of the next read, which has `ROOM` bytes.
    ///
    /// # Errors
    /// `AllocError` where memory is refused.
    pub fn make_room(held: &mut BytesMut) -> std::result::Result<(), AllocError>
        ensures keeps { held.new.items ≡ held.old.items }
        ensures room { OnOk result (read_room ≤ held.new.spare) }
    {
        held.reserve(ROOM)
    }

    /// Takes the bytes that a read gave, for which there is room, and looks for the reply. `None` where it waits for more.
    pub fn feed(
        &mut self,
        alloc: Global,
        held: &mut BytesMut,
        piece: &[u8],
    ) -> Option<Result<Response>>
        requires written { self.old.unwritten ≡ [] }
        requires may_read { self.old.reads < self.old.turns }
        requires some { 0 < length piece.now }
        requires free { length piece.now ≤ held.old.spare }
        ensures { CallFed P.protocol (holding self.old held.old) (holding self.new held.new)
            piece.now result }
    {
        P::laws();
        held.extend_reserved(piece);
        self.reads += 1;
        match self.protocol.look(alloc, self.asked, held) {
            Ok(None) => None,
            Ok(Some(reply)) => Some(judge(self.asked, self.function, reply)),
            Err(LookError::Broken(fault)) => Some(Err(Error::Transport(fault))),
            Err(LookError::Refused(reason)) => {
                Some(Err(Error::Transport(TransportError::InvalidResponse(reason))))
            }
            Err(LookError::NoMemory) => Some(Err(Error::NoMemory)),
        }
    }

    /// How the end of the input is told: `BrokenPipe` where nothing is held, else `BytesRemaining`.
    pub fn end(held: &BytesMut) -> TransportError
        ensures { TellsEnd held.now.items result }
    {
        if held.is_empty() {
            TransportError::BrokenPipe
        } else {
            TransportError::BytesRemaining
        }
    }
}

impl<P: LineProtocol> Call<P> {
    /// Takes note that the line is silent, so that no more comes of the held bytes, and looks for the reply in them. `None` where there is
    /// none: the bytes are noise then and are dropped, and the reads that gave them are of those that it may make.
    pub fn fall_silent(&mut self, alloc: Global, held: &mut BytesMut) -> Option<Result<Response>>
        ensures { CallSilenced P.protocol P.silent (holding self.old held.old)
            (holding self.new held.new) result }
    {
        P::laws();
        match self.protocol.look_silent(alloc, self.asked, held) {
            Ok(None) => {
                held.truncate(0);
                self.protocol = P::new();
                self.turns = self.turns.saturating_sub(self.reads);
                self.reads = 0;
                None
            }
            Ok(Some(reply)) => Some(judge(self.asked, self.function, reply)),
            Err(LookError::Broken(fault)) => Some(Err(Error::Transport(fault))),
            Err(LookError::Refused(reason)) => {
                Some(Err(Error::Transport(TransportError::InvalidResponse(reason))))
            }
            Err(LookError::NoMemory) => Some(Err(Error::NoMemory)),
        }
    }
}
