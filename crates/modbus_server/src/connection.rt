//! One connection of a server, whatever frames its messages. It does no IO: it is given bytes, and gives bytes.
ghost use Rattle.std.specs.Prelude.{◌≡◌, ◌↔◌, ℕ, ◌+◌, ◌<◌, ◌≤◌, List, [], false, length, drop, IsTrue, Err, IfOk, OnOk, OnErr};
ghost use Rattle.modbus_pdu.specs.Message.{Message};
ghost use Rattle.modbus_link.specs.Outside.{outside, front_of};
ghost use Rattle.modbus_link.specs.Polled.{at_once, PollsPiece, Flushes};
ghost use Rattle.modbus_server.specs.Served.{NextTakesMemory};
ghost use Rattle.modbus_server.specs.Transfer.{Fills};
ghost use Rattle.modbus_server.specs.Next.{KeepsAs, Takes, Took, Fed};

use crate::answer::answer;
use crate::error::{Next, NextError};
use crate::framing::Framing;
use bytes::BytesMut;
use modbus_frame::Front;
use modbus_link::{Failed, Polled, PolledLink, flush};
use modbus_service::Answerer;
use std::alloc::{AllocError, Global};
use std::marker::Model;

/// The bytes of one connection that were fed and not used yet, and those of its last reply that were not written yet.
///
/// It is open until it tells an error or the input ends. The space of a read, of a message that is copied together and of the reply is taken
/// as it is opened, and is used again for each.
#[derive(Drop)]
pub struct Connection<I: Framing> {
    intake: I,
    // where a message is copied together that does not lie in one piece
    seam: Vec<u8>,
    // where a read puts its bytes
    buffer: Vec<u8>,
    // it has room for each reply
    reply: BytesMut,
    written: usize,
    is_open: bool,
}

impl<I: Framing> Model for Connection<I> {
    ghost use Rattle.std.specs.Prelude.{◌+◌, ◌≤◌, length, drop};
    ghost use Rattle.modbus_server.specs.State.{State};

    ghost Value = { State };

    ghost view = { λ c. record { held = I.held c.intake; waiting = drop c.written c.reply.items; free = I.free c.intake; is_open = c.is_open } };

    ghost invariant = { λ c. record {
      written : c.written ≤ length c.reply.items;
      space : I.framing.reply_room ≤ length c.reply.items + c.reply.spare;
      seam : I.framing.seam ≤ length c.seam.items;
      buffer : I.framing.longest_read ≤ length c.buffer.items;
    } };
}

/// Takes the next message off, asks the service once and frames the reply into an empty buffer.
#[inline(always)]
fn take_next<I: Framing, V: Answerer>(
    intake: &mut I,
    seam: &mut [u8],
    reply: &mut BytesMut,
    alloc: Global,
    service: &mut V,
) -> Result<Next, NextError<I::Fault>>
    requires seam { I.framing.seam ≤ length seam.old }
    requires empty { reply.old.items ≡ [] }
    requires space { I.framing.reply_room ≤ reply.old.spare }
    ensures takes { Takes I.framing V.answering I.told (I.held intake.old)
        (I.held intake.new, reply.new.items) service.old service.new result }
    ensures keeps { KeepsAs I.framing.Waits (I.held intake.old) (I.held intake.new) reply.new.items
        service.old service.new result }
    ensures memory { result ≡ Err NextError.NoMemory
        → (bytes cuts : List ℕ) (taken : List (Message I.framing.Header))
        → I.framing.StandsFor bytes cuts (I.held intake.old) taken
        → NextTakesMemory I.framing V.answering bytes cuts taken service.old service.new }
    ensures space { I.framing.reply_room ≤ length reply.new.items + reply.new.spare }
{
    match intake.front(seam) {
        Err(fault) => Err(NextError::Broken(fault)),
        Ok(Front::Waiting { dropped }) => {
            intake.advance(dropped);
            Ok(Next::Waiting)
        }
        Ok(Front::Message { header, pdu, end }) => {
            let answer = answer::<I, V>(alloc, service, header, pdu, reply);
            intake.advance(end);
            answer
        }
    }
}

/// Makes one read of the link: how many bytes it gave, which stand at the front of the buffer; or it is not ready.
///
/// # Errors
/// `Failed`, only where the link's count of read faults rose.
#[inline(always)]
fn poll_piece<L: PolledLink>(link: &mut L, buffer: &mut [u8]) -> Result<Polled<usize>, Failed>
    requires { 0 < length buffer.old }
    ensures within { IfOk (at_once result) (λ count. count ≤ length buffer.new) }
    ensures polls { PollsPiece (outside (L.input link.old) (L.output link.old))
        (outside (L.input link.new) (L.output link.new)) (L.not_ready link.old)
        (L.not_ready link.new) (length buffer.old) (front_of (at_once result) buffer.new) result }
{
    link.poll_read(buffer)
}

/// Makes one read of the link into a buffer and appends what it gave: how many bytes that was, or the link is not ready.
///
/// # Errors
/// `Failed`, only where the link's count of read faults rose.
#[inline(always)]
fn fill_from<I: Framing, L: PolledLink>(
    intake: &mut I,
    buffer: &mut [u8],
    link: &mut L,
) -> Result<Polled<usize>, Failed>
    requires waits { I.framing.Waits (I.held intake.old) }
    requires free { I.framing.room (I.held intake.old) ≤ I.free intake.old }
    requires buffer { I.framing.longest_read ≤ length buffer.old }
    ensures { Fills I.framing (outside (L.input link.old) (L.output link.old))
        (outside (L.input link.new) (L.output link.new)) (L.not_ready link.old)
        (L.not_ready link.new) (I.held intake.old) (I.held intake.new) result }
{
    let room = intake.room();
    let buffer = &mut buffer[..room];
    match poll_piece(link, buffer)? {
        Polled::Pending => Ok(Polled::Pending),
        Polled::Ready(count) => {
            intake.append(&buffer[..count]);
            Ok(Polled::Ready(count))
        }
    }
}

impl<I: Framing> Connection<I> {
    /// A connection that holds no byte.
    ///
    /// # Errors
    /// `AllocError` where memory is refused.
    pub fn open(alloc: Global) -> Result<Connection<I>, AllocError>
        ensures held { IfOk result (λ connection. connection.held ≡ []) }
        ensures waiting { IfOk result (λ connection. connection.waiting ≡ []) }
        ensures open { IfOk result (λ connection. IsTrue connection.is_open) }
        ensures stands { I.framing.StandsFor [] [] [] [] }
    {
        Ok(Connection {
            intake: I::open(alloc)?,
            seam: Vec::from_elem(alloc, 0, I::seam())?,
            buffer: Vec::from_elem(alloc, 0, I::longest_read())?,
            reply: BytesMut::with_capacity(alloc, I::reply_room())?,
            written: 0,
            is_open: true,
        })
    }

    /// Whether it goes on: it told no error, and its input has not ended.
    pub fn is_open(&self) -> bool
        ensures { result ≡ self.now.is_open }
    {
        self.is_open
    }

    /// Takes the next message off the held bytes, asks the service once and keeps the bytes of the reply.
    ///
    /// # Errors
    /// The fault that comes next, right after the messages that were answered before this call. `NoMemory` only where the request carries
    /// a list, or in the service: framing a reply takes none.
    #[inline(always)]
    pub fn next<V: Answerer>(
        &mut self,
        alloc: Global,
        service: &mut V,
    ) -> Result<Next, NextError<I::Fault>>
        requires open { IsTrue self.old.is_open }
        requires written { self.old.waiting ≡ [] }
        ensures { Took I.framing V.answering I.told self.old self.new service.old service.new
            result }
    {
        self.reply.clear();
        self.written = 0;
        let result = take_next(
            &mut self.intake,
            self.seam.as_mut_slice(),
            &mut self.reply,
            alloc,
            service,
        );
        self.is_open = result.is_ok();
        result
    }

    /// The bytes of the reply that were not written yet.
    pub fn to_write(&self) -> &[u8]
        ensures { result.now ≡ self.now.waiting }
    {
        &self.reply.as_slice()[self.written..]
    }

    /// So many of them were written.
    pub fn wrote(&mut self, count: usize)
        requires { count ≤ length self.old.waiting }
        ensures { self.new ≡ record self.old { waiting = drop count self.old.waiting } }
    {
        let _len = self.reply.len();
        self.written += count;
    }

    /// How long the room of the next read is.
    pub fn room(&self) -> usize
        requires { I.framing.Waits self.now.held }
        ensures exact { result ≡ I.framing.room self.now.held }
        ensures some { 0 < result }
        ensures within { result ≤ I.framing.longest_read }
        ensures rooms { (bytes cuts : List ℕ) (taken : List (Message I.framing.Header))
            → I.framing.StandsFor bytes cuts self.now.held taken → I.framing.HasRoom bytes result }
    {
        self.intake.room()
    }

    /// Makes the room of the next read.
    ///
    /// # Errors
    /// `AllocError` where memory is refused, only for a framing whose reads may take memory.
    pub fn make_room(&mut self, alloc: Global) -> Result<(), AllocError>
        requires { I.framing.Waits self.old.held }
        ensures keeps { self.new ≡ record self.old { free = self.new.free } }
        ensures room { OnOk result (I.framing.room self.old.held ≤ self.new.free) }
        ensures memory { OnErr result I.framing.ReadsTakeMemory }
    {
        self.intake.make_room(alloc)
    }

    /// Takes bytes that were read, for which there is room.
    pub fn feed(&mut self, piece: &[u8])
        requires waits { I.framing.Waits self.old.held }
        requires fits { length piece.now ≤ I.framing.room self.old.held }
        requires free { length piece.now ≤ self.old.free }
        ensures fed { Fed I.framing self.old self.new piece.now }
        ensures most { length self.new.held ≤ I.framing.most }
    {
        self.intake.append(piece);
    }

    /// Makes one read of the link, for which there is room, and takes what it gave: how many bytes that was, or the link is not ready.
    /// It takes no memory.
    ///
    /// # Errors
    /// `Failed`, only where the link's count of read faults rose.
    #[inline(always)]
    pub(crate) fn fill<L: PolledLink>(&mut self, link: &mut L) -> Result<Polled<usize>, Failed>
        requires waits { I.framing.Waits self.old.held }
        requires free { I.framing.room self.old.held ≤ self.old.free }
        ensures keeps { self.new ≡ record self.old { held = self.new.held; free = self.new.free } }
        ensures fills { Fills I.framing (outside (L.input link.old) (L.output link.old))
            (outside (L.input link.new) (L.output link.new)) (L.not_ready link.old)
            (L.not_ready link.new) self.old.held self.new.held result }
    {
        fill_from(&mut self.intake, self.buffer.as_mut_slice(), link)
    }

    /// Writes what waits, as far as the link is ready.
    ///
    /// # Errors
    /// `Failed`, only where the link's count of write faults rose; then something waits still.
    pub(crate) fn flush<L: PolledLink>(&mut self, link: &mut L) -> Result<Polled<()>, Failed>
        ensures keeps { self.new ≡ record self.old { waiting = self.new.waiting } }
        ensures flushes { Flushes (outside (L.input link.old) (L.output link.old))
            (outside (L.input link.new) (L.output link.new)) (L.not_ready link.old)
            (L.not_ready link.new) self.old.waiting self.new.waiting result }
    {
        flush(link, self.reply.as_slice(), &mut self.written)
    }

    /// The input has ended: whether nothing is held.
    pub fn end(&mut self) -> bool
        ensures empty { IsTrue result ↔ (self.old.held ≡ []) }
        ensures keeps { self.new ≡ record self.old { is_open = false } }
    {
        self.is_open = false;
        self.intake.is_empty()
    }

    /// The connection is of no more use.
    pub fn close(&mut self)
        ensures { self.new ≡ record self.old { is_open = false } }
    {
        self.is_open = false;
    }
}
