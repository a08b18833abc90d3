//! A client over a link, whatever its protocol.
ghost use Rattle.std.specs.Prelude.{◌≡◌, ◌↔◌, ◌<◌, ◌≤◌, IsNone, IfSome, IfOk, IfErr, OnErr, IsTrue, false, length, not};
ghost use Rattle.std.specs.Io.{ReadsAtMost};
ghost use Rattle.modbus_link.specs.Line.{meaning_of};
ghost use Rattle.modbus_link.specs.Outside.{Rose, Advances, ReadIsTold};
ghost use Rattle.modbus_link.specs.Polled.{at_once, Waited};
ghost use Rattle.modbus_frame.specs.Meaning.{meaning, Custom};
ghost use Rattle.modbus_client.specs.State.{attached_client, with_next_header, next_header};
ghost use Rattle.modbus_client.specs.Sends.{stays_connected};
ghost use Rattle.modbus_client.specs.Calls.{Called, SentAlone, IsComplete};
ghost use Rattle.modbus_client.specs.Ends.{Disconnected, Limited};
ghost use Rattle.modbus_client.specs.Raw.{read_raw};

use crate::client::Client;
use crate::drive::{exchange, send};
use crate::idle::IdleLink;
use crate::protocol::Protocol;
use crate::raw::{AsItCame, RawProtocol};
use bytes::BytesMut;
use modbus_frame::{
    Error, Request, Response, Result, ShutdownFault, Slave, SlaveContext, TransportError,
};
use modbus_link::{Failed, Link, Polled};
use std::alloc::Global;
use std::borrow::CowSlice;
use std::marker::Model;
use std::time::Duration;

/// How many reads of a call may give bytes, until a client is told otherwise.
pub const TURNS: u64 = 1_048_576;

/// A client of the devices behind one link, which speaks one protocol.
#[derive(Drop)]
pub struct LinkClient<P: Protocol, L> {
    link: L,
    is_connected: bool,
    slave: Slave,
    turns: u64,
    timeout: Option<Duration>,
    held: BytesMut,
    ids: P::Ids,
    dropped: u64,
    alloc: Global,
}

/// A contract sees the link, whether it is connected, the slave, the turns, the timeout, the bytes that are held, what the protocol
/// keeps between calls, and how many messages the last call dropped.
impl<P: Protocol, L> Model for LinkClient<P, L> {
    ghost use Rattle.modbus_client.specs.State.{ClientState};

    ghost Value = { ClientState P.Ids L };

    ghost view = { λ client. record {
      link = client.link;
      is_connected = client.is_connected;
      slave = client.slave.0;
      turns = client.turns;
      timeout = client.timeout;
      held = client.held.items;
      ids = client.ids;
      dropped = client.dropped;
    } };
}

impl<P: Protocol, L> LinkClient<P, L> {
    /// A client of a slave over a link. It keeps the allocator, and takes no memory yet.
    pub fn attach_slave(alloc: Global, link: L, slave: Slave) -> LinkClient<P, L>
        ensures { result ≡ attached_client P.heading link slave.0 }
    {
        LinkClient {
            link,
            is_connected: true,
            slave,
            turns: TURNS,
            timeout: None,
            held: BytesMut::new(alloc),
            ids: P::first_ids(),
            dropped: 0,
            alloc,
        }
    }

    /// How many reads of a call may give bytes from then on; `TURNS` at first.
    pub fn set_turns(&mut self, turns: u64)
        ensures { self.new ≡ record self.old { turns = turns } }
    {
        self.turns = turns;
    }

    /// How many bytes are held that were read and not used.
    pub fn held(&self) -> usize
        ensures { result ≡ length self.now.held }
    {
        self.held.len()
    }

    /// How many messages of other requests the last call dropped while it waited for its reply: ADUs of another transaction or unit, for a
    /// client that drops them, and else 0. It is 0 before the first call, after a `send`, and after a call of a client that is disconnected,
    /// and stands still at the end of its type.
    pub fn dropped(&self) -> u64
        ensures { result ≡ self.now.dropped }
    {
        self.dropped
    }

    /// The link; `None` exactly where the client is disconnected.
    pub fn link(&self) -> Option<&L>
        ensures none { IsNone result ↔ (self.now.is_connected ≡ false) }
        ensures some { IfSome result (λ link. link.now ≡ self.now.link) }
    {
        if self.is_connected {
            Some(&self.link)
        } else {
            None
        }
    }
}

impl<P: Protocol, L> LinkClient<P, L> {
    /// Draws the header of the next request, which a disconnected client does not send.
    ///
    /// # Errors
    /// `NotConnected` exactly where it is disconnected.
    fn draw(&mut self) -> std::result::Result<P::Header, Error>
        ensures draws { self.new ≡ with_next_header P.heading self.old }
        ensures connected { IfOk result (λ header. IsTrue self.old.is_connected
            × (header ≡ next_header P.heading self.old)) }
        ensures disconnected { IfErr result (λ error. (self.old.is_connected ≡ false)
            × (error ≡ Error.Transport TransportError.NotConnected)) }
    {
        let header = P::draw(&mut self.ids, self.slave);
        self.dropped = 0;
        if !self.is_connected {
            return Err(Error::Transport(TransportError::NotConnected));
        }
        Ok(header)
    }
}

/// Whether the answer is that a write failed.
fn is_write_fault<X>(answer: &std::result::Result<X, Error>) -> bool
    ensures { result ≡ not (stays_connected answer.now) }
{
    matches!(answer, Err(Error::Transport(TransportError::WriteFault)))
}

impl<P: Protocol, L: Link> LinkClient<P, L> {
    /// Writes a request under the header that comes next, and reads nothing: for a broadcast, to which no slave replies.
    ///
    /// # Errors
    /// `NotConnected` exactly where the client is disconnected. `RequestTooLong` with the size of the PDU in bytes, exactly where
    /// that is above 253. `WriteFault` only where the link's count of write faults rose; the client is then disconnected.
    /// `NoMemory` where memory is refused.
    pub fn send(&mut self, request: Request<'_>) -> std::result::Result<(), Error>
        ensures { SentAlone P.protocol P.heading (meaning_of L.input L.output L.line)
            self.old (meaning request.entry) result self.new }
    {
        let header = self.draw()?;
        let answer = send::<P, L>(self.alloc, &mut self.link, header, &request, &mut self.held);
        self.is_connected = !is_write_fault(&answer);
        answer
    }

    /// Keeps how long a read or a write may take, and sets it on the link of a client that is connected.
    pub(crate) fn limit(&mut self, duration: Option<Duration>)
        ensures { Limited (meaning_of L.input L.output L.line) self.old duration self.new }
    {
        self.timeout = duration;
        if self.is_connected {
            self.link.set_timeout(duration);
        }
    }
}

impl<P: RawProtocol, L: Link> LinkClient<P, L> {
    /// Makes a call whose reply is given as it came: a `Custom` response with its function code and the bytes behind it, or the exception.
    ///
    /// # Errors
    /// Those of `call`; `InvalidResponse` only where the reply has no function code, or an exception no code.
    pub fn ask_raw(&mut self, request: &Request<'_>) -> Result<Response>
        ensures { Called (read_raw P.protocol) P.heading (meaning_of L.input L.output L.line)
            self.old (meaning request.now) result self.new }
    {
        let header = self.draw()?;
        let answer = exchange::<AsItCame<P>, L>(
            self.alloc,
            &mut self.link,
            header,
            request,
            self.turns,
            &mut self.held,
            &mut self.dropped,
        );
        self.is_connected = !is_write_fault(&answer);
        answer
    }

    /// Asks for a function by its code, with the bytes that follow it in the PDU, and gives those of the reply as they came: a `Custom`
    /// response of that code, or the exception.
    ///
    /// # Errors
    /// Those of `ask_raw`. An answer of another function is `FunctionCodeMismatch`.
    pub fn call_raw(&mut self, function: u8, data: &[u8]) -> Result<Response>
        ensures { Called (read_raw P.protocol) P.heading (meaning_of L.input L.output L.line)
            self.old (Custom function data.now) result self.new }
    {
        self.ask_raw(&Request::Custom(function, CowSlice::Borrowed(data)))
    }
}

impl<P: Protocol, L: IdleLink> LinkClient<P, L> {
    /// Looks at the link between two calls: reads into the front of `room` what came and was not asked for; `Pending` where nothing did. It
    /// writes nothing.
    ///
    /// # Errors
    /// `Failed`, only where the link's count of read faults rose; then nothing was given.
    pub fn look(&mut self, room: &mut [u8]) -> std::result::Result<Polled<usize>, Failed>
        requires { 0 < length room.old }
        ensures bound { ReadsAtMost (at_once result) room.new }
        ensures source { Advances (L.input self.old.link) (L.input self.new.link) }
        ensures told { IsTrue (L.input self.old.link).told
            → ReadIsTold (L.input self.old.link) (L.input self.new.link) room.old room.new
            (at_once result) }
        ensures cause { OnErr result (Rose (L.input self.old.link).faults
            (L.input self.new.link).faults) }
        ensures looked { Waited result (L.looks self.old.link) (L.looks self.new.link) }
        ensures later { L.looks self.old.link ≤ L.looks self.new.link }
        ensures sink { L.output self.new.link ≡ L.output self.old.link }
        ensures line { L.line self.new.link ≡ L.line self.old.link }
        ensures rest { self.new ≡ record self.old { link = self.new.link } }
    {
        self.link.look(room)
    }
}

impl<P: Protocol, L> SlaveContext for LinkClient<P, L> {
    ghost selected = { λ client. client.slave };

    ghost set_slave_gives = { λ old slave new. new ≡ record old { slave = slave } };

    fn set_slave(&mut self, slave: Slave) {
        self.slave = slave;
    }
}

impl<P: Protocol, L: Link + Send + Drop> Client for LinkClient<P, L>
where
    P::Ids: Send,
{
    ghost answers = { λ old asked answer new.
        Called P.protocol P.heading (meaning_of L.input L.output L.line) old asked answer new };

    ghost disconnects = { λ old result new. Disconnected (meaning_of L.input L.output L.line) old result new };

    ghost time_limit = { λ client. client.timeout };

    ghost limits = { λ old duration new. Limited (meaning_of L.input L.output L.line) old duration new };

    fn call(&mut self, request: Request<'_>) -> Result<Response>
        ensures called { Called P.protocol P.heading (meaning_of L.input L.output L.line)
            self.old (meaning request.entry) result self.new }
        ensures complete { IsComplete P.protocol P.heading (meaning_of L.input L.output L.line)
            self.old (meaning request.entry) result self.new }
    {
        P::laws();
        let header = self.draw()?;
        let answer = exchange::<P, L>(
            self.alloc,
            &mut self.link,
            header,
            &request,
            self.turns,
            &mut self.held,
            &mut self.dropped,
        );
        self.is_connected = !is_write_fault(&answer);
        answer
    }

    fn disconnect(&mut self) -> std::result::Result<(), ShutdownFault> {
        if !self.is_connected {
            return Ok(());
        }
        self.is_connected = false;
        match self.link.shutdown() {
            Ok(()) => Ok(()),
            Err(Failed) => Err(ShutdownFault),
        }
    }

    fn timeout(&self) -> Option<Duration> {
        self.timeout
    }

    fn set_timeout(&mut self, duration: Option<Duration>) {
        self.limit(duration);
    }
}
