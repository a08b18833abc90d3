//! A client of a serial line whose calls have a deadline.
ghost use Rattle.std.specs.Prelude.{◌≡◌, false, Ok};
ghost use Rattle.modbus_link.specs.Line.{meaning_of};
ghost use Rattle.modbus_frame.specs.Meaning.{meaning, Custom};
ghost use Rattle.modbus_reconnect.specs.OnLine.{BeginsCall, CallsStanding, CallsRaw};
ghost use Rattle.modbus_reconnect.specs.Tells.{SendsStanding};
ghost use Rattle.modbus_adapter.specs.DeadlineLine.{BeginsDeadline, line_within};

use crate::deadline_line::DeadlineLine;
use modbus_client::rtu::LineFrames;
use modbus_client::{Client, LineProtocol, RawLineProtocol};
use modbus_frame::{Error, Request, Response, Result, ShutdownFault, Slave, SlaveContext};
use modbus_link::TimedLink;
use modbus_reconnect::{IdleLink, SettlingClient};
use std::marker::Model;
use std::time::{Clock, Duration};

/// A client of the slaves of a line, each call of which has the deadline of the line: to let it fall silent, to send, and to wait for the reply.
///
/// A call that the deadline ends while it waits answers `ReadFault`, and while it sends `WriteFault`; its line is in doubt then. One that it
/// ends before that answers `NotConnected`, and `unsettled` of the client tells `ReadFault`. The line waits for one silence at most behind the
/// deadline.
#[derive(Drop)]
pub struct DeadlineClient<'c, C, P: LineProtocol, L> {
    client: SettlingClient<P, DeadlineLine<'c, C, L>>,
}

/// A contract sees what it sees of the client of the line.
impl<'c, C, P: LineProtocol, L> Model for DeadlineClient<'c, C, P, L> {
    ghost use Rattle.modbus_reconnect.specs.SettleState.{SettlingState};
    ghost use Rattle.modbus_adapter.specs.DeadlineLine.{DeadlineLineState};

    ghost Value = { SettlingState P.Ids (DeadlineLineState L) };

    ghost view = { λ it. it.client };
}

/// A client of the slaves of a serial line with a deadline for each call.
pub type DeadlineSerialClient<'c, C, L> = DeadlineClient<'c, C, LineFrames, L>;

impl<'c, C: Clock, P: LineProtocol, L> DeadlineClient<'c, C, P, L> {
    /// A client with a deadline for each call of this one, which keeps its settings.
    pub fn new(client: SettlingClient<P, DeadlineLine<'c, C, L>>) -> DeadlineClient<'c, C, P, L>
        ensures { result ≡ client.entry }
    {
        DeadlineClient { client }
    }

    /// The client of the line.
    pub fn client(&self) -> &SettlingClient<P, DeadlineLine<'c, C, L>>
        ensures { result.now ≡ self.now }
    {
        &self.client
    }
}

impl<'c, C: Clock, P: LineProtocol, L: TimedLink + IdleLink> DeadlineClient<'c, C, P, L> {
    /// Sends a request to which no slave replies, as that client does, before the deadline.
    ///
    /// # Errors
    /// Those of `send` of a `SettlingClient`.
    pub fn send(&mut self, request: Request<'_>) -> std::result::Result<(), Error>
        ensures { BeginsCall
            (line_within P.protocol P.silent P.heading (meaning_of L.input L.output L.line) L.not_ready L.looks)
            BeginsDeadline (SendsStanding
            (line_within P.protocol P.silent P.heading (meaning_of L.input L.output L.line) L.not_ready L.looks))
            self.old (meaning request.entry) result self.new }
    {
        self.client.begin();
        self.client.send(request)
    }
}

impl<'c, C: Clock, P: RawLineProtocol, L: TimedLink + IdleLink> DeadlineClient<'c, C, P, L> {
    /// Asks for a function by its code, with the bytes that follow it in the PDU, as that client does, before the deadline.
    ///
    /// # Errors
    /// Those of `call_raw` of a `SettlingClient`.
    pub fn call_raw(&mut self, function: u8, data: &[u8]) -> Result<Response>
        ensures { BeginsCall
            (line_within P.protocol P.silent P.heading (meaning_of L.input L.output L.line) L.not_ready L.looks)
            BeginsDeadline (CallsRaw
            (line_within P.protocol P.silent P.heading (meaning_of L.input L.output L.line) L.not_ready L.looks))
            self.old (Custom function data.now) result self.new }
    {
        self.client.begin();
        self.client.call_raw(function, data)
    }
}

impl<'c, C, P: LineProtocol, L> SlaveContext for DeadlineClient<'c, C, P, L> {
    ghost selected = { λ client. client.settings.slave };

    ghost set_slave_gives = { λ old slave new.
        new ≡ record old { settings = record old.settings { slave = slave } } };

    fn set_slave(&mut self, slave: Slave) {
        self.client.set_slave(slave);
    }
}

impl<'c, C: Clock + Sync, P: LineProtocol, L: TimedLink + IdleLink + Send + Drop> Client
    for DeadlineClient<'c, C, P, L>
where
    P::Ids: Send,
{
    ghost answers = { BeginsCall
        (line_within P.protocol P.silent P.heading (meaning_of L.input L.output L.line) L.not_ready L.looks)
        BeginsDeadline (CallsStanding
        (line_within P.protocol P.silent P.heading (meaning_of L.input L.output L.line) L.not_ready L.looks)) };

    // Nothing is done with the line.
    ghost disconnects = { λ old result new. (result ≡ Ok tt) × (new ≡ record old { is_connected = false }) };

    ghost time_limit = { λ client. client.settings.timeout };

    ghost limits = { λ old duration new.
        new ≡ record old { settings = record old.settings { timeout = duration } } };

    fn call(&mut self, request: Request<'_>) -> Result<Response> {
        self.client.begin();
        self.client.call(request)
    }

    fn disconnect(&mut self) -> std::result::Result<(), ShutdownFault> {
        self.client.disconnect()
    }

    fn timeout(&self) -> Option<Duration> {
        self.client.timeout()
    }

    fn set_timeout(&mut self, duration: Option<Duration>) {
        self.client.set_timeout(duration);
    }
}
