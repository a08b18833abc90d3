//! The client.
ghost use Rattle.std.specs.Prelude.{◌≡◌, ◌↔◌, IsNone, IfSome, if◌then◌else◌};
ghost use Rattle.modbus_link.specs.Line.{meaning_of};
ghost use Rattle.modbus_client.specs.Connects.{connector_of};
ghost use Rattle.modbus_reconnect.specs.Owes.{left_after};
ghost use Rattle.modbus_reconnect.specs.State.{unconnected_client, meaning_by};
ghost use Rattle.modbus_reconnect.specs.Stands.{IsReadyIfSome};
ghost use Rattle.modbus_reconnect.specs.Tries.{Uses, Tried};
ghost use Rattle.modbus_reconnect.specs.LooksFirst.{LooksFirst};
ghost use Rattle.modbus_reconnect.specs.Calls.{CallsOnce, Disconnects, Limits, with_slave, with_turns};

mod raw;

use crate::idle::{LookFirst, LookOnce};
use crate::once::{CallOnce, TryOnce};
use crate::opening::open;
use crate::owing::is_read_fault;
use crate::resend::Resend;
use modbus_client::{Client, IdleLink, LinkClient, Protocol, TURNS, tcp};
use modbus_frame::{
    Error, Request, Response, Result, ShutdownFault, Slave, SlaveContext, TransportError,
};
use modbus_link::{Connector, Failed, Link};
use std::alloc::Global;
use std::marker::Model;
use std::net::SocketAddr;
use std::time::Duration;

/// A client of the devices at an address, which connects at its first call, and again where its link is in doubt.
///
/// A link is in doubt after an answer that is no reply to the request, unless nothing was sent, and after a reply with bytes behind it. It
/// is then shut down, and the next call, or the next try of this one, connects anew. Where replies are told by their transactions, a link on
/// which one is late may be kept.
#[derive(Drop)]
pub struct ReconnectingClient<P: Protocol, C: Connector>
where
    C::Link: Link,
{
    connector: C,
    address: SocketAddr,
    client: Option<LinkClient<P, C::Link>>,
    slave: Slave,
    turns: u64,
    timeout: Option<Duration>,
    retries: u32,
    resend: Resend,
    tries: u64,
    patience: u32,
    left: u32,
    alloc: Global,
}

/// A contract sees the connector, the address, the client of the link that is used now, what stands through each new connection, and what
/// is said of tries and of late replies. Nothing is owed on a link that is used that could be taken for a reply.
impl<P: Protocol, C: Connector> Model for ReconnectingClient<P, C>
where
    C::Link: Link,
{
    ghost use Rattle.modbus_link.specs.Line.{meaning_of};
    ghost use Rattle.modbus_client.specs.Connects.{connector_of};
    ghost use Rattle.modbus_reconnect.specs.State.{ReconnectingState, meaning_by};
    ghost use Rattle.modbus_reconnect.specs.Stands.{Stands};

    ghost Value = { ReconnectingState C P.Ids C.Link };

    ghost view = { λ it. record {
      connector = it.connector;
      address = it.address;
      client = it.client;
      settings = record { slave = it.slave.0; turns = it.turns; timeout = it.timeout };
      retries = it.retries;
      resend = it.resend;
      tries = it.tries;
      patience = it.patience;
      left = it.left;
    } };

    ghost invariant = { λ it. Stands
        (meaning_by P.protocol P.heading (connector_of C.connects C.faults)
        (meaning_of C.Link.input C.Link.output C.Link.line))
        it.address (record { slave = it.slave.0; turns = it.turns; timeout = it.timeout })
        it.patience it.left it.client };
}

impl<P: Protocol, C: Connector> ReconnectingClient<P, C>
where
    C::Link: Link,
{
    /// A client of a slave, or of a unit identifier, at an address. It has not connected yet, makes one try for each call, and takes no
    /// memory yet.
    pub fn new(
        alloc: Global,
        connector: C,
        address: SocketAddr,
        slave: Slave,
    ) -> ReconnectingClient<P, C>
        ensures { result ≡ unconnected_client connector address slave.0 }
    {
        ReconnectingClient {
            connector,
            address,
            client: None,
            slave,
            turns: TURNS,
            timeout: None,
            retries: 0,
            resend: Resend::Never,
            tries: 0,
            patience: 0,
            left: 0,
            alloc,
        }
    }

    /// How often a call may try again from then on, and which requests may be sent again for that; 0 and `Never` at first.
    ///
    /// A connection that failed is tried again whatever `resend` says, since nothing was sent.
    pub fn set_retries(&mut self, retries: u32, resend: Resend)
        ensures { self.new ≡ record self.old { retries = retries; resend = resend } }
    {
        self.retries = retries;
        self.resend = resend;
    }

    /// How many reads of a try may give bytes from then on; `TURNS` at first.
    pub fn set_turns(&mut self, turns: u64)
        ensures { self.new ≡ with_turns turns self.old }
    {
        self.turns = turns;
        if let Some(client) = &mut self.client {
            client.set_turns(turns);
        }
    }

    /// How many tries the last call made; 0 before the first.
    pub fn tries(&self) -> u64
        ensures { result ≡ self.now.tries }
    {
        self.tries
    }

    /// The link that is used now; `None` exactly where the next call connects.
    pub fn link(&self) -> Option<&C::Link>
        ensures none { IsNone result ↔ (self.now.client ≡ None) }
        ensures some { IfSome result (λ link.
            IfSome self.now.client (λ client. link.now ≡ client.link)) }
    {
        match &self.client {
            Some(client) => client.link(),
            None => None,
        }
    }

    /// The client of the link that is there, or of a new one; none where no link can be made.
    fn take_client(&mut self) -> Option<LinkClient<P, C::Link>>
        ensures uses { Uses
            (meaning_by P.protocol P.heading (connector_of C.connects C.faults)
            (meaning_of C.Link.input C.Link.output C.Link.line))
            self.old self.old.client result self.new.connector }
        ensures ready { IsReadyIfSome
            (meaning_by P.protocol P.heading (connector_of C.connects C.faults)
            (meaning_of C.Link.input C.Link.output C.Link.line))
            self.old.address self.old.settings result }
        ensures rest { self.new ≡ record self.old {
          connector = self.new.connector;
          client = None;
        } }
    {
        if let Some(client) = self.client.take() {
            return Some(client);
        }
        let opened = open(
            self.alloc,
            &mut self.connector,
            self.address,
            self.slave,
            self.turns,
            self.timeout,
        );
        match opened {
            Ok(client) => Some(client),
            Err(Failed) => None,
        }
    }

    /// The connector.
    pub fn connector(&self) -> &C
        ensures { result.now ≡ self.now.connector }
    {
        &self.connector
    }
}

impl<C: Connector> ReconnectingClient<tcp::OwnAdus, C>
where
    C::Link: Link,
{
    /// Through how many time-outs in a row a link is kept from then on; 0 at first.
    ///
    /// A late reply is told by its transaction and dropped, so that a device which is slow for a while needs no new connection. A reset that
    /// a read finds looks like a time-out, so it is found by the next call, whose request can't be written then.
    pub fn set_patience(&mut self, patience: u32)
        ensures { self.new ≡ record self.old { patience = patience; left = patience } }
    {
        self.patience = patience;
        self.left = patience;
    }
}

/// Through how many more time-outs in a row a link is kept after a call with this answer.
fn left_after(is_kept: bool, answer: &Result<Response>, patience: u32, left: u32) -> u32
    ensures { result ≡ left_after is_kept answer.now patience left }
{
    if is_kept && is_read_fault(answer) {
        left.saturating_sub(1)
    } else {
        patience
    }
}

/// Through how many more time-outs in a row a link is kept that was looked at, or a new one in its place.
fn left_looked(is_kept: bool, patience: u32, left: u32) -> u32
    ensures { result ≡ (if is_kept then left else patience) }
{
    if is_kept { left } else { patience }
}

impl<P: Protocol, C: Connector> TryOnce for ReconnectingClient<P, C>
where
    P::Ids: Send,
    C::Link: Link + Send + Drop,
{
    ghost tried = { Tried (meaning_by P.protocol P.heading (connector_of C.connects C.faults)
        (meaning_of C.Link.input C.Link.output C.Link.line)) };

    fn try_once(&mut self, request: &Request<'_>) -> Result<Response> {
        let Some(client) = self.take_client() else {
            self.left = self.patience;
            return Err(Error::Transport(TransportError::NotConnected));
        };
        let (answer, kept) = client.call_once(0 < self.left, request);
        self.left = left_after(kept.is_some(), &answer, self.patience, self.left);
        self.client = kept;
        answer
    }
}

impl<P: Protocol, C: Connector> LookFirst for ReconnectingClient<P, C>
where
    P::Ids: Send,
    C::Link: Link + IdleLink + Send + Drop,
{
    ghost looks_first = { LooksFirst (meaning_of C.Link.input C.Link.output C.Link.line) C.Link.looks };

    fn look_first(&mut self) {
        let Some(client) = self.client.take() else {
            self.left = self.patience;
            return;
        };
        let kept = client.look_once();
        self.left = left_looked(kept.is_some(), self.patience, self.left);
        self.client = kept;
    }
}

impl<P: Protocol, C: Connector> SlaveContext for ReconnectingClient<P, C>
where
    C::Link: Link,
{
    ghost selected = { λ client. client.settings.slave };

    ghost set_slave_gives = { λ old slave new. new ≡ with_slave slave old };

    fn set_slave(&mut self, slave: Slave) {
        self.slave = slave;
        if let Some(client) = &mut self.client {
            client.set_slave(slave);
        }
    }
}

impl<P: Protocol, C: Connector + Send + Drop> Client for ReconnectingClient<P, C>
where
    P::Ids: Send,
    C::Link: Link + Send + Drop,
{
    ghost answers = { CallsOnce (meaning_by P.protocol P.heading (connector_of C.connects C.faults)
        (meaning_of C.Link.input C.Link.output C.Link.line)) };

    ghost disconnects = { Disconnects (meaning_by P.protocol P.heading (connector_of C.connects C.faults)
        (meaning_of C.Link.input C.Link.output C.Link.line)) };

    ghost time_limit = { λ client. client.settings.timeout };

    ghost limits = { Limits (meaning_by P.protocol P.heading (connector_of C.connects C.faults)
        (meaning_of C.Link.input C.Link.output C.Link.line)) };

    fn call(&mut self, request: Request<'_>) -> Result<Response> {
        'tries: for earlier in 0..self.retries {
            let answer = self.try_once(&request);
            if !self.resend.lets_follow(&request, &answer) {
                self.tries = u64::from(earlier) + 1;
                return answer;
            }
        }
        let answer = self.try_once(&request);
        self.tries = u64::from(self.retries) + 1;
        answer
    }

    fn disconnect(&mut self) -> std::result::Result<(), ShutdownFault> {
        self.left = self.patience;
        match self.client.take() {
            Some(mut client) => client.disconnect(),
            None => Ok(()),
        }
    }

    fn timeout(&self) -> Option<Duration> {
        self.timeout
    }

    fn set_timeout(&mut self, duration: Option<Duration>) {
        self.timeout = duration;
        if let Some(client) = &mut self.client {
            client.set_timeout(duration);
        }
    }
}
