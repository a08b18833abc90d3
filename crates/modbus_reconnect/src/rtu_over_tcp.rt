//! A client of slaves behind a connection that carries RTU frames.
ghost use Rattle.std.specs.Prelude.{◌≡◌, ◌↔◌, IsNone, IfSome};
ghost use Rattle.modbus_link.specs.Line.{meaning_of};
ghost use Rattle.modbus_frame.specs.Meaning.{Custom};
ghost use Rattle.modbus_client.specs.Connects.{connector_of};
ghost use Rattle.modbus_client.specs.LineReading.{stream_protocol};
ghost use Rattle.modbus_client.specs.Rtu.{rtu_heading};
ghost use Rattle.modbus_reconnect.specs.State.{unconnected_client, meaning_by};
ghost use Rattle.modbus_reconnect.specs.Calls.{Disconnects, Limits, with_slave, with_turns};
ghost use Rattle.modbus_reconnect.specs.LooksFirst.{CallsLooked, CallsRawLooked};

use crate::client::ReconnectingClient;
use crate::idle::LookFirst;
use crate::raw::AskRaw;
use crate::resend::Resend;
use modbus_client::rtu::StreamFrames;
use modbus_client::{Client, IdleLink};
use modbus_frame::{Request, Response, Result, ShutdownFault, Slave, SlaveContext};
use modbus_link::{Connector, Link};
use std::alloc::Global;
use std::borrow::CowSlice;
use std::marker::Model;
use std::net::SocketAddr;
use std::time::Duration;

/// A client of the slaves behind a TCP connection that carries RTU frames, which connects anew where its link is in doubt.
///
/// No frame tells to which request it is the reply. So a call looks at the link before it sends: where something came that was not asked for,
/// as a second reply to the request before, where the link ended, or where a read of it failed, it is shut down, and the call connects anew.
///
/// While a call waits, the frames of other slaves and what is no frame are passed, and the timeout runs on (MODBUS over Serial Line V1.02,
/// section 2.4.1). No silence tells where a frame ends here, so a reply of a function that tells no length is all that came.
#[derive(Drop)]
pub struct RtuOverTcpClient<C: Connector>
where
    C::Link: Link,
{
    client: ReconnectingClient<StreamFrames, C>,
}

/// A contract sees what it sees of the client that connects anew.
impl<C: Connector> Model for RtuOverTcpClient<C>
where
    C::Link: Link,
{
    ghost use Rattle.modbus_reconnect.specs.State.{ReconnectingState};

    ghost Value = { ReconnectingState C (Unit {0}) C.Link };

    ghost view = { λ it. it.client };
}

impl<C: Connector> RtuOverTcpClient<C>
where
    C::Link: Link,
{
    /// A client of a slave at an address. It has not connected yet, makes one try for each call, and takes no memory yet.
    pub fn new(
        alloc: Global,
        connector: C,
        address: SocketAddr,
        slave: Slave,
    ) -> RtuOverTcpClient<C>
        ensures { result ≡ unconnected_client connector address slave.0 }
    {
        RtuOverTcpClient {
            client: ReconnectingClient::new(alloc, connector, address, slave),
        }
    }

    /// How often a call may try again from then on, and which requests may be sent again for that; 0 and `Never` at first.
    ///
    /// A connection that failed is tried again whatever `resend` says, since nothing was sent.
    pub fn set_retries(&mut self, retries: u32, resend: Resend)
        ensures { self.new ≡ record self.old { retries = retries; resend = resend } }
    {
        self.client.set_retries(retries, resend);
    }

    /// How many reads of a try may give bytes from then on; `TURNS` of modbus_client at first.
    pub fn set_turns(&mut self, turns: u64)
        ensures { self.new ≡ with_turns turns self.old }
    {
        self.client.set_turns(turns);
    }

    /// How many tries the last call made; 0 before the first.
    pub fn tries(&self) -> u64
        ensures { result ≡ self.now.tries }
    {
        self.client.tries()
    }

    /// The link that is used now; `None` exactly where the next call connects whatever a look would find.
    pub fn link(&self) -> Option<&C::Link>
        ensures none { IsNone result ↔ (self.now.client ≡ None) }
        ensures some { IfSome result (λ link.
            IfSome self.now.client (λ client. link.now ≡ client.link)) }
    {
        self.client.link()
    }

    /// The connector.
    pub fn connector(&self) -> &C
        ensures { result.now ≡ self.now.connector }
    {
        self.client.connector()
    }
}

impl<C: Connector> RtuOverTcpClient<C>
where
    C::Link: Link + IdleLink + Send + Drop,
{
    /// Asks for a function by its code, with the bytes that follow it in the PDU, and gives those of the reply as they came: a `Custom`
    /// response of that code, or the exception. The link is looked at first, as for a `call`.
    ///
    /// A reply of a function that tells no length is all that came, since no silence ends a frame on a connection.
    ///
    /// # Errors
    /// Those of `call`; `InvalidResponse` only where a reply has no function code or no exception code. An answer of another function is
    /// `FunctionCodeMismatch`.
    pub fn call_raw(&mut self, function: u8, data: &[u8]) -> Result<Response>
        ensures { CallsRawLooked
            (meaning_by stream_protocol rtu_heading (connector_of C.connects C.faults)
            (meaning_of C.Link.input C.Link.output C.Link.line)) C.Link.looks
            self.old (Custom function data.now) result self.new }
    {
        self.client.look_first();
        self.client
            .ask_raw(&Request::Custom(function, CowSlice::Borrowed(data)))
    }
}

impl<C: Connector> SlaveContext for RtuOverTcpClient<C>
where
    C::Link: Link,
{
    ghost selected = { λ client. client.settings.slave };

    ghost set_slave_gives = { λ old slave new. new ≡ with_slave slave old };

    fn set_slave(&mut self, slave: Slave) {
        self.client.set_slave(slave);
    }
}

impl<C: Connector + Send + Drop> Client for RtuOverTcpClient<C>
where
    C::Link: Link + IdleLink + Send + Drop,
{
    ghost answers = { CallsLooked (meaning_by stream_protocol rtu_heading (connector_of C.connects C.faults)
        (meaning_of C.Link.input C.Link.output C.Link.line)) C.Link.looks };

    ghost disconnects = { Disconnects (meaning_by stream_protocol rtu_heading (connector_of C.connects C.faults)
        (meaning_of C.Link.input C.Link.output C.Link.line)) };

    ghost time_limit = { λ client. client.settings.timeout };

    ghost limits = { Limits (meaning_by stream_protocol rtu_heading (connector_of C.connects C.faults)
        (meaning_of C.Link.input C.Link.output C.Link.line)) };

    fn call(&mut self, request: Request<'_>) -> Result<Response> {
        self.client.look_first();
        self.client.call(request)
    }

    fn disconnect(&mut self) -> std::result::Result<(), ShutdownFault> {
        self.client.disconnect()
    }

    fn timeout(&self) -> Option<Duration> {
        self.client.timeout()
    }

    fn set_timeout(&mut self, duration: Option<Duration>) {
        self.client.set_timeout(duration);
    }
}
