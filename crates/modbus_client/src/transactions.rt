//! Clients of TCP devices that drop the responses of other transactions (MODBUS Messaging on TCP/IP V1.0b, section 4.4.1.3).
ghost use Rattle.std.specs.Prelude.{◌≡◌, ◌↔◌, ℕ, ◌<◌, List, IsTrue, None};
ghost use Rattle.modbus_frame.specs.Meaning.{meaning};
ghost use Rattle.modbus_frame.specs.declared.tcp.Header.{Header};
ghost use Rattle.modbus_pdu.specs.Message.{Message};
ghost use Rattle.modbus_client.specs.Tcp.{matching_protocol, tcp_heading, header_seen, DropsAdus, EndsOfAnother, adus_in};
ghost use Rattle.modbus_client.specs.State.{attached_client};
ghost use Rattle.modbus_client.specs.Polled.{OpensPolled};
ghost use Rattle.modbus_link.specs.Line.{meaning_of};
ghost use Rattle.modbus_client.specs.Connects.{Connects, connector_of};

use crate::link_client::LinkClient;
use crate::protocol::{LookError, Protocol, Reply};
use crate::raw::{RawProtocol, take_raw_adu};
use crate::tcp::Adus;
use bytes::BytesMut;
use modbus_frame::tcp::Header;
use modbus_frame::{ConnectFault, EncodeError, Error, Front, HeaderSeen, Request, Slave};
use modbus_link::{Connector, Failed, Link};
use modbus_tcp::{HeaderFault, TransactionIds, front};
use std::alloc::Global;
use std::marker::Model;
use std::net::SocketAddr;
use std::time::Duration;

/// Whether an ADU under this header is of the transaction and the unit that were asked.
fn is_own(asked: HeaderSeen, header: Header) -> bool
    ensures { IsTrue result ↔ (header_seen header ≡ asked) }
{
    Adus::seen(header) == asked
}

/// Where the ADU at the front of the bytes ends, if it is whole and of another transaction or unit than was asked (section 4.4.1.3). `None` where
/// it is the reply, where it is not whole, and where no ADU stands there.
pub fn end_of_another(asked: HeaderSeen, bytes: &[u8]) -> Option<usize>
    ensures { EndsOfAnother asked bytes.now result }
{
    modbus_tcp::laws::one_front();
    match front(bytes) {
        Ok(Front::Message { header, end, .. }) => {
            if is_own(asked, header) {
                None
            } else {
                Some(end)
            }
        }
        Ok(Front::Waiting { .. }) => None,
        Err(HeaderFault::InvalidLength) => None,
        Err(HeaderFault::InvalidProtocol(_)) => None,
    }
}

/// Drops the ADUs at the front of the held bytes that are of another transaction or unit than was asked, and tells how many. Their PDUs are
/// not read, and no memory is taken.
fn drop_others(asked: HeaderSeen, held: &mut BytesMut) -> u64
    ensures dropped { (adus : List (Message Header))
        × DropsAdus asked held.old.items adus held.new.items × (result ≡ adus_in adus) }
    ensures all { EndsOfAnother asked held.new.items None }
{
    let mut dropped = 0u64;
    'others: while let Some(end) = end_of_another(asked, held.as_slice()) {
        held.advance(end);
        dropped = dropped.saturating_add(1);
    }
    dropped
}

/// The ADUs of a TCP stream, of which the first with the transaction and the unit of the request is the reply. Those before it are dropped.
#[derive(Drop)]
pub struct OwnAdus {
    adus: Adus,
    dropped: u64,
}

/// A contract sees how many ADUs were dropped.
impl Model for OwnAdus {
    ghost Value = { ℕ };

    ghost view = { λ own. own.dropped };
}

impl Protocol for OwnAdus {
    type Header = Header;

    type Ids = TransactionIds;

    ghost protocol = { matching_protocol };

    ghost heading = { tcp_heading };

    ghost dropped_by = { λ dropped. dropped };

    fn new() -> OwnAdus {
        OwnAdus {
            adus: Adus::new(),
            dropped: 0,
        }
    }

    fn first_ids() -> TransactionIds {
        Adus::first_ids()
    }

    fn draw(ids: &mut TransactionIds, slave: Slave) -> Header {
        Adus::draw(ids, slave)
    }

    fn seen(header: Header) -> HeaderSeen {
        Adus::seen(header)
    }

    fn encode(
        alloc: Global,
        header: Header,
        request: &Request<'_>,
        buf: &mut BytesMut,
    ) -> std::result::Result<(), EncodeError> {
        Adus::encode(alloc, header, request, buf)
    }

    fn look(
        &mut self,
        alloc: Global,
        asked: HeaderSeen,
        held: &mut BytesMut,
    ) -> std::result::Result<Option<Reply>, LookError> {
        modbus_tcp::laws::one_front();
        let dropped = drop_others(asked, held);
        self.dropped = self.dropped.saturating_add(dropped);
        self.adus.take_adu(alloc, held)
    }

    fn dropped(&self) -> u64 {
        self.dropped
    }

    fn laws() {
        modbus_tcp::laws::one_front();
        modbus_tcp::laws::adu_stays();
    }
}

impl RawProtocol for OwnAdus {
    fn look_raw(
        &mut self,
        alloc: Global,
        asked: HeaderSeen,
        held: &mut BytesMut,
    ) -> std::result::Result<Option<Reply>, LookError> {
        modbus_tcp::laws::one_front();
        let dropped = drop_others(asked, held);
        self.dropped = self.dropped.saturating_add(dropped);
        take_raw_adu(alloc, held)
    }
}

/// A call of a device behind a TCP link that may not be ready, which drops the responses of other transactions and units.
pub type MatchingCall = crate::polled::PolledCall<OwnAdus>;

impl MatchingCall {
    /// A call that asks this request under a header, with at most `turns` reads that give bytes. It keeps the allocator, and has written
    /// nothing yet.
    ///
    /// # Errors
    /// `RequestTooLong` with the size of the PDU in bytes, exactly where that is above 253. `NoMemory` where memory is refused.
    pub fn new(
        alloc: Global,
        header: Header,
        request: Request<'_>,
        turns: u64,
    ) -> std::result::Result<MatchingCall, Error>
        ensures { OpensPolled matching_protocol header (meaning request.entry) turns result }
    {
        MatchingCall::open(alloc, header, &request, turns)
    }
}

/// A client of the devices behind one TCP link, which drops the responses of other transactions and units.
pub type MatchingClient<L> = LinkClient<OwnAdus, L>;

/// A client of a unit identifier over a link, which drops the responses of other transactions and units. It keeps the allocator, and
/// takes no memory yet.
pub fn attach_matching<L: Link>(alloc: Global, link: L, slave: Slave) -> MatchingClient<L>
    ensures { result ≡ attached_client tcp_heading link slave.0 }
{
    MatchingClient::attach_slave(alloc, link, slave)
}

/// A client of a unit of the device at an address, or behind the gateway there, which drops the responses of other transactions and
/// units. It connects within `timeout`, as each of its reads and writes then ends. It keeps the allocator, and takes no memory yet.
///
/// # Errors
/// `ConnectFault`, only where the connector's count of faults rose.
pub fn connect_matching<C: Connector>(
    alloc: Global,
    connector: &mut C,
    socket_addr: SocketAddr,
    slave: Slave,
    timeout: Option<Duration>,
) -> std::result::Result<MatchingClient<C::Link>, ConnectFault>
where
    C::Link: Link,
    ensures { Connects (connector_of C.connects C.faults)
        (meaning_of C.Link.input C.Link.output C.Link.line)
        connector.old socket_addr slave.0 timeout result connector.new }
{
    match connector.connect(socket_addr, timeout) {
        Ok(link) => {
            let mut client = attach_matching(alloc, link, slave);
            client.limit(timeout);
            Ok(client)
        }
        Err(Failed) => Err(ConnectFault),
    }
}
