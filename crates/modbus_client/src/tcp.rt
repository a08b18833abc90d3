//! Clients of TCP devices (MODBUS Messaging on TCP/IP V1.0b, section 3.1).
ghost use Rattle.std.specs.Prelude.{◌≡◌, ℕ, ◌<◌, List};
ghost use Rattle.modbus_frame.specs.Meaning.{meaning};
ghost use Rattle.modbus_frame.specs.declared.fault.HeaderSeen.{HeaderSeen};
ghost use Rattle.modbus_client.specs.Call.{LooksAs, IsOwn};
ghost use Rattle.modbus_client.specs.Tcp.{tcp_protocol, tcp_heading};
ghost use Rattle.modbus_client.specs.State.{attached_client};
ghost use Rattle.modbus_client.specs.Polled.{OpensPolled};
ghost use Rattle.modbus_link.specs.Line.{meaning_of};
ghost use Rattle.modbus_client.specs.Connects.{Connects, connector_of};

use crate::link_client::LinkClient;
use crate::protocol::{LookError, Protocol, Reply};
pub use crate::transactions::{
    MatchingCall, MatchingClient, OwnAdus, attach_matching, connect_matching, end_of_another,
};
use bytes::BytesMut;
use modbus_frame::tcp::Header;
use modbus_frame::{ConnectFault, EncodeError, Error, HeaderSeen, Request, Slave, TransportError};
use modbus_link::{Connector, Failed, Link};
use modbus_tcp::{ClientCodec, TcpError, TransactionIds, encode_request_adu};
use std::alloc::Global;
use std::net::SocketAddr;
use std::time::Duration;

/// The ADUs of a TCP stream.
#[derive(Drop)]
pub struct Adus {
    codec: ClientCodec,
}

impl Adus {
    /// Takes off the ADU at the front of the held bytes. `None` where it is not whole.
    ///
    /// # Errors
    /// `Broken` for a header that tells no ADU of Modbus, `Refused` where the PDU is no response, `NoMemory` where memory is refused for a
    /// PDU that carries a list or bytes.
    pub(crate) fn take_adu(
        &mut self,
        alloc: Global,
        held: &mut BytesMut,
    ) -> std::result::Result<Option<Reply>, LookError>
        ensures own { IsOwn result }
        ensures looks { (asked : HeaderSeen) (cuts : List ℕ)
            → LooksAs tcp_protocol asked held.old.items cuts held.new.items result }
    {
        match self.codec.decode(alloc, held) {
            Ok(None) => Ok(None),
            Ok(Some(adu)) => Ok(Some(Reply {
                header: Self::seen(adu.hdr),
                result: adu.pdu.0,
            })),
            Err(TcpError::InvalidLength) => Err(LookError::Broken(TransportError::InvalidLength)),
            Err(TcpError::InvalidProtocol(protocol)) => {
                Err(LookError::Broken(TransportError::InvalidProtocol(protocol)))
            }
            Err(TcpError::Invalid(reason)) => Err(LookError::Refused(reason)),
            Err(TcpError::NoMemory) => Err(LookError::NoMemory),
        }
    }
}

impl Protocol for Adus {
    type Header = Header;

    type Ids = TransactionIds;

    ghost protocol = { tcp_protocol };

    ghost heading = { tcp_heading };

    ghost dropped_by = { λ adus. 0 };

    fn new() -> Adus {
        Adus {
            codec: ClientCodec::new(),
        }
    }

    fn first_ids() -> TransactionIds {
        TransactionIds::new()
    }

    fn draw(ids: &mut TransactionIds, slave: Slave) -> Header {
        Header {
            transaction_id: ids.next(),
            unit_id: slave.0,
        }
    }

    fn seen(header: Header) -> HeaderSeen {
        HeaderSeen {
            transaction_id: Some(header.transaction_id),
            slave_id: header.unit_id,
        }
    }

    fn encode(
        alloc: Global,
        header: Header,
        request: &Request<'_>,
        buf: &mut BytesMut,
    ) -> std::result::Result<(), EncodeError> {
        encode_request_adu(alloc, header, request, buf)
    }

    fn look(
        &mut self,
        alloc: Global,
        _asked: HeaderSeen,
        held: &mut BytesMut,
    ) -> std::result::Result<Option<Reply>, LookError> {
        self.take_adu(alloc, held)
    }

    fn dropped(&self) -> u64 {
        0
    }

    fn laws() {
        modbus_tcp::laws::one_front();
        modbus_tcp::laws::adu_stays();
        modbus_tcp::laws::adus_go_on();
    }
}

/// A call of a device behind a TCP link that may not be ready.
pub type PolledCall = crate::polled::PolledCall<Adus>;

impl PolledCall {
    /// A call that asks this request under a header, with at most `turns` reads that give bytes. It keeps the allocator, and has written
    /// nothing yet.
    ///
    /// # Errors
    /// `RequestTooLong` with the size of the PDU in bytes, exactly where that is above 253. `NoMemory` where memory is refused.
    pub fn new(
        alloc: Global,
        header: Header,
        request: Request<'_>,
        turns: u64,
    ) -> std::result::Result<PolledCall, Error>
        ensures { OpensPolled tcp_protocol header (meaning request.entry) turns result }
    {
        PolledCall::open(alloc, header, &request, turns)
    }
}

/// A client of the devices behind one TCP link.
pub type Client<L> = LinkClient<Adus, L>;

/// A client of unit identifier 255 over a link. It keeps the allocator, and takes no memory yet.
pub fn attach<L: Link>(alloc: Global, link: L) -> Client<L>
    ensures { result ≡ attached_client tcp_heading link 255 }
{
    attach_slave(alloc, link, Slave::tcp_device())
}

/// A client of a unit identifier over a link. It keeps the allocator, and takes no memory yet.
pub fn attach_slave<L: Link>(alloc: Global, link: L, slave: Slave) -> Client<L>
    ensures { result ≡ attached_client tcp_heading link slave.0 }
{
    Client::attach_slave(alloc, link, slave)
}

/// A client of unit 255 of the device at an address. It keeps the allocator, and takes no memory yet.
///
/// # Errors
/// `ConnectFault`, only where the connector's count of faults rose.
pub fn connect<C: Connector>(
    alloc: Global,
    connector: &mut C,
    socket_addr: SocketAddr,
) -> std::result::Result<Client<C::Link>, ConnectFault>
where
    C::Link: Link,
    ensures { Connects (connector_of C.connects C.faults)
        (meaning_of C.Link.input C.Link.output C.Link.line)
        connector.old socket_addr 255 None result connector.new }
{
    connect_slave(alloc, connector, socket_addr, Slave::tcp_device())
}

/// A client of a unit of the device at an address, or behind the gateway there. It keeps the allocator, and takes no memory yet.
///
/// # Errors
/// `ConnectFault`, only where the connector's count of faults rose.
pub fn connect_slave<C: Connector>(
    alloc: Global,
    connector: &mut C,
    socket_addr: SocketAddr,
    slave: Slave,
) -> std::result::Result<Client<C::Link>, ConnectFault>
where
    C::Link: Link,
    ensures { Connects (connector_of C.connects C.faults)
        (meaning_of C.Link.input C.Link.output C.Link.line)
        connector.old socket_addr slave.0 None result connector.new }
{
    connect_slave_with_timeout(alloc, connector, socket_addr, slave, None)
}

/// A client of unit 255 of the device at an address, which connects within `timeout`, as each of its reads and writes then ends. It
/// keeps the allocator, and takes no memory yet.
///
/// # Errors
/// `ConnectFault`, only where the connector's count of faults rose.
pub fn connect_with_timeout<C: Connector>(
    alloc: Global,
    connector: &mut C,
    socket_addr: SocketAddr,
    timeout: Option<Duration>,
) -> std::result::Result<Client<C::Link>, ConnectFault>
where
    C::Link: Link,
    ensures { Connects (connector_of C.connects C.faults)
        (meaning_of C.Link.input C.Link.output C.Link.line)
        connector.old socket_addr 255 timeout result connector.new }
{
    connect_slave_with_timeout(alloc, connector, socket_addr, Slave::tcp_device(), timeout)
}

/// A client of a unit of the device at an address, or behind the gateway there, which connects within `timeout`, as each of its reads
/// and writes then ends. It keeps the allocator, and takes no memory yet.
///
/// # Errors
/// `ConnectFault`, only where the connector's count of faults rose.
pub fn connect_slave_with_timeout<C: Connector>(
    alloc: Global,
    connector: &mut C,
    socket_addr: SocketAddr,
    slave: Slave,
    timeout: Option<Duration>,
) -> std::result::Result<Client<C::Link>, ConnectFault>
where
    C::Link: Link,
    ensures { Connects (connector_of C.connects C.faults)
        (meaning_of C.Link.input C.Link.output C.Link.line)
        connector.old socket_addr slave.0 timeout result connector.new }
{
    match connector.connect(socket_addr, timeout) {
        Ok(link) => {
            let mut client = attach_slave(alloc, link, slave);
            client.limit(timeout);
            Ok(client)
        }
        Err(Failed) => Err(ConnectFault),
    }
}
