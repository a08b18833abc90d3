//! New links.
ghost use Rattle.modbus_link.specs.Line.{meaning_of};
ghost use Rattle.modbus_client.specs.Connects.{connector_of};
ghost use Rattle.modbus_reconnect.specs.State.{meaning_by};
ghost use Rattle.modbus_reconnect.specs.Tries.{OpensClient};

use modbus_client::{LinkClient, Protocol};
use modbus_frame::Slave;
use modbus_link::{Connector, Failed, Link};
use std::alloc::Global;
use std::net::SocketAddr;
use std::time::Duration;

/// A client of a new link to an address, with these settings. It takes no memory.
///
/// # Errors
/// `Failed`, only where the connector's count of faults rose.
pub(crate) fn open<P: Protocol, C: Connector>(
    alloc: Global,
    connector: &mut C,
    address: SocketAddr,
    slave: Slave,
    turns: u64,
    timeout: Option<Duration>,
) -> std::result::Result<LinkClient<P, C::Link>, Failed>
where
    C::Link: Link,
    ensures { OpensClient (meaning_by P.protocol P.heading (connector_of C.connects C.faults)
        (meaning_of C.Link.input C.Link.output C.Link.line))
        connector.old address (record { slave = slave.0; turns = turns; timeout = timeout })
        result connector.new }
{
    match connector.connect(address, timeout) {
        Ok(mut link) => {
            link.set_timeout(timeout);
            let mut client = LinkClient::attach_slave(alloc, link, slave);
            client.set_turns(turns);
            Ok(client)
        }
        Err(failed) => Err(failed),
    }
}
