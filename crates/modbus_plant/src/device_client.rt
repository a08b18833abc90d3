//! What is told of the client of a device, and set for its later calls.
ghost use Rattle.std.specs.Prelude.{◌≡◌};
ghost use Rattle.modbus_plant.specs.Opened.{refusal_of, SetsRetries};

use crate::linked_client::LinkedClient;
use crate::opening::{EchoedDevice, RtuDevice, SerialDevice, TcpDevice};
use modbus_reconnect::Resend;
use std::alloc::AllocGlobal;
use std::io::ErrorKind;
use std::net::{Net, TcpStream};
use std::time::Clock;

impl<'r, R: Net<Stream = TcpStream> + Clock + AllocGlobal + Sync> LinkedClient<
    TcpDevice<'r, R>,
    RtuDevice<'r, R>,
    SerialDevice<'r, R>,
    EchoedDevice<'r, R>,
> {
    /// How often a call over TCP may try again from then on, and which requests may be sent again for that. A call on a serial line is made
    /// once in any case.
    pub fn set_retries(&mut self, retries: u32, resend: Resend)
        ensures { SetsRetries self.old retries resend self.new }
    {
        match self {
            LinkedClient::Tcp(client) => client.set_retries(retries, resend),
            LinkedClient::RtuOverTcp(client) => client.set_retries(retries, resend),
            LinkedClient::Serial(_) => {}
            LinkedClient::Echoed(_) => {}
        }
    }

    /// What the system said when the last connection failed that did; none on a serial line.
    pub fn refusal(&self) -> Option<ErrorKind>
        ensures { result ≡ refusal_of self.now }
    {
        match self {
            LinkedClient::Tcp(client) => client.connector().connector().refusal(),
            LinkedClient::RtuOverTcp(client) => client.connector().connector().refusal(),
            LinkedClient::Serial(_) => None,
            LinkedClient::Echoed(_) => None,
        }
    }
}
