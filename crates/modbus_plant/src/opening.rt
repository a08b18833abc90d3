//! Clients of devices, by the link that each is reached by.
ghost use Rattle.std.specs.Prelude.{◌≡◌, ◌*◌, IfOk, IfErr};
ghost use Rattle.std.specs.Duration.{as_nanos};
ghost use Rattle.modbus_adapter.specs.Paced.{pause_micros};
ghost use Rattle.modbus_plant.specs.Opened.{line_deadline, IsTcpClient, IsRtuClient, IsSerialClient, IsEchoedClient, IsOnLine, IsClientBy};
ghost use Rattle.modbus_plant.specs.Unopened.{IsSpelled, IsNoAddress, IsOfLookup, IsAddressOf, IsWhyNoAddress, IsWhyNoPort, IsWhyUnopened, IsReachedBy};

use crate::connector::{TellingConnector, TellingWatcher};
use crate::host::host_and_port;
use crate::linked_client::LinkedClient;
use crate::open_error::OpenError;
use crate::settings::Settings;
use modbus_adapter::{
    DeadlineClient, DeadlineConnector, DeadlineLine, DeadlineSerialClient, EchoedLink, PacedLink,
    pause_of,
};
use modbus_client::Client;
use modbus_idle::PortLine;
use modbus_link::{ReadSource, WriteSink};
use modbus_map::LinkKind;
use modbus_reconnect::{Resend, RtuOverTcpClient, SerialClient, TcpClient};
use std::alloc::AllocGlobal;
use std::fs::{File, Files};
use std::io::IsTerminal;
use std::net::{Net, SocketAddr, TcpStream, ToSocketAddrs};
use std::os::fd::AsRawFd;
use std::time::{Clock, Duration};

/// How many bytes of a serial line in doubt are dropped until it is silent.
const NOISE: usize = 4096;

/// How many reads of a call on a serial line may give bytes: four times as many as the longest frame has bytes.
const TURNS: u64 = 1024;

/// A client of a Modbus TCP device.
pub type TcpDevice<'r, R> = TcpClient<DeadlineConnector<'r, R, TellingConnector<'r, R>>>;

/// A client of a device behind a connection that carries RTU frames.
pub type RtuDevice<'r, R> = RtuOverTcpClient<DeadlineConnector<'r, R, TellingWatcher<'r, R>>>;

/// A serial line that keeps a pause between frames.
pub type Port<'r, R> = PacedLink<'r, R, PortLine<ReadSource<File>, WriteSink<File>>>;

/// A client of a device on a serial line.
pub type SerialDevice<'r, R> = DeadlineSerialClient<'r, R, Port<'r, R>>;

/// The same where the adapter gives back what is sent.
pub type EchoedDevice<'r, R> = DeadlineSerialClient<'r, R, EchoedLink<Port<'r, R>>>;

/// A client of a device, by the link that it is reached by.
pub type DeviceClient<'r, R> = LinkedClient<
    TcpDevice<'r, R>,
    RtuDevice<'r, R>,
    SerialDevice<'r, R>,
    EchoedDevice<'r, R>,
>;

/// The first address that the system knows of a host, with a port.
///
/// # Errors
/// `Address` and `NoAddress`, neither of which comes for a host that is an address itself.
fn first_address<R: Net>(rt: &R, host: &str, port: u16) -> Result<SocketAddr, OpenError>
    ensures address { IfOk result (IsSpelled host.now port) }
    ensures why { IfErr result IsOfLookup }
    ensures unspelled { IfErr result (λ error. IsNoAddress host.now) }
{
    match (host, port).to_socket_addrs(rt) {
        Ok(mut addresses) => match addresses.next() {
            Some(address) => Ok(address),
            None => Err(OpenError::NoAddress),
        },
        Err(error) => Err(OpenError::Address(error)),
    }
}

/// The first address of the host that a word names.
///
/// # Errors
/// `Host` where it names none; else those of `first_address`.
fn address_of<R: Net>(rt: &R, word: &str) -> Result<SocketAddr, OpenError>
    ensures address { IfOk result (IsAddressOf word.now) }
    ensures why { IfErr result (IsWhyNoAddress word.now) }
{
    let Some((host, port)) = host_and_port(word) else {
        return Err(OpenError::Host);
    };
    first_address(rt, host, port)
}

/// A client of a Modbus TCP device at this address.
fn tcp_client<'r, R: Net<Stream = TcpStream> + Clock + AllocGlobal + Sync>(
    rt: &'r R,
    address: SocketAddr,
    settings: &Settings,
) -> TcpDevice<'r, R>
    ensures client { IsTcpClient settings.now result }
    ensures address { result.address ≡ address }
{
    let limit = Some(settings.timeout);
    let connector = DeadlineConnector::new(rt, TellingConnector::new(rt), limit);
    let mut client = TcpClient::new(rt.alloc(), connector, address, settings.unit);
    client.set_timeout(limit);
    client.set_retries(settings.retries, Resend::Reads);
    client
}

/// A client of a device behind a connection to this address that carries RTU frames.
fn rtu_client<'r, R: Net<Stream = TcpStream> + Clock + AllocGlobal + Sync>(
    rt: &'r R,
    address: SocketAddr,
    settings: &Settings,
) -> RtuDevice<'r, R>
    ensures client { IsRtuClient settings.now result }
    ensures address { result.address ≡ address }
{
    let limit = Some(settings.timeout);
    let connector = DeadlineConnector::new(rt, TellingWatcher::new(rt), limit);
    let mut client = RtuOverTcpClient::new(rt.alloc(), connector, address, settings.unit);
    client.set_timeout(limit);
    client.set_retries(settings.retries, Resend::Reads);
    client
}

/// The line of a serial port.
///
/// # Errors
/// `File` with what the system said, `NoTerminal` where the file is none.
fn open_port<'r, R: Net + Clock + Files<File = File> + AllocGlobal>(
    rt: &'r R,
    path: &str,
    settings: &Settings,
) -> Result<Port<'r, R>, OpenError>
    ensures pause { IfOk result (λ port.
        as_nanos port.pause ≡ pause_micros settings.now.baud * 1_000) }
    ensures why { IfErr result IsWhyNoPort }
{
    let reader = match File::options().read(true).write(true).open(rt, path) {
        Ok(file) => file,
        Err(error) => return Err(OpenError::File(error)),
    };
    if !reader.is_terminal() {
        return Err(OpenError::NoTerminal);
    }
    let writer = match reader.try_clone() {
        Ok(file) => file,
        Err(error) => return Err(OpenError::File(error)),
    };
    let fd = reader.as_raw_fd();
    let (source, sink) = (ReadSource::new(reader), WriteSink::new(writer));
    let line = PortLine::new(rt, source, sink, fd, settings.silence);
    Ok(PacedLink::new(rt, line, pause_of(settings.baud)))
}

/// How long a call on a line may take: to let the line fall silent, to send, and to wait for the answer, as long as an answer may take each.
fn line_deadline(settings: &Settings) -> Duration
    ensures { as_nanos result ≡ line_deadline settings.now }
{
    settings.timeout.saturating_mul(3)
}

/// A client of a device on this line.
fn serial_client<'r, R: Clock + AllocGlobal + Sync>(
    rt: &'r R,
    port: Port<'r, R>,
    settings: &Settings,
) -> SerialDevice<'r, R>
    ensures { IsSerialClient settings.now port.entry result }
{
    let line = DeadlineLine::new(rt, port, Some(line_deadline(settings)));
    let mut client = SerialClient::new(rt.alloc(), line, settings.unit, settings.silence);
    client.set_timeout(Some(settings.timeout));
    client.set_quiet(settings.timeout, NOISE);
    client.set_turns(TURNS);
    DeadlineClient::new(client)
}

/// A client of a device on this line, whose adapter gives back what is sent.
fn echoed_client<'r, R: Clock + AllocGlobal + Sync>(
    rt: &'r R,
    port: Port<'r, R>,
    settings: &Settings,
) -> EchoedDevice<'r, R>
    ensures { IsEchoedClient settings.now port.entry result }
{
    let mut echoed = EchoedLink::new(port);
    echoed.set_echo(true);
    let line = DeadlineLine::new(rt, echoed, Some(line_deadline(settings)));
    let mut client = SerialClient::new(rt.alloc(), line, settings.unit, settings.silence);
    client.set_timeout(Some(settings.timeout));
    client.set_quiet(settings.timeout, NOISE);
    client.set_turns(TURNS);
    DeadlineClient::new(client)
}

/// A client of a device on the serial line of this file.
fn open_serial<'r, R: Net<Stream = TcpStream> + Clock + Files<File = File> + AllocGlobal + Sync>(
    rt: &'r R,
    path: &str,
    settings: &Settings,
) -> Result<DeviceClient<'r, R>, OpenError>
    ensures client { IfOk result (IsOnLine settings.now) }
    ensures why { IfErr result IsWhyNoPort }
{
    let port = match open_port(rt, path, settings) {
        Ok(port) => port,
        Err(error) => return Err(error),
    };
    if settings.has_echo {
        Ok(LinkedClient::Echoed(echoed_client(rt, port, settings)))
    } else {
        Ok(LinkedClient::Serial(serial_client(rt, port, settings)))
    }
}

/// A client of the device that is reached so, with these settings. It is not connected yet, and a serial line is in doubt at first; the file
/// of a serial port is open.
///
/// # Errors
/// `Host` where a link over TCP names none. `Address` with what the system said where it knows no address of the host, and `NoAddress` where
/// the host has none; neither comes for a host that is an address itself. `File` with what the system said where the file of a serial port
/// can't be opened, and `NoTerminal` where it is no terminal. Whether a terminal is raw can't be told: where it is not, no answer comes.
pub fn open_device<
    'r,
    R: Net<Stream = TcpStream> + Clock + Files<File = File> + AllocGlobal + Sync,
>(rt: &'r R, link: &LinkKind, settings: Settings) -> Result<DeviceClient<'r, R>, OpenError>
    ensures client { IfOk result (IsClientBy link.now settings) }
    ensures reached { IfOk result (IsReachedBy link.now) }
    ensures why { IfErr result (IsWhyUnopened link.now) }
{
    match link {
        LinkKind::Tcp(host) => match address_of(rt, host.as_str()) {
            Ok(address) => Ok(LinkedClient::Tcp(tcp_client(rt, address, &settings))),
            Err(error) => Err(error),
        },
        LinkKind::RtuOverTcp(host) => match address_of(rt, host.as_str()) {
            Ok(address) => Ok(LinkedClient::RtuOverTcp(rtu_client(rt, address, &settings))),
            Err(error) => Err(error),
        },
        LinkKind::Serial(path) => open_serial(rt, path.as_str(), &settings),
    }
}
