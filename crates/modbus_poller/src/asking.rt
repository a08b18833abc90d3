//! The clients of a plant's devices, and what stood when a call of one failed.

use crate::fault::Circumstances;
use modbus_client::Client;
use modbus_frame::SlaveContext;
use modbus_lines::{Format, Points, Polled, poll};
use modbus_map::{LinkKind, TableError};
use modbus_plant::{
    EchoedDevice, LinkedClient, OpenError, RtuDevice, SerialDevice, Settings, SttyCommand,
    TcpDevice, open_device,
};
use modbus_reconnect::Resend;
use std::alloc::Global;
use std::io::ErrorKind;
use std::time::{Duration, Instant};

/// What the poller asks of the client of a device.
pub trait PlantClient: Drop {
    /// Makes the reads of a device's points by these settings, each once, and gives what they tell.
    ///
    /// # Errors
    /// Those of [`poll`].
    fn poll_points<'p>(
        &mut self,
        alloc: Global,
        settings: Settings,
        points: &'p Points,
        format: Format,
    ) -> Result<Polled<'p>, TableError>;

    /// What the system said when the last connection failed.
    fn last_refusal(&self) -> Option<ErrorKind>;

    /// Closes the connection.
    fn close(&mut self);
}

/// A client of a device, whatever link it is reached by.
pub type DeviceClient<'r> = modbus_plant::DeviceClient<'r, HostRuntime>;

/// Polls over Modbus TCP.
fn poll_tcp<'p>(
    alloc: Global,
    client: &mut TcpDevice<'_, HostRuntime>,
    points: &'p Points,
    format: Format,
) -> Result<Polled<'p>, TableError> {
    poll(alloc, client, points, format)
}

/// Polls over a connection that carries RTU frames.
fn poll_rtu<'p>(
    alloc: Global,
    client: &mut RtuDevice<'_, HostRuntime>,
    points: &'p Points,
    format: Format,
) -> Result<Polled<'p>, TableError> {
    poll(alloc, client, points, format)
}

/// Polls on a serial line.
fn poll_serial<'p>(
    alloc: Global,
    client: &mut SerialDevice<'_, HostRuntime>,
    points: &'p Points,
    format: Format,
) -> Result<Polled<'p>, TableError> {
    poll(alloc, client, points, format)
}

/// Polls on a serial line whose adapter gives back what is sent.
fn poll_echoed<'p>(
    alloc: Global,
    client: &mut EchoedDevice<'_, HostRuntime>,
    points: &'p Points,
    format: Format,
) -> Result<Polled<'p>, TableError> {
    poll(alloc, client, points, format)
}

impl PlantClient for DeviceClient<'_> {
    fn poll_points<'p>(
        &mut self,
        alloc: Global,
        settings: Settings,
        points: &'p Points,
        format: Format,
    ) -> Result<Polled<'p>, TableError> {
        self.set_slave(settings.unit);
        self.set_timeout(Some(settings.timeout));
        self.set_retries(settings.retries, Resend::Reads);
        match self {
            LinkedClient::Tcp(client) => poll_tcp(alloc, client, points, format),
            LinkedClient::RtuOverTcp(client) => poll_rtu(alloc, client, points, format),
            LinkedClient::Serial(client) => poll_serial(alloc, client, points, format),
            LinkedClient::Echoed(client) => poll_echoed(alloc, client, points, format),
        }
    }

    fn last_refusal(&self) -> Option<ErrorKind> {
        self.refusal()
    }

    fn close(&mut self) {
        let _ = self.disconnect();
    }
}

/// What opens links to devices.
pub trait Opener<C> {
    /// A client of the device that is reached so, with these settings.
    ///
    /// # Errors
    /// Those of [`open_device`].
    fn open(&self, link: &LinkKind, settings: Settings) -> Result<C, OpenError>;
}

/// What opens the links of this machine.
#[derive(Drop)]
pub struct HostOpener<'r>(pub &'r HostRuntime);

impl<'r> Opener<DeviceClient<'r>> for HostOpener<'r> {
    fn open(&self, link: &LinkKind, settings: Settings) -> Result<DeviceClient<'r>, OpenError> {
        open_device(self.0, link, settings)
    }
}

/// So many milliseconds.
fn millis_of(limit: Duration) -> u64 {
    u64::try_from(limit.as_millis()).unwrap_or(u64::MAX)
}

/// The bits a second of most devices as they are sold, which are told where none are known.
const USUAL_BAUD: u32 = 9600;

/// What sets the port of a serial line.
fn stty_of(link: &LinkKind, baud: u32) -> Option<SttyCommand<'_>> {
    match link {
        LinkKind::Serial(path) => Some(SttyCommand {
            path: path.as_str(),
            baud: if baud == 0 { USUAL_BAUD } else { baud },
        }),
        LinkKind::Tcp(_) | LinkKind::RtuOverTcp(_) => None,
    }
}

/// What stands when a call over this link has failed that began at this time.
pub fn circumstances<'l, C: PlantClient>(
    rt: &HostRuntime,
    client: &C,
    link: &'l LinkKind,
    settings: Settings,
    began: Instant,
) -> Circumstances<'l> {
    let took = began.elapsed(rt).unwrap_or(Duration::ZERO);
    Circumstances {
        refusal: client.last_refusal(),
        limit: millis_of(settings.timeout),
        is_late: took >= settings.timeout,
        port: stty_of(link, settings.baud),
    }
}
