//! Writes that are made in one try each: where the answer of one is late, nobody can tell whether the device did it.
ghost use Rattle.std.specs.Prelude.{◌≡◌};

use crate::asking::{DeviceClient, PlantClient};
use modbus_adapter::DeadlineSerialClient;
use modbus_client::{Client, IdleLink, Writer};
use modbus_frame::{Address, Coil, Result, Word};
use modbus_link::{Connector, Link, TimedLink};
use modbus_map::Point;
use modbus_plant::{
    EchoedDevice, LinkedClient, RtuDevice, SerialDevice, TcpDevice, VerifiedWriteError,
    write_point, write_verified,
};
use modbus_reconnect::{Resend, RtuOverTcpClient, TcpClient};
use std::alloc::Global;

/// A device that can be written to in one try each.
trait OnceDevice {
    /// Writes registers in one try: one by function code 06, several by 16 (V1.1b3, sections 6.6 and 6.12).
    fn registers_once(&mut self, first: Address, values: &[Word]) -> Result<()>;

    /// Writes coils in one try: one by function code 05, several by 15 (V1.1b3, sections 6.5 and 6.11).
    fn coils_once(&mut self, first: Address, states: &[Coil]) -> Result<()>;
}

impl<C: Connector + Send + Drop> OnceDevice for TcpClient<C>
where
    C::Link: Link + Send + Drop,
{
    fn registers_once(&mut self, first: Address, values: &[Word]) -> Result<()>
        ensures { self.new.tries ≡ 1 }
    {
        let client = self;
        client.set_retries(0, Resend::Never);
        match values {
            [value] => client.write_single_register(first, *value),
            values => client.write_multiple_registers(first, values),
        }
    }

    fn coils_once(&mut self, first: Address, states: &[Coil]) -> Result<()>
        ensures { self.new.tries ≡ 1 }
    {
        self.set_retries(0, Resend::Never);
        match states {
            [state] => self.write_single_coil(first, *state),
            states => self.write_multiple_coils(first, states),
        }
    }
}

impl<C: Connector + Send + Drop> OnceDevice for RtuOverTcpClient<C>
where
    C::Link: Link + IdleLink + Send + Drop,
{
    fn registers_once(&mut self, first: Address, values: &[Word]) -> Result<()>
        ensures { self.new.tries ≡ 1 }
    {
        let slave = self;
        slave.set_retries(0, Resend::Never);
        match values {
            [value] => slave.write_single_register(first, *value),
            values => slave.write_multiple_registers(first, values),
        }
    }

    fn coils_once(&mut self, first: Address, states: &[Coil]) -> Result<()>
        ensures { self.new.tries ≡ 1 }
    {
        self.set_retries(0, Resend::Never);
        match states {
            [state] => self.write_single_coil(first, *state),
            states => self.write_multiple_coils(first, states),
        }
    }
}

/// A call on a serial line is never made again.
impl<L: TimedLink + IdleLink + Send + Drop> OnceDevice
    for DeadlineSerialClient<'_, HostRuntime, L> {
    fn registers_once(&mut self, first: Address, values: &[Word]) -> Result<()> {
        match values {
            [value] => self.write_single_register(first, *value),
            values => self.write_multiple_registers(first, values),
        }
    }

    fn coils_once(&mut self, first: Address, states: &[Coil]) -> Result<()> {
        match states {
            [state] => self.write_single_coil(first, *state),
            states => self.write_multiple_coils(first, states),
        }
    }
}

impl<T: OnceDevice, R: OnceDevice, S: OnceDevice, E: OnceDevice> OnceDevice
    for LinkedClient<T, R, S, E> {
    fn registers_once(&mut self, first: Address, values: &[Word]) -> Result<()> {
        match self {
            LinkedClient::Tcp(device) => device.registers_once(first, values),
            LinkedClient::RtuOverTcp(device) => device.registers_once(first, values),
            LinkedClient::Serial(device) => device.registers_once(first, values),
            LinkedClient::Echoed(device) => device.registers_once(first, values),
        }
    }

    fn coils_once(&mut self, first: Address, states: &[Coil]) -> Result<()> {
        match self {
            LinkedClient::Tcp(device) => device.coils_once(first, states),
            LinkedClient::RtuOverTcp(device) => device.coils_once(first, states),
            LinkedClient::Serial(device) => device.coils_once(first, states),
            LinkedClient::Echoed(device) => device.coils_once(first, states),
        }
    }
}

/// A client that can write in one try each.
pub trait OnceWriter: PlantClient {
    /// Writes registers in one try: one by function code 06, several by 16 (V1.1b3, sections 6.6 and 6.12).
    fn write_registers_once(&mut self, first: Address, values: &[Word]) -> Result<()>;

    /// Writes coils in one try: one by function code 05, several by 15 (V1.1b3, sections 6.5 and 6.11).
    fn write_coils_once(&mut self, first: Address, states: &[Coil]) -> Result<()>;

    /// Writes the value of a text at a point in one try, and reads the point back where that is wanted.
    ///
    /// # Errors
    /// Those of [`write_verified`].
    fn write_point_once(
        &mut self,
        alloc: Global,
        value: PointText<'_>,
    ) -> std::result::Result<(), VerifiedWriteError>;
}

/// What is written at a point.
#[derive(Clone, Copy)]
pub struct PointText<'a> {
    /// The point.
    pub point: &'a Point,
    /// The text of its value.
    pub text: &'a str,
    /// Whether the point is read back.
    pub is_verified: bool,
}

/// Writes by a client, in as many tries as it makes of a call.
fn write_by<C: Client>(
    alloc: Global,
    client: &mut C,
    value: PointText<'_>,
) -> std::result::Result<(), VerifiedWriteError> {
    if value.is_verified {
        return write_verified(alloc, client, value.point, value.text);
    }
    match write_point(alloc, client, value.point, value.text) {
        Ok(()) => Ok(()),
        Err(error) => Err(VerifiedWriteError::Write(error)),
    }
}

/// Writes over Modbus TCP.
fn write_tcp(
    alloc: Global,
    client: &mut TcpDevice<'_, HostRuntime>,
    value: PointText<'_>,
) -> std::result::Result<(), VerifiedWriteError> {
    write_by(alloc, client, value)
}

/// Writes over a connection that carries RTU frames.
fn write_rtu(
    alloc: Global,
    client: &mut RtuDevice<'_, HostRuntime>,
    value: PointText<'_>,
) -> std::result::Result<(), VerifiedWriteError> {
    write_by(alloc, client, value)
}

/// Writes on a serial line.
fn write_serial(
    alloc: Global,
    client: &mut SerialDevice<'_, HostRuntime>,
    value: PointText<'_>,
) -> std::result::Result<(), VerifiedWriteError> {
    write_by(alloc, client, value)
}

/// Writes on a serial line whose adapter gives back what is sent.
fn write_echoed(
    alloc: Global,
    client: &mut EchoedDevice<'_, HostRuntime>,
    value: PointText<'_>,
) -> std::result::Result<(), VerifiedWriteError> {
    write_by(alloc, client, value)
}

impl OnceWriter for DeviceClient<'_> {
    fn write_registers_once(&mut self, first: Address, values: &[Word]) -> Result<()> {
        self.registers_once(first, values)
    }

    fn write_coils_once(&mut self, first: Address, states: &[Coil]) -> Result<()> {
        self.coils_once(first, states)
    }

    fn write_point_once(
        &mut self,
        alloc: Global,
        value: PointText<'_>,
    ) -> std::result::Result<(), VerifiedWriteError> {
        self.set_retries(0, Resend::Never);
        match self {
            LinkedClient::Tcp(client) => write_tcp(alloc, client, value),
            LinkedClient::RtuOverTcp(client) => write_rtu(alloc, client, value),
            LinkedClient::Serial(client) => write_serial(alloc, client, value),
            LinkedClient::Echoed(client) => write_echoed(alloc, client, value),
        }
    }
}
