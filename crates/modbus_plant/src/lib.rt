//! What a program asks of the devices of a plant's map: a client for each, whatever link it is reached by, and the writing of its points.
//!
//! `open_device` gives a `DeviceClient`, which is a client of a Modbus TCP device, of a slave behind a connection that carries RTU frames,
//! or of a slave of a serial line. `write_point` writes the value that a text stands for by one request, `verify_point` reads back what
//! was written, and `write_verified` does both. The standard is the Modbus Application Protocol V1.1b3, which is meant by every section
//! that is named here.
#![tactic(auto)]

mod connector;
mod device_client;
mod host;
mod linked_client;
mod open_error;
mod opening;
mod point_error;
mod settings;
mod stty;
mod verify;
mod write;

pub use crate::connector::{Refusals, TellingConnector, TellingWatcher};
pub use crate::host::host_and_port;
pub use crate::linked_client::LinkedClient;
pub use crate::open_error::OpenError;
pub use crate::opening::{
    DeviceClient, EchoedDevice, Port, RtuDevice, SerialDevice, TcpDevice, open_device,
};
pub use crate::point_error::{PointWriteError, ReadBackError, VerifiedWriteError};
pub use crate::settings::Settings;
pub use crate::stty::SttyCommand;
pub use crate::verify::{verify_point, write_verified};
pub use crate::write::{words_at, write_point, write_words};
