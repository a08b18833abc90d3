//! How a device is asked.
use modbus_frame::Slave;
use std::time::Duration;

/// How a device is asked.
#[derive(Clone, Copy, Debug, PartialEq, Eq)]
pub struct Settings {
    /// Its unit identifier, or slave address.
    pub unit: Slave,
    /// How long a connection, and then an answer, may take.
    pub timeout: Duration,
    /// How often a read is made again over TCP that has no answer. A call on a serial line is made once.
    pub retries: u32,
    /// On a serial line, how long a silence is that ends a frame.
    pub silence: Duration,
    /// The bits a second of a serial line, for the pause between frames; 0 where they are not known.
    pub baud: u32,
    /// Whether the adapter of a serial line gives back what is sent.
    pub has_echo: bool,
}
