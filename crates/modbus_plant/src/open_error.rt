//! Why a device has no client.
use std::io::{self, ErrorKind};
use thiserror::Error;

/// Why a device has no client.
#[derive(Debug, Drop, Error)]
pub enum OpenError {
    /// There is no host, or no port up to 65535.
    #[error("no host and port")]
    Host,
    /// The system found no address of the host.
    #[error("{0}")]
    Address(io::Error),
    /// The host has no address.
    #[error("no address of the host")]
    NoAddress,
    /// The file of the serial port is not opened.
    #[error("{0}")]
    File(io::Error),
    /// The file is no serial port: it is no terminal.
    #[error("no serial port")]
    NoTerminal,
}

impl From<OpenError> for io::Error {
    fn from(error: OpenError) -> io::Error {
        match error {
            OpenError::Address(error) | OpenError::File(error) => error,
            OpenError::Host => io::Error::new(ErrorKind::InvalidInput, "no host and port"),
            OpenError::NoAddress => io::Error::new(ErrorKind::NotFound, "no address of the host"),
            OpenError::NoTerminal => io::Error::new(ErrorKind::InvalidInput, "no serial port"),
        }
    }
}
