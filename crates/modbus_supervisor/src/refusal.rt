//! Why the words ask for nothing that can be done, in one line.

use modbus_command::{FAILED, USAGE};
use modbus_map::MapError;
use modbus_poll::PlanError;
use std::alloc::{AllocError, AllocFailed};
use std::{fmt, io};

/// Why nothing was sent.
#[derive(Drop)]
pub enum Refusal<'a> {
    /// This word cannot be read.
    Word {
        word: &'a str,
        why: &'static str,
    },
    /// This device of the map cannot be polled.
    Device {
        device: String,
        why: &'static str,
    },
    /// The system knows no address of this device.
    Host {
        device: String,
        fault: io::Error,
    },
    /// This file, of a map, cannot be read.
    File {
        path: &'a str,
        fault: io::Error,
    },
    /// This file has no map: the line of what is refused, where it is known.
    Map {
        path: &'a str,
        line: Option<usize>,
        fault: MapError,
    },
    /// Memory was refused.
    NoMemory,
}

impl Refusal<'_> {
    /// The status that tells it.
    pub fn status(&self) -> u8 {
        match self {
            Refusal::NoMemory
            | Refusal::Host { .. }
            | Refusal::Map {
                fault: MapError::NoMemory,
                ..
            } => FAILED,
            _ => USAGE,
        }
    }
}

/// Writes what a word, a device, or the file of a map is told.
fn write_why<W: fmt::Write>(
    f: &mut fmt::Formatter<W>,
    word: &str,
    why: &(impl fmt::Display),
) -> fmt::Result {
    write!(f, "{word}: {why}")
}

/// Writes why a file has no map, with the line where it is known; a fault of TOML tells its own.
fn write_map<W: fmt::Write>(
    f: &mut fmt::Formatter<W>,
    path: &str,
    line: Option<usize>,
    fault: &MapError,
) -> fmt::Result {
    match (line, fault) {
        (Some(line), MapError::Refused { .. }) => write!(f, "{path}: line {line}: {fault}"),
        _ => write_why(f, path, fault),
    }
}

impl fmt::Display for Refusal<'_> {
    fn fmt<W: fmt::Write>(&self, f: &mut fmt::Formatter<W>) -> fmt::Result {
        match self {
            Refusal::Word { word, why } => write_why(f, word, why),
            Refusal::Device { device, why } => write_why(f, device.as_str(), why),
            Refusal::Host { device, fault } => write_why(f, device.as_str(), fault),
            Refusal::File { path, fault } => write_why(f, path, fault),
            Refusal::Map { path, line, fault } => write_map(f, path, *line, fault),
            Refusal::NoMemory => f.write_str("no memory"),
        }
    }
}

impl From<AllocError> for Refusal<'_> {
    fn from(_error: AllocError) -> Self {
        Refusal::NoMemory
    }
}

impl<T: Drop> From<AllocFailed<T>> for Refusal<'_> {
    fn from(_error: AllocFailed<T>) -> Self {
        Refusal::NoMemory
    }
}

impl From<PlanError> for Refusal<'_> {
    fn from(_error: PlanError) -> Self {
        Refusal::NoMemory
    }
}
