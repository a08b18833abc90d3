//! Why a device is away, and why the program ends.

use modbus_frame::{Error, TransportError};
use std::alloc::{AllocError, AllocFailed};
use std::{fmt, io};

/// The errors of the system where no file descriptor is left: for all programs, and for this one.
const ENFILE: i32 = 23;

const EMFILE: i32 = 24;

/// Why a device is away.
#[derive(Clone, Copy, Debug, PartialEq, Eq)]
pub enum Why {
    /// The system gives the program no more connections.
    NoFiles,
    /// Nothing listens there, or the network refuses it.
    NoConnection,
    /// No answer came in time.
    NoAnswer,
    /// The device closed or reset the connection before its answer.
    Broken,
    /// What it answered is no answer to its read.
    Other,
    /// Memory was refused for its answer.
    NoMemory,
}

impl Why {
    /// It in words.
    pub fn text(self) -> &'static str {
        match self {
            Why::NoFiles => "too many open files",
            Why::NoConnection => "no connection",
            Why::NoAnswer => "no answer in time",
            Why::Broken => "the connection broke before the answer",
            Why::Other => "no answer to its read came",
            Why::NoMemory => "no memory",
        }
    }
}

/// Why there is no connection.
pub fn why_unconnected(error: &io::Error) -> Why {
    match error.raw_os_error() {
        Some(ENFILE | EMFILE) => Why::NoFiles,
        _ => Why::NoConnection,
    }
}

/// Why there is no answer.
pub fn why_unanswered(error: &Error) -> Why {
    match error {
        Error::Transport(TransportError::NotConnected | TransportError::WriteFault) =>
            Why::NoConnection,
        Error::Transport(
            TransportError::ReadFault | TransportError::BrokenPipe | TransportError::BytesRemaining,
        ) => Why::Broken,
        Error::NoMemory => Why::NoMemory,
        _ => Why::Other,
    }
}

/// Why the program ends.
#[derive(Clone, Copy, Debug)]
pub enum Fault {
    /// Memory was refused.
    NoMemory,
    /// The output takes no more.
    Output,
    /// There is no clock.
    Clock,
    /// The system can't wait for connections.
    Wait,
    /// A device never answered.
    Unanswered,
}

impl fmt::Display for Fault {
    fn fmt<W: fmt::Write>(&self, f: &mut fmt::Formatter<W>) -> fmt::Result {
        f.write_str(match self {
            Fault::NoMemory => "no memory",
            Fault::Output => "the output takes no more",
            Fault::Clock => "there is no clock",
            Fault::Wait => "the system can't wait for connections",
            Fault::Unanswered => "a device never answered",
        })
    }
}

impl From<AllocError> for Fault {
    fn from(_error: AllocError) -> Self {
        Fault::NoMemory
    }
}

impl<T: Drop> From<AllocFailed<T>> for Fault {
    fn from(_error: AllocFailed<T>) -> Self {
        Fault::NoMemory
    }
}
