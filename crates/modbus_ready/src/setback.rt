//! What an error of a socket that does not block comes to.
ghost use Rattle.std.specs.Prelude.{◌≡◌, ◌↔◌, IsTrue};
ghost use Rattle.modbus_ready.specs.Setbacks.{IsManyFiles, setback_of, setback_of_accept};

use std::io::{Error, ErrorKind};

/// The number of the error of a system call that the process has as many files open as it may (EMFILE).
const MANY_FILES: i32 = 24;

/// What an error of a call comes to.
#[derive(Clone, Copy, Debug, PartialEq, Eq, Drop)]
pub(crate) enum Setback {
    /// The call is made again at once, as where a signal interrupted it.
    Again,
    /// The socket is not ready.
    NotReady,
    /// The socket failed.
    Failed,
}

/// What an error of this kind comes to, of a wait, a read or a write.
pub(crate) fn setback_of(kind: ErrorKind) -> Setback
    ensures { result ≡ setback_of kind }
{
    match kind {
        ErrorKind::Interrupted => Setback::Again,
        ErrorKind::WouldBlock => Setback::NotReady,
        _ => Setback::Failed,
    }
}

/// The same of an accept, where a peer may give its connection up before it is accepted: the next one is accepted.
pub(crate) fn setback_of_accept(kind: ErrorKind) -> Setback
    ensures { result ≡ setback_of_accept kind }
{
    match kind {
        ErrorKind::ConnectionAborted => Setback::Again,
        other => setback_of(other),
    }
}

/// Whether a call failed since the process has as many files open as it may.
pub(crate) fn is_many_files(error: &Error) -> bool
    ensures { IsTrue result ↔ IsManyFiles error.now }
{
    match error.raw_os_error() {
        Some(number) => number == MANY_FILES,
        None => false,
    }
}
