//! Which requests may be sent again.
ghost use Rattle.std.specs.Prelude.{◌≡◌};
ghost use Rattle.modbus_frame.specs.Meaning.{meaning};
ghost use Rattle.modbus_reconnect.specs.Resends.{changes_nothing, may_resend, is_unconnected, may_follow};

use crate::owing::is_in_doubt;
use modbus_calls::only_reads_code;
use modbus_frame::{Error, Request, Response, Result, TransportError};

/// Which requests may be sent again, where no one can tell whether the device did the first one.
#[derive(Clone, Copy, Debug, PartialEq, Eq)]
pub enum Resend {
    /// None.
    Never,
    /// Those that change nothing in the device: reads, and questions for what it is or has counted (sections 6.1 to 6.4, 6.7 to 6.10, 6.13,
    /// 6.14, 6.18, 6.21).
    Reads,
    /// All. A device that does a write twice must be as if it had done it once.
    Always,
}

/// Whether no link was made.
fn is_unconnected(answer: &Result<Response>) -> bool
    ensures { result ≡ is_unconnected answer.now }
{
    matches!(answer, Err(Error::Transport(TransportError::NotConnected)))
}

/// Whether this request changes nothing in the device.
fn changes_nothing(request: &Request<'_>) -> bool
    ensures { result ≡ changes_nothing (meaning request.now) }
{
    match request {
        Request::Custom(function, bytes) => only_reads_code(*function, bytes),
        _ => request.only_reads(),
    }
}

impl Resend {
    /// Whether it lets this request be sent again.
    pub fn allows(self, request: &Request<'_>) -> bool
        ensures { result ≡ may_resend self (meaning request.now) }
    {
        match self {
            Resend::Never => false,
            Resend::Reads => changes_nothing(request),
            Resend::Always => true,
        }
    }

    /// Whether a try of this request with this answer may be followed by another one.
    pub(crate) fn lets_follow(self, request: &Request<'_>, answer: &Result<Response>) -> bool
        ensures { result ≡ may_follow self (meaning request.now) answer.now }
    {
        is_unconnected(answer) || (is_in_doubt(answer) && self.allows(request))
    }
}
