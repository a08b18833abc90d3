//! A request that is only sent.
ghost use Rattle.std.specs.Prelude.{◌≡◌};
ghost use Rattle.modbus_reconnect.specs.Tells.{told_of_answer, is_sent};

use modbus_frame::{Error, Response, Result, TransportError};

/// What is told of a request that is only sent, by the answer of a call that may make no read: with the request written its turns are over.
pub(crate) fn told_of(answer: Result<Response>) -> std::result::Result<(), Error>
    ensures { result ≡ told_of_answer answer }
{
    match answer {
        Ok(_) | Err(Error::Transport(TransportError::TurnLimit)) => Ok(()),
        Err(error) => Err(error),
    }
}

/// Whether a request was sent, whole.
pub(crate) fn is_sent(told: &std::result::Result<(), Error>) -> bool
    ensures { result ≡ is_sent told.now }
{
    told.is_ok()
}
