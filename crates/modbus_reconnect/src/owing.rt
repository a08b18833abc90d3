//! Which answers leave nothing owed on their link.
ghost use Rattle.std.specs.Prelude.{◌≡◌, ℕ, List, length};
ghost use Rattle.modbus_frame.specs.Meaning.{meaning};
ghost use Rattle.modbus_reconnect.specs.Owes.{is_settled, leaves_nothing, is_read_fault, is_kept};
ghost use Rattle.modbus_reconnect.specs.Resends.{is_in_doubt};

use crate::reply::is_reply_to;
use modbus_frame::{Error, Request, Response, Result, TransportError};

/// Whether an answer is an error after which a reply may still come, or no message can be found: all but those that come before anything is
/// sent.
pub(crate) fn is_in_doubt(answer: &Result<Response>) -> bool
    ensures { result ≡ is_in_doubt answer.now }
{
    match answer {
        Ok(_) => false,
        Err(Error::Transport(TransportError::NotConnected | TransportError::RequestTooLong(_))) =>
            false,
        Err(_) => true,
    }
}

/// Whether a call with this answer was answered by its own reply, or sent nothing: then no reply to it comes any more.
pub(crate) fn is_settled(request: &Request<'_>, answer: &Result<Response>) -> bool
    ensures { result ≡ is_settled (meaning request.now) answer.now }
{
    match answer {
        Ok(Ok(response)) => is_reply_to(request, response),
        Ok(Err(_)) => true,
        Err(_) => !is_in_doubt(answer),
    }
}

/// Whether a call with this answer, and so many bytes that were read behind it, leaves nothing owed on its link: it was answered by its own
/// reply, with no byte left over, or sent nothing. A link on which something is owed is dropped, so that no answer is taken from the bytes
/// of an earlier request.
pub fn leaves_nothing(request: &Request<'_>, answer: &Result<Response>, held: usize) -> bool
    ensures { (bytes : List ℕ) → length bytes ≡ held
        → result ≡ leaves_nothing (meaning request.now) answer.now bytes }
{
    is_settled(request, answer) && held == 0
}

/// Whether a call ended by a read that failed, as one does that nothing came for in time.
pub(crate) fn is_read_fault(answer: &Result<Response>) -> bool
    ensures { result ≡ is_read_fault answer.now }
{
    matches!(answer, Err(Error::Transport(TransportError::ReadFault)))
}

/// Whether the link of a call with this answer is kept: nothing is owed on it, or the reply is late, with no byte of it read, and may be.
pub(crate) fn is_kept(
    is_patient: bool,
    request: &Request<'_>,
    answer: &Result<Response>,
    held: usize,
) -> bool
    ensures { (bytes : List ℕ) → length bytes ≡ held
        → result ≡ is_kept is_patient (meaning request.now) answer.now bytes }
{
    leaves_nothing(request, answer, held) || (is_patient && held == 0 && is_read_fault(answer))
}
