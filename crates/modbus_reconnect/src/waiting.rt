//! A call over a line that tells silence.
ghost use Rattle.std.specs.Prelude.{◌≡◌, ◌<◌, ℕ, List, length, IsTrue, if◌then◌else◌};
ghost use Rattle.modbus_link.specs.Line.{meaning_of};
ghost use Rattle.modbus_frame.specs.Meaning.{meaning};
ghost use Rattle.modbus_reconnect.specs.SettleState.{line_by};
ghost use Rattle.modbus_reconnect.specs.Waits.{question_of, EndsWait, WaitsFor};

use modbus_client::laws::requests_not_opened_are_unsent;
use modbus_client::{IdleLink, LineProtocol, PolledCall};
use modbus_frame::{Error, Request, Response, Result, TransportError};
use modbus_link::{Polled, TimedLink};
use std::alloc::Global;

/// How a call is told that was given up, by whether noise came behind its request.
fn given_up(is_noisy: bool) -> TransportError
    ensures { result ≡ (if is_noisy then TransportError.BytesRemaining else TransportError.ReadFault) }
{
    if is_noisy {
        TransportError::BytesRemaining
    } else {
        TransportError::ReadFault
    }
}

/// Writes the request and waits for the reply, for so many silences. Each of them ends the frames that came before it: the reply is looked
/// for in what is held then, and what is none is noise, which is dropped.
///
/// # Errors
/// Those of a poll, and of a silence that ended a reply; and where so many silences came, `BytesRemaining` if noise came behind the request,
/// else `ReadFault`.
fn wait<P: LineProtocol, L: TimedLink + IdleLink>(
    call: &mut PolledCall<P>,
    link: &mut L,
    silences: u64,
) -> Result<Response>
    requires open { IsTrue call.old.is_open }
    requires some { 0 < silences }
    ensures waits { WaitsFor
        (line_by P.protocol P.silent P.heading (meaning_of L.input L.output L.line) L.not_ready L.looks)
        silences link.old link.new call.old.call call.new.call result }
    ensures line { L.line link.new ≡ L.line link.old }
{
    let mut is_noisy = false;
    'silences: for _told in 0..silences {
        match call.poll(link) {
            Polled::Ready(answer) => return answer,
            Polled::Pending => {
                if call.held() > 0 {
                    if let Some(answer) = call.fall_silent() {
                        return answer;
                    }
                    is_noisy = true;
                }
            }
        }
    }
    Err(Error::Transport(given_up(is_noisy)))
}

/// Asks under a header. It answers with how many bytes were read and not used.
pub(crate) fn ask<P: LineProtocol, L: TimedLink + IdleLink>(
    alloc: Global,
    link: &mut L,
    header: P::Header,
    request: &Request<'_>,
    turns: u64,
    silences: u64,
) -> (Result<Response>, usize)
    requires some { 0 < silences }
    ensures ends { (held : List ℕ) × (length held ≡ result.1) × EndsWait
        (line_by P.protocol P.silent P.heading (meaning_of L.input L.output L.line) L.not_ready L.looks)
        (question_of header (meaning request.now) turns silences) link.old link.new held result.0 }
    ensures line { L.line link.new ≡ L.line link.old }
{
    requests_not_opened_are_unsent::<P>();
    match PolledCall::<P>::open(alloc, header, request, turns) {
        Err(error) => (Err(error), 0),
        Ok(mut call) => {
            let answer = wait(&mut call, link, silences);
            (answer, call.held())
        }
    }
}
