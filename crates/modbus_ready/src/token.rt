//! Under which token a poll of mio tells of what, and for what a link is watched.
ghost use Rattle.std.specs.Prelude.{◌≡◌, ◌<◌, ◌^◌, [], map, true, false, OnOk, OnErr};
ghost use Rattle.mio.specs.Events.{items};
ghost use Rattle.mio.specs.Event.{event_token};
ghost use Rattle.mio.specs.Interest.{is_readable, is_writable, is_priority};
ghost use Rattle.modbus_ready.specs.Tokens.{token_of, ready_of};

use crate::readiness::Ready;
use mio::{Events, Interest, Token};
use std::alloc::AllocError;

/// The token of the acceptor, which is the last number, and no key.
const PEER: usize = usize::MAX;

/// The token under which a poll is to tell of this.
pub(crate) fn token_of(ready: Ready) -> Token
    ensures { result ≡ token_of ready }
{
    match ready {
        Ready::Peer => Token(PEER),
        Ready::Link(key) => Token(key),
    }
}

/// Of what a poll tells by this token.
pub(crate) fn ready_of(token: Token) -> Ready
    ensures { result ≡ ready_of token }
{
    if token.0 == PEER {
        Ready::Peer
    } else {
        Ready::Link(token.0)
    }
}

/// A link is watched for bytes that have come and for room to send.
pub(crate) fn both_ways() -> Interest
    ensures reads { is_readable result ≡ true }
    ensures writes { is_writable result ≡ true }
    ensures no_other { is_priority result ≡ false }
{
    Interest::READABLE | Interest::WRITABLE
}

/// Keeps of what the events of a wait tell, each once, in their order; nothing where memory is refused.
pub(crate) fn take_events(events: &Events, found: &mut Vec<Ready>) -> Result<(), AllocError>
    ensures all { OnOk result (found.new.items
        ≡ map (λ event. ready_of (event_token event)) (items events.now)) }
    ensures nothing { OnErr result (found.new.items ≡ []) }
{
    found.clear();
    for event in events.iter().as_slice() {
        if found.push(ready_of(event.token())).is_err() {
            found.clear();
            return Err(AllocError);
        }
    }
    Ok(())
}
