//! The driver of a call over a link that may not be ready. A link that blocks is always ready, so the blocking calls stand on it.
ghost use Rattle.std.specs.Prelude.{◌≡◌, ◌<◌, ◌≤◌, []};
ghost use Rattle.modbus_link.specs.declared.polled.Polled.TheVariants.{Pending};
ghost use Rattle.modbus_link.specs.Outside.{outside, Rose};
ghost use Rattle.modbus_frame.specs.Meaning.{meaning};
ghost use Rattle.modbus_client.specs.Call.{holding, opened_with};
ghost use Rattle.modbus_client.specs.Calls.{Sent, Exchanged, CountsDropped};
ghost use Rattle.modbus_client.specs.Polled.{TurnsTo, CallPolled, OpensCallState};

use crate::call::{Call, ROOM};
use crate::protocol::Protocol;
use bytes::BytesMut;
use modbus_frame::{EncodeError, Error, Request, Response, Result, TransportError};
use modbus_link::{Failed, Polled, PolledLink, Sink, Source};
use std::alloc::Global;

/// Reads once, where the link is ready, and feeds what the read gave; `None` where the call waits for more.
fn turn<P: Protocol, L: PolledLink>(
    call: &mut Call<P>,
    held: &mut BytesMut,
    alloc: Global,
    link: &mut L,
) -> Polled<Option<Result<Response>>>
    requires written { call.old.unwritten ≡ [] }
    requires may_read { call.old.reads < call.old.turns }
    ensures turned { TurnsTo P.protocol (outside (L.input link.old) (L.output link.old))
        (outside (L.input link.new) (L.output link.new)) (holding call.old held.old)
        (holding call.new held.new) result }
    ensures waited { result ≡ Pending → Rose (L.not_ready link.old) (L.not_ready link.new) }
    ensures later { L.not_ready link.old ≤ L.not_ready link.new }
    ensures line { L.line link.new ≡ L.line link.old }
{
    // Memory comes first, so that no byte is read that can't be kept.
    if Call::<P>::make_room(held).is_err() {
        return Polled::Ready(Some(Err(Error::NoMemory)));
    }
    let mut room = [0; ROOM];
    match link.poll_read(&mut room) {
        Err(Failed) => Polled::Ready(Some(Err(Error::Transport(TransportError::ReadFault)))),
        Ok(Polled::Pending) => Polled::Pending,
        Ok(Polled::Ready(count)) => {
            if count == 0 {
                Polled::Ready(Some(Err(Error::Transport(Call::<P>::end(held)))))
            } else {
                Polled::Ready(call.feed(alloc, held, &room[..count]))
            }
        }
    }
}

/// Writes what was not written yet of the request, and then waits for the reply, as far as the link is ready.
pub(crate) fn poll<P: Protocol, L: PolledLink>(
    call: &mut Call<P>,
    held: &mut BytesMut,
    alloc: Global,
    link: &mut L,
) -> Polled<Result<Response>>
    ensures polled { CallPolled P.protocol (outside (L.input link.old) (L.output link.old))
        (outside (L.input link.new) (L.output link.new)) (L.not_ready link.old)
        (L.not_ready link.new) (holding call.old held.old) (holding call.new held.new) result }
    ensures line { L.line link.new ≡ L.line link.old }
{
    match call.flush(link) {
        Err(Failed) => {
            return Polled::Ready(Err(Error::Transport(TransportError::WriteFault)));
        }
        Ok(Polled::Pending) => return Polled::Pending,
        Ok(Polled::Ready(())) => {}
    }
    'turns: while call.may_read() {
        match turn(call, held, alloc, link) {
            Polled::Pending => return Polled::Pending,
            Polled::Ready(Some(answer)) => return Polled::Ready(answer),
            Polled::Ready(None) => {}
        }
    }
    Polled::Ready(Err(Error::Transport(TransportError::TurnLimit)))
}

/// Opens a call, which holds its bytes in `held`. Those that stood there are dropped.
///
/// # Errors
/// `RequestTooLong` with the size of the PDU in bytes, exactly where that is above 253. `NoMemory` where memory is refused.
pub(crate) fn open<P: Protocol>(
    alloc: Global,
    header: P::Header,
    request: &Request<'_>,
    turns: u64,
    held: &mut BytesMut,
) -> std::result::Result<Call<P>, Error>
    ensures opens { OpensCallState P.protocol header (meaning request.now) turns
        (opened_with held.new result) }
    ensures empty { held.new.items ≡ [] }
{
    match Call::<P>::open(alloc, header, request, turns, held) {
        Ok(call) => Ok(call),
        Err(EncodeError::TooLong(size)) => {
            Err(Error::Transport(TransportError::RequestTooLong(size)))
        }
        Err(EncodeError::NoMemory) => Err(Error::NoMemory),
    }
}

/// Writes a request, and waits for no reply.
pub(crate) fn send<P: Protocol, L: Source + Sink>(
    alloc: Global,
    link: &mut L,
    header: P::Header,
    request: &Request<'_>,
    held: &mut BytesMut,
) -> std::result::Result<(), Error>
    ensures sent { Sent P.protocol (outside (L.input link.old) (L.output link.old))
        (outside (L.input link.new) (L.output link.new)) header (meaning request.now) held.new.items
        result }
    ensures line { L.line link.new ≡ L.line link.old }
{
    let mut call = open::<P>(alloc, header, request, 0, held)?;
    match call.flush(link) {
        Ok(Polled::Ready(())) => Ok(()),
        Ok(Polled::Pending) => unreachable!(),
        Err(Failed) => Err(Error::Transport(TransportError::WriteFault)),
    }
}

/// Writes a request, and waits for the reply. It tells how many messages of other requests it dropped.
pub(crate) fn exchange<P: Protocol, L: Source + Sink>(
    alloc: Global,
    link: &mut L,
    header: P::Header,
    request: &Request<'_>,
    turns: u64,
    held: &mut BytesMut,
    dropped: &mut u64,
) -> Result<Response>
    ensures exchanged { (ran : Exchanged P.protocol (outside (L.input link.old) (L.output link.old))
        (outside (L.input link.new) (L.output link.new)) header (meaning request.now) turns
        held.new.items result) × CountsDropped ran dropped.new }
    ensures line { L.line link.new ≡ L.line link.old }
{
    P::laws();
    *dropped = 0;
    let mut call = open::<P>(alloc, header, request, turns, held)?;
    let polled = poll(&mut call, held, alloc, link);
    *dropped = call.dropped();
    match polled {
        Polled::Ready(answer) => answer,
        Polled::Pending => unreachable!(),
    }
}
