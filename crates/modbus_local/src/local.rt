//! A request to a service without a transport: a call and a connection take turns over memory.
ghost use Rattle.std.specs.Prelude.{◌≡◌, ◌↔◌, ◌^◌, ◌-◌, [], IsTrue};
ghost use Rattle.modbus_frame.specs.Meaning.{meaning};
ghost use Rattle.modbus_client.specs.Call.{CallStands, holding};
ghost use Rattle.modbus_local.specs.Exchange.{IsWantOfMemory, ReadsAll, ExchangesLocally};
ghost use Rattle.modbus_local.specs.Back.{ComesBack};

use crate::laws::outcomes_come_back;
use bytes::BytesMut;
use modbus_client::laws::bytes_end_calls;
use modbus_client::rtu::Frames;
use modbus_client::{Call, Protocol, ROOM};
use modbus_frame::rtu::Header;
use modbus_frame::{EncodeError, Error, Request, Response, Result, Slave, TransportError};
use modbus_rtu::Inbox;
use modbus_server::{Answerer, ProcessError, serve_piece};
use std::alloc::Global;

/// Feeds a call whose request was written, in pieces of `ROOM` bytes, until it has an answer or the bytes end.
fn receive_all<P: Protocol>(
    call: &mut Call<P>,
    held: &mut BytesMut,
    alloc: Global,
    replies: &[u8],
) -> Result<Response>
    requires written { call.old.unwritten ≡ [] }
    requires turns { call.old.turns ≡ 2 ^ 64 - 1 }
    requires stands { CallStands P.protocol call.old.request [] [] (holding call.old held.old) }
    ensures { ReadsAll P.protocol call.old.asked call.old.function replies.now held.new.items
        result }
{
    bytes_end_calls::<P>();
    let mut left = replies;
    'pieces: while !left.is_empty() {
        if Call::<P>::make_room(held).is_err() {
            return Err(Error::NoMemory);
        }
        let (piece, rest) = left.split_at(ROOM.min(left.len()));
        if let Some(answer) = call.feed(alloc, held, piece) {
            return answer;
        }
        left = rest;
    }
    Err(Error::Transport(Call::<P>::end(held)))
}

/// Whether memory was refused to the server.
fn lacked_memory(served: &std::result::Result<(), ProcessError>) -> bool
    ensures { IsTrue result ↔ IsWantOfMemory served.now }
{
    matches!(
        served,
        Err(ProcessError::NoMemory | ProcessError::WriteFault)
    )
}

/// Asks a service, or another answerer, a request to a slave, with no transport between them.
///
/// It answers as a call of an RTU client does whose link gives exactly the bytes that `modbus_server::rtu_over_tcp::process` appends
/// for the request's frame, fills the room of each read while they last, and then ends. The service stands where `process`
/// leaves it: it is asked once for a request that its server takes. That is one of any kind but a custom function, whose length may not
/// be known.
///
/// What comes back then is a response of the request's function, or an exception. A PDU has whole bytes of coils, so coils come back
/// filled by false to a multiple of eight (Modbus Application Protocol V1.1b3, section 6.1).
///
/// # Errors
/// Those of a call but `NotConnected`, `ReadFault`, `WriteFault` and `TurnLimit`. `RequestTooLong` with the size of the PDU in bytes,
/// exactly where that is above 253; the service is not asked then. `BrokenPipe` where nothing was answered, as to a broadcast, or
/// where the PDU of the response has more than 253 bytes. `FunctionCodeMismatch` for a response of another function.
pub fn exchange<V: Answerer>(
    alloc: Global,
    slave: Slave,
    request: Request<'_>,
    service: &mut V,
) -> Result<Response>
    ensures exchanges { ExchangesLocally V.answering service.old service.new slave.0
        (meaning request.entry) result }
    ensures comes_back { ComesBack V.answering service.old service.new slave.0
        (meaning request.entry) result }
{
    Frames::laws();
    modbus_rtu::laws::verdicts_by_offset();
    modbus_pdu::request_reads_back(&request);
    outcomes_come_back::<V>();
    let header = Header { slave_id: slave.0 };
    let mut held = BytesMut::new(alloc);
    let mut call = match Call::<Frames>::open(alloc, header, &request, u64::MAX, &mut held) {
        Ok(call) => call,
        Err(EncodeError::TooLong(size)) => {
            return Err(Error::Transport(TransportError::RequestTooLong(size)));
        }
        Err(EncodeError::NoMemory) => return Err(Error::NoMemory),
    };
    let mut replies = BytesMut::new(alloc);
    // What a server tells of its input, its client sees by the bytes of the replies alone.
    let served = serve_piece::<Inbox, V>(alloc, call.to_write(), service, &mut replies);
    if lacked_memory(&served) {
        return Err(Error::NoMemory);
    }
    let count = call.to_write().len();
    call.wrote(count);
    receive_all(&mut call, &mut held, alloc, replies.as_slice())
}
