//! Clients of a serial line in the ASCII transmission mode (MODBUS over Serial Line V1.02, section 2.5.2).
ghost use Rattle.std.specs.Prelude.{◌≡◌, ◌+◌, min, []};
ghost use Rattle.modbus_frame.specs.Meaning.{meaning};
ghost use Rattle.modbus_client.specs.Polled.{OpensPolled};
ghost use Rattle.modbus_client.specs.Call.{LooksAs, IsOwn};
ghost use Rattle.modbus_client.specs.Rtu.{rtu_heading};
ghost use Rattle.modbus_client.specs.State.{attached_client};
ghost use Rattle.modbus_ascii.specs.Frames.{frames};
ghost use Rattle.modbus_ascii_client.specs.Frames.{ascii_protocol, silent_ascii, texts_by, others_before, counted};
ghost use Rattle.modbus_ascii_client.specs.Reads.{ReadsReply};

use crate::search::first_reply;
use bytes::BytesMut;
use modbus_ascii::{AsciiFrame, encode_request_frame};
use modbus_client::{
    AsBytes, AsResponse, LineProtocol, LinkClient, LookError, Protocol, RawLineProtocol,
    RawProtocol, Reading, Reply,
};
use modbus_frame::rtu::Header;
use modbus_frame::{EncodeError, Error, HeaderSeen, PduError, Request, Slave};
use modbus_link::Link;
use std::alloc::Global;
use std::marker::Model;

/// Reads the PDU of the frame that is the reply.
///
/// # Errors
/// `Refused` with the reason, exactly where the PDU stands for nothing. `NoMemory` where memory is refused, only for what carries a list or
/// bytes.
fn read_reply<R: Reading>(
    alloc: Global,
    frame: &AsciiFrame,
) -> std::result::Result<Option<Reply>, LookError>
    ensures { ReadsReply R.means frame.now.slave frame.now.pdu.items result }
{
    match R::read(alloc, frame.pdu.as_slice()) {
        Ok(pdu) => Ok(Some(Reply {
            header: HeaderSeen {
                transaction_id: None,
                slave_id: frame.slave,
            },
            result: pdu.0,
        })),
        Err(PduError::Refused(reason)) => Err(LookError::Refused(reason)),
        Err(PduError::NoMemory) => Err(LookError::NoMemory),
    }
}

/// Looks for the reply in held characters, and reads its PDU. The frames of other slaves before it are counted, and what can't be part of a
/// reply is dropped.
///
/// # Errors
/// Those of `read_reply`; the frame is gone.
fn look_by<R: Reading>(
    dropped: &mut u64,
    alloc: Global,
    asked: HeaderSeen,
    held: &mut BytesMut,
) -> std::result::Result<Option<Reply>, LookError>
    ensures own { IsOwn result }
    ensures looks { LooksAs (texts_by R.means) asked held.old.items [] held.new.items result }
    ensures counts { dropped.new
        ≡ min (dropped.old + counted (others_before asked.slave_id (frames held.old.items))) u64.MAX }
{
    let found = first_reply(asked.slave_id, held.as_slice());
    *dropped = dropped.saturating_add(found.others);
    match &found.reply {
        Some(frame) => {
            held.clear();
            read_reply::<R>(alloc, frame)
        }
        None => {
            held.advance(found.start);
            Ok(None)
        }
    }
}

/// The frames of a serial line in the ASCII transmission mode.
///
/// A search keeps the front of a frame that the characters end with, at most 513 of them, and looks at these again with the ones that come
/// next.
#[derive(Drop)]
pub struct Frames {
    dropped: u64,
}

/// A contract sees how many frames of other slaves were dropped.
impl Model for Frames {
    ghost use Rattle.std.specs.Prelude.{ℕ};

    ghost Value = { ℕ };

    ghost view = { λ frames. frames.dropped };
}

impl Protocol for Frames {
    type Header = Header;

    type Ids = ();

    ghost protocol = { ascii_protocol };

    ghost heading = { rtu_heading };

    ghost dropped_by = { λ dropped. dropped };

    fn new() -> Frames {
        Frames { dropped: 0 }
    }

    fn first_ids() {}

    fn draw(_ids: &mut (), slave: Slave) -> Header {
        Header { slave_id: slave.0 }
    }

    fn seen(header: Header) -> HeaderSeen {
        HeaderSeen {
            transaction_id: None,
            slave_id: header.slave_id,
        }
    }

    fn encode(
        alloc: Global,
        header: Header,
        request: &Request<'_>,
        buf: &mut BytesMut,
    ) -> std::result::Result<(), EncodeError> {
        encode_request_frame(alloc, header.slave_id, request, buf)
    }

    fn look(
        &mut self,
        alloc: Global,
        asked: HeaderSeen,
        held: &mut BytesMut,
    ) -> std::result::Result<Option<Reply>, LookError> {
        modbus_ascii::laws::open_frames_go_on();
        look_by::<AsResponse>(&mut self.dropped, alloc, asked, held)
    }

    fn dropped(&self) -> u64 {
        self.dropped
    }

    fn laws() {
        modbus_ascii::laws::frames_alone();
        modbus_ascii::laws::fronts_deliver_nothing();
    }
}

/// The PDU of a reply is read no further than its function code.
impl RawProtocol for Frames {
    fn look_raw(
        &mut self,
        alloc: Global,
        asked: HeaderSeen,
        held: &mut BytesMut,
    ) -> std::result::Result<Option<Reply>, LookError> {
        modbus_ascii::laws::open_frames_go_on();
        look_by::<AsBytes>(&mut self.dropped, alloc, asked, held)
    }
}

/// A silence ends a frame that was begun: what is held of it is dropped.
impl LineProtocol for Frames {
    ghost silent = { silent_ascii };

    fn look_silent(
        &mut self,
        _alloc: Global,
        _asked: HeaderSeen,
        held: &mut BytesMut,
    ) -> std::result::Result<Option<Reply>, LookError> {
        held.clear();
        Ok(None)
    }
}

impl RawLineProtocol for Frames {
    fn look_silent_raw(
        &mut self,
        _alloc: Global,
        _asked: HeaderSeen,
        held: &mut BytesMut,
    ) -> std::result::Result<Option<Reply>, LookError> {
        held.clear();
        Ok(None)
    }
}

/// A call of a slave over a link that may not be ready.
pub type PolledCall = modbus_client::PolledCall<Frames>;

/// A call that asks a slave this request over a link that may not be ready, with at most `turns` reads that give bytes. It keeps the
/// allocator, and has written nothing yet.
///
/// # Errors
/// `RequestTooLong` with the size of the PDU in bytes, exactly where that is above 253. `NoMemory` where memory is refused.
pub fn open_call(
    alloc: Global,
    slave: Slave,
    request: Request<'_>,
    turns: u64,
) -> std::result::Result<PolledCall, Error>
    ensures { OpensPolled ascii_protocol (record { slave_id = slave.0 }) (meaning request.entry)
        turns result }
{
    let header = Header { slave_id: slave.0 };
    PolledCall::open(alloc, header, &request, turns)
}

/// A client of the slaves of one serial line.
pub type Client<L> = LinkClient<Frames, L>;

/// A client of slave 0 over a link. It keeps the allocator, and takes no memory yet.
pub fn attach<L: Link>(alloc: Global, link: L) -> Client<L>
    ensures { result ≡ attached_client rtu_heading link 0 }
{
    attach_slave(alloc, link, Slave::broadcast())
}

/// A client of a slave over a link. It keeps the allocator, and takes no memory yet.
pub fn attach_slave<L: Link>(alloc: Global, link: L, slave: Slave) -> Client<L>
    ensures { result ≡ attached_client rtu_heading link slave.0 }
{
    Client::attach_slave(alloc, link, slave)
}
