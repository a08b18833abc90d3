//! The frames of a serial line that a connection carries, as its client reads them (MODBUS over Serial Line V1.02, section 2.4.1): noise is
//! passed byte by byte, a frame of another slave and what another master asks it are passed whole, and the first frame of the slave that was
//! asked is the reply.
ghost use Rattle.std.specs.Prelude.{ℕ};
ghost use Rattle.modbus_client.specs.LineReading.{stream_protocol};
ghost use Rattle.modbus_client.specs.Rtu.{rtu_heading};

use crate::line::look_by;
use crate::protocol::{LookError, Protocol, Reply};
use crate::raw::RawProtocol;
use crate::reading::{AsBytes, AsResponse};
use crate::rtu::Frames;
use crate::stream_judge::Streaming;
use bytes::BytesMut;
use modbus_frame::rtu::Header;
use modbus_frame::{EncodeError, HeaderSeen, Request, Slave};
use std::alloc::Global;
use std::marker::Model;

/// The frames of a connection, of which the first of the slave that was asked is the reply. Noise and the frames of other slaves before it
/// are dropped. A frame has at most 256 bytes.
///
/// A frame ends where its length says, as no silence ends one here. That of a function that tells no length is all that came, where it has the
/// address of the slave that was asked. What another master asks another slave by the functions 01 to 06 is passed as a frame of that slave.
#[derive(Drop)]
pub struct StreamFrames {
    others: u64,
}

/// A contract sees how many frames of other slaves were dropped.
impl Model for StreamFrames {
    ghost Value = { ℕ };

    ghost view = { λ frames. frames.others };
}

impl Protocol for StreamFrames {
    type Header = Header;

    type Ids = ();

    ghost protocol = { stream_protocol };

    ghost heading = { rtu_heading };

    ghost dropped_by = { λ dropped. dropped };

    fn new() -> StreamFrames {
        StreamFrames { others: 0 }
    }

    fn first_ids() {}

    fn draw(_ids: &mut (), slave: Slave) -> Header {
        Header { slave_id: slave.0 }
    }

    fn seen(header: Header) -> HeaderSeen {
        Frames::seen(header)
    }

    fn encode(
        alloc: Global,
        header: Header,
        request: &Request<'_>,
        buf: &mut BytesMut,
    ) -> std::result::Result<(), EncodeError> {
        Frames::encode(alloc, header, request, buf)
    }

    fn look(
        &mut self,
        alloc: Global,
        asked: HeaderSeen,
        held: &mut BytesMut,
    ) -> std::result::Result<Option<Reply>, LookError> {
        look_by::<Streaming, AsResponse>(&mut self.others, alloc, asked, held)
    }

    fn dropped(&self) -> u64 {
        self.others
    }

    fn laws() {}
}

/// The PDU of a reply is read no further than its function code.
impl RawProtocol for StreamFrames {
    fn look_raw(
        &mut self,
        alloc: Global,
        asked: HeaderSeen,
        held: &mut BytesMut,
    ) -> std::result::Result<Option<Reply>, LookError> {
        look_by::<Streaming, AsBytes>(&mut self.others, alloc, asked, held)
    }
}
