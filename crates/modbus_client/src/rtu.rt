//! Clients of a serial line (MODBUS over Serial Line V1.02, section 2.5.1).
ghost use Rattle.std.specs.Prelude.{◌≡◌, ◌<◌};
ghost use Rattle.modbus_frame.specs.Meaning.{meaning};
ghost use Rattle.modbus_client.specs.Rtu.{rtu_protocol, rtu_heading};
ghost use Rattle.modbus_client.specs.State.{attached_client};
ghost use Rattle.modbus_client.specs.Polled.{OpensPolled};

pub use crate::line::LineFrames;
use crate::link_client::LinkClient;
use crate::protocol::{LookError, Protocol, Reply};
use crate::raw::{RawProtocol, take_raw_frame};
pub use crate::stream::StreamFrames;
use bytes::BytesMut;
use modbus_frame::rtu::Header;
use modbus_frame::{EncodeError, Error, HeaderSeen, Request, Slave, TransportError};
use modbus_link::Link;
use modbus_rtu::{ClientCodec, RtuError, encode_request_frame};
use std::alloc::Global;

/// The frames of a serial line.
#[derive(Drop)]
pub struct Frames {
    codec: ClientCodec,
}

impl Protocol for Frames {
    type Header = Header;

    type Ids = ();

    ghost protocol = { rtu_protocol };

    ghost heading = { rtu_heading };

    ghost dropped_by = { λ frames. 0 };

    fn new() -> Frames {
        Frames {
            codec: ClientCodec::new(),
        }
    }

    fn first_ids() {}

    fn draw(_ids: &mut (), slave: Slave) -> Header {
        Header { slave_id: slave.0 }
    }

    fn seen(header: Header) -> HeaderSeen {
        HeaderSeen {
            transaction_id: None,
            slave_id: header.slave_id,
        }
    }

    fn encode(
        alloc: Global,
        header: Header,
        request: &Request<'_>,
        buf: &mut BytesMut,
    ) -> std::result::Result<(), EncodeError> {
        encode_request_frame(alloc, header.slave_id, request, buf)
    }

    fn look(
        &mut self,
        alloc: Global,
        _asked: HeaderSeen,
        held: &mut BytesMut,
    ) -> std::result::Result<Option<Reply>, LookError> {
        modbus_rtu::laws::responses_by_front();
        match self.codec.decode(alloc, held) {
            Ok(None) => Ok(None),
            Ok(Some(adu)) => Ok(Some(Reply {
                header: Self::seen(adu.hdr),
                result: adu.pdu.0,
            })),
            Err(RtuError::TooManyRetries) => {
                Err(LookError::Broken(TransportError::TooManyRetries))
            }
            Err(RtuError::Invalid(reason)) => Err(LookError::Refused(reason)),
            Err(RtuError::NoMemory) => Err(LookError::NoMemory),
        }
    }

    fn dropped(&self) -> u64 {
        0
    }

    fn laws() {
        modbus_rtu::laws::responses_by_front();
        modbus_rtu::laws::responses_in_pieces();
    }
}

impl RawProtocol for Frames {
    fn look_raw(
        &mut self,
        alloc: Global,
        _asked: HeaderSeen,
        held: &mut BytesMut,
    ) -> std::result::Result<Option<Reply>, LookError> {
        modbus_rtu::laws::responses_by_front();
        match take_raw_frame(alloc, held) {
            Ok(None) => Ok(None),
            Ok(Some(adu)) => Ok(Some(Reply {
                header: Self::seen(adu.hdr),
                result: adu.pdu.0,
            })),
            Err(RtuError::TooManyRetries) => {
                Err(LookError::Broken(TransportError::TooManyRetries))
            }
            Err(RtuError::Invalid(reason)) => Err(LookError::Refused(reason)),
            Err(RtuError::NoMemory) => Err(LookError::NoMemory),
        }
    }
}

/// A call of a slave over a link that may not be ready.
pub type PolledCall = crate::polled::PolledCall<Frames>;

impl PolledCall {
    /// A call that asks a slave this request, with at most `turns` reads that give bytes. It keeps the allocator, and has written nothing
    /// yet.
    ///
    /// # Errors
    /// `RequestTooLong` with the size of the PDU in bytes, exactly where that is above 253. `NoMemory` where memory is refused.
    pub fn new(
        alloc: Global,
        slave: Slave,
        request: Request<'_>,
        turns: u64,
    ) -> std::result::Result<PolledCall, Error>
        ensures { OpensPolled rtu_protocol (record { slave_id = slave.0 }) (meaning request.entry)
            turns result }
    {
        let header = Header { slave_id: slave.0 };
        PolledCall::open(alloc, header, &request, turns)
    }
}

/// A client of the slaves of one serial line.
pub type Client<L> = LinkClient<Frames, L>;

/// A client of slave 0 over a link. It keeps the allocator, and takes no memory yet.
pub fn attach<L: Link>(alloc: Global, link: L) -> Client<L>
    ensures { result ≡ attached_client rtu_heading link 0 }
{
    attach_slave(alloc, link, Slave::broadcast())
}

/// A client of a slave over a link. It keeps the allocator, and takes no memory yet.
pub fn attach_slave<L: Link>(alloc: Global, link: L, slave: Slave) -> Client<L>
    ensures { result ≡ attached_client rtu_heading link slave.0 }
{
    Client::attach_slave(alloc, link, slave)
}
