//! Frames of a serial line: a slave address, a PDU and a checksum (MODBUS over Serial Line V1.02, section 2.3).
//!
//! The checksum is no part of these types: it is made as a frame is written, and tested as it is read.
ghost use Rattle.std.specs.Prelude.{◌≡◌};

use crate::pdu::{RequestPdu, ResponsePdu};
use crate::request::{Request, SlaveRequest};
use crate::slave::SlaveId;

/// What stands before the PDU of a serial line frame.
#[derive(Clone, Copy, Debug, PartialEq, Eq)]
pub struct Header {
    /// The slave that the frame is for, or comes from.
    pub slave_id: SlaveId,
}

/// A request frame of a serial line.
#[derive(Debug, PartialEq, Eq, Drop)]
pub struct RequestAdu<'a> {
    /// Whom it is for.
    pub hdr: Header,
    /// What is asked.
    pub pdu: RequestPdu<'a>,
}

/// A response frame of a serial line.
#[derive(Debug, PartialEq, Eq, Drop)]
pub struct ResponseAdu {
    /// Whom it is from.
    pub hdr: Header,
    /// What is answered.
    pub pdu: ResponsePdu,
}

impl<'a> From<RequestAdu<'a>> for Request<'a> {
    ghost from_gives = { λ adu request. request ≡ adu.pdu.0 };

    fn from(adu: RequestAdu<'a>) -> Request<'a> {
        adu.pdu.0
    }
}

impl<'a> From<RequestAdu<'a>> for SlaveRequest<'a> {
    ghost from_gives = { λ adu asked. (asked.slave ≡ adu.hdr.slave_id) × (asked.request ≡ adu.pdu.0) };

    fn from(adu: RequestAdu<'a>) -> SlaveRequest<'a> {
        SlaveRequest {
            slave: adu.hdr.slave_id,
            request: adu.pdu.0,
        }
    }
}
