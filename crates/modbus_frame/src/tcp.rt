//! ADUs of Modbus TCP: an MBAP header and a PDU (MODBUS Messaging on TCP/IP V1.0b, section 3.1).
//!
//! The header's protocol number and length are no part of these types: the first is always 0, the second follows from
//! the PDU.
ghost use Rattle.std.specs.Prelude.{◌≡◌};

use crate::pdu::{RequestPdu, ResponsePdu};
use crate::request::{Request, SlaveRequest};
use crate::slave::SlaveId;

/// What the MBAP header of an ADU tells (section 3.1.3).
#[derive(Clone, Copy, Debug, PartialEq, Eq)]
pub struct Header {
    /// The number that a client gives a request, and the server its response.
    pub transaction_id: u16,
    /// The unit identifier: which device behind the TCP address is meant.
    pub unit_id: SlaveId,
}

/// The ADU of a request.
#[derive(Debug, PartialEq, Eq, Drop)]
pub struct RequestAdu<'a> {
    /// Whom it is for.
    pub hdr: Header,
    /// What is asked.
    pub pdu: RequestPdu<'a>,
}

/// The ADU of a response.
#[derive(Debug, PartialEq, Eq, Drop)]
pub struct ResponseAdu {
    /// Whom it is from.
    pub hdr: Header,
    /// What is answered.
    pub pdu: ResponsePdu,
}

impl<'a> From<RequestAdu<'a>> for Request<'a> {
    ghost from_gives = { λ adu request. request ≡ adu.pdu.0 };

    fn from(adu: RequestAdu<'a>) -> Request<'a> {
        adu.pdu.0
    }
}

impl<'a> From<RequestAdu<'a>> for SlaveRequest<'a> {
    ghost from_gives = { λ adu asked. (asked.slave ≡ adu.hdr.unit_id) × (asked.request ≡ adu.pdu.0) };

    fn from(adu: RequestAdu<'a>) -> SlaveRequest<'a> {
        SlaveRequest {
            slave: adu.hdr.unit_id,
            request: adu.pdu.0,
        }
    }
}
