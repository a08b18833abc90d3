//! A framing in which each byte is a message: for the slave that it names, with itself as its PDU. A byte 0 is a fault.
ghost use Rattle.modbus_server.specs.declared.error.ProcessError.TheVariants.{InvalidLength};
ghost use Rattle.modbus_example.specs.Single.{singles};

use bytes::BytesMut;
use modbus_frame::{EncodeError, ExceptionResponse, Front, PduError, Request, Response, SlaveId};
use modbus_pdu::{MAX_PDU, decode_request, encode_response_result_pdu, response_result_pdu_size};
use modbus_server::{Framing, ProcessError};
use std::alloc::{AllocError, Global};

/// How many bytes a read has room for.
const ROOM: usize = 16;

/// A byte 0, which is no message.
#[derive(Clone, Copy, Debug, PartialEq, Eq)]
pub struct Zero;

/// The bytes that were fed and not used yet.
#[derive(Drop)]
pub struct Singles {
    bytes: BytesMut,
}

impl Framing for Singles {
    type Header = SlaveId;

    type Fault = Zero;

    ghost framing = { singles };

    ghost header_of = { λ slave. slave };

    ghost told = { λ zero. InvalidLength };

    ghost held = { λ s. s.bytes.items };

    ghost free = { λ s. s.bytes.spare };

    fn tell(_fault: Zero) -> ProcessError {
        ProcessError::InvalidLength
    }

    fn slave(header: SlaveId) -> SlaveId {
        header
    }

    fn reply_room() -> usize {
        MAX_PDU
    }

    fn longest_read() -> usize {
        ROOM
    }

    fn seam() -> usize {
        0
    }

    fn decode(alloc: Global, pdu: &[u8]) -> Result<Request<'static>, PduError> {
        decode_request(alloc, pdu)
    }

    fn encode_answer(
        alloc: Global,
        _header: SlaveId,
        answer: &Result<Response, ExceptionResponse>,
        reply: &mut BytesMut,
    ) -> Result<(), EncodeError> {
        if let Err(too_long) = response_result_pdu_size(answer) {
            return Err(EncodeError::TooLong(too_long.0));
        }
        match encode_response_result_pdu(alloc, reply, answer) {
            Ok(()) => Ok(()),
            Err(_) => Err(EncodeError::NoMemory),
        }
    }

    fn open(alloc: Global) -> Result<Singles, AllocError> {
        Ok(Singles {
            bytes: BytesMut::new(alloc),
        })
    }

    fn is_empty(&self) -> bool {
        self.bytes.is_empty()
    }

    fn front<'a>(&'a self, _seam: &'a mut [u8]) -> Result<Front<'a, SlaveId>, Zero> {
        let held = self.bytes.as_slice();
        if held.is_empty() {
            return Ok(Front::Waiting { dropped: 0 });
        }
        if held[0] == 0 {
            return Err(Zero);
        }
        Ok(Front::Message {
            header: held[0],
            pdu: &held[..1],
            end: 1,
        })
    }

    fn advance(&mut self, count: usize) {
        self.bytes.advance(count);
    }

    fn room(&self) -> usize {
        ROOM
    }

    fn make_room(&mut self, _alloc: Global) -> Result<(), AllocError> {
        self.bytes.reserve(ROOM)
    }

    fn append(&mut self, piece: &[u8]) {
        self.bytes.extend_reserved(piece);
    }

    fn laws() {}
}
