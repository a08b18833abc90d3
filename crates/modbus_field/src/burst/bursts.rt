//! The burst that a server read last, as a framing: each read is a burst, whose messages are taken off one after another.
ghost use Rattle.std.specs.Prelude.{◌≡◌, ◌-◌, length};
ghost use Rattle.modbus_server.specs.declared.error.ProcessError.TheVariants.{TooManyRetries};
ghost use Rattle.modbus_field.specs.BurstFraming.{bursts};
ghost use Rattle.modbus_field.specs.BurstLimits.{most_read};

use crate::burst::frame::{FrameHeader, message_in};
use crate::standard::decode_any;
use bytes::BytesMut;
use modbus_frame::{EncodeError, ExceptionResponse, Front, PduError, Request, Response, SlaveId};
use modbus_pdu::response_result_pdu_size;
use modbus_rtu::{MAX_FRAME, encode_response_frame};
use modbus_server::{Framing, NoFault, ProcessError};
use std::alloc::{AllocError, Global};
use std::marker::Model;

/// The bytes of a burst that are read. One that has as many or more is noise, as what came behind them is not known.
pub const MOST_READ: usize = 65_536;

/// The burst that was read and not used yet.
///
/// Its room is taken as it is opened, so a read takes no memory.
#[derive(Drop)]
pub(crate) struct Bursts {
    bytes: BytesMut,
    // how many of them were taken off
    taken: usize,
}

/// A contract sees the bytes that are held.
impl Model for Bursts {
    ghost use Rattle.std.specs.Prelude.{ℕ, ◌+◌, ◌≤◌, List, length, drop};
    ghost use Rattle.modbus_field.specs.BurstLimits.{most_read};

    ghost Value = { List ℕ };

    ghost view = { λ it. drop it.taken it.bytes.items };

    ghost invariant = { λ it. record {
      within : it.taken ≤ length it.bytes.items;
      most : length it.bytes.items ≤ most_read;
      room : most_read ≤ length it.bytes.items + it.bytes.spare;
    } };
}

impl Bursts {
    /// What is held of the burst.
    fn bytes_held(&self) -> &[u8]
        ensures { result.now ≡ self.now }
    {
        &self.bytes.as_slice()[self.taken..]
    }
}

impl Framing for Bursts {
    type Header = FrameHeader;

    type Fault = NoFault;

    ghost framing = { bursts };

    ghost header_of = { λ header. header };

    ghost told = { λ fault. TooManyRetries };

    ghost held = { λ it. it };

    ghost free = { λ it. most_read - length it };

    fn tell(_fault: NoFault) -> ProcessError {
        ProcessError::TooManyRetries
    }

    fn slave(header: FrameHeader) -> SlaveId {
        header.slave_asked()
    }

    fn reply_room() -> usize {
        MAX_FRAME
    }

    fn longest_read() -> usize {
        MOST_READ
    }

    fn seam() -> usize {
        0
    }

    #[inline(always)]
    fn decode(alloc: Global, pdu: &[u8]) -> Result<Request<'static>, PduError> {
        decode_any(alloc, pdu)
    }

    fn encode_answer(
        alloc: Global,
        header: FrameHeader,
        answer: &Result<Response, ExceptionResponse>,
        reply: &mut BytesMut,
    ) -> Result<(), EncodeError> {
        if header.is_answered() {
            encode_response_frame(alloc, header.slave, answer, reply)
        } else {
            response_result_pdu_size(answer)?;
            Ok(())
        }
    }

    fn open(alloc: Global) -> Result<Bursts, AllocError> {
        Ok(Bursts {
            bytes: BytesMut::with_capacity(alloc, MOST_READ)?,
            taken: 0,
        })
    }

    fn is_empty(&self) -> bool {
        self.taken == self.bytes.len()
    }

    fn front<'a>(&'a self, _seam: &'a mut [u8]) -> Result<Front<'a, FrameHeader>, NoFault> {
        let burst = self.bytes_held();
        if burst.is_empty() {
            return Ok(Front::Waiting { dropped: 0 });
        }
        let (header, pdu, end) = message_in(burst);
        Ok(Front::Message { header, pdu, end })
    }

    fn advance(&mut self, count: usize) {
        self.taken += count;
    }

    fn room(&self) -> usize {
        MOST_READ
    }

    fn make_room(&mut self, _alloc: Global) -> Result<(), AllocError> {
        Ok(())
    }

    fn append(&mut self, piece: &[u8]) {
        self.bytes.clear();
        self.bytes.extend_reserved(piece);
        self.taken = 0;
    }

    fn laws() {}
}
