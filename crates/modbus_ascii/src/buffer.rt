//! The bytes that a server read and did not use yet, as a framing: frames in the ASCII transmission mode.
ghost use Rattle.std.specs.Prelude.{◌≡◌, ◌-◌, ◌&&◌, ◌==◌, nat_lt, not, length, slice_index};
ghost use Rattle.modbus_server.specs.declared.error.ProcessError.TheVariants.{TooManyRetries};
ghost use Rattle.modbus_ascii.specs.Framing.{ascii};
ghost use Rattle.modbus_ascii.specs.Limits.{colon, max_frame, most_held};

use crate::decoder::COLON;
use crate::encoder::encode_response_frame;
use crate::limits::{MAX_FRAME, MOST_HELD};
use crate::scan::Scan;
use bytes::BytesMut;
use circular_buffer::HeapCircularBuffer;
use modbus_frame::{EncodeError, ExceptionResponse, Front, PduError, Request, Response, SlaveId};
use modbus_pdu::decode_request;
use modbus_server::{Framing, NoFault, ProcessError};
use std::alloc::{AllocError, Global};
use std::marker::Model;

/// The bytes that were fed and not used yet: once all frames are taken off, a `:` that is open and its text, or the last bytes of a text
/// that is too long.
///
/// They lie in a ring, whose room is taken as it is opened, so no byte is moved when others are taken off. The decoder has looked at each
/// of them once, up to the first frame.
#[derive(Drop)]
pub struct AsciiBuffer {
    ring: HeapCircularBuffer<u8>,
    scan: Scan,
}

/// A contract sees the bytes that are held.
impl Model for AsciiBuffer {
    ghost use Rattle.std.specs.Prelude.{◌≡◌, ℕ, ◌≤◌, false, List, length};
    ghost use Rattle.modbus_ascii.specs.Limits.{most_held};
    ghost use Rattle.modbus_ascii.specs.Scan.{Scans};

    ghost Value = { List ℕ };

    ghost view = { λ buffer. buffer.ring.items };

    ghost invariant = { λ buffer. record {
      room : buffer.ring.capacity ≡ most_held;
      within : length buffer.ring.items ≤ most_held;
      scans : Scans buffer.ring.items buffer.scan;
      all : buffer.scan.found ≡ false → buffer.scan.fed ≡ length buffer.ring.items;
    } };
}

/// Whether held bytes begin within a text that is too long.
fn begins_within(held: &HeapCircularBuffer<u8>) -> bool
    ensures { result ≡ (nat_lt max_frame (length held.now.items)
        && not (slice_index held.now.items 0 == colon)) }
{
    match held.get(0) {
        Some(first) => held.len() > MAX_FRAME && *first != COLON,
        None => false,
    }
}

impl Framing for AsciiBuffer {
    type Header = SlaveId;

    type Fault = NoFault;

    ghost framing = { ascii };

    ghost header_of = { λ slave. slave };

    ghost told = { λ fault. TooManyRetries };

    ghost held = { λ buffer. buffer };

    ghost free = { λ buffer. most_held - length buffer };

    fn tell(_fault: NoFault) -> ProcessError {
        ProcessError::TooManyRetries
    }

    fn slave(header: SlaveId) -> SlaveId {
        header
    }

    fn reply_room() -> usize {
        MAX_FRAME
    }

    fn longest_read() -> usize {
        MAX_FRAME
    }

    fn seam() -> usize {
        0
    }

    #[inline(always)]
    fn decode(alloc: Global, pdu: &[u8]) -> Result<Request<'static>, PduError> {
        decode_request(alloc, pdu)
    }

    fn encode_answer(
        alloc: Global,
        header: SlaveId,
        answer: &Result<Response, ExceptionResponse>,
        reply: &mut BytesMut,
    ) -> Result<(), EncodeError> {
        encode_response_frame(alloc, header, answer, reply)
    }

    fn open(alloc: Global) -> Result<AsciiBuffer, AllocError> {
        Ok(AsciiBuffer {
            ring: HeapCircularBuffer::with_capacity(alloc, MOST_HELD)?,
            scan: Scan::begin(false),
        })
    }

    fn is_empty(&self) -> bool {
        self.ring.is_empty()
    }

    fn front<'a>(&'a self, _seam: &'a mut [u8]) -> Result<Front<'a, SlaveId>, NoFault> {
        if self.scan.found {
            Ok(Front::Message {
                header: self.scan.decoder.slave(),
                pdu: self.scan.decoder.pdu(),
                end: self.scan.fed,
            })
        } else {
            Ok(Front::Waiting {
                dropped: self.ring.len() - self.scan.open,
            })
        }
    }

    fn advance(&mut self, count: usize) {
        self.scan.decoder.has_room();
        let left = self.ring.len() - count;
        self.ring.truncate_front(left);
        let within = begins_within(&self.ring);
        if self.scan.found {
            if count == self.scan.fed {
                if !within {
                    // The decoder goes on behind the frame.
                    self.scan.fed = 0;
                    self.scan.found = false;
                    self.scan.run(&self.ring);
                    return;
                }
            }
        } else if left == self.scan.open {
            // All that is left is of the `:` that is open.
            self.scan.fed = left;
            return;
        }
        self.scan = Scan::begin(within);
        self.scan.run(&self.ring);
    }

    fn room(&self) -> usize {
        MAX_FRAME
    }

    fn make_room(&mut self, _alloc: Global) -> Result<(), AllocError> {
        Ok(())
    }

    fn append(&mut self, piece: &[u8]) {
        self.ring.extend_from_slice(piece);
        self.scan.run(&self.ring);
    }

    fn laws() {}
}
