//! The bytes that a server read and did not use yet, as a framing: pieces of a stream.
ghost use Rattle.std.specs.Prelude.{◌≡◌, ◌-◌, ◌≤◌, length, drop, vec_capacity};
ghost use Rattle.modbus_server.specs.Tcp.{told_fault};
ghost use Rattle.modbus_field.specs.StreamFraming.{stream, most_held};

use crate::standard::decode_any;
use crate::stream::piece::{first_end, message_in};
use bytes::BytesMut;
use modbus_frame::tcp::Header;
use modbus_frame::{EncodeError, ExceptionResponse, Front, PduError, Request, Response, SlaveId};
use modbus_server::tcp::AduBuffer;
use modbus_server::{Framing, ProcessError};
use modbus_tcp::{HeaderFault, LONGEST_RESPONSE, encode_response_adu};
use std::alloc::{AllocError, Global};
use std::marker::Model;

/// How many bytes a read has room for: as many as the longest ADU of a request has.
const ROOM: usize = LONGEST_RESPONSE;

/// How many bytes are ever held: less than the longest piece has, and a read.
const MOST: usize = LONGEST_RESPONSE - 1 + ROOM;

/// The bytes that were fed and not used yet: less than a piece, once all whole ones are taken off.
///
/// Its room is taken as it is opened, for the longest piece and a read, 519 bytes, so a read takes no memory.
#[derive(Drop)]
pub struct StreamBuffer {
    bytes: Vec<u8>,
    // how many of them were taken off
    taken: usize,
}

/// A contract sees the bytes that are held.
impl Model for StreamBuffer {
    ghost use Rattle.std.specs.Prelude.{ℕ, ◌≤◌, List, length, drop, vec_capacity};
    ghost use Rattle.modbus_field.specs.StreamFraming.{most_held};

    ghost Value = { List ℕ };

    ghost view = { λ it. drop it.taken it.bytes.items };

    ghost invariant = { λ it. record {
      within : it.taken ≤ length it.bytes.items;
      room : most_held ≤ vec_capacity it.bytes;
    } };
}

impl StreamBuffer {
    /// The bytes that are held.
    #[inline(always)]
    fn bytes_held(&self) -> &[u8]
        ensures { result.now ≡ self.now }
    {
        &self.bytes.as_slice()[self.taken..]
    }
}

/// Takes so many bytes off the front of these, and moves the others there.
fn drop_front(bytes: &mut Vec<u8>, count: usize)
    requires { count ≤ length bytes.old.items }
    ensures items { bytes.new.items ≡ drop count bytes.old.items }
    ensures capacity { vec_capacity bytes.new ≡ vec_capacity bytes.old }
{
    let left = bytes.len() - count;
    bytes.copy_within(count.., 0);
    bytes.truncate(left);
}

impl Framing for StreamBuffer {
    type Header = Header;

    type Fault = HeaderFault;

    ghost framing = { stream };

    ghost header_of = { λ header. header };

    ghost told = { told_fault };

    ghost held = { λ buffer. buffer };

    ghost free = { λ buffer. most_held - length buffer };

    fn tell(fault: HeaderFault) -> ProcessError {
        AduBuffer::tell(fault)
    }

    fn slave(header: Header) -> SlaveId {
        header.unit_id
    }

    fn reply_room() -> usize {
        LONGEST_RESPONSE
    }

    fn longest_read() -> usize {
        ROOM
    }

    fn seam() -> usize {
        0
    }

    #[inline(always)]
    fn decode(alloc: Global, pdu: &[u8]) -> Result<Request<'static>, PduError> {
        decode_any(alloc, pdu)
    }

    #[inline(always)]
    fn encode_answer(
        alloc: Global,
        header: Header,
        answer: &Result<Response, ExceptionResponse>,
        reply: &mut BytesMut,
    ) -> Result<(), EncodeError> {
        encode_response_adu(alloc, header, answer, reply)
    }

    fn open(alloc: Global) -> Result<StreamBuffer, AllocError> {
        Ok(StreamBuffer {
            bytes: Vec::with_capacity(alloc, MOST)?,
            taken: 0,
        })
    }

    fn is_empty(&self) -> bool {
        self.bytes_held().is_empty()
    }

    #[inline(always)]
    fn front<'a>(&'a self, _seam: &'a mut [u8]) -> Result<Front<'a, Header>, HeaderFault> {
        let held = self.bytes_held();
        match first_end(held) {
            Ok(None) => Ok(Front::Waiting { dropped: 0 }),
            Ok(Some(end)) => {
                let (header, pdu) = message_in(&held[..end]);
                Ok(Front::Message { header, pdu, end })
            }
            Err(fault) => Err(fault),
        }
    }

    fn advance(&mut self, count: usize) {
        self.taken += count;
        if self.taken == self.bytes.len() {
            self.bytes.clear();
            self.taken = 0;
        }
    }

    fn room(&self) -> usize {
        ROOM
    }

    fn make_room(&mut self, _alloc: Global) -> Result<(), AllocError> {
        Ok(())
    }

    fn append(&mut self, piece: &[u8]) {
        if self.bytes.len() + piece.len() > MOST {
            drop_front(&mut self.bytes, self.taken);
            self.taken = 0;
        }
        let _ = self.bytes.extend_from_slice(piece);
    }

    fn laws() {}
}
