//! The decoders of frames in a buffer that a reader appends to (MODBUS over Serial Line V1.02, section 2.5.1).
//!
//! A line carries noise: where no frame stands at the front of the buffer, a decoder drops a byte and looks again. The bytes that it
//! dropped since its last frame are recorded.
ghost use Rattle.std.specs.Prelude.{◌≡◌, ℕ, ◌+◌, ◌<◌, ◌≤◌, Ok, None, List, [], ◌↔◌, length, take, drop, slice_index, IsOk, IfOk, IfErr, OnOk, OnErr};
ghost use Rattle.modbus_pdu.specs.Message.{message};
ghost use Rattle.modbus_rtu.specs.Frame.{judged_by};
ghost use Rattle.modbus_rtu.specs.Decoder.{with_dropped, with_all_dropped, frame_with, sum_made, sum_sent, DecodesFrame, DecodesBy};
ghost use Rattle.modbus_rtu.specs.declared.decoder.FrameFault.TheVariants as fault;
ghost use Rattle.modbus_rtu.specs.Limits.{overhead, max_dropped};

use crate::crc::{CrcMismatch, check_crc};
use crate::inbox::RtuError;
use crate::length::{LengthRule, OVERHEAD, RequestRule};
use crate::response_length::ResponseRule;
use crate::search::{MAX_RETRIES, Next, next_frame_by};
use arrayvec::ArrayVec;
use bytes::{Bytes, BytesMut};
use modbus_frame::SlaveId;
use std::alloc::{AllocError, Global};
use std::marker::Model;

/// The most dropped bytes that are recorded.
const MOST_DROPPED: usize = 256;

/// Why a frame is not given.
#[derive(Clone, Copy, Debug, PartialEq, Eq, thiserror::Error)]
pub enum FrameFault {
    /// The checksum of the frame is wrong.
    #[error(transparent)]
    Crc(CrcMismatch),
    /// Memory is wanting.
    #[error("no memory")]
    NoMemory,
}

impl From<CrcMismatch> for FrameFault {
    ghost from_gives = { λ mismatch error. error ≡ fault.Crc mismatch };

    fn from(mismatch: CrcMismatch) -> FrameFault {
        FrameFault::Crc(mismatch)
    }
}

impl From<AllocError> for FrameFault {
    ghost from_gives = { λ _ error. error ≡ fault.NoMemory };

    fn from(_error: AllocError) -> FrameFault {
        FrameFault::NoMemory
    }
}

/// Takes frames of a known length off the front of a buffer, and records the bytes that are dropped between them.
#[derive(Debug, Drop)]
pub struct FrameDecoder {
    dropped: ArrayVec<u8, MOST_DROPPED>,
}

/// A contract sees the recorded bytes.
impl Model for FrameDecoder {
    ghost use Rattle.std.specs.Prelude.{ℕ, List};

    ghost Value = { List ℕ };

    ghost view = { λ decoder. decoder.dropped.items };
}

impl Default for FrameDecoder {
    ghost is_default = { λ decoder. decoder ≡ [] };

    fn default() -> Self {
        Self::new()
    }
}

/// Takes the frame off the front of a buffer: its slave address, and its PDU.
fn take_frame(buf: &mut BytesMut, pdu_len: usize) -> Result<(SlaveId, Bytes), AllocError>
    requires { pdu_len + overhead ≤ length buf.old.items }
    ensures ok { IfOk result (λ frame. message frame.0 frame.1 ≡ frame_with pdu_len
        buf.old.items) }
    ensures rest { OnOk result (buf.new.items ≡ drop (pdu_len + overhead) buf.old.items) }
    ensures err { OnErr result (buf.new.items ≡ buf.old.items) }
{
    let slave = buf.as_slice()[0];
    let mut frame = buf.freeze_to(pdu_len + OVERHEAD)?;
    frame.advance(1);
    frame.truncate(pdu_len);
    Ok((slave, frame))
}

/// Compares the checksum of a frame at the front of bytes with the one that it carries.
fn check_frame(adu: &[u8], pdu_len: usize) -> Result<(), CrcMismatch>
    requires { pdu_len + overhead ≤ length adu.now }
    ensures variant { IsOk result ↔ (sum_made pdu_len adu.now ≡ sum_sent pdu_len adu.now) }
    ensures expected { IfErr result (λ mismatch. mismatch.expected ≡ sum_sent pdu_len adu.now) }
    ensures actual { IfErr result (λ mismatch. mismatch.actual ≡ sum_made pdu_len adu.now) }
{
    let (body, rest) = adu.split_at(pdu_len + 1);
    check_crc(body, u16::from_le_bytes([rest[0], rest[1]]))
}

impl FrameDecoder {
    /// A decoder that dropped no byte.
    pub fn new() -> FrameDecoder
        ensures { result ≡ [] }
    {
        FrameDecoder {
            dropped: ArrayVec::new(),
        }
    }

    /// The bytes that were dropped since the last frame was given, or since the record was full and so was emptied.
    pub fn dropped_bytes(&self) -> &[u8]
        ensures exact { result.now ≡ self.now }
        ensures most { length result.now ≤ max_dropped }
    {
        self.dropped.as_slice()
    }

    /// Takes a frame off the front of the buffer whose PDU has the given length in bytes, and gives its slave address and its PDU.
    /// `None` exactly where the buffer has fewer bytes than the frame. The record of dropped bytes is emptied with a frame, and else
    /// stays.
    ///
    /// # Errors
    /// `Crc` exactly where the frame is there with a wrong checksum: the one that it carries was expected, the actual one is that
    /// of its bytes. `NoMemory` where memory is refused for a frame. The buffer then stays as it is.
    pub fn decode(
        &mut self,
        _alloc: Global,
        buf: &mut BytesMut,
        pdu_len: usize,
    ) -> Result<Option<(SlaveId, Bytes)>, FrameFault>
        requires { pdu_len + overhead ≤ usize.MAX }
        ensures decodes { DecodesFrame pdu_len buf.old.items self.old result buf.new.items
            self.new }
    {
        if buf.len() < pdu_len + OVERHEAD {
            return Ok(None);
        }
        check_frame(buf.as_slice(), pdu_len)?;
        let frame = take_frame(buf, pdu_len)?;
        self.dropped.clear();
        Ok(Some(frame))
    }

    /// Drops the first byte of the buffer, where no frame stands, and records it. A full record is emptied first.
    pub fn recover_on_error(&mut self, buf: &mut BytesMut)
        requires { 0 < length buf.old.items }
        ensures buffer { buf.new.items ≡ drop 1 buf.old.items }
        ensures record { self.new ≡ with_dropped self.old (slice_index buf.old.items 0) }
    {
        let first = buf.as_slice()[0];
        buf.advance(1);
        if self.dropped.is_full() {
            self.dropped.clear();
        }
        self.dropped.push(first);
    }

    /// Drops so many bytes of the buffer, one after another.
    fn drop_bytes(&mut self, buf: &mut BytesMut, count: usize)
        requires { count ≤ length buf.old.items }
        ensures buffer { buf.new.items ≡ drop count buf.old.items }
        ensures record { self.new ≡ with_all_dropped self.old (take count buf.old.items) }
    {
        for _ in 0..count {
            self.recover_on_error(buf);
        }
    }

    /// Looks for the next frame by a length rule, drops the bytes before it, and takes it off.
    fn decode_by<R: LengthRule>(
        &mut self,
        rule: &R,
        buf: &mut BytesMut,
    ) -> Result<Option<(SlaveId, Bytes)>, RtuError>
        ensures decodes { DecodesBy (judged_by R.head) buf.old.items self.old result buf.new.items
            self.new }
        ensures short { result ≡ Ok None → length buf.new.items < R.longest }
    {
        match next_frame_by(rule, buf.as_slice()) {
            Next::TooManyRetries => {
                self.drop_bytes(buf, MAX_RETRIES);
                Err(RtuError::TooManyRetries)
            }
            Next::Waiting { dropped } => {
                self.drop_bytes(buf, dropped);
                Ok(None)
            }
            Next::Frame { start, pdu_len } => {
                self.drop_bytes(buf, start);
                let frame = take_frame(buf, pdu_len)?;
                self.dropped.clear();
                Ok(Some(frame))
            }
        }
    }
}

/// Takes the frames that a length rule tells out of a buffer.
#[derive(Debug, Drop)]
pub struct Decoder<R> {
    rule: R,
    frames: FrameDecoder,
}

/// Takes the frames of requests out of a buffer. Fewer than `MAX_FRAME` bytes wait.
pub type RequestDecoder = Decoder<RequestRule>;

/// Takes the frames of responses out of a buffer. Fewer than `LONGEST_IDENTIFICATION` bytes wait.
pub type ResponseDecoder = Decoder<ResponseRule>;

/// A contract sees the recorded bytes.
impl<R> Model for Decoder<R> {
    ghost use Rattle.std.specs.Prelude.{ℕ, List};

    ghost Value = { List ℕ };

    ghost view = { λ decoder. decoder.frames };
}

impl<R: LengthRule + Default> Default for Decoder<R> {
    ghost is_default = { λ decoder. decoder ≡ [] };

    fn default() -> Self {
        Self::new()
    }
}

impl<R: LengthRule + Default> Decoder<R> {
    /// A decoder that dropped no byte.
    pub fn new() -> Decoder<R>
        ensures { result ≡ [] }
    {
        Decoder {
            rule: R::default(),
            frames: FrameDecoder::new(),
        }
    }
}

impl<R: LengthRule> Decoder<R> {
    /// The bytes that were dropped since the last frame was given, or since the record was full and so was emptied.
    pub fn dropped_bytes(&self) -> &[u8]
        ensures exact { result.now ≡ self.now }
        ensures most { length result.now ≤ max_dropped }
    {
        self.frames.dropped_bytes()
    }

    /// Takes off the next frame, with all bytes before it: the first good offset after fewer than `MAX_RETRIES` bad ones. Gives
    /// its slave address and its PDU. `None` where an open offset comes first; the bad ones before it are dropped, and fewer
    /// bytes are left than the longest frame has that is waited for.
    ///
    /// # Errors
    /// `TooManyRetries` exactly where the first `MAX_RETRIES` offsets are bad; they are dropped. `NoMemory` where memory is
    /// refused for a frame; the bad offsets before it are dropped. `Invalid` never.
    pub fn decode(
        &mut self,
        _alloc: Global,
        buf: &mut BytesMut,
    ) -> Result<Option<(SlaveId, Bytes)>, RtuError>
        ensures decodes { DecodesBy (judged_by R.head) buf.old.items self.old result buf.new.items
            self.new }
        ensures short { result ≡ Ok None → length buf.new.items < R.longest }
    {
        self.frames.decode_by(&self.rule, buf)
    }
}
