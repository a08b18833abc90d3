//! The frames of a burst, and what each of them is in it (MODBUS over Serial Line V1.02, section 2.5.1).
ghost use Rattle.std.specs.Prelude.{◌≡◌, ◌∷◌, ◌<◌, ◌≤◌, true, false, length, drop, MatchOption};
ghost use Rattle.modbus_pdu.specs.Message.{message};
ghost use Rattle.modbus_rtu.specs.Frame.{judged_by};
ghost use Rattle.modbus_field.specs.BurstLimits.{shortest_frame};
ghost use Rattle.modbus_field.specs.Bursts.{frame_of, found, length_told, frame_length, is_reply, is_frame, part_before, said, slave_asked, is_answered};

use crate::burst::bursts::MOST_READ;
use crate::burst::length::{BurstReplyRule, BurstRequestRule};
use modbus_frame::SlaveId;
use modbus_pdu::MAX_PDU;
use modbus_rtu::{LengthRule, MAX_FRAME, Verdict, calc_crc, judge_by};

/// The bytes of a checksum, which stands at the end of a frame.
const CHECKSUM: usize = 2;

/// The bytes of a frame besides its PDU: a slave address and a checksum.
const OVERHEAD: usize = 1 + CHECKSUM;

/// The bytes of the shortest frame: a slave address, a function code and a checksum.
pub const SHORTEST_FRAME: usize = 1 + OVERHEAD;

/// The slave address that is asked by what asks no device: noise, and a reply. It is reserved, and no device has it (section 2.2).
pub const NOISE_ADDRESS: SlaveId = 255;

/// What a message is in its burst.
#[derive(Clone, Copy, Debug, PartialEq, Eq)]
pub enum Part {
    /// The last frame. It asks its slave, and the answer is written.
    Last,
    /// A frame behind which another one stands. It asks its slave, and the answer is not written.
    Earlier,
    /// Noise, or a frame that has the length of a reply and not that of a request. It asks no device.
    Unasked,
}

/// What stands beside the PDU of a message of a burst.
#[derive(Clone, Copy, Debug, PartialEq, Eq)]
pub struct FrameHeader {
    /// The slave address of the frame; `NOISE_ADDRESS` of noise.
    pub slave: SlaveId,
    /// What the message is in its burst.
    pub part: Part,
}

impl FrameHeader {
    /// The slave that is asked; `NOISE_ADDRESS` where none is.
    pub fn slave_asked(self) -> SlaveId
        ensures { result ≡ slave_asked self }
    {
        match self.part {
            Part::Last | Part::Earlier => self.slave,
            Part::Unasked => NOISE_ADDRESS,
        }
    }

    /// Whether the answer is written.
    pub fn is_answered(self) -> bool
        ensures { result ≡ is_answered self }
    {
        matches!(self.part, Part::Last)
    }
}

/// The header of noise.
const NOISE: FrameHeader = FrameHeader {
    slave: NOISE_ADDRESS,
    part: Part::Unasked,
};

/// Whether bytes are a frame: not fewer than `SHORTEST_FRAME` and not more than `MAX_FRAME`, with the checksum of the others at their end.
fn is_frame(bytes: &[u8]) -> bool
    ensures { result ≡ is_frame bytes.now }
{
    if bytes.len() < SHORTEST_FRAME || bytes.len() > MAX_FRAME {
        return false;
    }
    let end = bytes.len() - CHECKSUM;
    calc_crc(&bytes[..end]) == u16::from_le_bytes([bytes[end], bytes[end + 1]])
}

/// The slave address and the PDU of the frame that a burst is, whatever its function code; `None` where the burst has fewer bytes than
/// `SHORTEST_FRAME` or more than `MAX_FRAME`, or does not end with the checksum of the others.
#[tactic(auto, unfolding(crate::specs::Bursts::frame_of))]
pub fn frame_in(burst: &[u8]) -> Option<(SlaveId, &[u8])>
    ensures exact { found (λ frame. message frame.0 frame.1.now) result ≡ frame_of burst.now }
    ensures whole { MatchOption result (is_frame burst.now ≡ false) (λ _. is_frame burst.now ≡ true) }
{
    if is_frame(burst) {
        Some((burst[0], &burst[1..burst.len() - CHECKSUM]))
    } else {
        None
    }
}

/// The length in bytes of the frame at the start of bytes that a rule tells; `None` where there is none, or it has no PDU or one above
/// `MAX_PDU`.
fn length_by<R: LengthRule>(rule: &R, bytes: &[u8]) -> Option<usize>
    ensures { MatchOption result (length_told (judged_by R.head bytes.now) ≡ 0) (λ n.
        (n ≡ length_told (judged_by R.head bytes.now)) × (shortest_frame ≤ n)
        × (n ≤ length bytes.now)) }
{
    match judge_by(rule, bytes) {
        Verdict::Good(pdu_len) if pdu_len > 0 && pdu_len <= MAX_PDU => Some(pdu_len + OVERHEAD),
        _ => None,
    }
}

/// A frame at the start of bytes of a burst: its length in bytes, and whether it is read as a reply alone.
#[derive(Clone, Copy)]
struct Found {
    length: usize,
    is_reply: bool,
}

/// The frame at the start of bytes of a burst: all of them where that is a frame; else one that is as long as a request, or as a reply.
#[tactic(auto, unfolding(crate::specs::Bursts::frame_length, crate::specs::Bursts::is_reply, crate::specs::Bursts::request_length, crate::specs::Bursts::reply_length))]
fn frame_at(bytes: &[u8]) -> Option<Found>
    ensures { MatchOption result (frame_length bytes.now ≡ 0) (λ it.
        (it.length ≡ frame_length bytes.now) × (it.is_reply ≡ is_reply bytes.now)
        × (shortest_frame ≤ it.length) × (it.length ≤ length bytes.now)) }
{
    if frame_in(bytes).is_some() {
        return Some(Found {
            length: bytes.len(),
            is_reply: false,
        });
    }
    match length_by(&BurstRequestRule, bytes) {
        Some(length) => Some(Found {
            length,
            is_reply: false,
        }),
        None => {
            let length = length_by(&BurstReplyRule, bytes)?;
            Some(Found {
                length,
                is_reply: true,
            })
        }
    }
}

/// What a frame is in its burst, with these bytes behind it.
fn part_of(is_reply: bool, behind: &[u8]) -> Part
    ensures { result ≡ part_before is_reply behind.now }
{
    if is_reply {
        return Part::Unasked;
    }
    match frame_at(behind) {
        Some(_) => Part::Earlier,
        None => Part::Last,
    }
}

/// The first message of a burst that was read, or of the rest of one: its header, its PDU, and where it ends. Where no frame stands there,
/// all is noise, as a burst is that has as many bytes as are ever read.
#[tactic(auto, using(crate::proofs::Said::said_long, crate::proofs::Said::said_none, crate::proofs::Said::said_one), unfolding(crate::specs::Bursts::message_at))]
pub fn message_in(burst: &[u8]) -> (FrameHeader, &[u8], usize)
    ensures says { 0 < length burst.now → said burst.now ≡ message result.0 result.1.now ∷ said
        (drop result.2 burst.now) }
    ensures some { 0 < length burst.now → 0 < result.2 }
    ensures within { result.2 ≤ length burst.now }
{
    if burst.len() >= MOST_READ {
        return (NOISE, &burst[..0], burst.len());
    }
    match frame_at(burst) {
        Some(frame) => {
            let header = FrameHeader {
                slave: burst[0],
                part: part_of(frame.is_reply, &burst[frame.length..]),
            };
            (header, &burst[1..frame.length - CHECKSUM], frame.length)
        }
        None => (NOISE, &burst[..0], burst.len()),
    }
}
