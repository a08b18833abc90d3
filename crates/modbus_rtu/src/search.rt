//! The search for the next frame in the bytes that a reader holds.
ghost use Rattle.modbus_rtu.specs.Frame.{judged_by};
ghost use Rattle.modbus_rtu.specs.Next.{IsNext, IsNextBy, IsWithin};
ghost use Rattle.modbus_rtu.specs.Limits.{max_frame};

use crate::length::{LengthRule, RequestRule};
use crate::verdict::{Verdict, judge_by};

/// How many offsets one search tries.
pub const MAX_RETRIES: usize = 20;

/// What a search finds.
#[derive(Clone, Copy, Debug, PartialEq, Eq)]
pub enum Next {
    /// The next frame: the offset of its slave address, and the length in bytes of its PDU. No frame stands at the offsets before
    /// it.
    Frame { start: usize, pdu_len: usize },
    /// No frame yet: none stands at so many offsets, and the next offset waits for bytes.
    Waiting { dropped: usize },
    /// No frame stands at the first `MAX_RETRIES` offsets.
    TooManyRetries,
}

/// Searches the held bytes for the next frame, by a length rule. Each try looks at one offset, from the first one on.
#[inline(always)]
pub fn next_frame_by<R: LengthRule>(rule: &R, held: &[u8]) -> Next
    ensures exact { IsNextBy (judged_by R.head) held.now result }
    ensures within { IsWithin R.longest held.now result }
{
    for start in 0..MAX_RETRIES {
        match judge_by(rule, &held[start..]) {
            Verdict::Open => return Next::Waiting { dropped: start },
            Verdict::Good(pdu_len) => return Next::Frame { start, pdu_len },
            Verdict::Bad => {}
        }
    }
    Next::TooManyRetries
}

/// Searches the held bytes for the next frame of a request.
#[inline(always)]
#[tactic(auto, unfolding(crate::specs::Frame::verdict_of))]
pub fn next_frame(held: &[u8]) -> Next
    ensures exact { IsNext held.now result }
    ensures within { IsWithin max_frame held.now result }
{
    next_frame_by(&RequestRule, held)
}
