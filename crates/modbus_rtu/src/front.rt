//! What stands at the front of the bytes that a reader holds: the next frame, lent from where it lies.
ghost use Rattle.std.specs.Prelude.{◌≡◌, ◌+◌, ◌≤◌, ◌++◌, length};
ghost use Rattle.modbus_rtu.specs.Frame.{judged_by};
ghost use Rattle.modbus_rtu.specs.Front.{FindsFrame, FindsFrameBy};

use crate::length::{LengthRule, OVERHEAD, RequestRule};
use crate::search::{Next, next_frame_by};
use modbus_frame::{Front, SlaveId};

/// No frame stands at the first `MAX_RETRIES` offsets.
#[derive(Clone, Copy, Debug, PartialEq, Eq)]
pub struct Crowd;

/// Searches held bytes for the next frame, by a length rule. No byte is copied.
#[inline(always)]
pub(crate) fn find_by<'a, R: LengthRule>(
    rule: &R,
    held: &'a [u8],
) -> Result<Front<'a, SlaveId>, Crowd>
    ensures { FindsFrameBy (judged_by R.head) R.longest held.now result }
{
    match next_frame_by(rule, held) {
        Next::TooManyRetries => Err(Crowd),
        Next::Waiting { dropped } => Ok(Front::Waiting { dropped }),
        Next::Frame { start, pdu_len } => Ok(Front::Message {
            header: held[start],
            pdu: &held[start + 1..][..pdu_len],
            end: start + pdu_len + OVERHEAD,
        }),
    }
}

/// Searches held bytes for the next frame of a request.
#[inline(always)]
#[tactic(auto, unfolding(crate::specs::Frame::verdict_of))]
pub(crate) fn find(held: &[u8]) -> Result<Front<'_, SlaveId>, Crowd>
    ensures { FindsFrame held.now result }
{
    find_by(&RequestRule, held)
}

/// Copies two pieces of bytes one behind the other.
fn join<'a>(first: &[u8], second: &[u8], seam: &'a mut [u8]) -> &'a [u8]
    requires { length first.now + length second.now ≤ length seam.old }
    ensures { result.now ≡ first.now ++ second.now }
{
    let end = first.len() + second.len();
    let joined = &mut seam[..end];
    joined[..first.len()].copy_from_slice(first);
    joined[first.len()..].copy_from_slice(second);
    joined
}

/// Searches two pieces as one, for a frame that may lie in both.
#[cold]
fn find_across<'a>(
    first: &[u8],
    second: &[u8],
    seam: &'a mut [u8],
) -> Result<Front<'a, SlaveId>, Crowd>
    requires { length first.now + length second.now ≤ length seam.old }
    ensures { FindsFrame (first.now ++ second.now) result }
{
    find(join(first, second, seam))
}

/// Searches held bytes that lie in two pieces for the next frame of a request. What stands in the first piece is lent from there. Where
/// the search waits at its end, both are copied to `seam`, so that a frame that lies in both pieces is whole there.
#[inline(always)]
#[tactic(auto, using(crate::proofs::TwoPieces::frame_on))]
pub(crate) fn find_in_two<'a>(
    first: &'a [u8],
    second: &'a [u8],
    seam: &'a mut [u8],
) -> Result<Front<'a, SlaveId>, Crowd>
    requires { length first.now + length second.now ≤ length seam.old }
    ensures { FindsFrame (first.now ++ second.now) result }
{
    match find(first) {
        Err(crowd) => Err(crowd),
        Ok(Front::Message { header, pdu, end }) => Ok(Front::Message { header, pdu, end }),
        Ok(Front::Waiting { dropped }) => {
            if second.is_empty() {
                return Ok(Front::Waiting { dropped });
            }
            find_across(first, second, seam)
        }
    }
}
