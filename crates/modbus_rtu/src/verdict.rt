//! What stands at the front of a list of bytes.
ghost use Rattle.std.specs.Prelude.{◌≡◌, ◌≢◌, ℕ, ◌+◌, ◌<◌, ◌≤◌, length};
ghost use Rattle.modbus_rtu.specs.Frame.{judged_by, verdict_of};
ghost use Rattle.modbus_rtu.specs.Limits.{overhead, max_frame};

use crate::crc::check_crc;
use crate::length::{LengthRule, OVERHEAD, RequestRule};

/// What stands at the front of bytes, read by a length rule.
#[derive(Clone, Copy, Debug, PartialEq, Eq)]
pub enum Verdict {
    /// Bytes are missing: some that tell the length of the PDU, or the end of the frame.
    Open,
    /// There is no frame: no length is known, or the frame is there with a wrong checksum.
    Bad,
    /// A frame, with the length in bytes of its PDU.
    Good(usize),
}

/// Judges the front of bytes, which begins with a slave address if there is a frame, by a length rule.
#[inline(always)]
#[tactic(auto, using(crate::proofs::Judging::judged))]
pub fn judge_by<R: LengthRule>(rule: &R, adu: &[u8]) -> Verdict
    ensures exact { result ≡ judged_by R.head adu.now }

    // Bytes wait for more only while they are fewer than the longest frame.
    ensures short { result ≡ Verdict.Open → length adu.now < R.longest }
    ensures some { result ≢ Verdict.Open → 0 < length adu.now }
    ensures whole { (n : ℕ) → result ≡ Verdict.Good n → n + overhead ≤ length adu.now }
{
    match rule.pdu_len(adu) {
        Err(_) => Verdict::Bad,
        Ok(None) => Verdict::Open,
        Ok(Some(pdu_len)) => {
            if adu.len() < pdu_len + OVERHEAD {
                return Verdict::Open;
            }
            let (body, rest) = adu.split_at(pdu_len + 1);
            let expected = u16::from_le_bytes([rest[0], rest[1]]);
            match check_crc(body, expected) {
                Ok(()) => Verdict::Good(pdu_len),
                Err(_) => Verdict::Bad,
            }
        }
    }
}

/// Judges the front of bytes, which begins with the slave address of a request if there is one.
#[tactic(auto, unfolding(crate::specs::Frame::verdict_of))]
pub fn judge(adu: &[u8]) -> Verdict
    ensures exact { result ≡ verdict_of adu.now }

    // Bytes wait for more only while they are fewer than the longest request frame.
    ensures short { result ≡ Verdict.Open → length adu.now < max_frame }
    ensures whole { (n : ℕ) → result ≡ Verdict.Good n → n + overhead ≤ length adu.now }
{
    judge_by(&RequestRule, adu)
}
