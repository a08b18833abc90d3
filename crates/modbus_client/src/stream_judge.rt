//! How the bytes of a connection are judged that carries the frames of a serial line, where no silence ends a frame (MODBUS over Serial Line
//! V1.02, section 2.4.1). Other masters of that line may be heard on it too.
ghost use Rattle.std.specs.Prelude.{◌≡◌, ◌≢◌, ◌+◌, ◌≤◌, ℕ, Ok, Some, drop, length, slice_get};
ghost use Rattle.modbus_pdu.specs.Limits.{two_words_pdu};
ghost use Rattle.modbus_rtu.specs.Limits.{max_frame, overhead};
ghost use Rattle.modbus_rtu.specs.declared.verdict.Verdict.TheVariants.{Good};
ghost use Rattle.modbus_client.specs.LineReading.{line_verdict, reply_verdict, may_ask, asks_two_words, is_good, is_own, hides_reply, is_settled, request_verdict, stream_verdict};

use crate::line::Judge;
use crate::line_length::{LineRule, OVERHEAD, SilentRule, front, is_untold};
use modbus_frame::function_code;
use modbus_pdu::TWO_WORDS_PDU;
use modbus_rtu::{LengthRule, MAX_FRAME, NoLength, Verdict, judge_by};

/// How many bytes has the frame of a request that is a function code and two words.
const TWO_WORDS_FRAME: usize = TWO_WORDS_PDU + OVERHEAD;

/// Over a connection, on which no silence ends a frame.
pub(crate) struct Streaming;

impl Judge for Streaming {
    ghost verdict = { stream_verdict };

    #[tactic(auto, unfolding(crate::specs::LineReading::stream_verdict))]
    fn judge(asked: u8, adu: &[u8]) -> Verdict {
        match judge_request(asked, adu) {
            Verdict::Bad => judge_reply(asked, adu),
            verdict => verdict,
        }
    }
}

/// Judges the front of bytes as a reply.
#[tactic(auto, unfolding(crate::specs::LineReading::line_verdict), using(crate::proofs::StreamVerdict::good_reply))]
fn judge_reply(asked: u8, adu: &[u8]) -> Verdict
    ensures exact { result ≡ reply_verdict asked adu.now }
    ensures whole { (n : ℕ) → result ≡ Good n → n + overhead ≤ length adu.now }
{
    match judge_by(&LineRule, adu) {
        Verdict::Good(pdu_len) => Verdict::Good(pdu_len),
        Verdict::Open => judge_rest(asked, adu, Verdict::Open),
        Verdict::Bad => judge_rest(asked, adu, Verdict::Bad),
    }
}

/// Judges what is no whole reply that tells its length. One of the slave that was asked whose function tells none is all that came.
#[tactic(auto, unfolding(crate::specs::LineReading::reply_verdict))]
fn judge_rest(asked: u8, adu: &[u8], told: Verdict) -> Verdict
    requires line { told ≡ line_verdict adu.now }
    requires apart { (n : ℕ) → told ≢ Good n }
    ensures exact { result ≡ reply_verdict asked adu.now }
    ensures whole { (n : ℕ) → result ≡ Good n → n + overhead ≤ length adu.now }
{
    if !is_untold(adu) {
        return told;
    }
    if adu[0] != asked {
        return Verdict::Bad;
    }
    match judge_by(&SilentRule, adu) {
        Verdict::Bad if adu.len() <= MAX_FRAME => Verdict::Open,
        verdict => verdict,
    }
}

/// Judges the front of bytes as what another master asks another slave by two words. It is waited for only while no reply stands in its bytes.
#[tactic(auto, unfolding(crate::specs::LineReading::request_verdict))]
fn judge_request(asked: u8, adu: &[u8]) -> Verdict
    ensures exact { result ≡ request_verdict asked adu.now }
    ensures whole { (n : ℕ) → result ≡ Good n → n + overhead ≤ length adu.now }
{
    if !may_ask(asked, adu) {
        return Verdict::Bad;
    }
    if is_settled(asked, front(adu, TWO_WORDS_FRAME - 1)) {
        return Verdict::Bad;
    }
    judge_by(&TwoWordsRule, adu)
}

/// The rule of requests that are a function code and two words.
#[derive(Clone, Copy)]
struct TwoWordsRule;

impl LengthRule for TwoWordsRule {
    ghost use Rattle.std.specs.Prelude.{◌+◌};

    ghost head = { λ adu. Ok (Some two_words_pdu) };

    ghost longest = { max_frame };

    fn pdu_len(&self, _adu: &[u8]) -> Result<Option<usize>, NoLength> {
        Ok(Some(TWO_WORDS_PDU))
    }
}

/// Whether a request of this function is a function code and two words (Modbus Application Protocol V1.1b3, sections 6.1 to 6.6).
fn asks_two_words(code: u8) -> bool
    ensures { result ≡ asks_two_words code }
{
    function_code::READ_COILS <= code && code <= function_code::WRITE_SINGLE_REGISTER
}

/// Whether the bytes may begin such a request for another slave.
fn may_ask(asked: u8, adu: &[u8]) -> bool
    ensures { result ≡ may_ask asked adu.now (slice_get adu.now 1) }
{
    match adu.get(1) {
        None => false,
        Some(&code) => adu[0] != asked && asks_two_words(code),
    }
}

/// Whether the first bytes of a request are a reply, or hide one.
#[tactic(auto, unfolding(crate::specs::LineReading::is_settled))]
fn is_settled(asked: u8, first: &[u8]) -> bool
    ensures { result ≡ is_settled asked first.now }
{
    is_good(first) || hides_reply(asked, first)
}

/// Whether the bytes begin with a whole reply of any slave.
#[tactic(auto, unfolding(crate::specs::LineReading::line_verdict))]
fn is_good(adu: &[u8]) -> bool
    ensures { result ≡ is_good (line_verdict adu.now) }
{
    match judge_by(&LineRule, adu) {
        Verdict::Good(_) => true,
        _ => false,
    }
}

/// Whether a reply of the slave that was asked stands behind the first byte, the second or the third.
fn hides_reply(asked: u8, adu: &[u8]) -> bool
    ensures { result ≡ hides_reply asked adu.now }
{
    is_own_behind(asked, adu, 1) || is_own_behind(asked, adu, 2) || is_own_behind(asked, adu, 3)
}

/// Whether a whole reply of the slave that was asked stands behind so many bytes.
fn is_own_behind(asked: u8, adu: &[u8], count: usize) -> bool
    ensures { result ≡ is_own asked (drop count adu.now) }
{
    if adu.len() <= count {
        return false;
    }
    let (_, adu) = adu.split_at(count);
    adu[0] == asked && is_good(adu)
}
