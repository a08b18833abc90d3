//! How long the frames of a burst are, by their first bytes.
//!
//! A server of RTU alone reads no request of a function for which it knows no length. On a line that others share it hears such requests
//! and their replies, so here Diagnostics and the functions of file records have a length, and what stands behind them is read
//! (Modbus Application Protocol V1.1b3, sections 6.8, 6.14 and 6.15).
ghost use Rattle.std.specs.Prelude.{◌≡◌, ◌<◌, ◌≤◌, Ok, Some, None, IsErr, IfOk, IfSome, MatchOption, length, slice_get};
ghost use Rattle.modbus_pdu.specs.Limits.{max_pdu, read_head};
ghost use Rattle.modbus_rtu.specs.Frame.{counted_head};
ghost use Rattle.modbus_field.specs.BurstLength.{diagnostics_head, own_head};

use modbus_frame::function_code;
use modbus_pdu::{MAX_PDU, READ_HEAD, TWO_WORDS_PDU};
use modbus_rtu::{LengthRule, NoLength, request_pdu_len, response_pdu_len};

/// The length in bytes of the PDU that a byte count behind the function code tells; `None` where it is missing.
///
/// # Errors
/// `NoLength` where no PDU can be so long.
fn counted_len(code: u8, adu: &[u8]) -> Result<Option<usize>, NoLength>
    ensures exact { result ≡ counted_head code read_head (slice_get adu.now read_head) }
    ensures most { IfOk result (λ found. IfSome found (λ n. n ≤ max_pdu)) }
    ensures missing { result ≡ Ok None → length adu.now ≤ 2 }
{
    let Some(&count) = adu.get(READ_HEAD) else {
        return Ok(None);
    };
    let pdu_len = READ_HEAD + usize::from(count);
    if pdu_len > MAX_PDU {
        Err(NoLength(code))
    } else {
        Ok(Some(pdu_len))
    }
}

/// The length of Diagnostics: two bytes of data behind the sub-function. `None` for sub-function 00, whose data has any length.
fn diagnostics_len(adu: &[u8]) -> Option<Option<usize>>
    ensures exact { MatchOption result
        (diagnostics_head (slice_get adu.now 2) (slice_get adu.now 3) ≡ None)
        (λ found. diagnostics_head (slice_get adu.now 2) (slice_get adu.now 3) ≡ Some (Ok found)) }
    ensures most { IfSome result (λ found. IfSome found (λ n. n ≤ max_pdu)) }
    ensures missing { result ≡ Some None → length adu.now ≤ 3 }
{
    let (Some(&high), Some(&low)) = (adu.get(2), adu.get(3)) else {
        return Some(None);
    };
    if high == 0 && low == 0 {
        None
    } else {
        Some(Some(TWO_WORDS_PDU))
    }
}

/// The length in bytes of the PDU of a function for which RTU knows none, as a request or as a reply; `None` for all other functions.
#[tactic(auto, unfolding(crate::specs::BurstLength::own_head))]
fn own_len(adu: &[u8]) -> Option<Result<Option<usize>, NoLength>>
    ensures exact { result ≡ own_head adu.now }
    ensures most { IfSome result (λ own. IfOk own (λ found. IfSome found (λ n. n ≤ max_pdu))) }
    ensures missing { result ≡ Some (Ok None) → length adu.now ≤ 3 }
    ensures coded { IfSome result (λ own. IsErr own → 1 < length adu.now) }
{
    let Some(&code) = adu.get(1) else {
        return None;
    };
    match code {
        function_code::READ_FILE_RECORD | function_code::WRITE_FILE_RECORD => {
            Some(counted_len(code, adu))
        }
        function_code::DIAGNOSTICS => match diagnostics_len(adu) {
            Some(found) => Some(Ok(found)),
            None => None,
        },
        _ => None,
    }
}

/// The rule of what is read as a request.
pub(crate) struct BurstRequestRule;

impl LengthRule for BurstRequestRule {
    ghost use Rattle.modbus_rtu.specs.Limits.{max_frame};
    ghost use Rattle.modbus_field.specs.BurstLength.{request_head};

    ghost head = { request_head };

    ghost longest = { max_frame };

    #[tactic(auto, unfolding(crate::specs::BurstLength::request_head))]
    fn pdu_len(&self, adu: &[u8]) -> Result<Option<usize>, NoLength> {
        match own_len(adu) {
            Some(own) => own,
            None => request_pdu_len(adu),
        }
    }
}

/// The rule of what is read as a reply.
pub(crate) struct BurstReplyRule;

impl LengthRule for BurstReplyRule {
    ghost use Rattle.modbus_rtu.specs.Limits.{longest_identification};
    ghost use Rattle.modbus_field.specs.BurstLength.{reply_head};

    ghost head = { reply_head };

    ghost longest = { longest_identification };

    #[tactic(auto, unfolding(crate::specs::BurstLength::reply_head))]
    fn pdu_len(&self, adu: &[u8]) -> Result<Option<usize>, NoLength> {
        match own_len(adu) {
            Some(own) => own,
            None => response_pdu_len(adu),
        }
    }
}
