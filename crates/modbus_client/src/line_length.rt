//! How long the frame of a reply is on a serial line, while bytes come and once the line is silent (Modbus Application Protocol V1.1b3,
//! sections 6 and 7; MODBUS over Serial Line V1.02, section 2.5.1.1).
ghost use Rattle.std.specs.Prelude.{◌≡◌, ◌≢◌, ◌+◌, ◌<◌, ◌≤◌, IfOk, IfSome, IsErr, IsTrue, Ok, None, Some, length, take, slice_get, slice_index};
ghost use Rattle.modbus_rtu.specs.ResponseHead.ResponseRule.{counted};
ghost use Rattle.modbus_pdu.specs.Limits.{max_pdu};
ghost use Rattle.modbus_rtu.specs.Limits.{max_frame, overhead};
ghost use Rattle.modbus_client.specs.LineReading.{bounded, line_rule, tells_length, len_by, told_len, is_untold, whole_head, line_head, silent_head};

use modbus_frame::function_code::{self, EXCEPTION_BIT};
use modbus_pdu::{MAX_PDU, MEI_DEVICE_IDENTIFICATION, ONE_BYTE_PDU, READ_HEAD};
use modbus_rtu::{LengthRule, MAX_FRAME, NoLength, response_pdu_len};

/// How many bytes a frame has besides its PDU: the slave address and the checksum.
pub(crate) const OVERHEAD: usize = MAX_FRAME - MAX_PDU;

/// The fewest bytes of a frame: one whose PDU is a function code alone.
const SHORTEST_FRAME: usize = OVERHEAD + 1;

/// Whether a reply of this function tells how long it is, by the byte behind the function code. The MEI type of an encapsulated interface
/// is told once it is there.
#[tactic(auto, unfolding(crate::specs::LineReading::line_rule, modbus_rtu::specs::ResponseHead::response_rule))]
fn tells_length(code: u8, next: Option<u8>) -> bool
    ensures { result ≡ tells_length (line_rule code) next }
{
    match code {
        function_code::READ_COILS
        | function_code::READ_DISCRETE_INPUTS
        | function_code::READ_HOLDING_REGISTERS
        | function_code::READ_INPUT_REGISTERS
        | function_code::WRITE_SINGLE_COIL
        | function_code::WRITE_SINGLE_REGISTER
        | function_code::READ_EXCEPTION_STATUS
        | function_code::GET_COMM_EVENT_COUNTER
        | function_code::GET_COMM_EVENT_LOG
        | function_code::WRITE_MULTIPLE_COILS
        | function_code::WRITE_MULTIPLE_REGISTERS
        | function_code::REPORT_SERVER_ID
        | function_code::READ_FILE_RECORD
        | function_code::WRITE_FILE_RECORD
        | function_code::MASK_WRITE_REGISTER
        | function_code::READ_WRITE_MULTIPLE_REGISTERS
        | function_code::READ_FIFO_QUEUE => true,
        function_code::ENCAPSULATED_INTERFACE_TRANSPORT => match next {
            None => true,
            Some(mei) => mei == MEI_DEVICE_IDENTIFICATION,
        },
        _ => code >= EXCEPTION_BIT,
    }
}

/// The length that the byte behind the function code tells, the count of the bytes that follow it. `None` where it is missing.
fn counted_len(adu: &[u8]) -> Option<usize>
    ensures { result ≡ len_by adu.now counted }
{
    match adu.get(2) {
        None => None,
        Some(&count) => Some(READ_HEAD + usize::from(count)),
    }
}

/// Whether a reply of this function tells how long it is, by its bytes, which begin with the slave address.
fn is_told(code: u8, adu: &[u8]) -> bool
    ensures { result ≡ tells_length (line_rule code) (slice_get adu.now 2) }
{
    tells_length(code, adu.get(2).copied())
}

/// The length in bytes of the PDU of a reply of this function, as far as the bytes tell it, which begin with the slave address.
fn len_of(code: u8, adu: &[u8]) -> Option<usize>
    requires { slice_get adu.now 1 ≡ Some code }
    ensures exact { result ≡ len_by adu.now (line_rule code) }
{
    if code == function_code::READ_FILE_RECORD || code == function_code::WRITE_FILE_RECORD {
        return counted_len(adu);
    }
    if code >= EXCEPTION_BIT {
        return Some(ONE_BYTE_PDU);
    }
    if !is_told(code, adu) {
        return None;
    }
    match response_pdu_len(adu) {
        Ok(found) => found,
        Err(_) => None,
    }
}

/// The length in bytes of the PDU of a reply, as far as the bytes tell it, which begin with the slave address.
#[tactic(auto, unfolding(crate::specs::LineReading::told_len))]
fn told_len(adu: &[u8]) -> Option<usize>
    ensures exact { result ≡ told_len adu.now }
    ensures coded { IfSome result (λ n. 1 < length adu.now) }
{
    match adu.get(1) {
        None => None,
        Some(&code) => len_of(code, adu),
    }
}

/// The first bytes, so many at most.
pub(crate) fn front(adu: &[u8], most: usize) -> &[u8]
    ensures { result.now ≡ take most adu.now }
{
    if adu.len() <= most {
        return adu;
    }
    let (front, _) = adu.split_at(most);
    front
}

/// The length that is told, where a PDU can be so long; `None` where none is told yet.
///
/// # Errors
/// `NoLength` with the function code, where a PDU can't be so long, and where none is told in more bytes than a frame has.
fn bounded(adu: &[u8], told: Option<usize>) -> Result<Option<usize>, NoLength>
    requires { IfSome told (λ n. 1 < length adu.now) }
    ensures exact { result ≡ bounded (slice_index adu.now 1) (length adu.now) told }
    ensures most { IfOk result (λ found. IfSome found (λ n. n ≤ max_pdu)) }
    ensures missing { result ≡ Ok None → length adu.now < max_frame + 1 }
    ensures coded { IsErr result → 1 < length adu.now }
{
    match told {
        Some(pdu_len) => {
            if pdu_len > MAX_PDU {
                return Err(NoLength(adu[1]));
            }
            Ok(Some(pdu_len))
        }
        None => {
            if adu.len() > MAX_FRAME {
                return Err(NoLength(adu[1]));
            }
            Ok(None)
        }
    }
}

/// The rule of replies while bytes come. Of the bytes no more than those of the longest frame are read.
#[derive(Clone, Copy)]
pub(crate) struct LineRule;

impl LengthRule for LineRule {
    ghost use Rattle.std.specs.Prelude.{◌+◌};

    ghost head = { line_head };

    ghost longest = { max_frame + 1 };

    #[tactic(auto, unfolding(crate::specs::LineReading::line_head))]
    fn pdu_len(&self, adu: &[u8]) -> Result<Option<usize>, NoLength> {
        bounded(adu, told_len(front(adu, MAX_FRAME)))
    }
}

/// Whether the bytes begin a reply of a function that tells no length.
pub(crate) fn is_untold(adu: &[u8]) -> bool
    ensures exact { result ≡ is_untold adu.now (slice_get adu.now 1) }
    ensures coded { IsTrue result → 1 < length adu.now }
{
    match adu.get(1) {
        None => false,
        Some(&code) => !is_told(code, adu),
    }
}

/// The length of a PDU that is all bytes, but for the slave address and the checksum.
///
/// # Errors
/// `NoLength` with the function code, exactly where they are fewer or more bytes than a frame has.
fn whole_len(adu: &[u8]) -> Result<Option<usize>, NoLength>
    requires { 1 < length adu.now }
    ensures exact { result ≡ whole_head adu.now }
    ensures all { IfOk result (λ found. IfSome found (λ n. n + overhead ≡ length adu.now)) }
    ensures known { result ≢ Ok None }
{
    if adu.len() < SHORTEST_FRAME || adu.len() > MAX_FRAME {
        return Err(NoLength(adu[1]));
    }
    Ok(Some(adu.len() - OVERHEAD))
}

/// The rule of replies at a silence: one of a function that tells no length is all that came.
#[derive(Clone, Copy)]
pub(crate) struct SilentRule;

impl LengthRule for SilentRule {
    ghost use Rattle.std.specs.Prelude.{◌+◌};

    ghost head = { silent_head };

    ghost longest = { max_frame + 1 };

    #[tactic(auto, unfolding(crate::specs::LineReading::silent_head))]
    fn pdu_len(&self, adu: &[u8]) -> Result<Option<usize>, NoLength> {
        if is_untold(adu) {
            whole_len(adu)
        } else {
            LineRule.pdu_len(adu)
        }
    }
}
