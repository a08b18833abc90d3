//! How long a PDU is, by its first bytes (Modbus Application Protocol V1.1b3, section 6).
ghost use Rattle.std.specs.Prelude.{◌≡◌, ℕ, ◌+◌, ◌<◌, ◌≤◌, List, IfOk, IfSome, IsErr, Ok, None, length, slice_get};
ghost use Rattle.std.specs.Option.{option_map};
ghost use Rattle.modbus_rtu.specs.Frame.{Head, counted_head, head};
ghost use Rattle.modbus_pdu.specs.Limits.{max_pdu, read_write_head};
ghost use Rattle.modbus_rtu.specs.Limits.{slave_address, overhead, max_byte_count, max_frame};

use modbus_frame::function_code;
use modbus_pdu::{
    CODE_PDU, IDENTIFICATION_REQUEST, MAX_PDU, MEI_DEVICE_IDENTIFICATION, ONE_WORD_PDU,
    READ_WRITE_HEAD, THREE_WORDS_PDU, TWO_WORDS_PDU, WRITE_HEAD,
};
use std::error::Error;
use std::fmt;

/// A function code for which no length is known, or whose byte count tells more than a PDU has.
#[derive(Clone, Copy, Debug, PartialEq, Eq)]
pub struct NoLength(pub u8);

impl fmt::Display for NoLength {
    fn fmt<W: fmt::Write>(&self, f: &mut fmt::Formatter<W>) -> fmt::Result {
        write!(f, "no length is known for function code {}", self.0)
    }
}

impl Error for NoLength {}

/// How many bytes a slave address has, which stands before the PDU.
pub(crate) const SLAVE_ADDRESS: usize = 1;

/// How many bytes a checksum has, which stands behind the PDU.
pub(crate) const CHECKSUM: usize = 2;

/// How many bytes a frame has besides its PDU.
pub(crate) const OVERHEAD: usize = SLAVE_ADDRESS + CHECKSUM;

/// The greatest byte count.
pub(crate) const MAX_BYTE_COUNT: usize = 255;

/// The most bytes of a frame: 256 (V1.1b3, section 4.1).
pub const MAX_FRAME: usize = MAX_PDU + OVERHEAD;

/// A length that a byte count tells, the last byte of a head: the bytes of the head, and as many as it says.
pub(crate) fn counted_len(adu: &[u8], head: usize) -> Option<usize>
    requires { head ≤ max_byte_count }
    ensures { result ≡ option_map (λ byte. head + byte) (slice_get adu.now head) }
{
    // The slave address before the head moves its last byte on to the place behind it.
    let byte_count = *adu.get(head)?;
    Some(head + usize::from(byte_count))
}

/// The length that the byte count of a request tells, where a PDU can be so long.
#[inline(always)]
fn counted_request_len(code: u8, adu: &[u8], head: usize) -> Result<Option<usize>, NoLength>
    requires { head ≤ max_byte_count }
    ensures exact { result ≡ counted_head code head (slice_get adu.now head) }
    ensures most { IfOk result (λ found. IfSome found (λ n. n ≤ max_pdu)) }
    ensures missing { result ≡ Ok None → length adu.now ≤ head }
{
    match counted_len(adu, head) {
        Some(pdu_len) if pdu_len > MAX_PDU => Err(NoLength(code)),
        found => Ok(found),
    }
}

/// The length in bytes of the PDU of a request, in bytes that begin with the slave address. `None` where a byte that tells it
/// is missing.
///
/// # Errors
/// `NoLength` with the function code, exactly where no length is known for it, or its byte count tells more than `MAX_PDU`: no request
/// has such a head (V1.1b3, section 4.1).
#[inline(always)]
#[tactic(auto, unfolding(crate::specs::Frame::head, crate::specs::Frame::rule))]
pub fn request_pdu_len(adu: &[u8]) -> Result<Option<usize>, NoLength>
    ensures exact { result ≡ head adu.now }

    // No rule needs a byte past the head of a read and write.
    ensures most { IfOk result (λ found. IfSome found (λ n. n ≤ max_pdu)) }
    ensures missing { result ≡ Ok None → length adu.now < slave_address + read_write_head }
    ensures coded { IsErr result → 1 < length adu.now }
{
    let Some(&code) = adu.get(1) else {
        return Ok(None);
    };
    match code {
        function_code::READ_COILS
        | function_code::READ_DISCRETE_INPUTS
        | function_code::READ_HOLDING_REGISTERS
        | function_code::READ_INPUT_REGISTERS
        | function_code::WRITE_SINGLE_COIL
        | function_code::WRITE_SINGLE_REGISTER => Ok(Some(TWO_WORDS_PDU)),
        function_code::READ_EXCEPTION_STATUS
        | function_code::GET_COMM_EVENT_COUNTER
        | function_code::GET_COMM_EVENT_LOG
        | function_code::REPORT_SERVER_ID => Ok(Some(CODE_PDU)),
        function_code::WRITE_MULTIPLE_COILS | function_code::WRITE_MULTIPLE_REGISTERS => {
            counted_request_len(code, adu, WRITE_HEAD)
        }
        function_code::MASK_WRITE_REGISTER => Ok(Some(THREE_WORDS_PDU)),
        function_code::READ_WRITE_MULTIPLE_REGISTERS => {
            counted_request_len(code, adu, READ_WRITE_HEAD)
        }
        function_code::READ_FIFO_QUEUE => Ok(Some(ONE_WORD_PDU)),
        function_code::ENCAPSULATED_INTERFACE_TRANSPORT => match adu.get(2) {
            None => Ok(None),
            Some(&MEI_DEVICE_IDENTIFICATION) => Ok(Some(IDENTIFICATION_REQUEST)),
            Some(_) => Err(NoLength(code)),
        },
        _ => Err(NoLength(code)),
    }
}

/// How a PDU gets its length from its first bytes. Requests and responses differ in nothing else when frames are looked for.
pub trait LengthRule {
    // the head of bytes that begin with the slave address
    ghost head: { List ℕ → Head };

    // the most bytes of a frame that is waited for
    ghost longest: { ℕ };

    /// The length in bytes of the PDU, in bytes that begin with the slave address. `None` where a byte that tells it is missing.
    ///
    /// # Errors
    /// `NoLength` with the function code, exactly where there is no length.
    fn pdu_len(&self, adu: &[u8]) -> Result<Option<usize>, NoLength>
        ensures exact { result ≡ head adu.now }

        // Bytes wait for more only while they are fewer than the longest frame.
        ensures most { IfOk result (λ found. IfSome found (λ n.
            length adu.now < n + overhead → n + overhead ≤ longest)) }
        ensures missing { result ≡ Ok None → length adu.now < longest }

        // The frame of a PDU is longer than it, and a function code stands at place 1.
        ensures fits { IfOk result (λ found. IfSome found (λ n. n + overhead ≤ usize.MAX)) }
        ensures coded { IsErr result → 1 < length adu.now };
}

/// The rule of requests, `request_pdu_len`.
#[derive(Clone, Copy, Debug, Default, PartialEq, Eq)]
pub struct RequestRule;

impl LengthRule for RequestRule {
    ghost use Rattle.modbus_rtu.specs.Limits.{max_frame};

    ghost head = { head };

    ghost longest = { max_frame };

    #[inline(always)]
    fn pdu_len(&self, adu: &[u8]) -> Result<Option<usize>, NoLength> {
        request_pdu_len(adu)
    }
}
