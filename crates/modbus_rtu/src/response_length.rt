//! How long the PDU of a response is, by its first bytes (Modbus Application Protocol V1.1b3, sections 6 and 7).
ghost use Rattle.std.specs.Prelude.{◌≡◌, ◌≢◌, ◌+◌, ◌-◌, ◌*◌, ◌<◌, ◌≤◌, IfOk, IfNone, IfSome, IsErr, Ok, None, length, slice_get};
ghost use Rattle.modbus_rtu.specs.ResponseHead.{place_after_object, after_objects, held_len, identified_len, response_head, word_len};
ghost use Rattle.modbus_rtu.specs.Limits.{slave_address, overhead, first_object, longest_object, most_objects_end, longest_identification, max_word};
ghost use Rattle.modbus_pdu.specs.Limits.{fifo_head};

use crate::length::{
    CHECKSUM, LengthRule, MAX_BYTE_COUNT, NoLength, OVERHEAD, SLAVE_ADDRESS, counted_len,
};
use modbus_frame::function_code::{self, EXCEPTION_BIT};
use modbus_pdu::{
    FIFO_HEAD, IDENTIFICATION_HEAD, MEI_DEVICE_IDENTIFICATION, ONE_BYTE_PDU, READ_HEAD,
    THREE_WORDS_PDU, TWO_WORDS_PDU,
};

/// The place of the number of objects of a device identification, the last byte of its head.
const OBJECT_COUNT: usize = IDENTIFICATION_HEAD;

/// The place of its first object.
const FIRST_OBJECT: usize = SLAVE_ADDRESS + IDENTIFICATION_HEAD;

/// How many bytes of an object stand before its value: its id and its length.
const OBJECT_HEAD: usize = 2;

/// The bytes of the longest response frame that is waited for: 65545, with the most and longest objects of a device identification
/// (V1.1b3, section 6.21).
pub const LONGEST_IDENTIFICATION: usize = FIRST_OBJECT
    + MAX_BYTE_COUNT * (OBJECT_HEAD + MAX_BYTE_COUNT)
    + CHECKSUM;

/// The exceptions of the first and of the last function code (V1.1b3, section 7).
const FIRST_EXCEPTION: u8 = EXCEPTION_BIT + function_code::READ_COILS;

const LAST_EXCEPTION: u8 = EXCEPTION_BIT + function_code::ENCAPSULATED_INTERFACE_TRANSPORT;

/// A length that the byte count at places 2 and 3 tells: the function code, the byte count, and as many bytes as it says.
fn word_counted_len(adu: &[u8]) -> Option<usize>
    ensures exact { result ≡ word_len (slice_get adu.now 2) (slice_get adu.now 3) }
    ensures most { IfSome result (λ n. n ≤ fifo_head + max_word) }
    ensures missing { IfNone result (length adu.now < 4) }
{
    let high = *adu.get(2)?;
    let low = *adu.get(3)?;
    Some(FIFO_HEAD + usize::from(u16::from_be_bytes([high, low])))
}

/// The place after the object at a place. `None` where a byte of it is missing.
fn object_end(adu: &[u8], place: usize) -> Option<usize>
    requires { place ≤ length adu.now }
    ensures exact { result ≡ place_after_object adu.now place }
    ensures within { IfSome result (λ end. (end ≤ length adu.now) × (place < end)
        × (end ≤ place + longest_object)) }
    ensures missing { IfNone result (length adu.now < place + longest_object) }
{
    let size = *adu.get(place + 1)?;
    let end = place + OBJECT_HEAD + usize::from(size);
    if end <= adu.len() { Some(end) } else { None }
}

/// The place after so many objects. `None` where a byte of them is missing.
fn objects_end(adu: &[u8], count: u8) -> Option<usize>
    requires { first_object ≤ length adu.now }
    ensures exact { result ≡ after_objects adu.now count first_object }
    ensures within { IfSome result (λ end. (first_object ≤ end) × (end ≤ length adu.now)
        × (end ≤ most_objects_end)) }
    ensures missing { IfNone result (length adu.now < most_objects_end) }
{
    let mut place = FIRST_OBJECT;
    for _ in 0..count {
        place = object_end(adu, place)?;
    }
    Some(place)
}

/// The length of a device identification. `None` where a byte that tells it is missing.
#[tactic(auto, unfolding(crate::specs::ResponseHead::identified_len))]
fn identification_len(adu: &[u8]) -> Option<usize>
    ensures exact { result ≡ identified_len adu.now }
    ensures most { IfSome result (λ n. (n ≤ most_objects_end - slave_address)
        × (n < length adu.now)) }
    ensures missing { IfNone result (length adu.now < most_objects_end) }
{
    let count = *adu.get(OBJECT_COUNT)?;
    let end = objects_end(adu, count)?;
    Some(end - SLAVE_ADDRESS)
}

/// The length of a PDU whose function code doesn't tell it: all bytes that are held, but for the slave address and the checksum.
fn whole_len(code: u8, adu: &[u8]) -> Result<Option<usize>, NoLength>
    ensures exact { result ≡ held_len code adu.now }
    ensures all { IfOk result (λ found. IfSome found (λ n. n + overhead ≡ length adu.now)) }
    ensures known { result ≢ Ok None }
{
    if adu.len() < OVERHEAD {
        Err(NoLength(code))
    } else {
        Ok(Some(adu.len() - OVERHEAD))
    }
}

/// The length in bytes of the PDU of a response, in bytes that begin with the slave address. `None` where a byte that tells it is
/// missing, a byte of an object of a device identification among them. The PDU of a function that isn't known is all that is held,
/// but for the slave address and the checksum.
///
/// # Errors
/// `NoLength` with the function code, exactly where the function isn't known and fewer bytes are held than the slave
/// address and the checksum have.
#[tactic(auto, unfolding(crate::specs::ResponseHead::response_head, crate::specs::ResponseHead::response_rule))]
pub fn response_pdu_len(adu: &[u8]) -> Result<Option<usize>, NoLength>
    ensures exact { result ≡ response_head adu.now }

    // A frame that isn't whole is at most a device identification of the most and longest objects.
    ensures most { IfOk result (λ found. IfSome found (λ n.
        length adu.now < n + overhead → n + overhead ≤ longest_identification)) }
    ensures fits { IfOk result (λ found. IfSome found (λ n. n + overhead ≤ usize.MAX)) }
    ensures missing { result ≡ Ok None → length adu.now < longest_identification }
    ensures coded { IsErr result → 1 < length adu.now }
{
    let Some(&code) = adu.get(1) else {
        return Ok(None);
    };
    match code {
        function_code::READ_COILS
        | function_code::READ_DISCRETE_INPUTS
        | function_code::READ_HOLDING_REGISTERS
        | function_code::READ_INPUT_REGISTERS
        | function_code::GET_COMM_EVENT_LOG
        | function_code::REPORT_SERVER_ID
        | function_code::READ_WRITE_MULTIPLE_REGISTERS => Ok(counted_len(adu, READ_HEAD)),
        function_code::WRITE_SINGLE_COIL
        | function_code::WRITE_SINGLE_REGISTER
        | function_code::GET_COMM_EVENT_COUNTER
        | function_code::WRITE_MULTIPLE_COILS
        | function_code::WRITE_MULTIPLE_REGISTERS => Ok(Some(TWO_WORDS_PDU)),
        function_code::READ_EXCEPTION_STATUS => Ok(Some(ONE_BYTE_PDU)),
        function_code::MASK_WRITE_REGISTER => Ok(Some(THREE_WORDS_PDU)),
        function_code::READ_FIFO_QUEUE => Ok(word_counted_len(adu)),
        function_code::ENCAPSULATED_INTERFACE_TRANSPORT => match adu.get(2) {
            None => Ok(None),
            Some(&MEI_DEVICE_IDENTIFICATION) => Ok(identification_len(adu)),
            Some(_) => whole_len(code, adu),
        },
        FIRST_EXCEPTION..=LAST_EXCEPTION => Ok(Some(ONE_BYTE_PDU)),
        _ => whole_len(code, adu),
    }
}

/// The rule of responses, `response_pdu_len`.
#[derive(Clone, Copy, Debug, Default, PartialEq, Eq)]
pub struct ResponseRule;

impl LengthRule for ResponseRule {
    ghost head = { response_head };

    ghost longest = { longest_identification };

    fn pdu_len(&self, adu: &[u8]) -> Result<Option<usize>, NoLength> {
        response_pdu_len(adu)
    }
}
