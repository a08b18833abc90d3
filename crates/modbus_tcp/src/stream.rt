//! What may stand at the front of the bytes of a stream (MODBUS Messaging on TCP/IP V1.0b, section 3.1.3).

use crate::mbap::{HEADER, UNCOUNTED};
use modbus_pdu::MAX_PDU;

/// The greatest length that a header can tell.
const MAX_LENGTH: usize = 65535;

/// How many bytes the longest ADU has that a header can tell: 65541.
pub const LONGEST_ADU: usize = UNCOUNTED + MAX_LENGTH;

/// The bytes of the longest ADU of a response, whose PDU is as long as a PDU may be: 260.
pub const LONGEST_RESPONSE: usize = HEADER + MAX_PDU;

/// Why no ADU stands at the front, and none comes by waiting.
#[derive(Clone, Copy, Debug, PartialEq, Eq)]
pub enum HeaderFault {
    /// The header tells the length 0, which leaves out the unit identifier.
    InvalidLength,
    /// The header tells this protocol, and it is not Modbus.
    InvalidProtocol(u16),
}
