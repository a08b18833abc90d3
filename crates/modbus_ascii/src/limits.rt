//! The numbers of a frame in characters (MODBUS over Serial Line V1.02, section 2.5.2.1), each of which stands here alone.

use modbus_pdu::MAX_PDU;

/// The bytes of a frame besides its PDU: a slave address and an LRC.
pub const OVERHEAD: usize = 2;

/// The bytes of the longest frame.
pub(crate) const MAX_BODY: usize = MAX_PDU + OVERHEAD;

/// The characters of a frame besides its digits: a `:`, CR and LF.
pub(crate) const MARKS: usize = 3;

/// The characters of the longest frame.
pub const MAX_FRAME: usize = 2 * MAX_BODY + MARKS;

/// How many bytes of a `:` that is open are held at most: a text that is longer delivers nothing, and its last bytes are enough.
pub(crate) const MOST_OPEN: usize = MAX_FRAME + 1;

/// How many bytes are ever held: those of a `:` that is open, and those of a read.
pub(crate) const MOST_HELD: usize = MOST_OPEN + MAX_FRAME;
