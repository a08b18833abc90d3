//! The MBAP header, and what stands at the front of the bytes of a stream (MODBUS Messaging on TCP/IP V1.0b, section 3.1.3).
ghost use Rattle.std.specs.Prelude.{◌≡◌, ◌+◌, ◌<◌, ◌≤◌, ◌↔◌, All, length, drop, IfSome, IsNone};
ghost use Rattle.modbus_pdu.specs.Laws.{IsByte};
ghost use Rattle.modbus_pdu.specs.Message.{message};
ghost use Rattle.modbus_tcp.specs.Decoder.{FindsAdu, TellsHeader};
ghost use Rattle.modbus_tcp.specs.Stream.{BeginsWith};
ghost use Rattle.modbus_tcp.specs.Limits.{uncounted, mbap_header, modbus_protocol};

use crate::stream::HeaderFault;
use modbus_frame::{Front, tcp};

/// How many bytes of a header stand before those that its length counts: the transaction, the protocol and the length (section 3.1.3).
pub const UNCOUNTED: usize = 6;

/// How many bytes a unit identifier has, the last field of a header, which its length counts with the PDU.
pub(crate) const UNIT_IDENTIFIER: usize = 1;

/// How many bytes an MBAP header has.
pub const HEADER: usize = UNCOUNTED + UNIT_IDENTIFIER;

/// The number of the Modbus protocol.
pub const MODBUS: u16 = 0;

/// The fields of an MBAP header.
#[derive(Clone, Copy)]
struct Mbap {
    header: tcp::Header,
    protocol: u16,
    length: u16,
}

impl Mbap {
    /// How many bytes the ADU has.
    #[inline]
    fn adu_len(self) -> usize
        ensures { result ≡ uncounted + self.length }
    {
        UNCOUNTED + usize::from(self.length)
    }
}

/// Reads the header at the front of the bytes, where it is whole.
#[inline]
fn read_header(bytes: &[u8]) -> Option<Mbap>
    ensures none { IsNone result ↔ (length bytes.now < mbap_header) }
    ensures tells { IfSome result (TellsHeader bytes.now) }
    ensures bytes { All IsByte bytes.now }
{
    match bytes {
        [t0, t1, p0, p1, l0, l1, unit_id, ..] => Some(Mbap {
            header: tcp::Header {
                transaction_id: u16::from_be_bytes([*t0, *t1]),
                unit_id: *unit_id,
            },
            protocol: u16::from_be_bytes([*p0, *p1]),
            length: u16::from_be_bytes([*l0, *l1]),
        }),
        _ => None,
    }
}

/// The PDU of the ADU at the front of the bytes.
#[inline]
fn pdu_of(bytes: &[u8], mbap: Mbap) -> &[u8]
    requires bytes { All IsByte bytes.now }
    requires tells { TellsHeader bytes.now mbap }
    requires some { 0 < mbap.length }
    requires whole { uncounted + mbap.length ≤ length bytes.now }
    requires ours { mbap.protocol ≡ modbus_protocol }
    ensures { BeginsWith bytes.now (message mbap.header result.now)
        (drop (uncounted + mbap.length) bytes.now) }
{
    &bytes[HEADER..mbap.adu_len()]
}

/// What stands at the front of the bytes of a stream (section 3.1.3). No byte is copied. Where it waits there are fewer than
/// `LONGEST_ADU` bytes.
///
/// # Errors
/// `InvalidLength` exactly where the header tells the length 0. `InvalidProtocol` with the number, exactly where the ADU is whole and
/// its protocol is not Modbus.
#[inline]
pub fn front(bytes: &[u8]) -> Result<Front<'_, tcp::Header>, HeaderFault>
    ensures finds { FindsAdu bytes.now result }
{
    let Some(mbap) = read_header(bytes) else {
        return Ok(Front::Waiting { dropped: 0 });
    };
    if mbap.length == 0 {
        return Err(HeaderFault::InvalidLength);
    }
    let end = mbap.adu_len();
    if bytes.len() < end {
        return Ok(Front::Waiting { dropped: 0 });
    }
    if mbap.protocol != MODBUS {
        return Err(HeaderFault::InvalidProtocol(mbap.protocol));
    }
    Ok(Front::Message {
        header: mbap.header,
        pdu: pdu_of(bytes, mbap),
        end,
    })
}
