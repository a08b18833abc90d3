//! One piece of a stream: a header and the bytes that it tells.
ghost use Rattle.std.specs.Prelude.{◌≡◌};
ghost use Rattle.modbus_pdu.specs.Message.{message};
ghost use Rattle.modbus_field.specs.Pieces.{IsPiece, FindsPiece, message_in_piece};

use modbus_frame::tcp::Header;
use modbus_tcp::{HEADER, HeaderFault, LONGEST_RESPONSE, MODBUS, UNCOUNTED};

/// How many bytes tell the transaction and the protocol.
const PROTOCOL_END: usize = 4;

/// The greatest length that the header of a request tells: a unit identifier and the longest PDU.
const MOST_TOLD: usize = LONGEST_RESPONSE - UNCOUNTED;

/// Where the first piece ends; `None` where there is no whole one yet.
///
/// # Errors
/// `InvalidProtocol` as soon as four bytes tell a protocol that isn't Modbus, `InvalidLength` as soon as six tell no byte or more than 254:
/// where the next header would stand is then not known.
#[inline(always)]
pub(crate) fn first_end(held: &[u8]) -> Result<Option<usize>, HeaderFault>
    ensures { FindsPiece held.now result }
{
    if held.len() < PROTOCOL_END {
        return Ok(None);
    }
    let protocol = u16::from_be_bytes([held[2], held[3]]);
    if protocol != MODBUS {
        return Err(HeaderFault::InvalidProtocol(protocol));
    }
    if held.len() < UNCOUNTED {
        return Ok(None);
    }
    let told = usize::from(u16::from_be_bytes([held[4], held[5]]));
    if told == 0 || told > MOST_TOLD {
        return Err(HeaderFault::InvalidLength);
    }
    let end = UNCOUNTED + told;
    Ok(if held.len() < end { None } else { Some(end) })
}

/// The message of a piece.
#[inline(always)]
#[tactic(auto, unfolding(crate::specs::Pieces::message_in_piece))]
pub(crate) fn message_in(piece: &[u8]) -> (Header, &[u8])
    requires { IsPiece piece.now }
    ensures { message result.0 result.1.now ≡ message_in_piece piece.now }
{
    let header = Header {
        transaction_id: u16::from_be_bytes([piece[0], piece[1]]),
        unit_id: piece[UNCOUNTED],
    };
    (header, &piece[HEADER..])
}
