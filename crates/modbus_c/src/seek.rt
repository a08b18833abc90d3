//! The search for the reply of a call in the bytes that it holds. It takes no memory.
ghost use Rattle.std.specs.Prelude.{◌≡◌, ◌↔◌, ◌≤◌, List, [], length, drop, IsTrue, None};
ghost use Rattle.modbus_frame.specs.declared.tcp.Header.{Header as Heading};
ghost use Rattle.modbus_pdu.specs.Message.{Message};
ghost use Rattle.modbus_client.specs.Tcp.{header_seen, DropsAdus, EndsOfAnother, FindsOwnAdu};
ghost use Rattle.modbus_c.specs.Calls.{FindsMessageBy, FindsNextMessage, found_in, used_by};

use modbus_client::tcp::end_of_another;
use modbus_frame::tcp::Header;
use modbus_frame::{Front, HeaderSeen};
use modbus_rtu::{MAX_RETRIES, Next, ResponseRule, next_frame_by};
use modbus_tcp::{HEADER, HeaderFault, front};

/// How the search stands, and how many of the held bytes it used, or found to be of no use.
#[derive(Clone, Copy, Debug, PartialEq, Eq)]
pub(crate) enum Sought<'h> {
    /// There is no reply yet.
    Waiting {
        used: usize,
    },
    /// A message: what is compared of its header, its PDU, and where it ends.
    Message {
        seen: HeaderSeen,
        pdu: &'h [u8],
        used: usize,
    },
    /// No frame stands at the first twenty offsets.
    Crowd {
        used: usize,
    },
    /// A header tells the length 0.
    NoLength {
        used: usize,
    },
    /// A header tells this protocol.
    Foreign {
        used: usize,
        protocol: u16,
    },
}

/// What is compared of the header of an ADU.
fn seen_of(header: Header) -> HeaderSeen
    ensures { result ≡ header_seen header }
{
    HeaderSeen {
        transaction_id: Some(header.transaction_id),
        slave_id: header.unit_id,
    }
}

/// Where the ADUs at the front of the bytes end that are of another transaction or unit than was asked.
fn end_of_others(asked: HeaderSeen, bytes: &[u8]) -> usize
    ensures within { result ≤ length bytes.now }
    ensures dropped { (adus : List (Message Heading))
        × DropsAdus asked bytes.now adus (drop result bytes.now) }
    ensures all { EndsOfAnother asked (drop result bytes.now) None }
{
    let mut start = 0;
    'others: while let Some(end) = end_of_another(asked, &bytes[start..]) {
        start += end;
    }
    start
}

/// The search in the bytes of a TCP stream: ADUs of other transactions or units are dropped.
fn seek_adu(asked: HeaderSeen, bytes: &[u8]) -> Sought<'_>
    ensures finds { FindsOwnAdu asked bytes.now [] (found_in bytes.now result) }
    ensures within { used_by result ≤ length bytes.now }
{
    let start = end_of_others(asked, bytes);
    match front(&bytes[start..]) {
        Ok(Front::Message { header, pdu, end }) => Sought::Message {
            seen: seen_of(header),
            pdu,
            used: start + end,
        },
        Ok(Front::Waiting { .. }) => Sought::Waiting { used: start },
        Err(HeaderFault::InvalidLength) => Sought::NoLength { used: start },
        Err(HeaderFault::InvalidProtocol(protocol)) => Sought::Foreign {
            used: start + HEADER,
            protocol,
        },
    }
}

/// The search in the bytes of a serial line.
fn seek_frame(bytes: &[u8]) -> Sought<'_>
    ensures finds { FindsNextMessage bytes.now (found_in bytes.now result) }
    ensures within { used_by result ≤ length bytes.now }
{
    match next_frame_by(&ResponseRule, bytes) {
        Next::Frame { start, pdu_len } => Sought::Message {
            seen: HeaderSeen {
                transaction_id: None,
                slave_id: bytes[start],
            },
            pdu: &bytes[start + 1..][..pdu_len],
            used: start + (pdu_len + 3),
        },
        Next::Waiting { dropped } => Sought::Waiting { used: dropped },
        Next::TooManyRetries => Sought::Crowd { used: MAX_RETRIES },
    }
}

/// The search in the bytes of a TCP stream, or of a serial line.
pub(crate) fn seek(tcp: bool, asked: HeaderSeen, bytes: &[u8]) -> Sought<'_>
    ensures finds { FindsMessageBy tcp asked bytes.now (found_in bytes.now result) }
    ensures within { used_by result ≤ length bytes.now }
{
    if tcp {
        seek_adu(asked, bytes)
    } else {
        seek_frame(bytes)
    }
}
