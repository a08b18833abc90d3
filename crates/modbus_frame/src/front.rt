//! What stands at the front of bytes that a reader holds, whatever frames its messages.

/// What stands at the front of the bytes that are held.
#[derive(Clone, Copy, Debug, PartialEq, Eq, Drop)]
pub enum Front<'a, H> {
    /// A message: what stands beside its PDU, the PDU where it lies, and how many bytes are taken off with it.
    Message {
        header: H,
        pdu: &'a [u8],
        end: usize,
    },
    /// No whole message. So many bytes are of no use, and those behind them wait for more.
    Waiting {
        dropped: usize,
    },
}
