//! Spans of addresses, and the limits of one read.
ghost use Rattle.std.specs.Prelude.{◌≡◌};
ghost use Rattle.modbus_poll.specs.Spans.{one, span_end, is_allowed, rank};

use crate::item::ADDRESSES;
use modbus_frame::{Address, Quantity};
use modbus_pdu::{MAX_READ_COILS, MAX_READ_REGISTERS};

/// Registers or bits of one table, one after another, that belong together: one read has to give them.
#[derive(Clone, Copy, Debug, PartialEq, Eq)]
pub struct Span {
    /// The address of the first register or bit.
    pub address: Address,
    /// How many registers or bits.
    pub count: Quantity,
}

impl Span {
    /// The span of one register or bit.
    pub fn one(address: Address) -> Span
        ensures { result ≡ one address }
    {
        Span { address, count: 1 }
    }

    /// The address after its last register or bit.
    pub fn end(&self) -> u32
        ensures { result ≡ span_end self.now }
    {
        u32::from(self.address) + u32::from(self.count)
    }

    /// Its place among others: those with a lower address come first, and of several with one address the longest.
    pub(crate) fn rank(&self) -> u64
        ensures { result ≡ rank self.now }
    {
        let addresses = u64::from(ADDRESSES);
        u64::from(self.address) * addresses + (addresses - u64::from(self.count))
    }
}

/// What one read may give, where a device allows less than the standard does, or lacks addresses between those that are named.
#[derive(Clone, Copy, Debug, PartialEq, Eq)]
pub struct Limits {
    /// At most so many registers, up to 125, or bits, up to 2000 (V1.1b3, sections 6.1 to 6.4).
    pub most: Quantity,
    /// At most so many addresses in a row that no span names. With 0 a read gives what is named alone; `most` or more is no limit.
    pub gap: Quantity,
}

impl Limits {
    /// The standard's alone for registers, holding or input (V1.1b3, sections 6.3 and 6.4), with gaps of any length.
    pub const REGISTERS: Limits = Limits {
        most: MAX_READ_REGISTERS as u16,
        gap: u16::MAX,
    };

    /// The standard's alone for bits, coils or discrete inputs (V1.1b3, sections 6.1 and 6.2), with gaps of any length.
    pub const BITS: Limits = Limits {
        most: MAX_READ_COILS as u16,
        gap: u16::MAX,
    };

    /// Whether one read can give a span: it has at least one register or bit, no more than one read may, and each has an address.
    pub fn allow(&self, span: &Span) -> bool
        ensures { result ≡ is_allowed self.now span.now }
    {
        1 <= span.count && span.count <= self.most && span.end() <= ADDRESSES
    }
}
