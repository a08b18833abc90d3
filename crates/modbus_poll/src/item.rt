//! What is read of a device: numbers and texts that lie in its registers.
ghost use Rattle.std.specs.Prelude.{◌≡◌};
ghost use Rattle.modbus_poll.specs.Items.{width, item_end, is_count, is_readable};
ghost use Rattle.modbus_poll.specs.Spans.{span_of};

use crate::span::Span;
use modbus_frame::{Address, Quantity};
use modbus_pdu::MAX_READ_REGISTERS;

/// How many registers a device can have, and so the address after the last one (V1.1b3, section 4.4).
pub(crate) const ADDRESSES: u32 = 0x1_0000;

/// Which word of a number comes first. In each word the high byte comes first (V1.1b3, section 4.2).
#[derive(Clone, Copy, Debug, PartialEq, Eq)]
pub enum Order {
    /// The most significant word.
    HighFirst,
    /// The least significant word.
    LowFirst,
}

/// What lies in registers, one after another.
#[derive(Clone, Copy, Debug, PartialEq, Eq)]
pub enum Kind {
    /// An unsigned number in one register.
    U16,
    /// A number in two's complement in one register.
    I16,
    /// An unsigned number in two registers.
    U32(Order),
    /// A number in two's complement in two registers.
    I32(Order),
    /// An unsigned number in four registers.
    U64(Order),
    /// A number in two's complement in four registers.
    I64(Order),
    /// A text in so many registers, with two bytes in each.
    Text(u8),
}

impl Kind {
    /// How many registers it takes.
    pub fn width(self) -> Quantity
        ensures { result ≡ width self }
    {
        match self {
            Kind::U16 | Kind::I16 => 1,
            Kind::U32(_) | Kind::I32(_) => 2,
            Kind::U64(_) | Kind::I64(_) => 4,
            Kind::Text(words) => Quantity::from(words),
        }
    }

    /// Whether it takes as many registers as one read can give, 1 to 125 (V1.1b3, section 6.3).
    pub(crate) fn fits_read(self) -> bool
        ensures { result ≡ is_count (width self) }
    {
        let width = usize::from(self.width());
        1 <= width && width <= MAX_READ_REGISTERS
    }
}

/// One thing to be read: what it is, and the address of its first register.
#[derive(Clone, Copy, Debug, PartialEq, Eq)]
pub struct Item {
    pub address: Address,
    pub kind: Kind,
}

impl Item {
    /// The address after its last register.
    pub fn end(&self) -> u32
        ensures { result ≡ item_end self.now }
    {
        u32::from(self.address) + u32::from(self.kind.width())
    }

    /// Its registers.
    pub fn span(&self) -> Span
        ensures { result ≡ span_of self.now }
    {
        Span {
            address: self.address,
            count: self.kind.width(),
        }
    }

    /// Whether one read can give it: it takes 1 to 125 registers (V1.1b3, section 6.3), and each of them has an address.
    pub fn is_readable(&self) -> bool
        ensures { result ≡ is_readable self.now }
    {
        self.kind.fits_read() && self.end() <= ADDRESSES
    }
}
