//! The reads of a poll.
ghost use Rattle.std.specs.Prelude.{◌≡◌, position};
ghost use Rattle.modbus_poll.specs.Items.{read_end, lies_in};
ghost use Rattle.modbus_poll.specs.Spans.{is_within};
ghost use Rattle.modbus_poll.specs.ReadOrder.{AreRising};

use crate::item::Item;
use crate::span::Span;
use modbus_frame::{Address, Quantity};

/// A request for registers or bits of one table, one after another (V1.1b3, sections 6.1 to 6.4).
#[derive(Clone, Copy, Debug, PartialEq, Eq)]
pub struct Read {
    /// The address of the first register or bit.
    pub address: Address,
    /// How many registers or bits.
    pub count: Quantity,
}

impl Read {
    /// The address after its last register or bit.
    pub fn end(&self) -> u32
        ensures { result ≡ read_end self.now }
    {
        u32::from(self.address) + u32::from(self.count)
    }

    /// Whether each register of an item is one of the read.
    pub fn holds(&self, item: &Item) -> bool
        ensures { result ≡ lies_in item.now self.now }
    {
        self.address <= item.address && item.end() <= self.end()
    }

    /// Whether each register or bit of a span is one of the read.
    pub fn includes(&self, span: &Span) -> bool
        ensures { result ≡ is_within span.now self.now }
    {
        self.address <= span.address && span.end() <= self.end()
    }
}

/// The place of the first of these reads in which a span lies.
pub(crate) fn first_with(reads: &[Read], span: &Span) -> Option<usize>
    requires { AreRising reads.now }
    ensures { result ≡ position (is_within span.now) reads.now }
{
    let end = span.end();
    // No read before this place reaches the end of the span, and those after it begin no earlier.
    let place = reads.partition_point(|read| read.end() < end);
    let read = reads.get(place)?;
    if read.includes(span) {
        Some(place)
    } else {
        None
    }
}
