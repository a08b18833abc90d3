//! What points a map may have.
ghost use Rattle.std.specs.Prelude.{◌≡◌};
ghost use Rattle.modbus_map.specs.Sound.{fits, are_within, is_sound};

use crate::kind::{Kind, Table};
use crate::point::Point;
use modbus_frame::{Address, Quantity};

impl Table {
    /// Whether a kind lies in it: a state in bits, a bit of a register among its sixteen, any other kind in registers (V1.1b3, section 4.3).
    pub fn fits(self, kind: Kind) -> bool
        ensures { result ≡ fits self kind }
    {
        match (self, kind) {
            (Table::Coils | Table::DiscreteInputs, Kind::Bool) => true,
            (Table::Coils | Table::DiscreteInputs, _) | (_, Kind::Bool) => false,
            (_, Kind::Bit(place)) => place <= 15,
            _ => true,
        }
    }
}

/// Whether so many registers or bits at an address can be given by one read of so many, and have addresses (V1.1b3, section 4.4).
fn are_within(most: Quantity, address: Address, count: Quantity) -> bool
    ensures { result ≡ are_within most address count }
{
    1 <= count && count <= most && u32::from(address) + u32::from(count) <= 0x1_0000
}

impl Point {
    /// Whether its kind lies in its table, and one read of at most so many registers can give it (V1.1b3, sections 4.4 and 6.3).
    pub fn is_sound(&self, most: Quantity) -> bool
        ensures { result ≡ is_sound most self.now }
    {
        let kind = self.encoding.kind;
        self.table.fits(kind) && are_within(most, self.address, kind.width())
    }
}
