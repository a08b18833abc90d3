//! What lies at a point: its table, its kind, and the order of its bytes.
ghost use Rattle.std.specs.Prelude.{◌≡◌};
ghost use Rattle.modbus_map.specs.Kinds.{width, is_integer, is_of_registers, has_registers};
ghost use Rattle.modbus_map.specs.Points.{is_writable};

use modbus_frame::Quantity;

/// The four tables of a device (V1.1b3, section 4.3).
#[derive(Clone, Copy, Debug, PartialEq, Eq)]
pub enum Table {
    /// Coils: bits that are read and written.
    Coils,
    /// Discrete inputs: bits that are read only.
    DiscreteInputs,
    /// Input registers, which are read only.
    InputRegisters,
    /// Holding registers, which are read and written.
    HoldingRegisters,
}

/// Which byte of a number comes first. The letters are those of the field: `A` is the most significant byte of a number of 32 bits, and
/// the letters stand as the bytes do on the wire. A number of 64 bits has its four words in that order, from the first or from the last. In
/// one register `ABCD` and `CDAB` are the same, and so are `BADC` and `DCBA`.
#[derive(Clone, Copy, Debug, PartialEq, Eq)]
pub enum ByteOrder {
    /// The high word first, and in each word the high byte: the order of the standard (V1.1b3, section 4.2).
    Abcd,
    /// The low word first, and in each word the high byte.
    Cdab,
    /// The high word first, and in each word the low byte.
    Badc,
    /// The low word first, and in each word the low byte.
    Dcba,
}

/// What lies in registers one after another, or in one bit.
#[derive(Clone, Copy, Debug, PartialEq, Eq)]
pub enum Kind {
    /// The state of a coil or a discrete input.
    Bool,
    /// The state of one bit of a register, 0 the least significant, up to 15.
    Bit(u8),
    /// An unsigned number in one register.
    U16,
    /// A number in two's complement in one register.
    I16,
    /// An unsigned number in two registers.
    U32,
    /// A number in two's complement in two registers.
    I32,
    /// An unsigned number in four registers.
    U64,
    /// A number in two's complement in four registers.
    I64,
    /// A float of IEEE 754 of 32 bits, in two registers.
    F32,
    /// A float of IEEE 754 of 64 bits, in four registers.
    F64,
    /// A text in so many registers, with two bytes in each.
    Text(u8),
}

impl Kind {
    /// How many registers it takes; one bit for `Bool`.
    pub fn width(self) -> Quantity
        ensures { result ≡ width self }
    {
        match self {
            Kind::Bool | Kind::Bit(_) | Kind::U16 | Kind::I16 => 1,
            Kind::U32 | Kind::I32 | Kind::F32 => 2,
            Kind::U64 | Kind::I64 | Kind::F64 => 4,
            Kind::Text(words) => Quantity::from(words),
        }
    }

    /// Whether it lies in registers: every kind but `Bool`.
    pub fn is_of_registers(self) -> bool
        ensures { result ≡ is_of_registers self }
    {
        !matches!(self, Kind::Bool)
    }

    /// Whether it is an integer, which a scale serves.
    pub fn is_integer(self) -> bool
        ensures { result ≡ is_integer self }
    {
        matches!(
            self,
            Kind::U16 | Kind::I16 | Kind::U32 | Kind::I32 | Kind::U64 | Kind::I64
        )
    }
}

impl Table {
    /// Whether its places are registers, and not bits.
    pub fn has_registers(self) -> bool
        ensures { result ≡ has_registers self }
    {
        matches!(self, Table::InputRegisters | Table::HoldingRegisters)
    }

    /// Whether a client can write in it.
    pub fn is_writable(self) -> bool
        ensures { result ≡ is_writable self }
    {
        matches!(self, Table::Coils | Table::HoldingRegisters)
    }
}
