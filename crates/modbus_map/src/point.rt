//! Points of a map, and their values.
use crate::kind::{ByteOrder, Kind, Table};
use crate::scale::Scale;
use modbus_frame::Address;

/// How the words of a point are read: what lies in them.
#[derive(Clone, Copy, Debug, PartialEq, Eq)]
pub struct Encoding {
    /// What lies there.
    pub kind: Kind,
    /// The order of its bytes; `Abcd` is that of the standard. A bit of a coil takes no notice of it.
    pub order: ByteOrder,
    /// What an integer is worth. The other kinds take no notice of it.
    pub scale: Scale,
}

/// A point of a device: a value that has a name.
#[derive(Debug, PartialEq, Eq, Drop)]
pub struct Point {
    /// Its name.
    pub name: String,
    /// The table in which it lies.
    pub table: Table,
    /// The address of its first register, or of its bit, from 0.
    pub address: Address,
    /// How it is read.
    pub encoding: Encoding,
    /// The unit of measure of its value, as `kWh`; empty for none.
    pub unit: String,
    /// Whether it may be written.
    pub is_writable: bool,
}
