//! The notation of a point's place as a word: `100:f32`, `100:f32cdab`, `i30:u32badc`, `c5:bool`, `100:bit3`.
ghost use Rattle.std.specs.Prelude.{◌≡◌};
ghost use Rattle.modbus_map.specs.Names.{kind_named};
ghost use Rattle.modbus_map.specs.Notation.{table_of, rest_of, address_part, kind_part, address_named};
ghost use Rattle.modbus_map.specs.Notation.{suffix_named, reading_with, in_order, wide_reading, reading_named, fits_table, place_named};

use crate::decimal::digits_after;
use crate::kind::{ByteOrder, Kind, Table};
use modbus_frame::Address;
use thiserror::Error;

/// Where a point lies, and how its bytes lie there.
#[derive(Clone, Copy, Debug, PartialEq, Eq)]
pub struct Place {
    pub table: Table,
    /// The address of its first register, or of its bit.
    pub address: Address,
    pub kind: Kind,
    pub order: ByteOrder,
}

/// Why a word names no place.
#[derive(Clone, Copy, Debug, PartialEq, Eq, Error)]
pub enum PlaceError {
    /// There is no address of 0 to 65535 before the colon.
    #[error("no address from 0 to 65535")]
    Address,
    /// There is no kind after the colon, or another order than the four.
    #[error("no kind: bool, bit0 to bit15, text1 to text125, or u16 i32 f64 and the like with an order behind")]
    Kind,
    /// A state that is not of a coil or a discrete input, or another kind that is not of registers.
    #[error("a kind that does not lie in this table")]
    Table,
    /// The last register has no address.
    #[error("passes the last address, 65535")]
    End,
}

/// The table that a word begins with, and the rest of the word: `c` for coils, `d` for discrete inputs, `i` for input registers, `h` or
/// nothing for holding registers.
fn split_table(word: &str) -> (Table, &str)
    ensures table { result.0 ≡ table_of word.now }
    ensures rest { result.1.now ≡ rest_of word.now }
{
    if let Some(rest) = word.strip_prefix("c") {
        return (Table::Coils, rest);
    }
    if let Some(rest) = word.strip_prefix("d") {
        return (Table::DiscreteInputs, rest);
    }
    if let Some(rest) = word.strip_prefix("i") {
        return (Table::InputRegisters, rest);
    }
    if let Some(rest) = word.strip_prefix("h") {
        return (Table::HoldingRegisters, rest);
    }
    (Table::HoldingRegisters, word)
}

/// What stands before the first colon, and what stands after it: all and nothing where there is none.
fn split_colon(word: &str) -> (&str, &str)
    ensures before { result.0.now ≡ address_part word.now }
    ensures after { result.1.now ≡ kind_part word.now }
{
    match word.split_once(':') {
        Some(parts) => parts,
        None => (word, ""),
    }
}

/// An address: one to five digits, of a value up to 65535.
fn address_of(word: &[u8]) -> Option<Address>
    ensures { result ≡ address_named word.now }
{
    if word.is_empty() || word.len() > 5 {
        return None;
    }
    match digits_after(0, word) {
        Some(address) if address <= 0xFFFF => Some(address as u16),
        _ => None,
    }
}

/// The order that stands behind a kind: none for that of the standard, `le` for the low word first, or one of the four.
fn suffix_of(text: &str) -> Option<ByteOrder>
    ensures { result ≡ suffix_named text.now }
{
    if text.is_empty() {
        return Some(ByteOrder::Abcd);
    }
    if text == "le" {
        return Some(ByteOrder::Cdab);
    }
    ByteOrder::of_name(text)
}

/// A kind with the order that stands behind it.
fn with_order(kind: Kind, text: &str) -> Option<(Kind, ByteOrder)>
    ensures { result ≡ reading_with kind text.now }
{
    match suffix_of(text) {
        Some(order) => Some((kind, order)),
        None => None,
    }
}

/// A kind that has no order behind it.
fn plain_reading(text: &str) -> Option<(Kind, ByteOrder)>
    ensures { result ≡ in_order (kind_named text.now) }
{
    match Kind::of_name(text) {
        Some(kind) => Some((kind, ByteOrder::Abcd)),
        None => None,
    }
}

/// A number in four registers or a float with its order, or a kind that has none.
#[tactic(auto, unfolding(crate::specs::Notation::wide_reading))]
fn wide_reading(text: &str) -> Option<(Kind, ByteOrder)>
    ensures { result ≡ wide_reading text.now }
{
    if let Some(order) = text.strip_prefix("u64") {
        return with_order(Kind::U64, order);
    }
    if let Some(order) = text.strip_prefix("i64") {
        return with_order(Kind::I64, order);
    }
    if let Some(order) = text.strip_prefix("f32") {
        return with_order(Kind::F32, order);
    }
    if let Some(order) = text.strip_prefix("f64") {
        return with_order(Kind::F64, order);
    }
    plain_reading(text)
}

/// The kind and the order that a word names.
fn reading_of(text: &str) -> Option<(Kind, ByteOrder)>
    ensures { result ≡ reading_named text.now }
{
    if let Some(order) = text.strip_prefix("u16") {
        return with_order(Kind::U16, order);
    }
    if let Some(order) = text.strip_prefix("i16") {
        return with_order(Kind::I16, order);
    }
    if let Some(order) = text.strip_prefix("u32") {
        return with_order(Kind::U32, order);
    }
    if let Some(order) = text.strip_prefix("i32") {
        return with_order(Kind::I32, order);
    }
    wide_reading(text)
}

/// Whether a kind lies in a table: a state in coils or discrete inputs, every other one in registers.
fn fits_table(table: Table, kind: Kind) -> bool
    ensures { result ≡ fits_table table kind }
{
    table.has_registers() == kind.is_of_registers()
}

/// The place that a word names: `100:u16`, `i101:i32le`, `100:f32cdab`, `i30:u32badc`, `c5:bool`, `d7:bool`, `100:bit3`, `300:text8`.
///
/// A table comes first, `c` for coils, `d` for discrete inputs, `i` for input registers, `h` or nothing for holding registers; then an
/// address in decimal, a colon, and a kind as [`Kind::of_name`] has them. Behind a number an order may stand, as [`ByteOrder::of_name`] has
/// them, or `le` for the low word first.
///
/// # Errors
/// The first of these that is so: `Address`, `Kind`, `Table`, `End`.
pub fn parse_place(word: &str) -> Result<Place, PlaceError>
    ensures { result ≡ place_named word.now }
{
    let (table, rest) = split_table(word);
    let (before, after) = split_colon(rest);
    let Some(address) = address_of(before.as_bytes()) else {
        return Err(PlaceError::Address);
    };
    let Some((kind, order)) = reading_of(after) else {
        return Err(PlaceError::Kind);
    };
    if !fits_table(table, kind) {
        return Err(PlaceError::Table);
    }
    if u32::from(address) + u32::from(kind.width()) > 0x1_0000 {
        return Err(PlaceError::End);
    }
    Ok(Place {
        table,
        address,
        kind,
        order,
    })
}
