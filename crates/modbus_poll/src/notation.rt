//! The notation of items as words: `100:u16`, `i101:i32le`, `300:text8`.
ghost use Rattle.std.specs.Prelude.{◌≡◌};
ghost use Rattle.modbus_poll.specs.Notation.{table_of, rest_of, address_part, kind_part};
ghost use Rattle.modbus_poll.specs.Notation.{address_named, kind_named, text_named, point_named};

use crate::item::{Item, Kind, Order};
use crate::number::number_within;
use modbus_frame::Address;
use modbus_pdu::MAX_READ_REGISTERS;

/// The registers of the widest text: those of one read (V1.1b3, section 6.3).
const WIDEST_TEXT: u32 = MAX_READ_REGISTERS as u32;

/// The tables of registers of a device (V1.1b3, section 4.3).
#[derive(Clone, Copy, Debug, PartialEq, Eq)]
pub enum Table {
    /// Holding registers, which are read and written.
    Holding,
    /// Input registers, which are read only.
    Input,
}

/// An item, and the table in which its registers lie.
#[derive(Clone, Copy, Debug, PartialEq, Eq)]
pub struct Point {
    pub table: Table,
    pub item: Item,
}

/// Why a word names no point.
#[derive(Clone, Copy, Debug, PartialEq, Eq, thiserror::Error)]
pub enum PointError {
    /// There is no address of 0 to 65535 before the colon.
    #[error("no address from 0 to 65535")]
    Address,
    /// There is no kind after the colon.
    #[error("no kind: u16 i16 u32 i32 u64 i64, u32le i32le u64le i64le, text1 to text125")]
    Kind,
    /// The last register has no address.
    #[error("passes the last address, 65535")]
    End,
}

/// The table that a word begins with, and the rest of the word: `i` for input registers, `h` or nothing for holding registers.
fn split_table(word: &str) -> (Table, &str)
    ensures table { result.0 ≡ table_of word.now }
    ensures rest { result.1.now ≡ rest_of word.now }
{
    if let Some(rest) = word.strip_prefix('i') {
        return (Table::Input, rest);
    }
    if let Some(rest) = word.strip_prefix('h') {
        return (Table::Holding, rest);
    }
    (Table::Holding, word)
}

/// What stands before the first colon, and what stands after it: all and nothing where there is none.
fn split_colon(word: &str) -> (&str, &str)
    ensures before { result.0.now ≡ address_part word.now }
    ensures after { result.1.now ≡ kind_part word.now }
{
    match word.split_once(':') {
        Some(parts) => parts,
        None => (word, ""),
    }
}

/// An address: one to five digits, of a value up to 65535.
fn address_of(word: &str) -> Option<Address>
    ensures { result ≡ address_named word.now }
{
    match number_within(word.as_bytes(), 5, 0, 0xFFFF) {
        Some(address) if address <= 0xFFFF => Some(address as u16),
        _ => None,
    }
}

/// A text of so many registers: `text1` to `text125`.
fn text_of(word: &str) -> Option<Kind>
    ensures { result ≡ text_named word.now }
{
    let digits = word.strip_prefix("text")?;
    match number_within(digits.as_bytes(), 3, 1, WIDEST_TEXT) {
        Some(width) if width <= WIDEST_TEXT => Some(Kind::Text(width as u8)),
        _ => None,
    }
}

/// The kind that a word names.
fn kind_of(word: &str) -> Option<Kind>
    ensures { result ≡ kind_named word.now }
{
    if word == "u16" {
        return Some(Kind::U16);
    }
    if word == "i16" {
        return Some(Kind::I16);
    }
    if word == "u32" {
        return Some(Kind::U32(Order::HighFirst));
    }
    if word == "i32" {
        return Some(Kind::I32(Order::HighFirst));
    }
    if word == "u64" {
        return Some(Kind::U64(Order::HighFirst));
    }
    if word == "i64" {
        return Some(Kind::I64(Order::HighFirst));
    }
    if word == "u32le" {
        return Some(Kind::U32(Order::LowFirst));
    }
    if word == "i32le" {
        return Some(Kind::I32(Order::LowFirst));
    }
    if word == "u64le" {
        return Some(Kind::U64(Order::LowFirst));
    }
    if word == "i64le" {
        return Some(Kind::I64(Order::LowFirst));
    }
    text_of(word)
}

/// The point that a word names: `100:u16`, `i101:i32le`, `300:text8`.
///
/// A table comes first, `i` for input registers, `h` or nothing for holding registers; then an address in decimal, a colon, and a kind:
/// `u16`, `i16`, `u32`, `i32`, `u64`, `i64` with the high word first, the last four with `le` behind them with the low word first, or
/// `text` and a number of registers, each of two bytes.
///
/// # Errors
/// `Address` where there is no address, `Kind` where there is one and no kind follows, `End` where both are there and the item passes the
/// last address.
pub fn parse_point(word: &str) -> Result<Point, PointError>
    ensures { result ≡ point_named word.now }
{
    let (table, rest) = split_table(word);
    let (before, after) = split_colon(rest);
    let Some(address) = address_of(before) else {
        return Err(PointError::Address);
    };
    let Some(kind) = kind_of(after) else {
        return Err(PointError::Kind);
    };
    let item = Item { address, kind };
    if item.is_readable() {
        Ok(Point { table, item })
    } else {
        Err(PointError::End)
    }
}
