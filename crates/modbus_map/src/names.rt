//! The names of kinds and orders.
ghost use Rattle.std.specs.Prelude.{◌≡◌, ◌≤◌, length};
ghost use Rattle.modbus_map.specs.Names.{small_in, behind_space, order_named, kind_named, bit_named, text_named, numbered};

use crate::decimal::digits_after;
use crate::kind::{ByteOrder, Kind};

/// The number that one digit to three show, from the least to the most.
fn small_in(text: &[u8], least: u8, most: u8) -> Option<u8>
    ensures { result ≡ small_in least most text.now }
{
    if text.is_empty() || text.len() > 3 {
        return None;
    }
    match digits_after(0, text) {
        Some(number) if number >= u128::from(least) && number <= u128::from(most) => Some(
            number as u8,
        ),
        _ => None,
    }
}

/// What stands behind a space, or all where none comes first.
fn behind_space(text: &str) -> &str
    ensures { result.now ≡ behind_space text.now }
{
    match text.strip_prefix(" ") {
        Some(rest) => rest,
        None => text,
    }
}

/// A bit of a register: `bit0` to `bit15`, or with a space before the number.
fn bit_named(text: &str) -> Option<Kind>
    ensures { result ≡ bit_named text.now }
{
    let number = behind_space(text.strip_prefix("bit")?);
    match small_in(number.as_bytes(), 0, 15) {
        Some(place) => Some(Kind::Bit(place)),
        None => None,
    }
}

/// A text of so many registers: `text1` to `text125`, or with a space before the number.
fn text_named(text: &str) -> Option<Kind>
    ensures { result ≡ text_named text.now }
{
    let number = behind_space(text.strip_prefix("text")?);
    match small_in(number.as_bytes(), 1, 125) {
        Some(count) => Some(Kind::Text(count)),
        None => None,
    }
}

/// A bit of a register or a text.
fn numbered(text: &str) -> Option<Kind>
    ensures { result ≡ numbered text.now }
{
    match bit_named(text) {
        Some(kind) => Some(kind),
        None => text_named(text),
    }
}

impl Kind {
    /// The kind of a name: `bool`, `u16`, `i16`, `u32`, `i32`, `u64`, `i64`, `f32`, `f64`, `bit` and a number from 0 to 15, `text` and a
    /// number of registers from 1 to 125, each with a space before the number or none.
    pub fn of_name(text: &str) -> Option<Kind>
        ensures { result ≡ kind_named text.now }
    {
        if text == "bool" {
            return Some(Kind::Bool);
        }
        if text == "u16" {
            return Some(Kind::U16);
        }
        if text == "i16" {
            return Some(Kind::I16);
        }
        if text == "u32" {
            return Some(Kind::U32);
        }
        if text == "i32" {
            return Some(Kind::I32);
        }
        if text == "u64" {
            return Some(Kind::U64);
        }
        if text == "i64" {
            return Some(Kind::I64);
        }
        if text == "f32" {
            return Some(Kind::F32);
        }
        if text == "f64" {
            return Some(Kind::F64);
        }
        numbered(text)
    }
}

impl ByteOrder {
    /// The order of a name: `ABCD`, `CDAB`, `BADC`, `DCBA`, or `AB` and `BA` for one register, all in capitals or all in small letters.
    pub fn of_name(text: &str) -> Option<ByteOrder>
        ensures { result ≡ order_named text.now }
    {
        if text == "ABCD" || text == "abcd" || text == "AB" || text == "ab" {
            return Some(ByteOrder::Abcd);
        }
        if text == "CDAB" || text == "cdab" {
            return Some(ByteOrder::Cdab);
        }
        if text == "BADC" || text == "badc" || text == "BA" || text == "ba" {
            return Some(ByteOrder::Badc);
        }
        if text == "DCBA" || text == "dcba" {
            return Some(ByteOrder::Dcba);
        }
        None
    }
}
