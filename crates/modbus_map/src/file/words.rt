//! The words of a map: tables, addresses, times.

use crate::kind::Table;
use modbus_frame::Address;
use std::time::Duration;

/// The table that a word names.
pub(crate) fn table(word: &str) -> Option<Table> {
    match word {
        "coils" => Some(Table::Coils),
        "discrete inputs" => Some(Table::DiscreteInputs),
        "input registers" => Some(Table::InputRegisters),
        "holding registers" => Some(Table::HoldingRegisters),
        _ => None,
    }
}

/// What the text of an address says: the address, and the table where the text is that of a manual.
pub(crate) fn address(word: &str) -> Option<(Option<Table>, Address)> {
    match word.strip_prefix("0x") {
        Some(digits) => Some((None, hexadecimal(digits)?)),
        None => manual(word),
    }
}

/// The number of one to four hexadecimal digits.
fn hexadecimal(digits: &str) -> Option<Address> {
    if digits.len() > 4 || digits.starts_with('+') {
        return None;
    }
    Address::from_str_radix(digits, 16).ok()
}

/// The table of the first digit of an address in a manual, and the digits behind it.
fn numbered(word: &str) -> Option<(Table, &str)> {
    if let Some(rest) = word.strip_prefix('0') {
        return Some((Table::Coils, rest));
    }
    if let Some(rest) = word.strip_prefix('1') {
        return Some((Table::DiscreteInputs, rest));
    }
    if let Some(rest) = word.strip_prefix('3') {
        return Some((Table::InputRegisters, rest));
    }
    let rest = word.strip_prefix('4')?;
    Some((Table::HoldingRegisters, rest))
}

/// The address of five or six digits in a manual: the table by the first digit, and behind it a number from 1, which is the address and one.
fn manual(word: &str) -> Option<(Option<Table>, Address)> {
    if word.len() != 5 && word.len() != 6 {
        return None;
    }
    let (table, digits) = numbered(word)?;
    if digits.starts_with('+') {
        return None;
    }
    let number = digits.parse::<u32>().ok()?;
    let address = Address::try_from(number.checked_sub(1)?).ok()?;
    Some((Some(table), address))
}

/// A number of whole units of so many milliseconds, of at least one.
fn units(digits: &str, milliseconds: u32) -> Option<Duration> {
    if digits.starts_with('+') {
        return None;
    }
    let number = digits.parse::<u32>().ok()?;
    if number == 0 {
        return None;
    }
    Some(Duration::from_millis(u64::from(number) * u64::from(milliseconds)))
}

/// The time that a word tells: `500ms`, `1s`, `2min`, `1h`.
pub(crate) fn time(word: &str) -> Option<Duration> {
    if let Some(digits) = word.strip_suffix("ms") {
        return units(digits, 1);
    }
    if let Some(digits) = word.strip_suffix("s") {
        return units(digits, 1_000);
    }
    if let Some(digits) = word.strip_suffix("min") {
        return units(digits, 60_000);
    }
    units(word.strip_suffix("h")?, 3_600_000)
}
