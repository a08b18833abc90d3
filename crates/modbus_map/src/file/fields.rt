//! The keys of a table in TOML.

use crate::file::fault::{Fault, Reason, refused};
use std::alloc::Global;
use toml::value::{Array, Table, Value};

/// Tells the first key of a table that is none of these.
pub(crate) fn only(alloc: Global, table: &Table, known: &[&str]) -> Result<(), Fault> {
    for key in table.keys() {
        let key = key.as_str();
        if !known.iter().any(|word| *word == key) {
            return Err(refused(alloc, key, Reason::UnknownKey));
        }
    }
    Ok(())
}

/// The text under a key.
pub(crate) fn text<'a>(
    alloc: Global,
    table: &'a Table,
    key: &str,
) -> Result<Option<&'a str>, Fault> {
    match table.get(key) {
        None => Ok(None),
        Some(Value::String(text)) => Ok(Some(text.as_str())),
        Some(_) => Err(refused(alloc, key, Reason::Text)),
    }
}

/// The text under a key that has to be told.
pub(crate) fn wanted_text<'a>(
    alloc: Global,
    table: &'a Table,
    key: &str,
) -> Result<&'a str, Fault> {
    match text(alloc, table, key)? {
        Some("") | None => Err(refused(alloc, key, Reason::Missing)),
        Some(text) => Ok(text),
    }
}

/// `true` or `false` under a key.
pub(crate) fn boolean(alloc: Global, table: &Table, key: &str) -> Result<Option<bool>, Fault> {
    match table.get(key) {
        None => Ok(None),
        Some(Value::Boolean(value)) => Ok(Some(*value)),
        Some(_) => Err(refused(alloc, key, Reason::Boolean)),
    }
}

/// A number of one byte under a key, and what it is where it is not told.
pub(crate) fn small(
    alloc: Global,
    table: &Table,
    key: &str,
    least: u8,
    default: u8,
) -> Result<u8, Fault> {
    let wanted = Reason::Integer(i64::from(least), 255);
    match table.get(key) {
        None => Ok(default),
        Some(Value::Integer(number)) => match u8::try_from(*number) {
            Ok(number) if least <= number => Ok(number),
            _ => Err(refused(alloc, key, wanted)),
        },
        Some(_) => Err(refused(alloc, key, wanted)),
    }
}

/// A number of two bytes under a key, from the least to the most.
pub(crate) fn word(
    alloc: Global,
    table: &Table,
    key: &str,
    least: u16,
    most: u16,
) -> Result<Option<u16>, Fault> {
    let wanted = Reason::Integer(i64::from(least), i64::from(most));
    match table.get(key) {
        None => Ok(None),
        Some(Value::Integer(number)) => match u16::try_from(*number) {
            Ok(number) if least <= number && number <= most => Ok(Some(number)),
            _ => Err(refused(alloc, key, wanted)),
        },
        Some(_) => Err(refused(alloc, key, wanted)),
    }
}

/// The list under a key.
pub(crate) fn list<'a>(
    alloc: Global,
    table: &'a Table,
    key: &str,
) -> Result<Option<&'a Array>, Fault> {
    match table.get(key) {
        None => Ok(None),
        Some(Value::Array(list)) => Ok(Some(list)),
        Some(_) => Err(refused(alloc, key, Reason::List)),
    }
}

/// The table under a key.
pub(crate) fn table_under<'a>(
    alloc: Global,
    table: &'a Table,
    key: &str,
) -> Result<Option<&'a Table>, Fault> {
    match table.get(key) {
        None => Ok(None),
        Some(Value::Table(found)) => Ok(Some(found)),
        Some(_) => Err(refused(alloc, key, Reason::Table)),
    }
}
