//! Points of a map, from their tables in TOML.
ghost use Rattle.std.specs.Prelude.{◌≡◌, true, IfOk};
ghost use Rattle.modbus_map.specs.Sound.{is_sound};

use crate::decimal::Decimal;
use crate::file::fault::{Fault, Reason, refused};
use crate::file::{fields, words};
use crate::kind::{ByteOrder, Kind, Table};
use crate::point::{Encoding, Point};
use crate::scale::{Scale, ScaleError};
use modbus_frame::{Address, Quantity};
use std::alloc::Global;
use toml::value::Value;

/// The keys of a point.
const KEYS: [&str; 9] = [
    "name", "table", "address", "kind", "order", "factor", "offset", "unit", "write",
];

/// The name of a point, which has to be told.
pub(crate) fn name_of<'a>(alloc: Global, table: &'a toml::Table) -> Result<&'a str, Fault> {
    fields::wanted_text(alloc, table, "name")
}

/// The kind of a point, which has to be told.
fn kind_of(alloc: Global, table: &toml::Table) -> Result<Kind, Fault> {
    let word = fields::wanted_text(alloc, table, "kind")?;
    match Kind::of_name(word) {
        Some(kind) => Ok(kind),
        None => Err(refused(alloc, word, Reason::Kind)),
    }
}

/// The order of its bytes, that of the standard where none is told.
fn order_of(alloc: Global, table: &toml::Table) -> Result<ByteOrder, Fault> {
    match fields::text(alloc, table, "order")? {
        None => Ok(ByteOrder::Abcd),
        Some(word) => match ByteOrder::of_name(word) {
            Some(order) => Ok(order),
            None => Err(refused(alloc, word, Reason::Order)),
        },
    }
}

/// The number under a key, and what it is where it is not told.
fn number_of(
    alloc: Global,
    table: &toml::Table,
    key: &str,
    default: i128,
) -> Result<Decimal, Fault> {
    match table.get(key) {
        None => Ok(Decimal {
            units: default,
            places: 0,
        }),
        Some(Value::Integer(number)) => Ok(Decimal {
            units: i128::from(*number),
            places: 0,
        }),
        Some(Value::String(text)) => match text.as_str().parse::<Decimal>() {
            Ok(number) => Ok(number),
            Err(_) => Err(refused(alloc, text.as_str(), Reason::Number)),
        },
        Some(Value::Float(_)) => Err(refused(alloc, key, Reason::Float)),
        Some(_) => Err(refused(alloc, key, Reason::Number)),
    }
}

/// What an integer is worth: the factor is 1 and the offset 0 where none is told.
fn scale_of(alloc: Global, table: &toml::Table, kind: Kind) -> Result<Scale, Fault> {
    let factor = number_of(alloc, table, "factor", 1)?;
    let offset = number_of(alloc, table, "offset", 0)?;
    let is_told = table.contains_key("factor") || table.contains_key("offset");
    if is_told && !kind.is_integer() {
        return Err(refused(alloc, "factor", Reason::NoScale));
    }
    match Scale::new(factor, offset) {
        Ok(scale) => Ok(scale),
        Err(ScaleError::Zero) => Err(refused(alloc, "factor", Reason::ZeroFactor)),
        Err(ScaleError::TooLong) => Err(refused(alloc, "factor", Reason::TooManyDigits)),
    }
}

/// The table under its key.
fn table_told(alloc: Global, table: &toml::Table) -> Result<Option<Table>, Fault> {
    match fields::text(alloc, table, "table")? {
        None => Ok(None),
        Some(word) => match words::table(word) {
            Some(found) => Ok(Some(found)),
            None => Err(refused(alloc, word, Reason::TableName)),
        },
    }
}

/// The address under its key, with its table where the address is that of a manual.
fn address_of(alloc: Global, table: &toml::Table) -> Result<(Option<Table>, Address), Fault> {
    match table.get("address") {
        None => Err(refused(alloc, "address", Reason::Missing)),
        Some(Value::Integer(number)) => match Address::try_from(*number) {
            Ok(address) => Ok((None, address)),
            Err(_) => Err(refused(alloc, "address", Reason::Address)),
        },
        Some(Value::String(word)) => match words::address(word.as_str()) {
            Some(found) => Ok(found),
            None => Err(refused(alloc, word.as_str(), Reason::Address)),
        },
        Some(_) => Err(refused(alloc, "address", Reason::Address)),
    }
}

/// The table that a kind lies in where none is told: coils for a state, holding registers for anything else.
fn default_table(kind: Kind) -> Table {
    match kind {
        Kind::Bool => Table::Coils,
        _ => Table::HoldingRegisters,
    }
}

/// Where a point lies.
fn place_of(alloc: Global, table: &toml::Table, kind: Kind) -> Result<(Table, Address), Fault> {
    let told = table_told(alloc, table)?;
    let (by_address, address) = address_of(alloc, table)?;
    match (told, by_address) {
        (Some(told), Some(found)) if told != found => {
            Err(refused(alloc, "address", Reason::OtherTable))
        }
        (Some(found), _) | (None, Some(found)) => Ok((found, address)),
        (None, None) => Ok((default_table(kind), address)),
    }
}

/// Whether it may be written, which it may not where nothing is told.
fn is_writable(
    alloc: Global,
    table: &toml::Table,
    place: Table,
    kind: Kind,
) -> Result<bool, Fault> {
    if fields::boolean(alloc, table, "write")? != Some(true) {
        return Ok(false);
    }
    if !place.is_writable() || matches!(kind, Kind::Bit(_)) {
        return Err(refused(alloc, "write", Reason::NotWritable));
    }
    Ok(true)
}

/// The point of a table.
fn point_of(alloc: Global, table: &toml::Table) -> Result<Point, Fault> {
    fields::only(alloc, table, &KEYS)?;
    let kind = kind_of(alloc, table)?;
    let order = order_of(alloc, table)?;
    let scale = scale_of(alloc, table, kind)?;
    let (place, address) = place_of(alloc, table, kind)?;
    let is_writable = is_writable(alloc, table, place, kind)?;
    let unit = fields::text(alloc, table, "unit")?.unwrap_or("");
    Ok(Point {
        name: String::from_str(alloc, name_of(alloc, table)?)?,
        table: place,
        address,
        encoding: Encoding { kind, order, scale },
        unit: String::from_str(alloc, unit)?,
        is_writable,
    })
}

/// The point of a table, which one read of at most so many registers can give.
///
/// # Errors
/// The first word that is refused.
pub(crate) fn read_point(alloc: Global, table: &toml::Table, most: Quantity) -> Result<Point, Fault>
    ensures { IfOk result (λ point. is_sound most point ≡ true) }
{
    let point = point_of(alloc, table)?;
    if point.is_sound(most) {
        return Ok(point);
    }
    if point.table.fits(point.encoding.kind) {
        return Err(refused(alloc, "address", Reason::TooLong));
    }
    Err(refused(alloc, "kind", Reason::Fit))
}
