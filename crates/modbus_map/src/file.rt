//! Reading a map of a plant from a text in TOML: its devices, how they are reached, and their points. docs/MAP.md has the keys.
ghost use Rattle.std.specs.Prelude.{IfOk};
ghost use Rattle.modbus_map.specs.Sound.{IsSoundMap};

mod device;
mod fault;
mod fields;
mod line;
mod names;
mod point;
mod words;

use crate::device::{Device, Map};
use crate::file::device::read_device;
use crate::file::fault::{At, Fault, refused};
pub use crate::file::fault::{MapError, MapPlace, Reason};
pub use crate::file::line::line_of;
use crate::file::names::first_repeat;
use std::alloc::Global;
use toml::Table;
use toml::value::{Array, Value};

/// The error of a text that is no TOML, in one line.
fn no_toml(alloc: Global, text: &str, error: toml::de::Error) -> MapError {
    let Some(span) = error.span() else {
        return MapError::NoMemory;
    };
    let before = text.as_bytes().iter().take(span.start);
    let line = before
        .filter(|byte| **byte == b'\n')
        .count()
        .saturating_add(1);
    match String::from_str(alloc, error.message()) {
        Ok(message) => MapError::Toml { line, message },
        Err(_) => MapError::NoMemory,
    }
}

/// The table of a text in TOML, whose byte order mark is passed over.
fn table_of(alloc: Global, text: &str) -> Result<Table, MapError> {
    let text = text.strip_prefix('\u{FEFF}').unwrap_or(text);
    match toml::table_from_str(alloc, text) {
        Ok(table) => Ok(table),
        Err(error) => Err(no_toml(alloc, text, error)),
    }
}

/// The devices of a list.
fn devices_of(alloc: Global, list: &Array, groups: Option<&Table>) -> Result<Map, MapError>
    ensures { IfOk result IsSoundMap }
{
    let mut devices = Vec::new(alloc);
    for value in list {
        let device = read_device(alloc, value, groups)?;
        let Ok(()) = devices.push(device) else {
            return Err(MapError::NoMemory);
        };
    }
    Ok(Map { devices })
}

/// Tells a name that two devices have.
fn names_differ(alloc: Global, devices: &[Device]) -> Result<(), MapError> {
    let mut names: Vec<&str> = devices
        .iter()
        .map(|device| device.name.as_str())
        .collect(alloc)?;
    match first_repeat(&mut names) {
        None => Ok(()),
        Some(name) => Err(At::Map.error(alloc, refused(alloc, name, Reason::Twice))),
    }
}

/// The list of devices of a map, and its groups.
fn parts_of(alloc: Global, table: &Table) -> Result<(&Array, Option<&Table>), Fault> {
    fields::only(alloc, table, &["device", "group"])?;
    let groups = fields::table_under(alloc, table, "group")?;
    match fields::list(alloc, table, "device")? {
        Some(devices) => Ok((devices, groups)),
        None => Err(refused(alloc, "device", Reason::Missing)),
    }
}

/// Reads a map of a plant from a text in TOML, whose keys docs/MAP.md has.
///
/// # Errors
/// `Toml` with the line of what is no TOML, `Refused` with the first word that is refused, where it stands and why. `NoMemory` where memory
/// was refused.
pub fn read_map(alloc: Global, text: &str) -> Result<Map, MapError>
    ensures { IfOk result IsSoundMap }
{
    let table = table_of(alloc, text)?;
    let (list, groups) = match parts_of(alloc, &table) {
        Ok(parts) => parts,
        Err(fault) => return Err(At::Map.error(alloc, fault)),
    };
    let map = devices_of(alloc, list, groups)?;
    names_differ(alloc, map.devices.as_slice())?;
    Ok(map)
}
