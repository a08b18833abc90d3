//! Devices of a map, from their tables in TOML.
ghost use Rattle.std.specs.Prelude.{◌≡◌, ◌++◌, true, IfOk, OnOk};
ghost use Rattle.std.specs.List.{AllPass};
ghost use Rattle.modbus_map.specs.Sound.{is_sound, IsSoundDevice};

use crate::device::{Device, LinkKind};
use crate::file::fault::{At, Fault, MapError, Reason, refused};
use crate::file::names::{first_repeat, told_name};
use crate::file::point::read_point;
use crate::file::{fields, words};
use crate::point::Point;
use modbus_frame::Quantity;
use modbus_poll::Limits;
use std::alloc::{AllocError, Global};
use std::time::Duration;
use toml::value::{Array, Table, Value};

/// The keys of a device.
const KEYS: [&str; 13] = [
    "name",
    "tcp",
    "rtu_over_tcp",
    "serial",
    "unit",
    "every",
    "timeout",
    "retries",
    "most",
    "gaps",
    "max_gap",
    "groups",
    "points",
];

/// The port of Modbus TCP.
const PORT: &str = "502";

/// A host with its port, 502 where none is told.
fn host_and_port(alloc: Global, host: &str) -> Result<String, Fault> {
    let has_port = match host.rsplit_once(':') {
        Some((_, port)) => !port.contains(']'),
        None => false,
    };
    if has_port {
        return Ok(String::from_str(alloc, host)?);
    }
    Ok(format!(in alloc; "{host}:{PORT}")?)
}

/// How a device is reached.
fn link_of(alloc: Global, table: &Table) -> Result<LinkKind, Fault> {
    let tcp = fields::text(alloc, table, "tcp")?;
    let rtu_over_tcp = fields::text(alloc, table, "rtu_over_tcp")?;
    let serial = fields::text(alloc, table, "serial")?;
    match (tcp, rtu_over_tcp, serial) {
        (Some(host), None, None) => Ok(LinkKind::Tcp(host_and_port(alloc, host)?)),
        (None, Some(host), None) => Ok(LinkKind::RtuOverTcp(host_and_port(alloc, host)?)),
        (None, None, Some(path)) => Ok(LinkKind::Serial(String::from_str(alloc, path)?)),
        _ => Err(refused(alloc, "tcp", Reason::Link)),
    }
}

/// The time under a key, where one is told.
fn time_of(alloc: Global, table: &Table, key: &str) -> Result<Option<Duration>, Fault> {
    match fields::text(alloc, table, key)? {
        None => Ok(None),
        Some(word) => match words::time(word) {
            Some(time) => Ok(Some(time)),
            None => Err(refused(alloc, word, Reason::Time)),
        },
    }
}

/// How long an answer is waited for: a second where nothing is told.
fn timeout_of(alloc: Global, table: &Table) -> Result<Duration, Fault> {
    Ok(time_of(alloc, table, "timeout")?.unwrap_or(Duration::from_secs(1)))
}

/// The gaps that a read may have: any where nothing is told.
fn gap_of(alloc: Global, table: &Table) -> Result<Quantity, Fault> {
    let gaps = fields::boolean(alloc, table, "gaps")?;
    let max_gap = fields::word(alloc, table, "max_gap", 0, u16::MAX)?;
    match (gaps, max_gap) {
        (Some(_), Some(_)) => Err(refused(alloc, "max_gap", Reason::TwoGaps)),
        (None, Some(gap)) => Ok(gap),
        (Some(false), None) => Ok(0),
        (Some(true) | None, None) => Ok(u16::MAX),
    }
}

/// What one read of its registers may give.
fn limits_of(alloc: Global, table: &Table) -> Result<Limits, Fault> {
    let default = Limits::REGISTERS.most;
    let most = fields::word(alloc, table, "most", 1, default)?.unwrap_or(default);
    let gap = gap_of(alloc, table)?;
    Ok(Limits { most, gap })
}

/// What is told of a device beside its points.
#[derive(Drop)]
struct Settings {
    name: String,
    link: LinkKind,
    unit: u8,
    every: Option<Duration>,
    timeout: Duration,
    retries: u8,
    limits: Limits,
}

/// What is told of a device beside its points.
fn settings_of(alloc: Global, table: &Table) -> Result<Settings, Fault> {
    fields::only(alloc, table, &KEYS)?;
    Ok(Settings {
        name: String::from_str(alloc, fields::wanted_text(alloc, table, "name")?)?,
        link: link_of(alloc, table)?,
        unit: fields::small(alloc, table, "unit", 0, 1)?,
        every: time_of(alloc, table, "every")?,
        timeout: timeout_of(alloc, table)?,
        retries: fields::small(alloc, table, "retries", 0, 1)?,
        limits: limits_of(alloc, table)?,
    })
}

/// Appends a point.
fn add_point(
    alloc: Global,
    points: &mut Vec<Point>,
    value: &Value,
    most: Quantity,
) -> Result<(), Fault>
    requires { AllPass (is_sound most) points.old.items }
    ensures { OnOk result (AllPass (is_sound most) points.new.items) }
{
    let Value::Table(table) = value else {
        return Err(refused(alloc, "points", Reason::Table));
    };
    let point = read_point(alloc, table, most)?;
    match points.push(point) {
        Ok(()) => Ok(()),
        Err(refusal) => Err(Fault::from(AllocError::from(refusal))),
    }
}

/// Appends the points of a list.
fn add_points(
    alloc: Global,
    device: &str,
    points: &mut Vec<Point>,
    list: &Array,
    most: Quantity,
) -> Result<(), MapError>
    requires { AllPass (is_sound most) points.old.items }
    ensures { OnOk result (AllPass (is_sound most) points.new.items) }
{
    for value in list {
        if let Err(fault) = add_point(alloc, points, value, most) {
            return Err(At::Point(device, told_name(value)).error(alloc, fault));
        }
    }
    Ok(())
}

/// The points of the group that a text names.
fn group_of<'a>(
    alloc: Global,
    groups: Option<&'a Table>,
    value: &Value,
) -> Result<&'a Array, Fault> {
    let Value::String(name) = value else {
        return Err(refused(alloc, "groups", Reason::Text));
    };
    let group = match groups {
        Some(groups) => fields::table_under(alloc, groups, name.as_str())?,
        None => None,
    };
    let Some(group) = group else {
        return Err(refused(alloc, name.as_str(), Reason::UnknownGroup));
    };
    fields::only(alloc, group, &["points"])?;
    match fields::list(alloc, group, "points")? {
        Some(points) => Ok(points),
        None => Err(refused(alloc, "points", Reason::Missing)),
    }
}

/// Appends the points of the groups that a list names.
fn add_groups(
    alloc: Global,
    device: &str,
    points: &mut Vec<Point>,
    list: &Array,
    groups: Option<&Table>,
    most: Quantity,
) -> Result<(), MapError>
    requires { AllPass (is_sound most) points.old.items }
    ensures { OnOk result (AllPass (is_sound most) points.new.items) }
{
    for value in list {
        match group_of(alloc, groups, value) {
            Ok(group) => add_points(alloc, device, points, group, most)?,
            Err(fault) => return Err(At::Device(device).error(alloc, fault)),
        }
    }
    Ok(())
}

/// The list under a key of a device.
fn list_of<'a>(
    alloc: Global,
    device: &str,
    table: &'a Table,
    key: &str,
) -> Result<Option<&'a Array>, MapError> {
    match fields::list(alloc, table, key) {
        Ok(list) => Ok(list),
        Err(fault) => Err(At::Device(device).error(alloc, fault)),
    }
}

/// The points of a device: its own, and then those of its groups.
fn points_of(
    alloc: Global,
    device: &str,
    table: &Table,
    groups: Option<&Table>,
    most: Quantity,
) -> Result<Vec<Point>, MapError>
    ensures { IfOk result (λ points. AllPass (is_sound most) points.items) }
{
    let mut points = Vec::new(alloc);
    if let Some(list) = list_of(alloc, device, table, "points")? {
        add_points(alloc, device, &mut points, list, most)?;
    }
    if let Some(list) = list_of(alloc, device, table, "groups")? {
        add_groups(alloc, device, &mut points, list, groups, most)?;
    }
    Ok(points)
}

/// Tells a name that two points of a device have.
fn names_differ(alloc: Global, device: &str, points: &[Point]) -> Result<(), MapError> {
    let mut names: Vec<&str> = points
        .iter()
        .map(|point| point.name.as_str())
        .collect(alloc)?;
    match first_repeat(&mut names) {
        None => Ok(()),
        Some(name) => Err(At::Device(device).error(alloc, refused(alloc, name, Reason::Twice))),
    }
}

/// The device of a table, whose groups stand in another.
///
/// # Errors
/// The first word that is refused, with its device and point.
pub(crate) fn read_device(
    alloc: Global,
    value: &Value,
    groups: Option<&Table>,
) -> Result<Device, MapError>
    ensures { IfOk result IsSoundDevice }
{
    let name = told_name(value);
    let Value::Table(table) = value else {
        return Err(At::Map.error(alloc, refused(alloc, "device", Reason::Table)));
    };
    match settings_of(alloc, table) {
        Ok(settings) => with_points(alloc, settings, name, table, groups),
        Err(fault) => Err(At::Device(name).error(alloc, fault)),
    }
}

/// A device of these settings, with its points.
fn with_points(
    alloc: Global,
    settings: Settings,
    name: &str,
    table: &Table,
    groups: Option<&Table>,
) -> Result<Device, MapError>
    ensures { IfOk result IsSoundDevice }
{
    let points = points_of(alloc, name, table, groups, settings.limits.most)?;
    names_differ(alloc, name, points.as_slice())?;
    Ok(Device {
        name: settings.name,
        link: settings.link,
        unit: settings.unit,
        every: settings.every,
        timeout: settings.timeout,
        retries: settings.retries,
        limits: settings.limits,
        points,
    })
}
