//! The devices that are polled: where each is reached, how often and how long it is asked, and its points.
ghost use Rattle.std.specs.Prelude.{◌≡◌};
ghost use Rattle.std.specs.Option.{option_map};
ghost use Rattle.modbus_supervisor.specs.Targets.{tcp_host};

use crate::plant::{Choice, chosen, is_chosen, read_plant};
use crate::refusal::Refusal;
use crate::words::Task;
use modbus_frame::Slave;
use modbus_lines::Points;
use modbus_map::{Device, LinkKind, Map, Point};
use modbus_plant::host_and_port;
use modbus_poll::Limits;
use std::alloc::Global;
use std::net::{SocketAddr, ToSocketAddrs};
use std::time::Duration;

/// What a device is told that is no Modbus TCP device.
const NO_TCP: &str = "only devices behind tcp are polled here; modbus_poller polls the others";

/// How often a device is polled where neither a word nor its map tells it, in milliseconds.
const EVERY: u32 = 1000;

/// When a device is asked, and how long and how often.
#[derive(Clone, Copy, Debug, PartialEq, Eq)]
pub struct Times {
    /// How many milliseconds pass from the beginning of its poll to that of its next.
    pub every: u32,
    /// How many milliseconds a read may take, with the connection where there is none.
    pub timeout: u32,
    /// How often a read is made again that has no answer.
    pub retries: u8,
}

/// A device that is polled.
#[derive(Drop)]
pub struct Target {
    /// Its name.
    pub name: String,
    /// Where it is reached.
    pub address: SocketAddr,
    /// Its unit identifier.
    pub unit: Slave,
    /// When it is asked.
    pub times: Times,
    /// Its points that were chosen, and the reads that give them.
    pub points: Points,
}

/// The host of a link over Modbus TCP, with its port where one is told; `None` of any other link.
fn host_of(link: &LinkKind) -> Option<&str>
    ensures { option_map (λ host. host.now) result ≡ tcp_host link.now }
{
    match link {
        LinkKind::Tcp(host) => Some(host.as_str()),
        LinkKind::RtuOverTcp(_) | LinkKind::Serial(_) => None,
    }
}

/// A time in milliseconds, one at least and no more than 32 bits have.
fn millis_of(time: Duration) -> u32 {
    let millis = time.as_millis().max(1);
    u32::try_from(millis).unwrap_or(u32::MAX)
}

/// A time of the map in milliseconds, and another where it tells none.
fn millis_or(time: Option<Duration>, other: u32) -> u32 {
    match time {
        Some(time) => millis_of(time),
        None => other,
    }
}

/// What a word tells, and where none does what the map does.
fn told_or(word: Option<u32>, map: u32) -> u32 {
    match word {
        Some(told) => told,
        None => map,
    }
}

/// When a device of a map is asked, where no word tells otherwise.
fn times_of(task: &Task<'_>, device: &Device) -> Times {
    Times {
        every: told_or(task.every, millis_or(device.every, EVERY)),
        timeout: told_or(task.timeout, millis_of(device.timeout)),
        retries: device.retries,
    }
}

/// The name of a device, as a refusal has it.
fn name_of(alloc: Global, name: &str) -> Result<String, Refusal<'static>> {
    Ok(String::from_str(alloc, name)?)
}

/// The refusal of a device for this reason.
fn refused(alloc: Global, name: &str, why: &'static str) -> Refusal<'static> {
    match name_of(alloc, name) {
        Ok(device) => Refusal::Device { device, why },
        Err(refusal) => refusal,
    }
}

/// The address of a host, the first that the system knows.
fn resolved(
    rt: &HostRuntime,
    device: &str,
    pair: (&str, u16),
) -> Result<SocketAddr, Refusal<'static>> {
    match pair.to_socket_addrs(rt) {
        Ok(mut addresses) => match addresses.next() {
            Some(address) => Ok(address),
            None => Err(refused(rt.alloc(), device, "no address of its host")),
        },
        Err(fault) => Err(Refusal::Host {
            device: name_of(rt.alloc(), device)?,
            fault,
        }),
    }
}

/// The address of a device.
///
/// # Errors
/// `Device` where it is no Modbus TCP device, or its host is none; `Host` where the system knows no address of that.
fn address_of(
    rt: &HostRuntime,
    device: &str,
    link: &LinkKind,
) -> Result<SocketAddr, Refusal<'static>> {
    let Some(host) = host_of(link) else {
        return Err(refused(rt.alloc(), device, NO_TCP));
    };
    match host_and_port(host) {
        Some(pair) => resolved(rt, device, pair),
        None => Err(refused(rt.alloc(), device, "no host and port")),
    }
}

/// The points of a device that are chosen, in their order.
fn points_of(
    alloc: Global,
    points: Vec<Point>,
    place: usize,
    choices: &[Choice<'_>],
) -> Result<Vec<Point>, Refusal<'static>> {
    let mut kept = Vec::new(alloc);
    for point in points {
        if is_chosen(choices, place, &point) {
            kept.push(point)?;
        }
    }
    Ok(kept)
}

/// The points of a device that are chosen, and the reads that give them; nothing where none is chosen.
fn chosen_points(
    alloc: Global,
    limits: Limits,
    points: Vec<Point>,
    place: usize,
    choices: &[Choice<'_>],
) -> Result<Option<Points>, Refusal<'static>> {
    let points = points_of(alloc, points, place, choices)?;
    if points.is_empty() {
        return Ok(None);
    }
    Ok(Some(Points::new(alloc, limits, points)?))
}

/// Adds the device at this place of a map, where a point of it is chosen.
fn add_chosen(
    rt: &HostRuntime,
    task: &Task<'_>,
    targets: &mut Vec<Target>,
    device: Device,
    place: usize,
    choices: &[Choice<'_>],
) -> Result<(), Refusal<'static>> {
    let times = times_of(task, &device);
    let Device {
        name,
        link,
        unit,
        limits,
        points,
        ..
    } = device;
    if let Some(points) = chosen_points(rt.alloc(), limits, points, place, choices)? {
        let address = address_of(rt, name.as_str(), &link)?;
        let unit = Slave(unit);
        targets.push(Target {
            name,
            address,
            unit,
            times,
            points,
        })?;
    }
    Ok(())
}

/// What the words name of a map.
fn choices_of<'a>(
    alloc: Global,
    map: &Map,
    words: &[&'a str],
) -> Result<Vec<Choice<'a>>, Refusal<'a>> {
    let mut choices = Vec::new(alloc);
    for word in words {
        choices.push(chosen(map, word)?)?;
    }
    Ok(choices)
}

/// The devices of a map that are chosen.
fn targets_of(
    rt: &HostRuntime,
    task: &Task<'_>,
    map: Map,
    choices: &[Choice<'_>],
) -> Result<Vec<Target>, Refusal<'static>> {
    let mut targets = Vec::new(rt.alloc());
    for (place, device) in map.devices.into_iter().enumerate() {
        add_chosen(rt, task, &mut targets, device, place, choices)?;
    }
    Ok(targets)
}

/// The devices of the map of a file that the words name, all where they name none.
///
/// # Errors
/// Why nothing can be polled: the file has no map, a word names nothing of it, a device is not reached over Modbus TCP, or nothing is left.
pub fn targets<'a>(
    rt: &HostRuntime,
    task: &Task<'a>,
    words: &[&'a str],
) -> Result<Vec<Target>, Refusal<'a>> {
    let map = read_plant(rt, task.file)?;
    let choices = choices_of(rt.alloc(), &map, words)?;
    let targets = targets_of(rt, task, map, choices.as_slice())?;
    if targets.is_empty() {
        return Err(Refusal::Word {
            word: task.file,
            why: "no device has a point",
        });
    }
    Ok(targets)
}
