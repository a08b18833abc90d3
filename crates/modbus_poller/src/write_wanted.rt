//! What the words of a write ask for.

use crate::command::is_map;
use crate::options::{settings, settings_for};
use crate::place::{address, link_of, point, register};
use crate::plant::{Choice, chosen, read_plant};
use crate::refusal::Refusal;
use clap::ArgMatches;
use modbus_frame::{Address, Coil, Word};
use modbus_map::{Device, LinkKind, Map, Point};
use modbus_pdu::{MAX_WRITE_COILS, MAX_WRITE_REGISTERS};
use modbus_plant::{Settings, words_at};
use std::alloc::Global;

/// How many addresses there are.
const ADDRESSES: usize = 0x1_0000;

/// The device of a write: the word that names it, how it is reached and how it is asked.
#[derive(Drop)]
pub struct Reached<'a> {
    pub name: &'a str,
    pub link: LinkKind,
    pub settings: Settings,
}

/// A write of registers or coils, from this address on.
#[derive(Drop)]
pub struct WriteTask<'a, T> {
    pub device: Reached<'a>,
    pub first: Address,
    pub values: Vec<T>,
}

/// A write of the value of a text at a point, which is read back where that is wanted.
#[derive(Drop)]
pub struct PointTask<'a> {
    pub device: Reached<'a>,
    pub point: Point,
    pub value: &'a str,
    pub is_verified: bool,
}

/// What a write asks for.
#[derive(Drop)]
pub enum WriteWanted<'a> {
    /// Registers one after another.
    Registers(WriteTask<'a, Word>),
    /// One item, or one point of a map.
    Point(PointTask<'a>),
}

/// The device that the words name.
fn device_named<'a>(alloc: Global, matches: &ArgMatches<'a>) -> Result<Reached<'a>, Refusal<'a>> {
    let name = matches.get_str("device").unwrap_or("");
    Ok(Reached {
        name,
        link: link_of(alloc, name, matches.get_flag("rtu"))?,
        settings: settings(matches),
    })
}

/// Refuses values of which the last has no address.
fn check_end(word: &str, first: Address, count: usize) -> Result<(), Refusal<'_>> {
    if count > ADDRESSES - usize::from(first) {
        return Err(Refusal::Word {
            word,
            why: "the last value passes the last address, 65535",
        });
    }
    Ok(())
}

/// What registers are to hold by these words.
fn registers_of<'a>(alloc: Global, words: &[&'a str]) -> Result<Vec<Word>, Refusal<'a>> {
    if let Some(word) = words.get(MAX_WRITE_REGISTERS) {
        return Err(Refusal::Word {
            word,
            why: "one write has at most 123 registers",
        });
    }
    let mut values = Vec::new(alloc);
    for word in words {
        values.push(register(word)?)?;
    }
    Ok(values)
}

/// The write of registers from this address on.
fn registers<'a>(
    alloc: Global,
    matches: &ArgMatches<'a>,
    word: &'a str,
) -> Result<WriteTask<'a, Word>, Refusal<'a>> {
    if matches.get_flag("verify") {
        return Err(Refusal::Word {
            word: "--verify",
            why: "only an item or a point is read back",
        });
    }
    let first = address(word)?;
    let values = registers_of(alloc, matches.get_strs("values").unwrap_or(&[]))?;
    check_end(word, first, values.len())?;
    Ok(WriteTask {
        device: device_named(alloc, matches)?,
        first,
        values,
    })
}

/// What coils are to be by these words.
fn states_of<'a>(alloc: Global, words: &[&'a str]) -> Result<Vec<Coil>, Refusal<'a>> {
    if let Some(word) = words.get(MAX_WRITE_COILS) {
        return Err(Refusal::Word {
            word,
            why: "one write has at most 1968 coils",
        });
    }
    let mut states = Vec::new(alloc);
    for word in words {
        states.push(*word == "1")?;
    }
    Ok(states)
}

/// The write of coils that the words ask for.
pub fn coils<'a>(
    alloc: Global,
    matches: &ArgMatches<'a>,
) -> Result<WriteTask<'a, Coil>, Refusal<'a>> {
    let first = matches.get_one("first").unwrap_or(0);
    let values = states_of(alloc, matches.get_strs("states").unwrap_or(&[]))?;
    check_end(matches.get_str("first").unwrap_or(""), first, values.len())?;
    Ok(WriteTask {
        device: device_named(alloc, matches)?,
        first,
        values,
    })
}

/// Refuses a value that is not to be written at a point.
fn check_value<'a>(
    alloc: Global,
    point: &Point,
    name: &'a str,
    value: &'a str,
) -> Result<(), Refusal<'a>> {
    match words_at(alloc, point, value) {
        Ok(_words) => Ok(()),
        Err(fault) => Err(Refusal::Value {
            point: name,
            value,
            fault,
        }),
    }
}

/// The one value of an item or a point.
fn one_value<'a>(name: &'a str, values: &[&'a str]) -> Result<&'a str, Refusal<'a>> {
    match values {
        [value] => Ok(*value),
        _ => Err(Refusal::Word {
            word: name,
            why: "one value is wanted for an item or a point",
        }),
    }
}

/// The write of one item.
fn item<'a>(
    alloc: Global,
    matches: &ArgMatches<'a>,
    word: &'a str,
) -> Result<PointTask<'a>, Refusal<'a>> {
    let value = one_value(word, matches.get_strs("values").unwrap_or(&[]))?;
    let point = point(alloc, word)?;
    check_value(alloc, &point, word, value)?;
    Ok(PointTask {
        device: device_named(alloc, matches)?,
        point,
        value,
        is_verified: matches.get_flag("verify"),
    })
}

/// The point of this name.
fn named(points: Vec<Point>, name: &str) -> Option<Point> {
    points.into_iter().find(|point| point.name.as_str() == name)
}

/// The point of a device that was chosen, with the way to it.
fn point_of_device<'a>(
    matches: &ArgMatches<'a>,
    device: Device,
    word: &'a str,
    name: &str,
    value: &'a str,
) -> Result<PointTask<'a>, Refusal<'a>> {
    let settings = settings_for(matches, &device);
    let Device { link, points, .. } = device;
    let Some(point) = named(points, name) else {
        return Err(Refusal::Word {
            word,
            why: "the device has no point of this name",
        });
    };
    let device = Reached {
        name: word,
        link,
        settings,
    };
    Ok(PointTask {
        device,
        point,
        value,
        is_verified: matches.get_flag("verify"),
    })
}

/// Refuses a word that names no point of a map.
fn no_point(word: &str) -> Refusal<'_> {
    Refusal::Word {
        word,
        why: "a point is wanted, as DEVICE.POINT",
    }
}

/// The write of a point of a map.
fn point_of_map<'a>(
    matches: &ArgMatches<'a>,
    map: Map,
    word: &'a str,
    value: &'a str,
) -> Result<PointTask<'a>, Refusal<'a>> {
    let Choice { device, point } = chosen(&map, word)?;
    let Some(point) = point else {
        return Err(no_point(word));
    };
    match map.devices.into_iter().nth(device) {
        Some(device) => point_of_device(matches, device, word, point, value),
        None => Err(no_point(word)),
    }
}

/// The write of a point of the map of a file.
fn point_of_file<'a>(
    rt: &HostRuntime,
    matches: &ArgMatches<'a>,
    path: &'a str,
) -> Result<PointTask<'a>, Refusal<'a>> {
    let words = matches.get_strs("words").unwrap_or(&[]);
    let Some((word, values)) = words.split_first() else {
        return Err(Refusal::Word {
            word: path,
            why: "a point is wanted, as DEVICE.POINT, and its value",
        });
    };
    let value = one_value(word, values)?;
    let map = read_plant(rt, path)?;
    let task = point_of_map(matches, map, word, value)?;
    check_value(rt.alloc(), &task.point, word, value)?;
    Ok(task)
}

/// The write to a device alone: of an item, or of registers.
fn to_device<'a>(alloc: Global, matches: &ArgMatches<'a>) -> Result<WriteWanted<'a>, Refusal<'a>> {
    let first = matches.get_str("first").unwrap_or("");
    if first.contains(':') {
        return Ok(WriteWanted::Point(item(alloc, matches, first)?));
    }
    Ok(WriteWanted::Registers(registers(alloc, matches, first)?))
}

/// The write that the words ask for.
pub fn write<'a>(
    rt: &HostRuntime,
    matches: &ArgMatches<'a>,
) -> Result<WriteWanted<'a>, Refusal<'a>> {
    let path = matches.get_str("device").unwrap_or("");
    if is_map(path) {
        return Ok(WriteWanted::Point(point_of_file(rt, matches, path)?));
    }
    to_device(rt.alloc(), matches)
}
