//! The map of a plant: its file, and the devices and points of it that words name.

use crate::refusal::Refusal;
use modbus_map::{Device, Map, MapError, Point, line_of, read_map};
use std::fs;
use std::io::ErrorKind;

/// A device of a map by its place, and a point of it where one is named.
#[derive(Clone, Copy)]
pub struct Choice<'a> {
    pub device: usize,
    pub point: Option<&'a str>,
}

/// The text of a file.
///
/// # Errors
/// `File` where it cannot be read, `NoMemory` where memory was refused.
fn text_of<'a>(rt: &HostRuntime, path: &'a str) -> Result<String, Refusal<'a>> {
    match fs::read_to_string(rt, path) {
        Ok(text) => Ok(text),
        Err(error) if error.kind() == ErrorKind::OutOfMemory => Err(Refusal::NoMemory),
        Err(fault) => Err(Refusal::File { path, fault }),
    }
}

/// What a word names of a device: nothing where it is another's, the whole, or a point behind a dot.
fn part_of<'a>(device: &Device, word: &'a str) -> Option<Option<&'a str>> {
    let rest = word.strip_prefix(device.name.as_str())?;
    if rest.is_empty() {
        return Some(None);
    }
    Some(Some(rest.strip_prefix('.')?))
}

/// Whether a device has a point that another tells by the same name: `b.c` of `a` is told as `c` of `a.b`.
fn has_behind(device: &Device, front: &str, other: &Device) -> bool {
    for point in &device.points {
        if let Some(rest) = point.name.as_str().strip_prefix(front) {
            if let Some(name) = rest.strip_prefix('.') {
                if other.point(name).is_some() {
                    return true;
                }
            }
        }
    }
    false
}

/// Whether a point of one device is told by the same name as one of another, whose own name begins with the first one's and a dot.
fn share_a_name(device: &Device, other: &Device) -> bool {
    match part_of(device, other.name.as_str()) {
        Some(Some(front)) => has_behind(device, front, other),
        _ => false,
    }
}

/// Whether a device shares the name of a point with another device of a map.
fn shares_a_name(map: &Map, device: &Device) -> bool {
    for other in &map.devices {
        if share_a_name(device, other) {
            return true;
        }
    }
    false
}

/// Whether two points of a map are told by the same name.
fn has_one_name_twice(map: &Map) -> bool {
    for device in &map.devices {
        if shares_a_name(map, device) {
            return true;
        }
    }
    false
}

/// A map each point of which has a name of its own.
///
/// # Errors
/// `Word` where it has one twice.
fn with_names<'a>(path: &'a str, map: Map) -> Result<Map, Refusal<'a>> {
    if has_one_name_twice(&map) {
        return Err(Refusal::Word {
            word: path,
            why: "two points have one name, with that of their device before a dot",
        });
    }
    Ok(map)
}

/// Reads the map of a file.
///
/// # Errors
/// `File` where it cannot be read, `Map` where it is no map, `Word` where two of its points have one name, `NoMemory` where memory was refused.
pub fn read_plant<'a>(rt: &HostRuntime, path: &'a str) -> Result<Map, Refusal<'a>> {
    let text = text_of(rt, path)?;
    match read_map(rt.alloc(), text.as_str()) {
        Ok(map) => with_names(path, map),
        Err(MapError::NoMemory) => Err(Refusal::NoMemory),
        Err(fault) => Err(Refusal::Map {
            path,
            line: line_of(text.as_str(), &fault),
            fault,
        }),
    }
}

/// How long the name of a device is that was chosen.
fn length_of(map: &Map, choice: &Option<Choice<'_>>) -> usize {
    match choice {
        Some(choice) => match map.devices.get(choice.device) {
            Some(device) => device.name.as_str().len(),
            None => 0,
        },
        None => 0,
    }
}

/// Whether the name of a device is longer than that of the one that was chosen, if any.
fn is_longer(map: &Map, device: &Device, found: &Option<Choice<'_>>) -> bool {
    found.is_none() || device.name.as_str().len() > length_of(map, found)
}

/// The device of the longest name that fits a word, which may hold dots, and what the word tells behind it.
fn choice_of<'a>(map: &Map, word: &'a str) -> Option<Choice<'a>> {
    let mut found = None;
    for (device, one) in map.devices.iter().enumerate() {
        if let Some(point) = part_of(one, word) {
            if is_longer(map, one, &found) {
                found = Some(Choice { device, point });
            }
        }
    }
    found
}

/// Whether a device has what was chosen of it.
fn has(device: &Device, point: Option<&str>) -> bool {
    match point {
        Some(name) => device.point(name).is_some(),
        None => true,
    }
}

/// What a word chooses.
///
/// # Errors
/// `Word` where the map has no such device, or the device no such point.
pub fn chosen<'a>(map: &Map, word: &'a str) -> Result<Choice<'a>, Refusal<'a>> {
    let Some(choice) = choice_of(map, word) else {
        return Err(Refusal::Word {
            word,
            why: "no device of the map",
        });
    };
    match map.devices.get(choice.device) {
        Some(device) if has(device, choice.point) => Ok(choice),
        _ => Err(Refusal::Word {
            word,
            why: "the device has no point of this name",
        }),
    }
}

/// Whether a choice has a point of the device at this place.
fn chooses(choice: &Choice<'_>, device: usize, point: &Point) -> bool {
    if choice.device != device {
        return false;
    }
    match choice.point {
        Some(name) => name == point.name.as_str(),
        None => true,
    }
}

/// Whether a point of the device at this place is chosen: each of them where nothing is.
pub fn is_chosen(choices: &[Choice<'_>], device: usize, point: &Point) -> bool {
    choices.is_empty() || choices.iter().any(|choice| chooses(choice, device, point))
}
