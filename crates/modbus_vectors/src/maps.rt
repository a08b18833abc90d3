//! Maps of plants in TOML.

use crate::text::Text;
use crate::typed::Prompted;
use crate::word::Word;
use bytes::Bytes;
use modbus_client::{Client, Context, Reader};
use modbus_frame::Words;
use modbus_map::{
    Device, Encoding, Found, Map, Place, Point, PointValue, Scale, TableError, Tables, gather,
    json_of, parse_place, plan_device, read_map, shown, value_among, value_of,
};
use modbus_poll::{Limits, Plan};
use std::alloc::{AllocError, Global};

/// Words with a blank between them.
fn joined(alloc: Global, words: &[Word]) -> Result<String, AllocError> {
    let mut text = String::new(alloc);
    for word in words {
        if !text.as_str().is_empty() {
            text.push_str(" ")?;
        }
        text.push_str(word.text())?;
    }
    Ok(text)
}

fn push_point(text: &mut Text, point: &Point) {
    let name = point.name.as_str();
    let unit = point.unit.as_str();
    let (table, address, encoding) = (point.table, point.address, point.encoding);
    let (kind, order, scale) = (encoding.kind, encoding.order, encoding.scale);
    let (factor, offset, places) = (scale.factor, scale.offset, scale.places);
    let is_writable = point.is_writable;
    write!(
        text,
        "; {name} {table:?} {address} {kind:?} {order:?} {factor} {offset} {places} "
    );
    write!(text, "{unit:?} {is_writable}");
}

fn push_device(text: &mut Text, device: &Device) {
    let name = device.name.as_str();
    let (link, unit, limits) = (&device.link, device.unit, device.limits);
    let (every, timeout, retries) = (device.every, device.timeout, device.retries);
    let (most, gap) = (limits.most, limits.gap);
    write!(
        text,
        "{name} {link:?} {unit} {every:?} {timeout:?} {retries} {most} {gap}"
    );
    for point in &device.points {
        push_point(text, point);
    }
}

fn push_map(text: &mut Text, map: &Map) {
    for (place, device) in map.devices.iter().enumerate() {
        if place > 0 {
            text.push_str(" | ");
        }
        push_device(text, device);
    }
}

/// What a text in TOML tells: its devices and their points, or why it is no map.
fn push_read(text: &mut Text, map: &str) {
    match read_map(text.alloc, map) {
        Ok(map) => push_map(text, &map),
        Err(error) => write!(text, "{error}"),
    }
}

/// The address of the point of a name, of the device of a name.
fn push_found(text: &mut Text, map: &str, device: &str, point: &str) -> bool {
    let Ok(map) = read_map(text.alloc, map) else {
        return false;
    };
    let address = map.find(device, point).map(|found| found.address);
    text.push_shown(address);
    true
}

/// The text of a value, and its text as JSON.
fn push_value(text: &mut Text, value: &PointValue) -> bool {
    match (shown(text.alloc, value), json_of(text.alloc, value)) {
        (Ok(plain), Ok(json)) => write!(text, "{plain} {json}"),
        _ => return false,
    }
    true
}

/// The value of a point whose words are these, and its words again for the text of that value.
fn push_read_back(text: &mut Text, point: &Point, words: &[u16]) -> bool {
    if words.len() != usize::from(point.encoding.kind.width()) {
        return false;
    }
    let Ok(value) = value_of(text.alloc, &point.encoding, words) else {
        return false;
    };
    let is_done = push_value(text, &value);
    text.push_str("; ");
    is_done && push_words(text, point, &value)
}

/// The words of a point for the text of a value.
fn push_words(text: &mut Text, point: &Point, value: &PointValue) -> bool {
    match shown(text.alloc, value) {
        Ok(plain) => push_written(text, point, plain.as_str()),
        Err(_) => return false,
    }
    true
}

/// What is written at a point for a text, or why nothing is.
fn push_written(text: &mut Text, point: &Point, value: &str) {
    match point.words_of_text(text.alloc, value) {
        Ok(words) => push_numbers(text, &words),
        Err(error) => text.push_told(error),
    }
}

fn push_numbers(text: &mut Text, words: &Words) {
    for word in words.as_slice() {
        write!(text, "{word:04X} ");
    }
}

/// Words of four hexadecimal digits each.
fn numbers_of(alloc: Global, bytes: &[u8]) -> Option<Vec<u16>> {
    let mut numbers = Vec::new(alloc);
    for pair in bytes.chunks(2) {
        match pair {
            [high, low] => numbers.push(u16::from_be_bytes([*high, *low])).ok()?,
            _ => return None,
        }
    }
    Some(numbers)
}

/// What a point of a map is by its words.
fn got(text: &mut Text, map: &str, device: &str, point: &str, word: &Word) -> bool {
    let Ok(map) = read_map(text.alloc, map) else {
        return false;
    };
    let words = word.bytes().and_then(|bytes| numbers_of(text.alloc, bytes));
    match (map.find(device, point), words) {
        (Some(point), Some(words)) => push_read_back(text, point, words.as_slice()),
        _ => false,
    }
}

/// What is written at a point of a map for a text.
fn set(text: &mut Text, map: &str, device: &str, point: &str, value: &str) -> bool {
    let Ok(map) = read_map(text.alloc, map) else {
        return false;
    };
    match map.find(device, point) {
        Some(point) => push_written(text, point, value),
        None => return false,
    }
    true
}

/// The point at a place, which may be written.
fn point_at(alloc: Global, place: Place) -> Option<Point> {
    Some(Point {
        name: String::new(alloc),
        table: place.table,
        address: place.address,
        encoding: Encoding {
            kind: place.kind,
            order: place.order,
            scale: Scale::ONE,
        },
        unit: String::new(alloc),
        is_writable: true,
    })
}

/// The points at the places that words name.
fn points_at(alloc: Global, words: &[Word]) -> Option<Vec<Point>> {
    let mut points = Vec::new(alloc);
    for word in words {
        let point = point_at(alloc, parse_place(word.text()).ok()?)?;
        points.push(point).ok()?;
    }
    Some(points)
}

fn push_found_value(text: &mut Text, found: &Found) -> bool {
    match found {
        Some(Ok(value)) => push_value(text, value),
        Some(Err(code)) => {
            text.push_shown(*code);
            true
        }
        None => {
            text.push_str("none");
            true
        }
    }
}

/// How a poll was ended.
fn push_ended(text: &mut Text, ended: TableError) {
    let TableError { table, error } = ended;
    write!(text, "{table:?} ");
    text.push_told(error);
}

/// What a poll by these plans gives of points.
fn push_gathered<C: Reader>(
    text: &mut Text,
    client: &mut C,
    plans: &Tables<Plan>,
    points: &[Point],
) -> bool {
    let found = match gather(text.alloc, client, plans) {
        Ok(found) => found,
        Err(ended) => {
            push_ended(text, ended);
            return true;
        }
    };
    for point in points {
        let given = found.of(point.table).as_slice();
        let Ok(value) = value_among(text.alloc, given, point) else {
            return false;
        };
        if !push_found_value(text, &value) {
            return false;
        }
        text.push_str("; ");
    }
    true
}

/// What the points at these places are, by a client that gives the answer of this PDU to each read.
fn gathered(text: &mut Text, pdu: &Word, words: &[Word]) -> bool {
    let bytes = pdu.bytes().unwrap_or(&[]);
    let Ok(bytes) = Bytes::copy_from_slice(text.alloc, bytes) else {
        return false;
    };
    let (Some(prompted), Some(points)) = (
        Prompted::boxed(text.alloc, bytes),
        points_at(text.alloc, words),
    ) else {
        return false;
    };
    let Ok(plans) = plan_device(text.alloc, Limits::REGISTERS, points.as_slice()) else {
        return false;
    };
    let client: Box<dyn Client> = prompted;
    push_gathered(text, &mut Context::from(client), &plans, points.as_slice())
}

/// What is written at a place for a text.
fn written(text: &mut Text, place: &str, value: &str) -> bool {
    match parse_place(place) {
        Ok(place) => match point_at(text.alloc, place) {
            Some(point) => push_written(text, &point, value),
            None => return false,
        },
        Err(error) => text.push_told(error),
    }
    true
}

/// The calls that name a map: `map_get DEVICE POINT WORDS TOML`, `map_set DEVICE POINT VALUE TOML`.
fn answer_named(text: &mut Text, call: &str, words: &[Word]) -> bool {
    let [device, point, value, words @ ..] = words else {
        return false;
    };
    let Ok(map) = joined(text.alloc, words) else {
        return false;
    };
    let (map, device, point) = (map.as_str(), device.text(), point.text());
    match call {
        "map_get" => got(text, map, device, point, value),
        _ => set(text, map, device, point, value.text()),
    }
}

/// `place_poll PDU PLACE..`: what a poll gives of the points at these places, by a client that gives this answer to each read;
/// `place_write PLACE VALUE`: what is written there.
pub fn answer_place(text: &mut Text, call: &str, words: &[Word]) -> bool {
    match (call, words) {
        ("place_poll", [pdu, words @ ..]) => gathered(text, pdu, words),
        ("place_write", [place, value]) => written(text, place.text(), value.text()),
        _ => false,
    }
}

/// `map TOML`: what a text in TOML tells, `map_hex BYTES`: the same of bytes; `map_find DEVICE POINT TOML`: the address of a point; and those
/// that name a map.
pub fn answer(text: &mut Text, call: &str, words: &[Word]) -> bool {
    match (call, words) {
        ("map", words) => match joined(text.alloc, words) {
            Ok(map) => push_read(text, map.as_str()),
            Err(_) => return false,
        },
        ("map_hex", [word]) => match word.bytes() {
            Some(bytes) => match std::str::from_utf8(bytes) {
                Ok(map) => push_read(text, map),
                Err(_) => return false,
            },
            None => return false,
        },
        ("map_get" | "map_set", words) => return answer_named(text, call, words),
        ("map_find", [device, point, words @ ..]) => match joined(text.alloc, words) {
            Ok(map) => return push_found(text, map.as_str(), device.text(), point.text()),
            Err(_) => return false,
        },
        _ => return false,
    }
    true
}
