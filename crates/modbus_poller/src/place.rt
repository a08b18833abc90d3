//! Words of the command line that name a device, an item or a number.

use crate::refusal::Refusal;
use modbus_frame::{Address, Word};
use modbus_map::{Encoding, LinkKind, Point, Scale, parse_place};
use modbus_plant::host_and_port;
use std::alloc::Global;

/// What a word that names no device is told.
const NO_DEVICE: &str =
    "no host and port, as 192.0.2.1:502, meter.example or [2001:db8::1]:502, nor the file of a serial port with a slash in it";

/// What a word that is no content of a register is told.
const NO_REGISTER: &str = "no number from -32768 to 65535, nor from 0x0 to 0xFFFF";

/// The way to the device of a word: the file of a serial port where it has a slash, else a host and a port.
pub fn link_of<'a>(alloc: Global, word: &'a str, is_rtu: bool) -> Result<LinkKind, Refusal<'a>> {
    if word.contains('/') {
        return Ok(LinkKind::Serial(String::from_str(alloc, word)?));
    }
    if host_and_port(word).is_none() {
        return Err(Refusal::Word {
            word,
            why: NO_DEVICE,
        });
    }
    let host = String::from_str(alloc, word)?;
    if is_rtu {
        return Ok(LinkKind::RtuOverTcp(host));
    }
    Ok(LinkKind::Tcp(host))
}

/// The point of an item, under the word itself.
pub fn point<'a>(alloc: Global, word: &'a str) -> Result<Point, Refusal<'a>> {
    let place = match parse_place(word) {
        Ok(place) => place,
        Err(fault) => return Err(Refusal::Item { word, fault }),
    };
    Ok(Point {
        name: String::from_str(alloc, word)?,
        table: place.table,
        address: place.address,
        encoding: Encoding {
            kind: place.kind,
            order: place.order,
            scale: Scale::ONE,
        },
        unit: String::new(alloc),
        is_writable: true,
    })
}

/// The points of items, none of which stands twice.
pub fn points<'a>(alloc: Global, words: &[&'a str]) -> Result<Vec<Point>, Refusal<'a>> {
    let mut points = Vec::new(alloc);
    for (place, word) in words.iter().enumerate() {
        if words[..place].contains(word) {
            return Err(Refusal::Word {
                word,
                why: "stands twice",
            });
        }
        points.push(point(alloc, word)?)?;
    }
    Ok(points)
}

/// The address that a word shows.
pub fn address(word: &str) -> Result<Address, Refusal<'_>> {
    match word.parse() {
        Ok(address) => Ok(address),
        Err(_) => Err(Refusal::Word {
            word,
            why: "no address from 0 to 65535, nor an item, as 100:u16",
        }),
    }
}

/// The number of one to four hexadecimal digits.
fn hexadecimal(digits: &str) -> Option<Word> {
    if digits.len() > 4 || digits.starts_with('+') {
        return None;
    }
    Word::from_str_radix(digits, 16).ok()
}

/// The number of a word, in decimal or behind `0x` in hexadecimal, a negative one in two's complement.
fn number(word: &str) -> Option<Word> {
    if let Some(digits) = word.strip_prefix("0x") {
        return hexadecimal(digits);
    }
    if word.starts_with('-') {
        return Some(word.parse::<i16>().ok()?.cast_unsigned());
    }
    word.parse().ok()
}

/// What a register is to hold.
pub fn register(word: &str) -> Result<Word, Refusal<'_>> {
    match number(word) {
        Some(number) => Ok(number),
        None => Err(Refusal::Word {
            word,
            why: NO_REGISTER,
        }),
    }
}
