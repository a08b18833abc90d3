//! Codes, slaves, checksums, packed coils and coil words.

use crate::text::Text;
use crate::word::Word;
use bytes::BytesMut;
use modbus_frame::{ConformityLevel, ExceptionCode, FunctionCode, ReadCode, Slave};
use modbus_pdu::{coil_to_bool, decode_packed_coils, encode_packed_coils, packed_coils_size};
use modbus_rtu::{calc_crc, check_crc};
use std::alloc::{AllocError, Global};

/// The function code of a byte, and how it is shown.
fn function(text: &mut Text, code: u8) {
    let function = FunctionCode::new(code);
    let value = function.value();
    write!(
        text,
        "{function:?} {value} {function}|{function:4}|{function:<4}|{function:03}"
    );
}

/// The exception code of a byte, and its text.
fn exception_code(text: &mut Text, code: u8) {
    let code = ExceptionCode::new(code);
    let number = u8::from(code);
    write!(text, "{code:?} {number} {code}");
}

/// The slave that a word names, and how it is shown.
fn slave(text: &mut Text, word: &str) {
    match word.parse::<Slave>() {
        Ok(slave) => write!(text, "{slave}"),
        Err(error) => text.push_shown(error),
    }
}

/// Whether a slave's number is that of all devices, of a single one, or reserved.
fn slave_kind(text: &mut Text, slave: Slave) {
    write!(
        text,
        "{} {}",
        slave.is_broadcast(),
        slave.is_single_device()
    );
    write!(text, " {}", slave.is_reserved());
}

/// The slaves that have names: that for all devices, the first and the last single one, and the one of TCP.
fn slave_names(text: &mut Text) {
    write!(text, "{} {}", Slave::broadcast(), Slave::min_device());
    write!(text, " {} {}", Slave::max_device(), Slave::tcp_device());
}

/// The read code of a byte, and its number.
fn read_code(text: &mut Text, byte: u8) {
    match ReadCode::try_from_value(byte) {
        Some(code) => write!(text, "{code:?} {}", code.value()),
        None => text.push_str("None"),
    }
}

/// The same of a conformity level.
fn conformity(text: &mut Text, byte: u8) {
    match ConformityLevel::try_from_value(byte) {
        Some(level) => write!(text, "{level:?} {}", level.value()),
        None => text.push_str("None"),
    }
}

fn check(text: &mut Text, data: &[u8], expected: u16) {
    match check_crc(data, expected) {
        Ok(()) => text.push_shown(()),
        Err(mismatch) => text.push_told(mismatch),
    }
}

/// Coils as digits 0 and 1, the first coil first; none where a byte is another digit.
fn coils(alloc: Global, digits: &[u8]) -> Result<Option<Vec<bool>>, AllocError> {
    let mut found = Vec::new(alloc);
    for digit in digits {
        match *digit {
            b'0' | b'1' => found.push(*digit == b'1')?,
            _ => return Ok(None),
        }
    }
    Ok(Some(found))
}

/// The bytes of coils, and how many they are.
fn packed(text: &mut Text, states: &[bool]) -> bool {
    let mut buf = BytesMut::new(text.alloc);
    let Ok(count) = encode_packed_coils(text.alloc, &mut buf, states) else {
        return false;
    };
    write!(text, "{} {count} ", packed_coils_size(states));
    text.push_hex(buf.as_slice());
    true
}

/// So many coils of bytes that hold as many.
fn unpacked(text: &mut Text, count: u16, data: &[u8]) -> bool {
    if usize::from(count) > data.len().saturating_mul(8) {
        return false;
    }
    match decode_packed_coils(text.alloc, data, count) {
        Ok(coils) => text.push_shown(coils),
        Err(AllocError) => return false,
    }
    true
}

fn of_bytes(text: &mut Text, call: &str, data: &[u8]) -> bool {
    match (call, data) {
        ("function", &[byte]) => function(text, byte),
        ("exception_code", &[byte]) => exception_code(text, byte),
        ("slave_kind", &[byte]) => slave_kind(text, Slave(byte)),
        ("read_code", &[byte]) => read_code(text, byte),
        ("conformity", &[byte]) => conformity(text, byte),
        ("crc", _) => write!(text, "{:04X}", calc_crc(data)),
        ("coil", &[high, low]) => text.push_shown(coil_to_bool(u16::from_be_bytes([high, low]))),
        _ => return false,
    }
    true
}

fn of_number(text: &mut Text, call: &str, count: u16, data: &[u8]) -> bool {
    match call {
        "check_crc" => check(text, data, count),
        "unpacked" => return unpacked(text, count, data),
        _ => return false,
    }
    true
}

fn of_coils(text: &mut Text, digits: &[u8]) -> bool {
    match coils(text.alloc, digits) {
        Ok(Some(states)) => packed(text, states.as_slice()),
        _ => false,
    }
}

fn of_word(text: &mut Text, call: &str, word: &Word) -> bool {
    match call {
        "slave" => {
            slave(text, word.text());
            true
        }
        "packed" if word.text() == "-" => packed(text, &[]),
        "packed" => of_coils(text, word.text().as_bytes()),
        _ => match word.bytes() {
            Some(data) => of_bytes(text, call, data),
            None => false,
        },
    }
}

pub fn answer(text: &mut Text, call: &str, words: &[Word]) -> bool {
    match words {
        [] if call == "slave" => {
            slave(text, "");
            true
        }
        [] if call == "slave_names" => {
            slave_names(text);
            true
        }
        [word] => of_word(text, call, word),
        [count, word] => match (count.number(), word.bytes()) {
            (Some(count), Some(data)) => of_number(text, call, count, data),
            _ => false,
        },
        _ => false,
    }
}
