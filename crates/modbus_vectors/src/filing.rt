//! Typed calls that read and write records of files.

use crate::text::Text;
use crate::typed::push_answer;
use modbus_calls::{FilePlace, FileRange, RecordKeeper};
use modbus_client::Client;
use modbus_frame::Request;
use std::alloc::Global;

/// The words of bytes, of which the last one is left out where their number is odd. None where memory was refused.
fn words_of(alloc: Global, bytes: &[u8]) -> Option<Vec<u16>> {
    let mut words = Vec::new(alloc);
    for pair in bytes.chunks_exact(2) {
        if let [high, low] = pair {
            words.push(u16::from_be_bytes([*high, *low])).ok()?;
        }
    }
    Some(words)
}

/// The place, the number of registers and the registers of the one group that the data of a request has.
fn group_of(alloc: Global, data: &[u8]) -> Option<(Option<FilePlace>, u16, Vec<u16>)> {
    let [_count, _reference, group @ ..] = data else {
        return None;
    };
    let words = words_of(alloc, group)?;
    match words.as_slice() {
        [file, record, len, registers @ ..] => Some((
            FilePlace::new(*file, *record),
            *len,
            Vec::from_slice(alloc, registers).ok()?,
        )),
        _ => None,
    }
}

/// Reads so many registers from a place on.
fn read<C: Client>(text: &mut Text, client: &mut C, place: FilePlace, len: u16) {
    match FileRange::new(place, len) {
        Some(range) => push_answer(text, client.read_file_record(text.alloc, range)),
        None => text.push_str("no range"),
    }
}

/// Makes the typed call of a request that reads or writes records of a file.
pub fn ask<C: Client>(text: &mut Text, client: &mut C, request: &Request<'_>) -> bool {
    let Request::Custom(function, data) = request else {
        return false;
    };
    let Some((place, len, registers)) = group_of(text.alloc, data.as_slice()) else {
        return false;
    };
    match place {
        None => text.push_str("no place"),
        Some(place) => {
            if *function == 0x14 {
                read(text, client, place, len);
            } else {
                push_answer(text, client.write_file_record(place, registers.as_slice()));
            }
        }
    }
    true
}
