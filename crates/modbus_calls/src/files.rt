//! The bytes of calls that read and write records of files (Modbus Application Protocol V1.1b3, sections 6.14 and 6.15).
ghost use Rattle.std.specs.Prelude.{◌≡◌, ◌+◌, ◌*◌, ◌≤◌, ◌++◌, length, IfOk};
ghost use Rattle.arrayvec.specs.ArrayVec.{array_vec_len};
ghost use Rattle.modbus_client.specs.Typed.{answer_map};
ghost use Rattle.modbus_pdu.specs.Fields.{words_of};
ghost use Rattle.modbus_pdu.specs.Word.{words as words_as_bytes};
ghost use Rattle.modbus_calls.specs.FileLimits.{most_written, most_data};
ghost use Rattle.modbus_calls.specs.Files.{group, read_data, write_data, has_registers, repeated, ReadsRegisters};

use crate::data::fitting;
use crate::place::{FilePlace, FileRange};
use arrayvec::ArrayVec;
use bytes::Bytes;
use modbus_frame::function_code::READ_FILE_RECORD;
use modbus_frame::{Error, Quantity, Result, Word};
use std::alloc::{AllocError, Global};

/// How many registers a call writes at most, so that the PDU of the request has no more than 253 bytes.
pub const MAX_RECORDS_WRITTEN: usize = 122;

/// The reference type of every group of records.
const REFERENCE_TYPE: u8 = 6;

/// The bytes of a group before its registers.
const GROUP_HEAD: u8 = 7;

/// The bytes before the registers of a response, behind the function code: the byte count, the length of the group, the reference type.
const READ_HEAD: usize = 3;

/// How many bytes a PDU has behind its function code at most.
pub(crate) const MAX_DATA: usize = 252;

/// The group that names so many records from this one on.
fn group(place: FilePlace, quantity: Quantity) -> [u8; 7]
    ensures { result ≡ group place quantity }
{
    let [file_high, file_low] = place.file.to_be_bytes();
    let [record_high, record_low] = place.record_number.to_be_bytes();
    let [high, low] = quantity.to_be_bytes();
    [
        REFERENCE_TYPE,
        file_high,
        file_low,
        record_high,
        record_low,
        high,
        low,
    ]
}

/// The data of a request that reads records.
pub(crate) fn read_data(range: FileRange) -> [u8; 8]
    ensures { result ≡ read_data range }
{
    let [
        reference,
        file_high,
        file_low,
        record_high,
        record_low,
        high,
        low,
    ] = group(range.place, range.len);
    [
        GROUP_HEAD,
        reference,
        file_high,
        file_low,
        record_high,
        record_low,
        high,
        low,
    ]
}

/// These bytes, with room for the registers of a request.
fn begin_data(bytes: &[u8]) -> ArrayVec<u8, MAX_DATA>
    requires { length bytes.now ≤ most_data }
    ensures { result.items ≡ bytes.now }
{
    match ArrayVec::try_from(bytes) {
        Ok(begun) => begun,
        Err(_) => unreachable!(),
    }
}

/// Appends registers, two bytes each.
#[tactic(auto, unfolding(modbus_pdu::specs::Word::words))]
fn put_words(bytes: &mut ArrayVec<u8, MAX_DATA>, words: &[Word])
    requires { array_vec_len bytes.old + 2 * length words.now ≤ most_data }
    ensures { bytes.new.items ≡ bytes.old.items ++ words_as_bytes words.now }
{
    for word in words {
        let [high, low] = word.to_be_bytes();
        bytes.push(high);
        bytes.push(low);
    }
}

/// The data of a request that writes records.
pub(crate) fn write_data(place: FilePlace, words: &[Word]) -> ArrayVec<u8, MAX_DATA>
    requires { length words.now ≤ most_written }
    ensures { result.items ≡ write_data place words.now }
{
    let count = GROUP_HEAD + 2 * words.len() as u8;
    let [
        reference,
        file_high,
        file_low,
        record_high,
        record_low,
        high,
        low,
    ] = group(place, words.len() as Quantity);
    let mut bytes = begin_data(&[
        count,
        reference,
        file_high,
        file_low,
        record_high,
        record_low,
        high,
        low,
    ]);
    put_words(&mut bytes, words);
    bytes
}

/// Whether the data of a response has a group of so many registers.
fn has_registers(quantity: Quantity, bytes: &[u8]) -> bool
    ensures { result ≡ has_registers quantity bytes.now }
{
    match bytes {
        [count, len, reference, registers @ ..] => {
            let size = 2 * usize::from(quantity);
            usize::from(*count) == 2 + size
                && usize::from(*len) == 1 + size
                && *reference == REFERENCE_TYPE
                && registers.len() == size
        }
        _ => false,
    }
}

/// Reads as many registers as there is room for, two bytes each.
fn read_words(words: &mut [Word], bytes: &[u8])
    requires { 2 * length words.old ≤ length bytes.now }
    ensures { words.new ≡ words_of bytes.now (length words.old) }
{
    for i in 0..words.len() {
        words[i] = u16::from_be_bytes([bytes[2 * i], bytes[2 * i + 1]]);
    }
}

/// The first registers of bytes.
fn words_of(alloc: Global, bytes: &[u8], count: usize) -> std::result::Result<Vec<Word>, AllocError>
    requires { 2 * count ≤ length bytes.now }
    ensures { IfOk result (λ words. words.items ≡ words_of bytes.now count) }
{
    let mut words = vec![in alloc; 0; count]?;
    read_words(words.as_mut_slice(), bytes);
    Ok(words)
}

/// The registers that the data of a response has.
///
/// # Errors
/// `PayloadMismatch` exactly where it has no group of so many registers. `NoMemory` where memory is refused for the registers.
pub(crate) fn registers_of(alloc: Global, quantity: Quantity, bytes: Bytes) -> Result<Vec<Word>>
    ensures { ReadsRegisters quantity bytes (answer_map (λ v. v.items) result) }
{
    if !has_registers(quantity, bytes.as_slice()) {
        return fitting(READ_FILE_RECORD, bytes, None);
    }
    match words_of(alloc, &bytes.as_slice()[READ_HEAD..], usize::from(quantity)) {
        Ok(words) => Ok(Ok(words)),
        Err(AllocError) => Err(Error::NoMemory),
    }
}

/// That a response repeats the data of its request.
pub(crate) fn repeated(request: &[u8], bytes: &[u8]) -> Option<()>
    ensures { result ≡ repeated request.now bytes.now }
{
    if bytes == request { Some(()) } else { None }
}
