//! The words that stand for a value.
ghost use Rattle.std.specs.Prelude.{◌≡◌, ◌+◌, ◌*◌, ◌^◌, ◌<◌, ◌≤◌, true, length, slice_index_or, IfOk, IfErr};
ghost use Rattle.modbus_map.specs.Orders.{number_in};
ghost use Rattle.modbus_map.specs.Values.{bytes_of};
ghost use Rattle.modbus_map.specs.Writing.{filled, AreWordsFor, IsWhy};

use crate::decimal::Decimal;
use crate::grid::{bits_of, integer_worth};
use crate::kind::{ByteOrder, Kind};
use crate::order::words_of;
use crate::point::Encoding;
use crate::value::PointValue;
use crate::write_error::WriteError;
use modbus_frame::{Data, Word, Words};
use std::alloc::{AllocError, Global};

/// The byte of a text at this place, and 0 behind its end.
fn byte_at(bytes: &[u8], place: usize) -> u8
    ensures { result ≡ slice_index_or bytes.now place 0 }
{
    match bytes.get(place) {
        Some(byte) => *byte,
        None => 0,
    }
}

/// The words of a text in so many registers, with zeros behind it.
fn text_words(
    alloc: Global,
    order: ByteOrder,
    count: u8,
    bytes: &[u8],
) -> Result<Vec<Word>, AllocError>
    requires { length bytes.now ≤ 2 * count }
    ensures bytes { IfOk result (λ words. bytes_of order words.items ≡ filled count bytes.now) }
    ensures count { IfOk result (λ words. length words.items ≡ count) }
{
    let mut words = Vec::new(alloc);
    for place in 0..count {
        let start = 2 * usize::from(place);
        let word = u16::from(byte_at(bytes, start)) * 256 + u16::from(byte_at(bytes, start + 1));
        words.push(order.word(word))?;
    }
    Ok(words)
}

/// The words of a number in this encoding's order.
fn number_words(alloc: Global, order: ByteOrder, count: u16, bits: u64) -> Result<Words, WriteError>
    requires { bits < 2 ^ (16 * count) }
    ensures ok { IfOk result (λ words. number_in order words ≡ bits) }
    ensures count { IfOk result (λ words. length words ≡ count) }
    ensures refused { IfErr result (λ error. error ≡ WriteError.NoMemory) }
{
    match words_of(alloc, order, count, bits) {
        Ok(words) => Ok(Words::new(words)),
        Err(_) => Err(WriteError::NoMemory),
    }
}

/// The word of a state.
fn state_words(alloc: Global, encoding: Encoding, state: bool) -> Result<Words, WriteError>
    ensures ok { IfOk result (AreWordsFor encoding (PointValue.State state)) }
    ensures refused { IfErr result (IsWhy encoding (PointValue.State state)) }
{
    match encoding.kind {
        Kind::Bool => number_words(alloc, encoding.order, 1, if state { 1 } else { 0 }),
        Kind::Bit(_) => Err(WriteError::BitOfRegister),
        _ => Err(WriteError::NotOfKind),
    }
}

/// The words of the integer that is worth a number.
fn integer_words(alloc: Global, encoding: Encoding, number: Decimal) -> Result<Words, WriteError>
    ensures ok { IfOk result (AreWordsFor encoding (PointValue.Number number)) }
    ensures refused { IfErr result (IsWhy encoding (PointValue.Number number)) }
{
    if !encoding.kind.is_integer() {
        return Err(WriteError::NotOfKind);
    }
    let n = match integer_worth(encoding.scale, number) {
        Ok(n) => n,
        Err(error) => return Err(error),
    };
    match bits_of(encoding.kind, n) {
        Some(bits) => number_words(alloc, encoding.order, encoding.kind.width(), bits),
        None => Err(WriteError::OutOfRange),
    }
}

/// The words of a float of 32 bits.
fn single_words(alloc: Global, encoding: Encoding, bits: u32) -> Result<Words, WriteError>
    ensures ok { IfOk result (AreWordsFor encoding (PointValue.Single bits)) }
    ensures refused { IfErr result (IsWhy encoding (PointValue.Single bits)) }
{
    match encoding.kind {
        Kind::F32 => number_words(alloc, encoding.order, 2, u64::from(bits)),
        _ => Err(WriteError::NotOfKind),
    }
}

/// The words of a float of 64 bits.
fn double_words(alloc: Global, encoding: Encoding, bits: u64) -> Result<Words, WriteError>
    ensures ok { IfOk result (AreWordsFor encoding (PointValue.Double bits)) }
    ensures refused { IfErr result (IsWhy encoding (PointValue.Double bits)) }
{
    match encoding.kind {
        Kind::F64 => number_words(alloc, encoding.order, 4, bits),
        _ => Err(WriteError::NotOfKind),
    }
}

/// The words of the bytes of a text.
fn words_of_text(alloc: Global, encoding: Encoding, text: &Data) -> Result<Words, WriteError>
    ensures ok { IfOk result (AreWordsFor encoding (PointValue.Text text.now)) }
    ensures refused { IfErr result (IsWhy encoding (PointValue.Text text.now)) }
{
    let Kind::Text(count) = encoding.kind else {
        return Err(WriteError::NotOfKind);
    };
    let bytes = text.as_slice();
    if bytes.len() > 2 * usize::from(count) {
        return Err(WriteError::TooLong);
    }
    match text_words(alloc, encoding.order, count, bytes) {
        Ok(words) => Ok(Words::new(words)),
        Err(_) => Err(WriteError::NoMemory),
    }
}

/// The words of the registers of a point, which are read back as this value; of a text with zeros behind it. For a coil one word, 1 where
/// it is ON and 0 where it is off.
///
/// # Errors
/// `BitOfRegister` for a bit of a register, `NotOfKind` where the value is none of the kind, `OffGrid` where it lies between two steps of
/// the factor, `OutOfRange` where no integer of the kind is worth it, `TooLong` for a text of more bytes than the registers have,
/// `NoMemory` where memory is refused.
pub fn words_for(
    alloc: Global,
    encoding: &Encoding,
    value: &PointValue,
) -> Result<Words, WriteError>
    ensures ok { IfOk result (AreWordsFor encoding.now value.now) }
    ensures refused { IfErr result (IsWhy encoding.now value.now) }
{
    match value {
        PointValue::State(state) => state_words(alloc, *encoding, *state),
        PointValue::Number(number) => integer_words(alloc, *encoding, *number),
        PointValue::Single(bits) => single_words(alloc, *encoding, *bits),
        PointValue::Double(bits) => double_words(alloc, *encoding, *bits),
        PointValue::Text(text) => words_of_text(alloc, *encoding, text),
    }
}
