//! The texts of values.
ghost use Rattle.std.specs.Prelude.{◌≡◌, ◌<◌, ◌++◌, ◌∷◌, [], string_bytes, IfOk, OnOk};
ghost use Rattle.std.specs.Float.{binary32, binary64};
ghost use Rattle.modbus_map.specs.Text.{hex_digit, is_plain, shown_byte, trimmed, shown_bytes};
ghost use Rattle.modbus_map.specs.Text.{is_nan_32, is_nan_64, IsFloatText, IsTextOf};

use crate::value::PointValue;
use ryu::Buffer;
use std::alloc::{AllocError, Global};

/// The bits of the greatest size of a float of 32 bits that is a number: infinity, without its sign.
pub(crate) const INFINITY_32: u32 = 0x7F80_0000;

/// The same of 64 bits.
pub(crate) const INFINITY_64: u64 = 0x7FF0_0000_0000_0000;

/// A digit in base 16, in lower case.
pub(crate) fn hex_digit(digit: u8) -> u8
    requires { digit < 16 }
    ensures value { result ≡ hex_digit digit }
    ensures ascii { result < 128 }
{
    if digit < 10 {
        b'0' + digit
    } else {
        b'a' + (digit - 10)
    }
}

/// Whether a byte stands for itself: printable ASCII but the backslash.
pub(crate) fn is_plain(byte: u8) -> bool
    ensures { result ≡ is_plain byte }
{
    32 <= byte && byte <= 126 && byte != b'\\'
}

/// Appends an ASCII character.
pub(crate) fn push_ascii(text: &mut String, byte: u8) -> Result<(), AllocError>
    requires { byte < 128 }
    ensures { OnOk result (string_bytes text.new ≡ string_bytes text.old ++ byte ∷ []) }
{
    text.push(char::from(byte))
}

/// Appends what is shown for a byte of a text.
fn push_byte(text: &mut String, byte: u8) -> Result<(), AllocError>
    ensures { OnOk result (string_bytes text.new ≡ string_bytes text.old ++ shown_byte byte) }
{
    if is_plain(byte) {
        return push_ascii(text, byte);
    }
    text.push_str("\\x")?;
    push_ascii(text, hex_digit(byte / 16))?;
    push_ascii(text, hex_digit(byte % 16))
}

/// The bytes without the zeros at their end.
pub(crate) fn trimmed(bytes: &[u8]) -> &[u8]
    ensures { result.now ≡ trimmed bytes.now }
{
    let mut end = 0;
    for (place, byte) in bytes.iter().enumerate() {
        if *byte != 0 {
            end = place + 1;
        }
    }
    &bytes[..end]
}

/// What is shown for the bytes of a text.
fn shown_bytes(alloc: Global, bytes: &[u8]) -> Result<String, AllocError>
    ensures { IfOk result (λ text. string_bytes text ≡ shown_bytes bytes.now) }
{
    let mut text = String::new(alloc);
    for byte in bytes {
        push_byte(&mut text, *byte)?;
    }
    Ok(text)
}

/// The text of a float of 32 bits: the shortest that reads back as it, or `NaN`, `inf` and `-inf`.
fn single_text(alloc: Global, bits: u32) -> Result<String, AllocError>
    ensures { IfOk result (λ text. IsFloatText binary32 (is_nan_32 bits) bits (string_bytes text)) }
{
    if bits % (1 << 31) > INFINITY_32 {
        return String::from_str(alloc, "NaN");
    }
    String::from_str(alloc, Buffer::new().format(f32::from_bits(bits)))
}

/// The text of a float of 64 bits, likewise.
fn double_text(alloc: Global, bits: u64) -> Result<String, AllocError>
    ensures { IfOk result (λ text. IsFloatText binary64 (is_nan_64 bits) bits (string_bytes text)) }
{
    if bits % (1 << 63) > INFINITY_64 {
        return String::from_str(alloc, "NaN");
    }
    String::from_str(alloc, Buffer::new().format(f64::from_bits(bits)))
}

/// The text of a value: `1` or `0` for a state; a number in decimal, with just its places; a float as the shortest text that reads back as
/// it, or `NaN`, `inf` and `-inf`; a text without the zeros at its end, where a byte that is no printable ASCII, and a backslash, are `\x`
/// and two digits in base 16.
///
/// # Errors
/// Refused memory.
pub fn shown(alloc: Global, value: &PointValue) -> Result<String, AllocError>
    ensures { IfOk result (λ text. IsTextOf value.now (string_bytes text)) }
{
    match value {
        PointValue::State(state) => String::from_str(alloc, if *state { "1" } else { "0" }),
        PointValue::Number(number) => format!(in alloc; "{number}"),
        PointValue::Single(bits) => single_text(alloc, *bits),
        PointValue::Double(bits) => double_text(alloc, *bits),
        PointValue::Text(bytes) => shown_bytes(alloc, trimmed(bytes.as_slice())),
    }
}
