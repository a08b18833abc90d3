//! The texts of values as JSON.
ghost use Rattle.std.specs.Prelude.{◌≡◌, ◌++◌, string_bytes, IfOk, OnOk};
ghost use Rattle.std.specs.Float.{binary32, binary64};
ghost use Rattle.modbus_map.specs.Text.{json_byte, json_bytes, is_json_32, is_json_64};
ghost use Rattle.modbus_map.specs.Text.{IsFloatJson, IsJsonOf};

use crate::text::{INFINITY_32, INFINITY_64, hex_digit, is_plain, push_ascii, trimmed};
use crate::value::PointValue;
use ryu::Buffer;
use std::alloc::{AllocError, Global};

/// Appends what stands in a text of JSON for a byte.
fn push_json_byte(text: &mut String, byte: u8) -> Result<(), AllocError>
    ensures { OnOk result (string_bytes text.new ≡ string_bytes text.old ++ json_byte byte) }
{
    if byte == b'"' {
        return text.push_str("\\\"");
    }
    if is_plain(byte) {
        return push_ascii(text, byte);
    }
    text.push_str("\\\\x")?;
    push_ascii(text, hex_digit(byte / 16))?;
    push_ascii(text, hex_digit(byte % 16))
}

/// What stands in a text of JSON for bytes.
fn json_bytes(alloc: Global, bytes: &[u8]) -> Result<String, AllocError>
    ensures { IfOk result (λ text. string_bytes text ≡ json_bytes bytes.now) }
{
    let mut text = String::new(alloc);
    for byte in bytes {
        push_json_byte(&mut text, *byte)?;
    }
    Ok(text)
}

/// A float of 32 bits as JSON.
fn single_json(alloc: Global, bits: u32) -> Result<String, AllocError>
    ensures { IfOk result (λ text. IsFloatJson binary32 (is_json_32 bits) bits (string_bytes text)) }
{
    if bits % (1 << 31) > INFINITY_32 {
        return String::from_str(alloc, "null");
    }
    let float = f32::from_bits(bits);
    if !float.is_finite() {
        return String::from_str(alloc, "null");
    }
    String::from_str(alloc, Buffer::new().format_finite(float))
}

/// A float of 64 bits as JSON.
fn double_json(alloc: Global, bits: u64) -> Result<String, AllocError>
    ensures { IfOk result (λ text. IsFloatJson binary64 (is_json_64 bits) bits (string_bytes text)) }
{
    if bits % (1 << 63) > INFINITY_64 {
        return String::from_str(alloc, "null");
    }
    let float = f64::from_bits(bits);
    if !float.is_finite() {
        return String::from_str(alloc, "null");
    }
    String::from_str(alloc, Buffer::new().format_finite(float))
}

/// The text of a value as JSON: `true` or `false` for a state; a number, with just its places; a float as the shortest number that reads
/// back as it, and `null` where it is no number or not finite; a text in quotation marks, as [`shown`](crate::shown) shows it.
///
/// # Errors
/// Refused memory.
pub fn json_of(alloc: Global, value: &PointValue) -> Result<String, AllocError>
    ensures { IfOk result (λ text. IsJsonOf value.now (string_bytes text)) }
{
    match value {
        PointValue::State(state) => String::from_str(alloc, if *state { "true" } else { "false" }),
        PointValue::Number(number) => format!(in alloc; "{number}"),
        PointValue::Single(bits) => single_json(alloc, *bits),
        PointValue::Double(bits) => double_json(alloc, *bits),
        PointValue::Text(bytes) => {
            let text = json_bytes(alloc, trimmed(bytes.as_slice()))?;
            format!(in alloc; "\"{text}\"")
        }
    }
}
