//! Values as fields of the line protocol.
ghost use Rattle.std.specs.Prelude.{◌≡◌, ◌++◌, OnOk};
ghost use Rattle.modbus_map.specs.Text.{state_json};
ghost use Rattle.modbus_lines.specs.Influx.{is_known, number_suffix, name_byte, influx_name, text_byte, escaped_text, quoted_text, influx_value};

use modbus_map::{Decimal, PointValue};
use std::alloc::AllocError;

/// The bits of a float of 32 bits that is infinite, without its sign: those of a greater size are no number, those of a smaller one finite.
const INFINITY_32: u32 = 0x7F80_0000;

/// The same of 64 bits.
const INFINITY_64: u64 = 0x7FF0_0000_0000_0000;

/// Whether the protocol has a value for it: it has none for a float that is infinite or no number.
pub(crate) fn is_known(value: &PointValue) -> bool
    ensures { result ≡ is_known value.now }
{
    match value {
        PointValue::Single(bits) => bits % (1 << 31) < INFINITY_32,
        PointValue::Double(bits) => bits % (1 << 63) < INFINITY_64,
        PointValue::State(_) | PointValue::Number(_) | PointValue::Text(_) => true,
    }
}

/// A state as the protocol tells it.
fn state_text(state: bool) -> &'static str
    ensures { result.now ≡ state_json state }
{
    if state { "true" } else { "false" }
}

/// What stands behind the digits of an exact number: the letter of its type where it is an integer of 64 bits.
fn number_suffix(number: Decimal) -> &'static str
    ensures { result.now ≡ number_suffix number }
{
    if number.places > 0 {
        ""
    } else if i64::try_from(number.units).is_ok() {
        "i"
    } else if u64::try_from(number.units).is_ok() {
        "u"
    } else {
        ""
    }
}

/// Appends a byte of a name, with a backslash before one that would end it.
fn push_name_byte(line: &mut Vec<u8>, byte: u8) -> Result<(), AllocError>
    ensures { OnOk result (line.new.items ≡ line.old.items ++ name_byte byte) }
{
    match byte {
        b'\n' => line.extend_from_slice(b"\\n"),
        b',' | b'=' | b' ' | b'\\' => {
            line.push(b'\\')?;
            line.push(byte)?;
            Ok(())
        }
        _ => {
            line.push(byte)?;
            Ok(())
        }
    }
}

/// Appends a name: that of a device or of a point.
pub(crate) fn push_name(line: &mut Vec<u8>, name: &[u8]) -> Result<(), AllocError>
    ensures { OnOk result (line.new.items ≡ line.old.items ++ influx_name name.now) }
{
    for byte in name {
        push_name_byte(line, *byte)?;
    }
    Ok(())
}

/// Appends a byte of a text, with a backslash before a quotation mark and a backslash.
fn push_text_byte(line: &mut Vec<u8>, byte: u8) -> Result<(), AllocError>
    ensures { OnOk result (line.new.items ≡ line.old.items ++ text_byte byte) }
{
    if byte == b'"' || byte == b'\\' {
        line.push(b'\\')?;
    }
    line.push(byte)?;
    Ok(())
}

/// Appends a text without what would end it.
fn push_escaped(line: &mut Vec<u8>, text: &[u8]) -> Result<(), AllocError>
    ensures { OnOk result (line.new.items ≡ line.old.items ++ escaped_text text.now) }
{
    for byte in text {
        push_text_byte(line, *byte)?;
    }
    Ok(())
}

/// Appends a text in quotation marks.
pub(crate) fn push_text(line: &mut Vec<u8>, text: &str) -> Result<(), AllocError>
    ensures { OnOk result (line.new.items ≡ line.old.items ++ quoted_text text.now) }
{
    line.push(b'"')?;
    push_escaped(line, text.as_bytes())?;
    line.push(b'"')?;
    Ok(())
}

/// Appends the value of a field, of which this text is shown.
pub(crate) fn push_value(
    line: &mut Vec<u8>,
    value: &PointValue,
    text: &str,
) -> Result<(), AllocError>
    ensures { OnOk result (line.new.items ≡ line.old.items ++ influx_value value.now text.now) }
{
    match value {
        PointValue::State(state) => line.extend_from_slice(state_text(*state).as_bytes()),
        PointValue::Number(number) => {
            line.extend_from_slice(text.as_bytes())?;
            line.extend_from_slice(number_suffix(*number).as_bytes())
        }
        PointValue::Single(_) | PointValue::Double(_) => line.extend_from_slice(text.as_bytes()),
        PointValue::Text(_) => push_text(line, text),
    }
}
