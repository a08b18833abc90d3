//! The values of a poll as JSON (RFC 8259), an object on a line.
ghost use Rattle.std.specs.Prelude.{◌≡◌, ◌++◌, [], IfOk, OnOk};
ghost use Rattle.json.specs.Print.{quoted};
ghost use Rattle.modbus_lines.specs.JsonLines.{is_large, is_told_as_text, json_text, json_value, json_member, json_others, json_members, json_line, json_head, device_json};

use crate::reading::Reading;
use json::Writer;
use modbus_map::{Found, PointValue};
use std::alloc::{AllocError, Global};

/// The greatest size of an integer below which a float of 64 bits holds each.
const MOST_EXACT: u128 = 1 << 53;

/// How JSON tells an exact number of more units of its last place than 2^53, of either sign. Most readers of JSON hold numbers as floats of
/// 64 bits, and those lose its last digits.
#[derive(Clone, Copy, Debug, PartialEq, Eq)]
pub enum LargeNumbers {
    /// As a number, like any other.
    AsNumbers,
    /// As a text of the same digits.
    AsTexts,
}

/// Whether a value is an exact number of more units than floats of 64 bits can count.
fn is_large(found: &Found) -> bool
    ensures { result ≡ is_large found.now }
{
    match found {
        Some(Ok(PointValue::Number(number))) => number.units.unsigned_abs() > MOST_EXACT,
        _ => false,
    }
}

/// Whether a value that is told as a number otherwise is told as a text.
fn is_told_as_text(large: LargeNumbers, found: &Found) -> bool
    ensures { result ≡ is_told_as_text large found.now }
{
    match large {
        LargeNumbers::AsNumbers => false,
        LargeNumbers::AsTexts => is_large(found),
    }
}

/// The text of a point's value as JSON; `null` where it has none.
fn json_text<'r>(reading: &'r Reading<'_>) -> &'r str
    ensures { result.now ≡ json_text reading.now }
{
    match &reading.text {
        Some(text) => text.as_str(),
        None => "null",
    }
}

/// Appends the value of a point.
pub(crate) fn push_value(
    line: &mut Vec<u8>,
    large: LargeNumbers,
    reading: &Reading<'_>,
) -> Result<(), AllocError>
    ensures { OnOk result (line.new.items ≡ line.old.items ++ json_value large reading.now) }
{
    let text = json_text(reading);
    if !is_told_as_text(large, &reading.found) {
        return line.extend_from_slice(text.as_bytes());
    }
    line.push(b'"')?;
    line.extend_from_slice(text.as_bytes())?;
    line.push(b'"')?;
    Ok(())
}

/// A text as a string of JSON.
fn quoted(alloc: Global, text: &str) -> Result<Vec<u8>, AllocError>
    ensures { IfOk result (λ line. line.items ≡ quoted text.now) }
{
    let mut writer = Writer::new(Vec::new(alloc));
    writer.string(text)?;
    Ok(writer.into_inner())
}

/// Appends a text as a string of JSON.
pub(crate) fn push_quoted(alloc: Global, line: &mut Vec<u8>, text: &str) -> Result<(), AllocError>
    ensures { OnOk result (line.new.items ≡ line.old.items ++ quoted text.now) }
{
    line.extend_from_slice(quoted(alloc, text)?.as_slice())
}

/// Appends the member of a point, behind a comma where others stand before it.
fn push_member(
    alloc: Global,
    line: &mut Vec<u8>,
    comma: &str,
    large: LargeNumbers,
    reading: &Reading<'_>,
) -> Result<(), AllocError>
    ensures { OnOk result (line.new.items
        ≡ line.old.items ++ comma.now ++ json_member large reading.now) }
{
    line.extend_from_slice(comma.as_bytes())?;
    push_quoted(alloc, line, reading.point.name.as_str())?;
    line.push(b':')?;
    push_value(line, large, reading)
}

/// Appends a member for each point, behind a comma.
fn push_others(
    alloc: Global,
    line: &mut Vec<u8>,
    large: LargeNumbers,
    others: &[Reading<'_>],
) -> Result<(), AllocError>
    ensures { OnOk result (line.new.items ≡ line.old.items ++ json_others large others.now) }
{
    for reading in others {
        push_member(alloc, line, ",", large, reading)?;
    }
    Ok(())
}

/// Appends a member for each point, with a comma between two.
fn push_members(
    alloc: Global,
    line: &mut Vec<u8>,
    large: LargeNumbers,
    readings: &[Reading<'_>],
) -> Result<(), AllocError>
    ensures { OnOk result (line.new.items ≡ line.old.items ++ json_members large readings.now) }
{
    match readings {
        [first, others @ ..] => {
            push_member(alloc, line, "", large, first)?;
            push_others(alloc, line, large, others)
        }
        [] => Ok(()),
    }
}

/// The points of a poll as an object of JSON on a line: each by its name, with `null` where it has no value.
///
/// # Errors
/// Refused memory.
pub fn json_line(
    alloc: Global,
    large: LargeNumbers,
    readings: &[Reading<'_>],
) -> Result<Vec<u8>, AllocError>
    ensures { IfOk result (λ line. line.items ≡ json_line large readings.now) }
{
    let mut line = Vec::new(alloc);
    line.push(b'{')?;
    push_members(alloc, &mut line, large, readings)?;
    line.extend_from_slice(b"}\n")?;
    Ok(line)
}

/// What stands before the points of a device: the time and the device.
fn json_head(alloc: Global, time: &str, device: &str) -> Result<Vec<u8>, AllocError>
    ensures { IfOk result (λ line. line.items ≡ json_head time.now device.now) }
{
    let mut line = Vec::new(alloc);
    line.extend_from_slice(b"{\"time\":")?;
    push_quoted(alloc, &mut line, time)?;
    line.extend_from_slice(b",\"device\":")?;
    push_quoted(alloc, &mut line, device)?;
    line.extend_from_slice(b",\"points\":{")?;
    Ok(line)
}

/// The points of a device at a time as an object of JSON on a line: `{"time":"2026-12-01T06:12:34.567Z","device":"meter-1","points":{..}}`, with
/// the members of [`json_line`].
///
/// # Errors
/// Refused memory.
pub fn device_json(
    alloc: Global,
    large: LargeNumbers,
    time: &str,
    device: &str,
    readings: &[Reading<'_>],
) -> Result<Vec<u8>, AllocError>
    ensures { IfOk result (λ line. line.items
        ≡ device_json large time.now device.now readings.now) }
{
    let mut line = json_head(alloc, time, device)?;
    push_members(alloc, &mut line, large, readings)?;
    line.extend_from_slice(b"}}\n")?;
    Ok(line)
}
