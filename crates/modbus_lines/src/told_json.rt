//! What is told of a device at one time as JSON (RFC 8259), an object on a line.
ghost use Rattle.std.specs.Prelude.{◌≡◌, ◌++◌, decimal, string_bytes, IfOk, OnOk};
ghost use Rattle.modbus_frame.specs.Codes.{exception_number};
ghost use Rattle.modbus_lines.specs.Told.{told_head, point_head, unit_end, point_json, exception_json, away_json, back_json};

use crate::json_lines::{LargeNumbers, push_quoted, push_value};
use crate::reading::Reading;
use modbus_frame::ExceptionCode;
use modbus_map::Point;
use std::alloc::{AllocError, Global};

/// What each object begins with: the time and the device.
fn told_head(alloc: Global, time: &str, device: &str) -> Result<Vec<u8>, AllocError>
    ensures { IfOk result (λ line. line.items ≡ told_head time.now device.now) }
{
    let mut line = Vec::new(alloc);
    line.extend_from_slice(b"{\"time\":")?;
    push_quoted(alloc, &mut line, time)?;
    line.extend_from_slice(b",\"device\":")?;
    push_quoted(alloc, &mut line, device)?;
    Ok(line)
}

/// What an object of a point begins with: the time, the device and the point.
fn point_head(alloc: Global, time: &str, device: &str, name: &str) -> Result<Vec<u8>, AllocError>
    ensures { IfOk result (λ line. line.items ≡ point_head time.now device.now name.now) }
{
    let mut line = told_head(alloc, time, device)?;
    line.extend_from_slice(b",\"point\":")?;
    push_quoted(alloc, &mut line, name)?;
    Ok(line)
}

/// Appends the unit of a point, and ends the object.
fn push_unit_end(alloc: Global, line: &mut Vec<u8>, point: &Point) -> Result<(), AllocError>
    ensures { OnOk result (line.new.items ≡ line.old.items ++ unit_end point.now) }
{
    line.extend_from_slice(b",\"unit\":")?;
    push_quoted(alloc, line, point.unit.as_str())?;
    line.extend_from_slice(b"}\n")
}

/// The number of an exception in decimal.
pub(crate) fn number_text(alloc: Global, code: ExceptionCode) -> Result<String, AllocError>
    ensures { IfOk result (λ text. string_bytes text ≡ decimal (exception_number code)) }
{
    let number = u8::from(code);
    format!(in alloc; "{number}")
}

/// The value of a point as an object of JSON on a line, with the time, the device and the unit, which is empty where the point has none:
/// `{"time":"2026-12-01T06:12:34.567Z","device":"meter-1","point":"voltage","value":230.5,"unit":"V"}`. The value is `null` where the reading has
/// none, else its text; the reading is one in [`Format::Json`](crate::Format::Json).
///
/// # Errors
/// Refused memory.
pub fn point_json(
    alloc: Global,
    large: LargeNumbers,
    time: &str,
    device: &str,
    reading: &Reading<'_>,
) -> Result<Vec<u8>, AllocError>
    ensures { IfOk result (λ line. line.items
        ≡ point_json large time.now device.now reading.now) }
{
    let mut line = point_head(alloc, time, device, reading.point.name.as_str())?;
    line.extend_from_slice(b",\"value\":")?;
    push_value(&mut line, large, reading)?;
    push_unit_end(alloc, &mut line, reading.point)?;
    Ok(line)
}

/// The exception with which the read of a point is answered as an object of JSON on a line, by its number (V1.1b3, section 7):
/// `{"time":"2026-12-01T06:12:34.567Z","device":"meter-1","point":"voltage","exception":2}`.
///
/// # Errors
/// Refused memory.
pub fn exception_json(
    alloc: Global,
    time: &str,
    device: &str,
    point: &str,
    code: ExceptionCode,
) -> Result<Vec<u8>, AllocError>
    ensures { IfOk result (λ line. line.items
        ≡ exception_json time.now device.now point.now (exception_number code)) }
{
    let mut line = point_head(alloc, time, device, point)?;
    line.extend_from_slice(b",\"exception\":")?;
    line.extend_from_slice(number_text(alloc, code)?.as_bytes())?;
    line.extend_from_slice(b"}\n")?;
    Ok(line)
}

/// That a device is away, and why, as an object of JSON on a line:
/// `{"time":"2026-12-01T06:12:34.567Z","device":"meter-1","away":true,"why":"no answer in time"}`.
///
/// # Errors
/// Refused memory.
pub fn away_json(alloc: Global, time: &str, device: &str, why: &str) -> Result<Vec<u8>, AllocError>
    ensures { IfOk result (λ line. line.items ≡ away_json time.now device.now why.now) }
{
    let mut line = told_head(alloc, time, device)?;
    line.extend_from_slice(b",\"away\":true,\"why\":")?;
    push_quoted(alloc, &mut line, why)?;
    line.extend_from_slice(b"}\n")?;
    Ok(line)
}

/// That a device is back as an object of JSON on a line: `{"time":"2026-12-01T06:12:34.567Z","device":"meter-1","away":false}`.
///
/// # Errors
/// Refused memory.
pub fn back_json(alloc: Global, time: &str, device: &str) -> Result<Vec<u8>, AllocError>
    ensures { IfOk result (λ line. line.items ≡ back_json time.now device.now) }
{
    let mut line = told_head(alloc, time, device)?;
    line.extend_from_slice(b",\"away\":false}\n")?;
    Ok(line)
}
