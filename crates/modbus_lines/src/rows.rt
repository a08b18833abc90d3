//! The values of a poll as a table, a line for each point.
ghost use Rattle.std.specs.Prelude.{◌≡◌, ◌++◌, IfOk, OnOk};
ghost use Rattle.modbus_lines.specs.Rows.{unit_text, row_of, table_lines, device_point, device_rows};

use crate::append::push_spaces;
use crate::reading::Reading;
use modbus_map::Point;
use std::alloc::{AllocError, Global};

/// The column behind which a value stands, after a space.
const COLUMNS: usize = 15;

/// Appends a space and the unit of a point, where it has one.
fn push_unit(text: &mut Vec<u8>, point: &Point) -> Result<(), AllocError>
    ensures { OnOk result (text.new.items ≡ text.old.items ++ unit_text point.now) }
{
    if !point.unit.as_str().is_empty() {
        text.push(b' ')?;
        text.extend_from_slice(point.unit.as_bytes())?;
    }
    Ok(())
}

/// Appends the row of a point under a name, where it has a value.
fn push_row(text: &mut Vec<u8>, name: &[u8], reading: &Reading<'_>) -> Result<(), AllocError>
    ensures { OnOk result (text.new.items ≡ text.old.items ++ row_of name.now reading.now) }
{
    if let Some(value) = &reading.text {
        text.extend_from_slice(name)?;
        push_spaces(text, COLUMNS.saturating_sub(name.len()))?;
        text.push(b' ')?;
        text.extend_from_slice(value.as_bytes())?;
        push_unit(text, reading.point)?;
        text.push(b'\n')?;
    }
    Ok(())
}

/// A row for each point that has a value: its name, and its value and unit from the same column on, or behind a space where the name is longer.
///
/// # Errors
/// Refused memory.
pub fn table_lines(alloc: Global, readings: &[Reading<'_>]) -> Result<Vec<u8>, AllocError>
    ensures { IfOk result (λ text. text.items ≡ table_lines readings.now) }
{
    let mut text = Vec::new(alloc);
    for reading in readings {
        push_row(&mut text, reading.point.name.as_bytes(), reading)?;
    }
    Ok(text)
}

/// The name of a point behind that of its device: `meter-1.voltage`.
fn device_point(alloc: Global, device: &str, point: &Point) -> Result<Vec<u8>, AllocError>
    ensures { IfOk result (λ name. name.items ≡ device_point device.now point.now) }
{
    let mut name = Vec::new(alloc);
    name.extend_from_slice(device.as_bytes())?;
    name.push(b'.')?;
    name.extend_from_slice(point.name.as_bytes())?;
    Ok(name)
}

/// The rows of [`table_lines`], with the name of the device and a full stop before each point's.
///
/// # Errors
/// Refused memory.
pub fn device_rows(
    alloc: Global,
    device: &str,
    readings: &[Reading<'_>],
) -> Result<Vec<u8>, AllocError>
    ensures { IfOk result (λ text. text.items ≡ device_rows device.now readings.now) }
{
    let mut text = Vec::new(alloc);
    for reading in readings {
        let name = device_point(alloc, device, reading.point)?;
        push_row(&mut text, name.as_slice(), reading)?;
    }
    Ok(text)
}
