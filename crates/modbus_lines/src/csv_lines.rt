//! The values of a poll as CSV (RFC 4180).
ghost use Rattle.std.specs.Prelude.{◌≡◌, ◌++◌, IfOk, OnOk};
ghost use Rattle.csv.specs.Records.{fields_of};
ghost use Rattle.csv.specs.Writing.{default_writer, row_text};
ghost use Rattle.modbus_lines.specs.CsvLines.{csv_header, csv_field, csv_line, csv_record, device_csv_record, device_csv_header, device_csv};

use crate::reading::Reading;
use csv::{ByteRecord, WriterBuilder};
use modbus_map::Point;
use std::alloc::{AllocError, Global};

/// A record of CSV as a line (RFC 4180, section 2), with a line feed at its end.
fn row_line(alloc: Global, row: &ByteRecord) -> Result<Vec<u8>, AllocError>
    ensures { IfOk result (λ line. line.items ≡ row_text default_writer (fields_of row.now)) }
{
    let mut writer = WriterBuilder::new().from_writer(Vec::new(alloc));
    if writer.write_byte_record(row).is_err() {
        return Err(AllocError);
    }
    match writer.into_inner() {
        Ok(line) => Ok(line),
        Err(_) => Err(AllocError),
    }
}

/// The line of CSV that names the columns: the points of one device.
///
/// # Errors
/// Refused memory.
pub fn csv_header(alloc: Global, points: &[Point]) -> Result<Vec<u8>, AllocError>
    ensures { IfOk result (λ line. line.items ≡ csv_header points.now) }
{
    let mut row = ByteRecord::new(alloc);
    for point in points {
        row.push_field(point.name.as_bytes())?;
    }
    row_line(alloc, &row)
}

/// The text of a point's value; nothing where it has none.
fn field<'r>(reading: &'r Reading<'_>) -> &'r str
    ensures { result.now ≡ csv_field reading.now }
{
    match &reading.text {
        Some(text) => text.as_str(),
        None => "",
    }
}

/// The values of a poll as a line of CSV, empty where a point has none.
///
/// # Errors
/// Refused memory.
pub fn csv_line(alloc: Global, readings: &[Reading<'_>]) -> Result<Vec<u8>, AllocError>
    ensures { IfOk result (λ line. line.items ≡ csv_line readings.now) }
{
    let mut row = ByteRecord::new(alloc);
    for reading in readings {
        row.push_field(field(reading).as_bytes())?;
    }
    row_line(alloc, &row)
}

/// The line of CSV that names the columns of [`device_csv`]: `time,device,point,value,unit`.
///
/// # Errors
/// Refused memory.
pub fn device_csv_header(alloc: Global) -> Result<Vec<u8>, AllocError>
    ensures { IfOk result (λ line. line.items ≡ device_csv_header) }
{
    let mut line = Vec::new(alloc);
    line.extend_from_slice(b"time,device,point,value,unit\n")?;
    Ok(line)
}

/// The record of one value of a device at a time.
fn record_of(
    alloc: Global,
    time: &str,
    device: &str,
    point: &Point,
    value: &str,
) -> Result<ByteRecord, AllocError>
    ensures { IfOk result (λ row. fields_of row ≡ csv_record time.now device.now point.now value.now) }
{
    let mut row = ByteRecord::new(alloc);
    row.push_field(time.as_bytes())?;
    row.push_field(device.as_bytes())?;
    row.push_field(point.name.as_bytes())?;
    row.push_field(value.as_bytes())?;
    row.push_field(point.unit.as_bytes())?;
    Ok(row)
}

/// Appends the record of a point, where it has a value.
fn push_record(
    alloc: Global,
    lines: &mut Vec<u8>,
    time: &str,
    device: &str,
    reading: &Reading<'_>,
) -> Result<(), AllocError>
    ensures { OnOk result (lines.new.items
        ≡ lines.old.items ++ device_csv_record time.now device.now reading.now) }
{
    if let Some(value) = &reading.text {
        let row = record_of(alloc, time, device, reading.point, value.as_str())?;
        lines.extend_from_slice(row_line(alloc, &row)?.as_slice())?;
    }
    Ok(())
}

/// A record for each point of a device that has a value: the time, the device, the point, its value and its unit, each on a line.
///
/// # Errors
/// Refused memory.
pub fn device_csv(
    alloc: Global,
    time: &str,
    device: &str,
    readings: &[Reading<'_>],
) -> Result<Vec<u8>, AllocError>
    ensures { IfOk result (λ lines. lines.items ≡ device_csv time.now device.now readings.now) }
{
    let mut lines = Vec::new(alloc);
    for reading in readings {
        push_record(alloc, &mut lines, time, device, reading)?;
    }
    Ok(lines)
}
