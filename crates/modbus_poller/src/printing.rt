//! What a poll prints.

use crate::target::Target;
use modbus_lines::{
    Format, LargeNumbers, Points, Reading, csv_header, csv_line, device_csv, device_csv_header,
    device_json, device_rows, influx_line, json_line, table_lines, time_text,
};
use std::alloc::{AllocError, Global};
use std::io::{self, Write};
use std::time::{Duration, SystemTime, UNIX_EPOCH};

/// How values are printed.
#[derive(Clone, Copy, Debug, PartialEq, Eq)]
pub enum Output {
    /// A row for each value.
    Table,
    /// Records with commas between values (RFC 4180).
    Csv,
    /// An object on a line (RFC 8259).
    Json,
    /// A line of the line protocol of InfluxDB.
    Influx,
}

/// How a poll is printed.
#[derive(Clone, Copy)]
pub struct Style {
    pub output: Output,
    /// What becomes of numbers in JSON that not every reader keeps.
    pub large: LargeNumbers,
    /// Whether lines name their device, as those of a map do.
    pub has_devices: bool,
}

impl Style {
    /// The format of the texts of values.
    pub fn format(self) -> Format {
        match self.output {
            Output::Json => Format::Json,
            Output::Csv => Format::Csv,
            Output::Table | Output::Influx => Format::Table,
        }
    }
}

/// The time since 1970 by the system's clock.
fn now(rt: &HostRuntime) -> io::Result<Duration> {
    let time = SystemTime::now(rt)?;
    Ok(time.duration_since(UNIX_EPOCH).unwrap_or(Duration::ZERO))
}

/// A time in nanoseconds, as far as they have 64 bits.
fn nanos_of(time: Duration) -> i64 {
    i64::try_from(time.as_nanos()).unwrap_or(i64::MAX)
}

/// The line of the line protocol for a device.
fn influx(rt: &HostRuntime, device: &str, readings: &[Reading<'_>]) -> io::Result<Vec<u8>> {
    let nanos = nanos_of(now(rt)?);
    Ok(influx_line(rt.alloc(), nanos, device, readings)?)
}

/// The records of CSV of a device of a map.
fn records(rt: &HostRuntime, device: &str, readings: &[Reading<'_>]) -> io::Result<Vec<u8>> {
    let time = time_text(rt.alloc(), now(rt)?)?;
    Ok(device_csv(rt.alloc(), time.as_str(), device, readings)?)
}

/// The object of JSON of a device of a map.
fn object(
    rt: &HostRuntime,
    large: LargeNumbers,
    device: &str,
    readings: &[Reading<'_>],
) -> io::Result<Vec<u8>> {
    let time = time_text(rt.alloc(), now(rt)?)?;
    Ok(device_json(rt.alloc(), large, time.as_str(), device, readings)?)
}

/// The lines of a poll of a device of a map.
fn lines_of_device(
    rt: &HostRuntime,
    style: Style,
    device: &str,
    readings: &[Reading<'_>],
) -> io::Result<Vec<u8>> {
    match style.output {
        Output::Table => Ok(device_rows(rt.alloc(), device, readings)?),
        Output::Csv => records(rt, device, readings),
        Output::Json => object(rt, style.large, device, readings),
        Output::Influx => influx(rt, device, readings),
    }
}

/// The lines of a poll of items.
fn lines_of_items(
    rt: &HostRuntime,
    style: Style,
    device: &str,
    readings: &[Reading<'_>],
) -> io::Result<Vec<u8>> {
    match style.output {
        Output::Table => Ok(table_lines(rt.alloc(), readings)?),
        Output::Csv => Ok(csv_line(rt.alloc(), readings)?),
        Output::Json => Ok(json_line(rt.alloc(), style.large, readings)?),
        Output::Influx => influx(rt, device, readings),
    }
}

/// Whether a point has a value.
fn has_value(readings: &[Reading<'_>]) -> bool {
    readings.iter().any(|reading| reading.text.is_some())
}

/// The lines of a poll.
fn lines_of(
    rt: &HostRuntime,
    style: Style,
    device: &str,
    readings: &[Reading<'_>],
) -> io::Result<Vec<u8>> {
    if style.has_devices {
        lines_of_device(rt, style, device, readings)
    } else {
        lines_of_items(rt, style, device, readings)
    }
}

/// Prints the values of a poll of a device, where there is one.
pub fn print_values(
    rt: &HostRuntime,
    style: Style,
    device: &str,
    readings: &[Reading<'_>],
) -> io::Result<()> {
    if has_value(readings) {
        let lines = lines_of(rt, style, device, readings)?;
        io::writer(rt).write_all(lines.as_slice())?;
    }
    Ok(())
}

/// The line of CSV that names the columns: of a map always the same ones, else the items of the device.
fn header(alloc: Global, style: Style, targets: &[Target]) -> Result<Vec<u8>, AllocError> {
    match targets.first() {
        Some(target) if !style.has_devices => csv_header(alloc, target.points.points.as_slice()),
        _ => device_csv_header(alloc),
    }
}

/// Prints what stands once before all polls.
pub fn print_header(rt: &HostRuntime, style: Style, targets: &[Target]) -> io::Result<()> {
    if style.output == Output::Csv {
        let line = header(rt.alloc(), style, targets)?;
        io::writer(rt).write_all(line.as_slice())?;
    }
    Ok(())
}

/// Prints what stands between two polls.
pub fn print_gap(rt: &HostRuntime, style: Style) -> io::Result<()> {
    if style.output == Output::Table {
        println!(rt; "")?;
    }
    Ok(())
}
