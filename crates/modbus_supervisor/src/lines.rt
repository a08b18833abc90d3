//! The lines that the program prints: objects of JSON (RFC 8259), or lines of InfluxDB's line protocol.
ghost use Rattle.std.specs.Prelude.{◌≡◌, IfOk};
ghost use Rattle.modbus_frame.specs.Codes.{exception_number};
ghost use Rattle.modbus_supervisor.specs.Lines.{format_of, value_line, exception_line, away_line, back_line};

use modbus_frame::ExceptionCode;
use modbus_lines::{
    Format, LargeNumbers, Reading, away_influx, away_json, back_influx, back_json,
    exception_influx, exception_json, point_influx, point_json,
};
use std::alloc::{AllocError, Global};

/// How lines are written.
#[derive(Clone, Copy, Debug, PartialEq, Eq)]
pub enum Output {
    /// An object of JSON, in which large numbers are told so.
    Json(LargeNumbers),
    /// A line of InfluxDB's line protocol.
    Influx,
}

impl Output {
    /// The format of the texts of values.
    pub fn format(self) -> Format
        ensures { result ≡ format_of self }
    {
        match self {
            Output::Json(_) => Format::Json,
            Output::Influx => Format::Influx,
        }
    }
}

/// A device at one time, as each line tells it.
#[derive(Clone, Copy, Debug)]
pub struct Stamp<'a> {
    /// How the line is written.
    pub output: Output,
    /// The time, as RFC 3339 has it.
    pub time: &'a str,
    /// The time in nanoseconds since 1970.
    pub nanos: i64,
    /// The name of the device.
    pub device: &'a str,
}

/// The line of a point that has another value than before. In the line protocol there is none for a value that it has not.
pub fn value_line(
    alloc: Global,
    stamp: Stamp<'_>,
    reading: &Reading<'_>,
) -> Result<Vec<u8>, AllocError>
    ensures { IfOk result (λ line. line.items ≡ value_line stamp.entry reading.now) }
{
    match stamp.output {
        Output::Json(large) => point_json(alloc, large, stamp.time, stamp.device, reading),
        Output::Influx => point_influx(alloc, stamp.nanos, stamp.device, reading),
    }
}

/// The line of a point whose read the device answers with an exception (V1.1b3, section 7).
pub fn exception_line(
    alloc: Global,
    stamp: Stamp<'_>,
    point: &str,
    code: ExceptionCode,
) -> Result<Vec<u8>, AllocError>
    ensures { IfOk result (λ line. line.items ≡ exception_line stamp.entry point.now code) }
{
    match stamp.output {
        Output::Json(_) => exception_json(alloc, stamp.time, stamp.device, point, code),
        Output::Influx => exception_influx(alloc, stamp.nanos, stamp.device, point, code),
    }
}

/// The line of a device that is away, and why.
pub fn away_line(alloc: Global, stamp: Stamp<'_>, why: &str) -> Result<Vec<u8>, AllocError>
    ensures { IfOk result (λ line. line.items ≡ away_line stamp.entry why.now) }
{
    match stamp.output {
        Output::Json(_) => away_json(alloc, stamp.time, stamp.device, why),
        Output::Influx => away_influx(alloc, stamp.nanos, stamp.device, why),
    }
}

/// The line of a device that is back.
pub fn back_line(alloc: Global, stamp: Stamp<'_>) -> Result<Vec<u8>, AllocError>
    ensures { IfOk result (λ line. line.items ≡ back_line stamp.entry) }
{
    match stamp.output {
        Output::Json(_) => back_json(alloc, stamp.time, stamp.device),
        Output::Influx => back_influx(alloc, stamp.nanos, stamp.device),
    }
}
