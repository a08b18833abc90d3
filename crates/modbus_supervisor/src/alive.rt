//! The line of life: how many devices are polled, and how many of them are away.
ghost use Rattle.std.specs.Prelude.{◌≡◌, ◌++◌, decimal, IfOk, OnOk};
ghost use Rattle.modbus_supervisor.specs.Alive.{alive_json, alive_influx, alive_line};

use crate::lines::Output;
use crate::time::Time;
use std::alloc::{AllocError, Global};

/// How many devices are polled, and how many of them are away.
#[derive(Clone, Copy, Debug, PartialEq, Eq)]
pub struct Census {
    /// How many are polled.
    pub devices: usize,
    /// How many of them are away.
    pub away: usize,
}

/// Appends a text and a number in decimal.
fn push_count(
    alloc: Global,
    line: &mut Vec<u8>,
    text: &[u8],
    count: usize,
) -> Result<(), AllocError>
    ensures { OnOk result (line.new.items ≡ line.old.items ++ text.now ++ decimal count) }
{
    line.extend_from_slice(text)?;
    line.extend_from_slice(count.to_string(alloc)?.as_bytes())
}

/// The line of life as an object of JSON: `{"time":"2026-12-01T06:12:34.567Z","devices":12,"devices_away":1}`.
///
/// # Errors
/// Refused memory.
fn alive_json(alloc: Global, time: &str, census: Census) -> Result<Vec<u8>, AllocError>
    ensures { IfOk result (λ line. line.items
        ≡ alive_json time.now census.devices census.away) }
{
    let mut line = Vec::new(alloc);
    line.extend_from_slice(b"{\"time\":\"")?;
    line.extend_from_slice(time.as_bytes())?;
    push_count(alloc, &mut line, b"\",\"devices\":", census.devices)?;
    push_count(alloc, &mut line, b",\"devices_away\":", census.away)?;
    line.extend_from_slice(b"}\n")?;
    Ok(line)
}

/// The line of life in the line protocol: `modbus_alive devices=12i,devices_away=1i 1701411154567000000`.
///
/// # Errors
/// Refused memory.
fn alive_influx(alloc: Global, nanos: i64, census: Census) -> Result<Vec<u8>, AllocError>
    ensures { IfOk result (λ line. line.items
        ≡ alive_influx nanos census.devices census.away) }
{
    let mut line = Vec::new(alloc);
    push_count(alloc, &mut line, b"modbus_alive devices=", census.devices)?;
    push_count(alloc, &mut line, b"i,devices_away=", census.away)?;
    line.extend_from_slice(b"i ")?;
    line.extend_from_slice(nanos.to_string(alloc)?.as_bytes())?;
    line.extend_from_slice(b"\n")?;
    Ok(line)
}

/// The line of life at a time.
///
/// # Errors
/// Refused memory.
pub fn alive_line(
    alloc: Global,
    output: Output,
    time: &Time,
    census: Census,
) -> Result<Vec<u8>, AllocError>
    ensures { IfOk result (λ line. line.items ≡ alive_line output time.now census) }
{
    match output {
        Output::Json(_) => alive_json(alloc, time.text.as_str(), census),
        Output::Influx => alive_influx(alloc, time.nanos, census),
    }
}
