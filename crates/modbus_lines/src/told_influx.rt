//! What is told of a device at one time in the line protocol of InfluxDB.
ghost use Rattle.std.specs.Prelude.{◌≡◌, ◌++◌, IfOk, OnOk};
ghost use Rattle.modbus_frame.specs.Codes.{exception_number};
ghost use Rattle.modbus_lines.specs.Told.{state_head, point_influx, exception_influx, away_influx, back_influx};

use crate::influx::{line_of, push_field, push_tail};
use crate::influx_value::{push_name, push_text};
use crate::reading::Reading;
use crate::told_json::number_text;
use modbus_frame::ExceptionCode;
use std::alloc::{AllocError, Global};

/// The value of a point as a line of the protocol with its field alone, as `influx_line` tells that of many:
/// `modbus,device=meter-1 voltage=230.5 1701411154000000000`. Nothing where the reading has no value, or one that the protocol has not.
///
/// # Errors
/// Refused memory.
pub fn point_influx(
    alloc: Global,
    nanos: i64,
    device: &str,
    reading: &Reading<'_>,
) -> Result<Vec<u8>, AllocError>
    ensures { IfOk result (λ line. line.items ≡ point_influx nanos device.now reading.now) }
{
    let mut field = Vec::new(alloc);
    push_field(&mut field, reading)?;
    match field.as_slice() {
        [_comma, field @ ..] => line_of(alloc, nanos, device, field),
        [] => Ok(Vec::new(alloc)),
    }
}

/// What a line begins with that tells no value: the measurement `modbus_state` and the device.
fn state_head(alloc: Global, device: &str) -> Result<Vec<u8>, AllocError>
    ensures { IfOk result (λ line. line.items ≡ state_head device.now) }
{
    let mut line = Vec::new(alloc);
    line.extend_from_slice(b"modbus_state,device=")?;
    push_name(&mut line, device.as_bytes())?;
    Ok(line)
}

/// The exception with which the read of a point is answered as a line of the protocol, by its number (V1.1b3, section 7); the point is a tag:
/// `modbus_state,device=meter-1,point=voltage exception=2i 1701411154000000000`.
///
/// # Errors
/// Refused memory.
pub fn exception_influx(
    alloc: Global,
    nanos: i64,
    device: &str,
    point: &str,
    code: ExceptionCode,
) -> Result<Vec<u8>, AllocError>
    ensures { IfOk result (λ line. line.items
        ≡ exception_influx nanos device.now point.now (exception_number code)) }
{
    let mut line = state_head(alloc, device)?;
    line.extend_from_slice(b",point=")?;
    push_name(&mut line, point.as_bytes())?;
    line.extend_from_slice(b" exception=")?;
    line.extend_from_slice(number_text(alloc, code)?.as_bytes())?;
    line.push(b'i')?;
    push_tail(alloc, &mut line, nanos)?;
    Ok(line)
}

/// That a device is away, and why, as a line of the protocol:
/// `modbus_state,device=meter-1 away=true,why="no answer in time" 1701411154000000000`.
///
/// # Errors
/// Refused memory.
pub fn away_influx(
    alloc: Global,
    nanos: i64,
    device: &str,
    why: &str,
) -> Result<Vec<u8>, AllocError>
    ensures { IfOk result (λ line. line.items ≡ away_influx nanos device.now why.now) }
{
    let mut line = state_head(alloc, device)?;
    line.extend_from_slice(b" away=true,why=")?;
    push_text(&mut line, why)?;
    push_tail(alloc, &mut line, nanos)?;
    Ok(line)
}

/// That a device is back as a line of the protocol: `modbus_state,device=meter-1 away=false 1701411154000000000`.
///
/// # Errors
/// Refused memory.
pub fn back_influx(alloc: Global, nanos: i64, device: &str) -> Result<Vec<u8>, AllocError>
    ensures { IfOk result (λ line. line.items ≡ back_influx nanos device.now) }
{
    let mut line = state_head(alloc, device)?;
    line.extend_from_slice(b" away=false")?;
    push_tail(alloc, &mut line, nanos)?;
    Ok(line)
}
