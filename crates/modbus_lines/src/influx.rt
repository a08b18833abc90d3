//! The values of a poll in the line protocol of InfluxDB.
ghost use Rattle.std.specs.Prelude.{◌≡◌, ◌++◌, string_bytes, IfOk, OnOk};
ghost use Rattle.std.specs.Fmt.{signed_decimal};
ghost use Rattle.modbus_lines.specs.Influx.{known_field, influx_field, influx_fields, influx_head, influx_tail, line_of, influx_line};

use crate::influx_value::{is_known, push_name, push_value};
use crate::reading::Reading;
use modbus_map::{Point, PointValue};
use std::alloc::{AllocError, Global};

/// Appends the field of a point behind a comma, where the protocol has a value for it.
fn push_known(
    fields: &mut Vec<u8>,
    point: &Point,
    value: &PointValue,
    text: &str,
) -> Result<(), AllocError>
    ensures { OnOk result (fields.new.items
        ≡ fields.old.items ++ known_field point.now value.now text.now) }
{
    if is_known(value) {
        fields.push(b',')?;
        push_name(fields, point.name.as_bytes())?;
        fields.push(b'=')?;
        push_value(fields, value, text)?;
    }
    Ok(())
}

/// Appends the field of a point behind a comma, where it has a value.
pub(crate) fn push_field(fields: &mut Vec<u8>, reading: &Reading<'_>) -> Result<(), AllocError>
    ensures { OnOk result (fields.new.items ≡ fields.old.items ++ influx_field reading.now) }
{
    match (&reading.found, &reading.text) {
        (Some(Ok(value)), Some(text)) => push_known(fields, reading.point, value, text.as_str()),
        _ => Ok(()),
    }
}

/// The field of each point that has a value, each behind a comma.
fn fields_of(alloc: Global, readings: &[Reading<'_>]) -> Result<Vec<u8>, AllocError>
    ensures { IfOk result (λ fields. fields.items ≡ influx_fields readings.now) }
{
    let mut fields = Vec::new(alloc);
    for reading in readings {
        push_field(&mut fields, reading)?;
    }
    Ok(fields)
}

/// What stands before the fields.
fn head(alloc: Global, device: &str) -> Result<Vec<u8>, AllocError>
    ensures { IfOk result (λ line. line.items ≡ influx_head device.now) }
{
    let mut line = Vec::new(alloc);
    line.extend_from_slice(b"modbus,device=")?;
    push_name(&mut line, device.as_bytes())?;
    line.push(b' ')?;
    Ok(line)
}

/// A number in decimal.
fn integer_text(alloc: Global, number: i64) -> Result<String, AllocError>
    ensures { IfOk result (λ text. string_bytes text ≡ signed_decimal number) }
{
    format!(in alloc; "{number}")
}

/// Appends what stands behind the fields: the time.
pub(crate) fn push_tail(alloc: Global, line: &mut Vec<u8>, nanos: i64) -> Result<(), AllocError>
    ensures { OnOk result (line.new.items ≡ line.old.items ++ influx_tail nanos) }
{
    line.push(b' ')?;
    line.extend_from_slice(integer_text(alloc, nanos)?.as_bytes())?;
    line.push(b'\n')?;
    Ok(())
}

/// A line with these fields, of which no comma stands before the first.
pub(crate) fn line_of(
    alloc: Global,
    nanos: i64,
    device: &str,
    fields: &[u8],
) -> Result<Vec<u8>, AllocError>
    ensures { IfOk result (λ line. line.items ≡ line_of nanos device.now fields.now) }
{
    let mut line = head(alloc, device)?;
    line.extend_from_slice(fields)?;
    push_tail(alloc, &mut line, nanos)?;
    Ok(line)
}

/// The values of a device at a time as a line of the protocol that InfluxDB, Telegraf and Vector take:
/// `modbus,device=meter-1 voltage=230.1,energy=12i 1701411154000000000`. The time is in nanoseconds since 1970. An integer of 64 bits has
/// an `i` behind it, one that only an unsigned number can hold a `u`; a number with digits behind its point and a float are plain decimals; a state
/// is `true` or `false`, a text stands in quotation marks. A float that is infinite or no number is left out, and nothing at all is told
/// where no point has a value. The readings are those of a poll in [`Format::Influx`](crate::Format::Influx), or in any other format but JSON.
///
/// # Errors
/// Refused memory.
pub fn influx_line(
    alloc: Global,
    nanos: i64,
    device: &str,
    readings: &[Reading<'_>],
) -> Result<Vec<u8>, AllocError>
    ensures { IfOk result (λ line. line.items ≡ influx_line nanos device.now readings.now) }
{
    let fields = fields_of(alloc, readings)?;
    match fields.as_slice() {
        [_comma, fields @ ..] => line_of(alloc, nanos, device, fields),
        [] => Ok(Vec::new(alloc)),
    }
}
