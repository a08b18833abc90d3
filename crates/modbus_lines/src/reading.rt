//! The values of a device's points, by the reads of their tables.
ghost use Rattle.std.specs.Prelude.{◌≡◌, IfOk, IfErr, string_bytes};
ghost use Rattle.modbus_map.specs.Gathering.{of_table, seen_by};
ghost use Rattle.modbus_lines.specs.Readings.{found_in, IsTextIn, IsTextOfFound, AreReadings, Polls, IsWhyNoPoll};

use crate::points::Points;
use modbus_client::Reader;
use modbus_map::{
    Found, Given, Point, PointValue, Table, TableError, Tables, gather, json_of, shown, value_among,
};
use modbus_poll::PollError;
use std::alloc::{AllocError, Global};

/// How values are told.
#[derive(Clone, Copy, Debug, PartialEq, Eq)]
pub enum Format {
    /// A line for each point: its name and its value.
    Table,
    /// A line for each poll, after one with the names: the values between commas (RFC 4180).
    Csv,
    /// A line for each poll: an object with a member for each point (RFC 8259).
    Json,
    /// A line for each poll of a device: the line protocol of InfluxDB.
    Influx,
}

/// A point, what it is by the reads of its table, and its text where it has a value.
#[derive(Drop)]
pub struct Reading<'p> {
    /// The point.
    pub point: &'p Point,
    /// Its value, or the exception of the device; `None` where no read has it.
    pub found: Found,
    /// The text of its value, in the format of the poll.
    pub text: Option<String>,
}

/// A poll of a device: what its reads were answered, and its points in their order.
#[derive(Drop)]
pub struct Polled<'p> {
    /// What the reads of each table were answered.
    pub given: Tables<Vec<Given>>,
    /// The points in their order, with what those reads give of each.
    pub readings: Vec<Reading<'p>>,
}

/// What the reads of a table were answered.
pub fn given_in(given: &Tables<Vec<Given>>, table: Table) -> &[Given]
    ensures { result.now ≡ of_table (seen_by (λ v. v.items) given.now) table }
{
    match table {
        Table::Coils => given.coils.as_slice(),
        Table::DiscreteInputs => given.discrete_inputs.as_slice(),
        Table::InputRegisters => given.input_registers.as_slice(),
        Table::HoldingRegisters => given.holding_registers.as_slice(),
    }
}

/// What the reads of its table give of a point.
fn found_in(alloc: Global, given: &Tables<Vec<Given>>, point: &Point) -> Result<Found, AllocError>
    ensures { IfOk result (λ found.
        found ≡ found_in (seen_by (λ v. v.items) given.now) point.now) }
{
    value_among(alloc, given_in(given, point.table), point)
}

/// The text of a value in a format: that of JSON, and in the others what is shown of it.
fn text_of(alloc: Global, format: Format, value: &PointValue) -> Result<String, AllocError>
    ensures { IfOk result (λ text. IsTextIn format value.now (string_bytes text)) }
{
    match format {
        Format::Json => json_of(alloc, value),
        Format::Table | Format::Csv | Format::Influx => shown(alloc, value),
    }
}

/// The text of what a point is, where that is a value.
pub(crate) fn text_of_found(
    alloc: Global,
    format: Format,
    found: &Found,
) -> Result<Option<String>, AllocError>
    ensures { IfOk result (λ text. IsTextOfFound format found.now text) }
{
    match found {
        Some(Ok(value)) => Ok(Some(text_of(alloc, format, value)?)),
        _ => Ok(None),
    }
}

/// A reading of one point: what it is, and the text of that in a format where it is a value.
///
/// # Errors
/// Refused memory.
pub fn reading_of<'p>(
    alloc: Global,
    format: Format,
    point: &'p Point,
    found: Found,
) -> Result<Reading<'p>, AllocError>
    ensures point { IfOk result (λ reading. reading.point.now ≡ point.now) }
    ensures found { IfOk result (λ reading. reading.found ≡ found) }
    ensures text { IfOk result (λ reading. IsTextOfFound format found reading.text) }
{
    let text = text_of_found(alloc, format, &found)?;
    Ok(Reading { point, found, text })
}

/// The points in their order, with what the reads of their tables give of each.
fn readings_of<'p>(
    alloc: Global,
    format: Format,
    points: &'p [Point],
    given: &Tables<Vec<Given>>,
) -> Result<Vec<Reading<'p>>, AllocError>
    ensures { IfOk result (λ readings.
        AreReadings format (seen_by (λ v. v.items) given.now) points.now readings.items) }
{
    let mut readings = Vec::new(alloc);
    for point in points {
        let found = found_in(alloc, given, point)?;
        let text = text_of_found(alloc, format, &found)?;
        readings.push(Reading { point, found, text })?;
    }
    Ok(readings)
}

/// Makes the reads of a device by a client, each once, and gives what they tell of its points, in their order.
///
/// # Errors
/// Those of `gather`, after which no later read was made; refused memory for the texts is told as that of holding registers, the last table.
pub fn poll<'p, R: Reader>(
    alloc: Global,
    client: &mut R,
    points: &'p Points,
    format: Format,
) -> Result<Polled<'p>, TableError>
    ensures made { IfOk result (λ polled.
        Polls R.Client.answers client.old points.now format polled client.new) }
    ensures stops { IfErr result (λ stop.
        IsWhyNoPoll R.Client.answers client.old points.now stop client.new) }
{
    let given = gather(alloc, client, &points.plans)?;
    match readings_of(alloc, format, points.points.as_slice(), &given) {
        Ok(readings) => Ok(Polled { given, readings }),
        Err(AllocError) => Err(TableError {
            table: Table::HoldingRegisters,
            error: PollError::NoMemory,
        }),
    }
}
