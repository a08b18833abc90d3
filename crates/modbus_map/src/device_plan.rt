//! The poll of a device's points: reads of its tables within its limits, and the value of each point among what they gave.
ghost use Rattle.std.specs.Prelude.{◌≡◌, ◌↔◌, ℕ, ◌≤◌, None, position, IfOk};
ghost use Rattle.modbus_poll.specs.Spans.{is_within};
ghost use Rattle.modbus_map.specs.Gathering.{span_of, is_in, spans_in, IsTablePlan, value_of_words, value_given, value_among};
ghost use Rattle.modbus_map.specs.Planning.{is_over, first_over, IsWhyNoPlan};

use crate::given::Given;
use crate::kind::Table;
use crate::point::Point;
use crate::tables::Tables;
use crate::value::{PointValue, value_of};
use modbus_frame::{Address, ExceptionCode, Word};
use modbus_poll::{Limits, Plan, PlanError, Span, plan_spans};
use std::alloc::{AllocError, Global};

/// What a point is by the reads of its table: its value, or the exception of the device. `None` where no read has it.
pub type Found = Option<Result<PointValue, ExceptionCode>>;

/// The registers or the bit of a point.
pub(crate) fn span_of(point: &Point) -> Span
    ensures { result ≡ span_of point.now }
{
    Span {
        address: point.address,
        count: point.encoding.kind.width(),
    }
}

/// Whether two tables are the same.
fn is_in(table: Table, other: Table) -> bool
    ensures { result ≡ is_in table other }
{
    match (table, other) {
        (Table::Coils, Table::Coils)
        | (Table::DiscreteInputs, Table::DiscreteInputs)
        | (Table::InputRegisters, Table::InputRegisters)
        | (Table::HoldingRegisters, Table::HoldingRegisters) => true,
        _ => false,
    }
}

/// The spans of the points in a table, in the order of the points.
fn spans_in(alloc: Global, table: Table, points: &[Point]) -> Result<Vec<Span>, AllocError>
    ensures { IfOk result (λ spans. spans.items ≡ spans_in table points.now) }
{
    points
        .iter()
        .filter(|point| is_in(table, point.table))
        .map(|point| span_of(point))
        .collect(alloc)
}

/// Whether a point lies in a table, and no read within limits can give it.
fn is_over(limits: Limits, table: Table, point: &Point) -> bool
    ensures { result ≡ is_over limits table point.now }
{
    is_in(table, point.table) && !limits.allow(&span_of(point))
}

/// The place of the first point of a table that no read within limits can give.
fn first_over(limits: Limits, table: Table, points: &[Point]) -> Option<usize>
    ensures { result ≡ first_over limits table points.now }
{
    points
        .iter()
        .position(|point| is_over(limits, table, point))
}

/// The plan of one table for points, of which a read within limits can give each that lies there.
pub(crate) fn plan_reached(
    alloc: Global,
    table: Table,
    limits: Limits,
    points: &[Point],
) -> Result<Plan, AllocError>
    requires { first_over limits table points.now ≡ None }
    ensures { IfOk result (λ plan. IsTablePlan limits (spans_in table points.now) plan) }
{
    let spans = spans_in(alloc, table, points)?;
    match plan_spans(alloc, limits, spans.as_slice()) {
        Ok(plan) => Ok(plan),
        Err(PlanError::NoMemory) => Err(AllocError),
        Err(PlanError::BadItem(_)) => unreachable!(),
    }
}

/// Plans the reads of one table that give those of these points that lie there, within limits.
///
/// # Errors
/// `BadItem` with the place among these points of the first that lies there and that no read within the limits can give. `NoMemory` where
/// memory was refused, and there is no such point.
pub fn plan_table(
    alloc: Global,
    table: Table,
    limits: Limits,
    points: &[Point],
) -> Result<Plan, PlanError>
    ensures plan { IfOk result (λ plan. IsTablePlan limits (spans_in table points.now) plan) }
    ensures refused { (place : ℕ) → (result ≡ Err (PlanError.BadItem place))
        ↔ IsWhyNoPlan limits table points.now place }
{
    match first_over(limits, table, points) {
        Some(place) => Err(PlanError::BadItem(place)),
        None => Ok(plan_reached(alloc, table, limits, points)?),
    }
}

/// What the words of a read make of a point that lies so far behind its beginning.
fn value_of_words(
    alloc: Global,
    point: &Point,
    start: Address,
    words: &[Word],
) -> Result<Option<PointValue>, AllocError>
    ensures { IfOk result (λ told. told ≡ value_of_words point.now start words.now) }
{
    let start = usize::from(start);
    let width = usize::from(point.encoding.kind.width());
    if start + width <= words.len() {
        let value = value_of(alloc, &point.encoding, &words[start..][..width])?;
        return Ok(Some(value));
    }
    Ok(None)
}

/// What a read that has the point gives of it.
fn value_given(alloc: Global, point: &Point, given: &Given) -> Result<Found, AllocError>
    requires { given.now.read.address ≤ point.now.address }
    ensures { IfOk result (λ told. told ≡ value_given point.now given.now) }
{
    match &given.words {
        Ok(words) => {
            let start = point.address - given.read.address;
            let found = value_of_words(alloc, point, start, words.as_slice())?;
            match found {
                Some(value) => Ok(Some(Ok(value))),
                None => Ok(None),
            }
        }
        Err(code) => Ok(Some(Err(*code))),
    }
}

/// The place of the first of these reads that has a span.
fn place_of(given: &[Given], span: &Span) -> Option<usize>
    ensures { result ≡ position (λ one. is_within span.now one.read) given.now }
{
    given.iter().position(|one| one.read.includes(span))
}

/// What the reads of its table give of a point: the first of them that has it decides.
///
/// # Errors
/// Refused memory, which comes for a text alone.
pub fn value_among(alloc: Global, given: &[Given], point: &Point) -> Result<Found, AllocError>
    ensures { IfOk result (λ told. told ≡ value_among given.now point.now) }
{
    let span = span_of(point);
    match place_of(given, &span) {
        Some(place) => value_given(alloc, point, &given[place]),
        None => Ok(None),
    }
}
