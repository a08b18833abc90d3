//! What is watched of a device: its points and what was seen last of each, and how far its poll is.
ghost use Rattle.std.specs.Prelude.{◌≡◌, ◌++◌, ℕ, List, OnOk, IfOk};
ghost use Rattle.std.specs.Option.{option_map};
ghost use Rattle.modbus_frame.specs.Meaning.{meaning};
ghost use Rattle.modbus_map.specs.Gathering.{seen_by};
ghost use Rattle.modbus_lines.specs.Readings.{found_in};
ghost use Rattle.modbus_lines.specs.Rows.{name_of};
ghost use Rattle.modbus_supervisor.specs.Asking.{next_read};
ghost use Rattle.modbus_supervisor.specs.Reads.{asked_by};
ghost use Rattle.modbus_supervisor.specs.Lines.{exception_line};
ghost use Rattle.modbus_supervisor.specs.Watched.{IsValueLine, IsFoundLine, TellsPoint, TellsGiven, TellsAll};

use crate::halves::{Halves, halves_of};
use crate::lines::{Output, Stamp, away_line, back_line, exception_line, value_line};
use crate::reads::{TableRead, reads_of, span_of};
use crate::time::Time;
use modbus_frame::{ExceptionCode, Request, Response};
use modbus_lines::{Points, Reading, given_in, reading_of};
use modbus_map::{Found, Given, Point, Table, Tables, value_among};
use modbus_poll::Span;
use std::alloc::{AllocError, Global};

/// After how many polls by parts the reads are tried whole again.
const WHOLE_AGAIN: u32 = 100;

/// A point of a device, and what was seen last of it; `None` where nothing was yet.
#[derive(Drop)]
pub struct WatchedPoint {
    point: Point,
    seen: Found,
}

/// What the reads of its table give of a point.
fn found_in(alloc: Global, given: &Tables<Vec<Given>>, point: &Point) -> Result<Found, AllocError>
    ensures { IfOk result (λ found.
        found ≡ found_in (seen_by (λ v. v.items) given.now) point.now) }
{
    value_among(alloc, given_in(given, point.table), point)
}

/// Appends the line of a value of a point, and gives the value back.
fn push_value(
    alloc: Global,
    stamp: Stamp<'_>,
    point: &Point,
    found: Found,
    lines: &mut Vec<u8>,
) -> Result<Found, AllocError>
    ensures back { IfOk result (λ back. back ≡ found) }
    ensures line { OnOk result ((line : List ℕ) × IsValueLine stamp.entry point.now found line
        × (lines.new.items ≡ lines.old.items ++ line)) }
{
    let reading = reading_of(alloc, stamp.output.format(), point, found)?;
    let line = value_line(alloc, stamp, &reading)?;
    lines.extend_from_slice(line.as_slice())?;
    let Reading { found, .. } = reading;
    Ok(found)
}

/// Appends the line of an exception of a point.
fn push_exception(
    alloc: Global,
    stamp: Stamp<'_>,
    point: &Point,
    code: ExceptionCode,
    lines: &mut Vec<u8>,
) -> Result<(), AllocError>
    ensures { OnOk result (lines.new.items
        ≡ lines.old.items ++ exception_line stamp.entry (name_of point.now) code) }
{
    let line = exception_line(alloc, stamp, point.name.as_str(), code)?;
    lines.extend_from_slice(line.as_slice())
}

/// Appends the line of what is found of a point, and gives that back.
fn push_found(
    alloc: Global,
    stamp: Stamp<'_>,
    point: &Point,
    found: Found,
    lines: &mut Vec<u8>,
) -> Result<Found, AllocError>
    ensures back { IfOk result (λ back. back ≡ found) }
    ensures line { OnOk result ((line : List ℕ) × IsFoundLine stamp.entry point.now found line
        × (lines.new.items ≡ lines.old.items ++ line)) }
{
    if let Some(Err(code)) = &found {
        push_exception(alloc, stamp, point, *code, lines)?;
        return Ok(found);
    }
    if found.is_none() {
        return Ok(found);
    }
    push_value(alloc, stamp, point, found, lines)
}

impl WatchedPoint {
    /// Takes what is found of it, appends its line where that is another value or exception than was seen last, and keeps it.
    fn take(
        &mut self,
        alloc: Global,
        stamp: Stamp<'_>,
        found: Found,
        lines: &mut Vec<u8>,
    ) -> Result<(), AllocError>
        ensures { OnOk result ((line : List ℕ)
            × TellsPoint stamp.entry self.old found line self.new
            × (lines.new.items ≡ lines.old.items ++ line)) }
    {
        if found.is_none() || self.seen == found {
            return Ok(());
        }
        self.seen = push_found(alloc, stamp, &self.point, found, lines)?;
        Ok(())
    }

    /// Takes what the reads of a poll give of it.
    fn look(
        &mut self,
        alloc: Global,
        stamp: Stamp<'_>,
        given: &Tables<Vec<Given>>,
        lines: &mut Vec<u8>,
    ) -> Result<(), AllocError>
        ensures { OnOk result ((line : List ℕ)
            × TellsGiven stamp.entry (seen_by (λ v. v.items) given.now) self.old line self.new
            × (lines.new.items ≡ lines.old.items ++ line)) }
    {
        let found = found_in(alloc, given, &self.point)?;
        self.take(alloc, stamp, found, lines)
    }
}

/// Takes what the reads of a poll give of each point, in their order.
fn look_at_all(
    alloc: Global,
    stamp: Stamp<'_>,
    points: &mut [WatchedPoint],
    given: &Tables<Vec<Given>>,
    lines: &mut Vec<u8>,
) -> Result<(), AllocError>
    ensures { OnOk result ((told : List ℕ)
        × TellsAll stamp.entry (seen_by (λ v. v.items) given.now) points.old told points.new
        × (lines.new.items ≡ lines.old.items ++ told)) }
{
    for point in points.iter_mut() {
        point.look(alloc, stamp, given, lines)?;
    }
    Ok(())
}

/// Points of which nothing was seen.
fn unseen(alloc: Global, points: Vec<Point>) -> Result<Vec<WatchedPoint>, AllocError> {
    let mut watched = Vec::new(alloc);
    for point in points {
        watched.push(WatchedPoint { point, seen: None })?;
    }
    Ok(watched)
}

/// Nothing given of any table.
fn nothing_given(alloc: Global) -> Tables<Vec<Given>> {
    Tables {
        coils: Vec::new(alloc),
        discrete_inputs: Vec::new(alloc),
        input_registers: Vec::new(alloc),
        holding_registers: Vec::new(alloc),
    }
}

/// Appends what a read of a table was answered.
fn push_given(given: &mut Tables<Vec<Given>>, table: Table, one: Given) -> Result<(), AllocError> {
    match table {
        Table::Coils => given.coils.push(one)?,
        Table::DiscreteInputs => given.discrete_inputs.push(one)?,
        Table::InputRegisters => given.input_registers.push(one)?,
        Table::HoldingRegisters => given.holding_registers.push(one)?,
    }
    Ok(())
}

/// Whether an answer may tell that the device lacks a part of what was asked.
fn may_lack(answer: &Result<Response, ExceptionCode>) -> bool {
    matches!(
        answer,
        Err(ExceptionCode::IllegalDataAddress | ExceptionCode::IllegalDataValue)
    )
}

/// Whether one of these reads gives a point.
fn is_given(reads: &[TableRead], point: &Point) -> bool {
    reads.iter().any(|read| read.gives(point))
}

/// Puts two reads in the place of the one at this place; whether there is one.
fn replace(asks: &mut Vec<TableRead>, place: usize, halves: Halves) -> Result<bool, AllocError> {
    if place >= asks.len() {
        return Ok(false);
    }
    asks.insert(place, halves.first)?;
    if let Some(second) = asks.get_mut(place.saturating_add(1)) {
        *second = halves.second;
    }
    Ok(true)
}

/// A device, its points, and how far its poll is.
#[derive(Drop)]
pub struct Watched {
    name: String,
    points: Vec<WatchedPoint>,
    // the reads of its plans, and those that are made: the same, or halves of them
    whole: Vec<TableRead>,
    asks: Vec<TableRead>,
    // how many polls were begun since reads were halved; `None` where they are whole
    halved: Option<u32>,
    // the place of the read that is asked
    place: usize,
    given: Tables<Vec<Given>>,
    is_away: bool,
    // whether each poll tells all values, as if none had been seen
    tells_all: bool,
}

/// Forgets what was seen of points.
fn forget(points: &mut [WatchedPoint]) {
    for point in points.iter_mut() {
        point.seen = None;
    }
}

impl Watched {
    /// A device of which nothing was seen. `tells_all` has each poll tell all values, and not changes alone.
    ///
    /// # Errors
    /// Refused memory.
    pub fn new(
        alloc: Global,
        name: String,
        points: Points,
        tells_all: bool,
    ) -> Result<Watched, AllocError> {
        let whole = reads_of(alloc, &points.plans)?;
        let asks = Vec::from_slice(alloc, whole.as_slice())?;
        Ok(Watched {
            name,
            points: unseen(alloc, points.points)?,
            whole,
            asks,
            halved: None,
            place: 0,
            given: nothing_given(alloc),
            is_away: false,
            tells_all,
        })
    }

    /// Begins a poll. Reads that were halved are whole again every so often.
    ///
    /// # Errors
    /// Refused memory.
    pub fn begin(&mut self) -> Result<(), AllocError> {
        if self.tells_all {
            forget(self.points.as_mut_slice());
        }
        self.place = 0;
        self.given.coils.clear();
        self.given.discrete_inputs.clear();
        self.given.input_registers.clear();
        self.given.holding_registers.clear();
        match self.halved {
            Some(polls) if polls >= WHOLE_AGAIN => self.make_whole(),
            Some(polls) => {
                self.halved = Some(polls.saturating_add(1));
                Ok(())
            }
            None => Ok(()),
        }
    }

    /// Makes the reads whole again.
    fn make_whole(&mut self) -> Result<(), AllocError> {
        self.halved = None;
        self.asks.clear();
        self.asks.extend_from_slice(self.whole.as_slice())
    }

    /// The request that comes next; `None` where the poll is over.
    pub fn request(&self) -> Option<Request<'static>>
        ensures { option_map meaning result ≡ option_map asked_by (next_read self.now) }
    {
        match self.asks.get(self.place) {
            Some(asked) => Some(asked.request()),
            None => None,
        }
    }

    /// Whether the poll is over: no request comes next.
    pub fn is_over(&self) -> bool {
        self.place >= self.asks.len()
    }

    /// Whether the device is away.
    pub fn is_away(&self) -> bool {
        self.is_away
    }

    /// Takes an answer to the read that was asked, and goes on to the next; whether it answers this read. Where the device may lack a part of
    /// what was asked, two halves of the read stand in its place.
    ///
    /// # Errors
    /// Refused memory.
    pub fn take(
        &mut self,
        alloc: Global,
        answer: &Result<Response, ExceptionCode>,
    ) -> Result<bool, AllocError> {
        let Some(asked) = self.asks.get(self.place).copied() else {
            return Ok(false);
        };
        if may_lack(answer) && self.halve(alloc, asked)? {
            return Ok(true);
        }
        match asked.given_by(alloc, answer)? {
            Some(given) => self.keep(asked, given),
            None => Ok(false),
        }
    }

    /// Keeps what the read that was asked gave, and goes on to the next.
    fn keep(&mut self, asked: TableRead, given: Given) -> Result<bool, AllocError> {
        push_given(&mut self.given, asked.table, given)?;
        self.place = self.place.saturating_add(1);
        Ok(true)
    }

    /// The spans of the points that the read that is asked gives, and no earlier one.
    fn spans_of(&self, alloc: Global, asked: TableRead) -> Result<Vec<Span>, AllocError> {
        let earlier = match self.asks.get(..self.place) {
            Some(earlier) => earlier,
            None => &[],
        };
        let mut spans = Vec::new(alloc);
        for watched in &self.points {
            if asked.gives(&watched.point) && !is_given(earlier, &watched.point) {
                spans.push(span_of(&watched.point))?;
            }
        }
        Ok(spans)
    }

    /// Puts two halves in the place of the read that is asked, where it gives several points; whether it did.
    fn halve(&mut self, alloc: Global, asked: TableRead) -> Result<bool, AllocError> {
        let spans = self.spans_of(alloc, asked)?;
        let Some(halves) = halves_of(alloc, asked, spans.as_slice())? else {
            return Ok(false);
        };
        self.halved = Some(0);
        replace(&mut self.asks, self.place, halves)
    }

    /// Appends the lines of what the poll found so far that was not seen last.
    fn tell(
        &mut self,
        alloc: Global,
        output: Output,
        time: &Time,
        lines: &mut Vec<u8>,
    ) -> Result<(), AllocError> {
        let stamp = Stamp {
            output,
            time: time.text.as_str(),
            nanos: time.nanos,
            device: self.name.as_str(),
        };
        look_at_all(alloc, stamp, self.points.as_mut_slice(), &self.given, lines)
    }

    /// Ends a poll each read of which had an answer: appends the line that the device is back, where it was away, and those of what changed.
    ///
    /// # Errors
    /// Refused memory.
    pub fn end(
        &mut self,
        alloc: Global,
        output: Output,
        time: &Time,
        lines: &mut Vec<u8>,
    ) -> Result<(), AllocError> {
        if self.is_away {
            self.is_away = false;
            let line = back_line(alloc, self.stamp(output, time))?;
            lines.extend_from_slice(line.as_slice())?;
        }
        self.tell(alloc, output, time, lines)
    }

    /// Ends a poll a read of which had no answer: appends the lines of what changed by the earlier ones, and the line that the device is away,
    /// where it was not.
    ///
    /// # Errors
    /// Refused memory.
    pub fn leave(
        &mut self,
        alloc: Global,
        output: Output,
        time: &Time,
        why: &str,
        lines: &mut Vec<u8>,
    ) -> Result<(), AllocError> {
        self.tell(alloc, output, time, lines)?;
        if self.is_away {
            return Ok(());
        }
        self.is_away = true;
        let line = away_line(alloc, self.stamp(output, time), why)?;
        lines.extend_from_slice(line.as_slice())
    }

    /// The device at a time, as lines tell it.
    fn stamp<'w>(&'w self, output: Output, time: &'w Time) -> Stamp<'w> {
        Stamp {
            output,
            time: time.text.as_str(),
            nanos: time.nanos,
            device: self.name.as_str(),
        }
    }
}
