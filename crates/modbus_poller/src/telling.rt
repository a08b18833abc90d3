//! What is told of a poll whose reads did not all give values.

use crate::fault::{Circumstances, NoAnswer, OtherCount, Refused, places};
use crate::target::Target;
use modbus_frame::{Address, Error, ExceptionCode, TransportError};
use modbus_lines::given_in;
use modbus_map::{Given, Point, Table, TableError, Tables};
use modbus_poll::{PollError, Read, Span};
use std::{fmt, io};

/// A read, in words.
#[derive(Drop)]
pub struct ReadInWords<'a> {
    pub table: Table,
    pub read: &'a Read,
}

impl fmt::Display for ReadInWords<'_> {
    fn fmt<W: fmt::Write>(&self, f: &mut fmt::Formatter<W>) -> fmt::Result {
        let count = self.read.count;
        let first = self.read.address;
        let places = places(self.table, usize::from(count));
        write!(f, "read of {count} {places} from {first}")
    }
}

/// A device that is polled, and whether lines name it, as those of a map do.
#[derive(Clone, Copy)]
pub struct Asked<'a> {
    pub target: &'a Target,
    pub is_named: bool,
}

/// What a line of a device begins with.
#[derive(Drop)]
pub struct Heading<'a>(pub Asked<'a>);

impl fmt::Display for Heading<'_> {
    fn fmt<W: fmt::Write>(&self, f: &mut fmt::Formatter<W>) -> fmt::Result {
        if self.0.is_named {
            let name = self.0.target.name.as_str();
            write!(f, "{name}: ")?;
        }
        Ok(())
    }
}

/// Whether a read has a point.
fn has(table: Table, read: &Read, point: &Point) -> bool {
    let span = Span {
        address: point.address,
        count: point.encoding.kind.width(),
    };
    point.table == table && read.includes(&span)
}

/// The points of a device that a read gives.
#[derive(Drop)]
struct PointsOf<'a> {
    table: Table,
    read: &'a Read,
    points: &'a [Point],
}

impl fmt::Display for PointsOf<'_> {
    fn fmt<W: fmt::Write>(&self, f: &mut fmt::Formatter<W>) -> fmt::Result {
        for point in self.points {
            if has(self.table, self.read, point) {
                let name = point.name.as_str();
                write!(f, " {name}")?;
            }
        }
        Ok(())
    }
}

/// The letter and the address behind an address as manuals write it, where it may be one.
fn manual_address(address: Address) -> Option<(char, Address)> {
    match address {
        40001..=49999 => Some(('h', address - 40001)),
        30001..=39999 => Some(('i', address - 30001)),
        _ => None,
    }
}

/// What is told behind a read of items that the device does not have: what an address means in the notation of manuals.
#[derive(Drop)]
struct Hint<'a> {
    points: PointsOf<'a>,
    is_wanted: bool,
}

impl fmt::Display for Hint<'_> {
    fn fmt<W: fmt::Write>(&self, f: &mut fmt::Formatter<W>) -> fmt::Result {
        let PointsOf {
            table,
            read,
            points,
        } = &self.points;
        if !self.is_wanted || !table.has_registers() {
            return Ok(());
        }
        for point in *points {
            if has(*table, read, point) {
                write_hint(f, point.address)?;
            }
        }
        Ok(())
    }
}

fn write_hint<W: fmt::Write>(f: &mut fmt::Formatter<W>, address: Address) -> fmt::Result {
    match manual_address(address) {
        Some((letter, meant)) => {
            write!(
                f,
                "; in the notation of manuals {address} is {letter}{meant}"
            )
        }
        None => Ok(()),
    }
}

fn points_of<'a>(asked: Asked<'a>, table: Table, read: &'a Read) -> PointsOf<'a> {
    PointsOf {
        table,
        read,
        points: asked.target.points.points.as_slice(),
    }
}

/// A read of a device and the points that it gives, in words.
#[derive(Drop)]
struct ReadOf<'a> {
    asked: Asked<'a>,
    table: Table,
    read: &'a Read,
}

impl fmt::Display for ReadOf<'_> {
    fn fmt<W: fmt::Write>(&self, f: &mut fmt::Formatter<W>) -> fmt::Result {
        let heading = Heading(self.asked);
        let words = ReadInWords {
            table: self.table,
            read: self.read,
        };
        let points = points_of(self.asked, self.table, self.read);
        write!(f, "{heading}{words} for{points}")
    }
}

/// Tells what came of a read.
fn tell_read(rt: &HostRuntime, read: &ReadOf<'_>, what: &(impl fmt::Display)) -> io::Result<()> {
    eprintln!(rt; "modbus_poller: {read}: {what}")
}

/// What is told behind a read that the device refused so.
fn hint_of<'a>(read: &ReadOf<'a>, code: ExceptionCode) -> Hint<'a> {
    let is_absent = code == ExceptionCode::IllegalDataAddress;
    Hint {
        points: points_of(read.asked, read.table, read.read),
        is_wanted: is_absent && !read.asked.is_named,
    }
}

/// Tells of a read that the device refused.
fn tell_exception(rt: &HostRuntime, read: &ReadOf<'_>, code: ExceptionCode) -> io::Result<()> {
    let what = Refused(code);
    let hint = hint_of(read, code);
    eprintln!(rt; "modbus_poller: {read}: {what}{hint}")
}

/// Tells what came of a read that no plan has.
fn tell_without(rt: &HostRuntime, asked: Asked<'_>, what: &(impl fmt::Display)) -> io::Result<()> {
    let heading = Heading(asked);
    eprintln!(rt; "modbus_poller: {heading}{what}")
}

/// Tells what came of the read at a place of a table's plan.
fn tell_place(
    rt: &HostRuntime,
    asked: Asked<'_>,
    table: Table,
    place: usize,
    what: &(impl fmt::Display),
) -> io::Result<()> {
    match asked.target.points.plans.of(table).reads().get(place) {
        Some(read) => tell_read(rt, &ReadOf { asked, table, read }, what),
        None => tell_without(rt, asked, what),
    }
}

/// Tells what a device is in whose poll nothing was read.
pub fn tell_device(rt: &HostRuntime, name: &str, what: &(impl fmt::Display)) -> io::Result<()> {
    eprintln!(rt; "modbus_poller: {name}: {what}")
}

/// Tells why a call of a poll has no answer.
fn tell_call(
    rt: &HostRuntime,
    asked: Asked<'_>,
    table: Table,
    place: usize,
    what: &NoAnswer<'_>,
) -> io::Result<()> {
    if *what.error == Error::Transport(TransportError::NotConnected) {
        return tell_device(rt, asked.target.name.as_str(), what);
    }
    tell_place(rt, asked, table, place, what)
}

/// Tells what happened in a poll that gave no values.
pub fn tell(
    rt: &HostRuntime,
    asked: Asked<'_>,
    trouble: &TableError,
    circumstances: Circumstances<'_>,
) -> io::Result<()> {
    let table = trouble.table;
    match &trouble.error {
        PollError::Call { read, error } => {
            let what = NoAnswer {
                error,
                circumstances,
            };
            tell_call(rt, asked, table, *read, &what)
        }
        PollError::Exception { read, code } => {
            tell_place(rt, asked, table, *read, &Refused(*code))
        }
        PollError::Words { read, found } => {
            tell_place(rt, asked, table, *read, &OtherCount(*found))
        }
        PollError::NoMemory => eprintln!(rt; "modbus_poller: no memory"),
    }
}

/// Tells of a read that the device refused; whether it did not.
fn tell_given(rt: &HostRuntime, asked: Asked<'_>, table: Table, given: &Given) -> bool {
    match &given.words {
        Ok(_) => true,
        Err(code) => {
            let read = &given.read;
            let _ = tell_exception(rt, &ReadOf { asked, table, read }, *code);
            false
        }
    }
}

/// Tells of the reads of a table that the device refused; whether there was none.
fn tell_refused_of(rt: &HostRuntime, asked: Asked<'_>, table: Table, given: &[Given]) -> bool {
    let mut is_good = true;
    for one in given {
        let is_given = tell_given(rt, asked, table, one);
        is_good = is_good && is_given;
    }
    is_good
}

/// Tells of the reads that the device refused; whether there was none.
pub fn tell_refused(rt: &HostRuntime, asked: Asked<'_>, given: &Tables<Vec<Given>>) -> bool {
    let mut is_good = true;
    for table in [
        Table::Coils,
        Table::DiscreteInputs,
        Table::InputRegisters,
        Table::HoldingRegisters,
    ] {
        let is_given = tell_refused_of(rt, asked, table, given_in(given, table));
        is_good = is_good && is_given;
    }
    is_good
}
