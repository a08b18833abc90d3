//! The reads that a poll makes, printed: nothing is sent for them.

use crate::fault::places;
use crate::target::Target;
use crate::telling::{Asked, Heading, ReadInWords};
use modbus_map::{Point, Table};
use std::{fmt, io};

/// Where a point lies, in words.
#[derive(Drop)]
struct PlaceInWords<'a>(&'a Point);

impl fmt::Display for PlaceInWords<'_> {
    fn fmt<W: fmt::Write>(&self, f: &mut fmt::Formatter<W>) -> fmt::Result {
        let count = self.0.encoding.kind.width();
        let first = self.0.address;
        let places = places(self.0.table, usize::from(count));
        write!(f, "{count} {places} from {first}")
    }
}

/// Prints the reads of a table.
fn print_reads(rt: &HostRuntime, asked: Asked<'_>, table: Table) -> io::Result<()> {
    for read in asked.target.points.plans.of(table).reads() {
        let heading = Heading(asked);
        let words = ReadInWords { table, read };
        println!(rt; "{heading}{words}")?;
    }
    Ok(())
}

/// Prints where each point of a device of a map lies.
fn print_points(rt: &HostRuntime, target: &Target) -> io::Result<()> {
    let device = target.name.as_str();
    for point in &target.points.points {
        let name = point.name.as_str();
        let place = PlaceInWords(point);
        println!(rt; "{device}.{name}: {place}")?;
    }
    Ok(())
}

/// Prints the reads that a poll of a device makes, and of a device of a map where each point lies.
pub fn print_plan(rt: &HostRuntime, target: &Target, is_named: bool) -> io::Result<()> {
    let asked = Asked { target, is_named };
    print_reads(rt, asked, Table::HoldingRegisters)?;
    print_reads(rt, asked, Table::InputRegisters)?;
    print_reads(rt, asked, Table::Coils)?;
    print_reads(rt, asked, Table::DiscreteInputs)?;
    if is_named {
        print_points(rt, target)?;
    }
    Ok(())
}
