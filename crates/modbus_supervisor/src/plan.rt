//! The reads of the devices, in words.

use crate::fault::Fault;
use crate::reads::{TableRead, reads_of};
use crate::target::Target;
use modbus_map::Table;
use std::io;

/// The word for so many places of a table.
fn places(table: Table, count: u16) -> &'static str {
    match (table, count == 1) {
        (Table::Coils, true) => "coil",
        (Table::Coils, false) => "coils",
        (Table::DiscreteInputs, true) => "discrete input",
        (Table::DiscreteInputs, false) => "discrete inputs",
        (Table::InputRegisters, true) => "input register",
        (Table::InputRegisters, false) => "input registers",
        (Table::HoldingRegisters, true) => "holding register",
        (Table::HoldingRegisters, false) => "holding registers",
    }
}

/// Prints a read of a device.
fn print_read(rt: &HostRuntime, name: &str, asked: &TableRead) -> io::Result<()> {
    let count = asked.read.count;
    let first = asked.read.address;
    let places = places(asked.table, count);
    println!(rt; "{name}: read of {count} {places} from {first}")
}

/// Prints the reads that a poll of each device makes.
///
/// # Errors
/// `NoMemory` where memory is refused, `Output` where the output takes no more.
pub fn print_plan(rt: &HostRuntime, targets: &[Target]) -> Result<(), Fault> {
    for target in targets {
        for read in &reads_of(rt.alloc(), &target.points.plans)? {
            if print_read(rt, target.name.as_str(), read).is_err() {
                return Err(Fault::Output);
            }
        }
    }
    Ok(())
}
