//! Plans of reads for many items, by modbus_poll or by the plain rule: both tell how many reads there are, and the sum of their addresses
//! and counts.

use crate::plain::{Total, plan, total_of};
use modbus_poll::{Item, Kind, Order, plan_reads};
use std::alloc::{AllocError, Global};
use std::process::ExitCode;

/// How the reads are planned.
#[derive(Clone, Copy)]
pub enum Rule {
    /// By `plan_reads`.
    Sorted,
    /// By the rule that defines the plan, which goes over all items twice for each read: the least address that no read gives, and the
    /// greatest end in its reach.
    Plain,
}

/// The number after this one, of a generator that is the same on each machine.
fn next_number(x: u32) -> u32 {
    ((u64::from(x) * 1_103_515_245 + 12_345) % 0x8000_0000) as u32
}

/// The kind of the item that a number makes: of one, two or four registers, or a text of up to 32.
fn kind_of(x: u32) -> Kind {
    match x % 4 {
        0 => Kind::U16,
        1 => Kind::I32(Order::LowFirst),
        2 => Kind::U64(Order::HighFirst),
        _ => Kind::Text((1 + x / 4 % 32) as u8),
    }
}

/// So many items, none of which passes the last address.
fn items(alloc: Global, count: usize) -> Result<Vec<Item>, AllocError> {
    let mut items = Vec::with_capacity(alloc, count)?;
    let mut x = 1;
    for _made in 0..count {
        x = next_number(x);
        let address = (x / 128 % 65_000) as u16;
        items.push(Item {
            address,
            kind: kind_of(x),
        })?;
    }
    Ok(items)
}

/// The plan for so many items by a rule, summed up; none where memory was refused.
fn total(alloc: Global, rule: Rule, count: usize) -> Option<Total> {
    let items = items(alloc, count).ok()?;
    match rule {
        Rule::Sorted => {
            let plan = plan_reads(alloc, items.as_slice()).ok()?;
            Some(total_of(plan.reads()))
        }
        Rule::Plain => Some(plan(items.as_slice())),
    }
}

/// Plans so many items by a rule, and tells what came of it; the status.
pub fn measure(rt: &HostRuntime, alloc: Global, rule: Rule, count: usize) -> ExitCode {
    let Some(total) = total(alloc, rule, count) else {
        let _ = eprintln!(rt; "modbus_bench: memory was refused");
        return ExitCode::from(1);
    };
    match println!(rt; "reads {}, sum {}", total.reads, total.sum) {
        Ok(()) => ExitCode::SUCCESS,
        Err(_) => ExitCode::from(1),
    }
}
