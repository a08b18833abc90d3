//! The plan by the rule that defines it.

use modbus_poll::{Item, Read};

/// The most registers of a read (Modbus Application Protocol V1.1b3, section 6.3).
const MOST: u32 = 125;

/// How many reads a plan has, and the sum of their addresses and counts.
#[derive(Clone, Copy)]
pub struct Total {
    pub reads: u64,
    pub sum: u64,
}

impl Total {
    fn add(self, read: &Read) -> Total {
        let sum = u64::from(read.address) + u64::from(read.count);
        Total {
            reads: self.reads.saturating_add(1),
            sum: self.sum.saturating_add(sum),
        }
    }
}

const NONE: Total = Total { reads: 0, sum: 0 };

/// Reads, summed up.
pub fn total_of(reads: &[Read]) -> Total {
    reads.iter().fold(NONE, |total, read| total.add(read))
}

/// The least address of an item that no read up to this end gives. A read gives each item that begins within it and ends with it or
/// before; no later read ends before it.
fn first_left(items: &[Item], reached: u32) -> Option<u16> {
    items
        .iter()
        .filter(|item| item.end() > reached)
        .map(|item| item.address)
        .min()
}

/// The greatest end of an item in reach of a read from this address on.
fn end_in_reach(items: &[Item], address: u16) -> Option<u32> {
    let limit = u32::from(address) + MOST;
    items
        .iter()
        .filter(|item| item.address >= address && item.end() <= limit)
        .map(|item| item.end())
        .max()
}

/// The plan for these items, summed up.
pub fn plan(items: &[Item]) -> Total {
    let mut total = NONE;
    let mut reached = 0;
    for _read in 0..u64::MAX {
        let Some(address) = first_left(items, reached) else {
            break;
        };
        let Some(end) = end_in_reach(items, address) else {
            break;
        };
        let count = (end.saturating_sub(u32::from(address)) % 0x1_0000) as u16;
        total = total.add(&Read { address, count });
        reached = end;
    }
    total
}
