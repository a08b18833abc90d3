//! The planner: it sorts the items by their address, and makes a read for each that no earlier one gives.
ghost use Rattle.std.specs.Prelude.{◌≡◌, ◌↔◌, ℕ, ◌+◌, ◌≤◌, true, not, Any, Contains, [], position, IfOk};
ghost use Rattle.std.specs.List.{AllPass};
ghost use Rattle.std.specs.List.Sorted.{IsNonDecreasing};
ghost use Rattle.modbus_pdu.specs.Limits.{max_read_registers};
ghost use Rattle.modbus_poll.specs.Items.{item_end, read_end, is_count, is_readable};
ghost use Rattle.modbus_poll.specs.Plans.{IsFirstBad, IsPlan, Follow};
ghost use Rattle.modbus_poll.specs.InOrder.{BeginInOrder, AreSorted, AreEnds, IsGreatestEnd};

use crate::item::Item;
use crate::plan::{Plan, PlanError};
use crate::read::Read;
use modbus_pdu::MAX_READ_REGISTERS;
use std::alloc::{AllocError, Global};

/// The items, the one with the least address first.
fn by_address(alloc: Global, items: &[Item]) -> Result<Vec<Item>, AllocError>
    ensures { IfOk result (λ sorted. AreSorted items.now sorted.items) }
{
    let mut sorted = Vec::from_slice(alloc, items)?;
    sorted.sort_unstable_by_key(|item| item.address);
    Ok(sorted)
}

/// The ends of items, the least first.
fn ends_of(alloc: Global, items: &[Item]) -> Result<Vec<u32>, AllocError>
    ensures { IfOk result (λ ends. AreEnds items.now ends.items) }
{
    let mut ends: Vec<u32> = items.iter().map(|item| item.end()).collect(alloc)?;
    ends.sort_unstable();
    Ok(ends)
}

/// The greatest of these ends that a limit allows.
fn greatest_end(ends: &[u32], limit: u32) -> u32
    requires rising { IsNonDecreasing ends.now }
    requires some { Any (λ end. end ≤ limit) ends.now }
    ensures { IsGreatestEnd ends.now limit result }
{
    let allowed = ends.partition_point(|end| *end <= limit);
    ends[allowed - 1]
}

/// The read that begins with an item, for items of which these are the ends, the least first.
fn read_for(item: &Item, ends: &[u32]) -> Read
    requires readable { is_readable item.now ≡ true }
    requires rising { IsNonDecreasing ends.now }
    requires among { Contains ends.now (item_end item.now) }
    ensures begins { result.address ≡ item.now.address }
    ensures ends { IsGreatestEnd ends.now
        (item.now.address + max_read_registers) (read_end result) }
    ensures count { is_count result.count ≡ true }
{
    let start = u32::from(item.address);
    let end = greatest_end(ends, start + MAX_READ_REGISTERS as u32);
    Read {
        address: item.address,
        count: (end - start) as u16,
    }
}

/// The plan for items that are sorted by their address, of which these are the ends, the least first.
fn plan_sorted(alloc: Global, items: &[Item], ends: &[u32]) -> Result<Plan, AllocError>
    requires readable { AllPass is_readable items.now }
    requires sorted { BeginInOrder items.now }
    requires ends { AreEnds items.now ends.now }
    ensures { IfOk result (λ plan. IsPlan items.now plan × Follow items.now [] plan) }
{
    let mut plan = Plan::new(alloc);
    // The end of the last read, which no earlier one passes: an item that doesn't pass it either lies in that read.
    let mut reached = 0;
    for item in items {
        if item.end() > reached {
            let read = read_for(item, ends);
            reached = read.end();
            plan.push(read)?;
        }
    }
    Ok(plan)
}

/// The place of the first item that no read can give.
fn first_bad(items: &[Item]) -> Option<usize>
    ensures { result ≡ position (λ item. not (is_readable item)) items.now }
{
    items.iter().position(|item| !item.is_readable())
}

/// The plan for items, each of which a read can give.
fn plan_readable(alloc: Global, items: &[Item]) -> Result<Plan, AllocError>
    requires { AllPass is_readable items.now }
    ensures { IfOk result (λ plan. IsPlan items.now plan × Follow items.now [] plan) }
{
    let sorted = by_address(alloc, items)?;
    let ends = ends_of(alloc, sorted.as_slice())?;
    plan_sorted(alloc, sorted.as_slice(), ends.as_slice())
}

/// Plans few reads that give each of these items, which may stand in any order, overlap and repeat.
///
/// A read starts with the lowest register that an item needs and no read before it gives. It goes on as far as items need that start no
/// lower and fit into the 125 registers of one read from there (V1.1b3, section 6.3). It may have registers between the items, which the
/// device must have.
///
/// For n items it takes as many steps as sorting them does, of the order of n log n.
///
/// # Errors
/// `BadItem` with the place of the first item that no read can give. `NoMemory` where memory was refused.
pub fn plan_reads(alloc: Global, items: &[Item]) -> Result<Plan, PlanError>
    ensures bad_item { (k : ℕ) → (result ≡ Err (PlanError.BadItem k)) ↔ IsFirstBad items.now k }
    ensures covers { IfOk result (λ plan. IsPlan items.now plan) }
    ensures follows { IfOk result (λ plan. Follow items.now [] plan) }
{
    match first_bad(items) {
        Some(place) => Err(PlanError::BadItem(place)),
        None => Ok(plan_readable(alloc, items)?),
    }
}
